ghost use Rattle.std.specs.Prelude.{◌≡◌, ◌++◌, ◌∷◌, [], IfOk, OnOk, Some};
ghost use Rattle.lat_base.specs.Names.{NamesFit};
ghost use Rattle.lat_base.specs.Shape.{target_count};
ghost use Rattle.cert_format.specs.Files.{IsCert, IsOpen, cert_text, open_text};
ghost use Rattle.cert_types.specs.OpenValue.{BestFits};
ghost use Rattle.lat_top.specs.PlanFiles.{deck_files, cert_name, open_name};
ghost use Rattle.lat_top.specs.Writing.{entry, entries};

use crate::asked_style::AskedStyle;
use crate::put::Put;
use cert_format::{write_cert, write_open};
use cert_types::{Cert, OpenFile, Proved};
use deck_text::{deck_csv, totals_csv};
use std::alloc::{AllocError, Global};

// A file whose name is the prefix and an ending.
fn named(alloc: Global, prefix: &str, ending: &str, bytes: Vec<u8>) -> Result<Put, AllocError>
    ensures { IfOk result (λ put. entry put ≡ (prefix.now ++ ending.now, bytes.items)) }
{
    let name = format!(in alloc; "{prefix}{ending}")?;
    Ok(Put { name, bytes })
}

/// The files of a deck: its ballots, and its totals.
pub fn deck_files(
    alloc: Global,
    prefix: &str,
    style: &AskedStyle,
    proved: &Proved,
) -> Result<Vec<Put>, AllocError>
    requires targets { proved.now.deck.targets ≡ target_count style.now.shape }
    requires fits { NamesFit style.now.names.contests style.now.shape }
    ensures { IfOk result (λ puts.
        entries puts.items ≡ deck_files prefix.now style.now (Some proved.now)) }
{
    let ballots = deck_csv(alloc, &style.names, &proved.deck)?;
    let totals = totals_csv(alloc, &style.shape, &style.names, &proved.deck)?;
    let mut puts = Vec::new(alloc);
    puts.push(named(alloc, prefix, ".deck.csv", ballots)?)?;
    puts.push(named(alloc, prefix, ".totals.csv", totals)?)?;
    Ok(puts)
}

/// The files of the best deck, if there is one.
pub fn best_files(
    alloc: Global,
    prefix: &str,
    style: &AskedStyle,
    best: &Option<Proved>,
) -> Result<Vec<Put>, AllocError>
    requires targets { BestFits style.now.shape best.now }
    requires fits { NamesFit style.now.names.contests style.now.shape }
    ensures { IfOk result (λ puts.
        entries puts.items ≡ deck_files prefix.now style.now best.now) }
{
    match best {
        Some(proved) => deck_files(alloc, prefix, style, proved),
        None => Ok(Vec::new(alloc)),
    }
}

/// Adds the file of a certificate to those that are put.
pub fn push_cert(
    alloc: Global,
    puts: &mut Vec<Put>,
    prefix: &str,
    cert: &Cert,
) -> Result<(), AllocError>
    ensures added { OnOk result (entries puts.new.items
        ≡ entries puts.old.items ++ (cert_name prefix.now, cert_text cert.now) ∷ []) }
    ensures spelled { OnOk result (IsCert cert.now) }
{
    let bytes = write_cert(alloc, cert)?;
    let put = named(alloc, prefix, ".cert", bytes)?;
    puts.push(put)?;
    Ok(())
}

/// Adds an open file to those that are put.
pub fn push_open(
    alloc: Global,
    puts: &mut Vec<Put>,
    prefix: &str,
    file: &OpenFile,
) -> Result<(), AllocError>
    ensures added { OnOk result (entries puts.new.items
        ≡ entries puts.old.items ++ (open_name prefix.now, open_text file.now) ∷ []) }
    ensures spelled { OnOk result (IsOpen file.now) }
{
    let bytes = write_open(alloc, file)?;
    let put = named(alloc, prefix, ".open", bytes)?;
    puts.push(put)?;
    Ok(())
}
