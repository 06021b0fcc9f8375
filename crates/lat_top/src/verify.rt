ghost use Rattle.std.specs.Prelude.{◌≡◌, ◌≤◌, [], length, IfOk, OnOk};
ghost use Rattle.lat_base.specs.Names.{NamesFit};
ghost use Rattle.lat_base.specs.Shape.{target_count};
ghost use Rattle.lat_top.specs.Asked.{kept_verify};
ghost use Rattle.lat_top.specs.Job.{Answers};
ghost use Rattle.lat_top.specs.Judged.{Judged};
ghost use Rattle.lat_top.specs.Script.{Reads, moment};
ghost use Rattle.lat_top.specs.VerifyJob.{verify_job, deck_in_file, attackable};
ghost use Rattle.lat_top.specs.VerifyJob.{attack_status, attack_files, table_deck};
ghost use Rattle.lat_top.specs.VerifyJob.{AttackSpelled, IsVerify};
ghost use Rattle.lat_top.specs.Writing.{entries};
ghost use Rattle.lat_top.specs.Written.{texts_of};

use crate::Status;
use crate::asked_style::AskedStyle;
use crate::attackable::Attackable;
use crate::finding::read_style;
use crate::output::Output;
use crate::put::Put;
use crate::reading::{FILE_LIMIT, read_file};
use crate::refusal::Refusal;
use crate::verify_words::VerifyWords;
use adversary::{Attacked, attack};
use cert_format::write_evade;
use deck_text::{CsvFail, read_deck_csv, verify_text};
use lat_ballots::Deck;
use lat_shelf::Shelf;
use std::alloc::{AllocError, Global};

// How an attack on a deck of n ballots ends the call.
fn attack_status(n: u16, attack: &Attacked) -> Status
    ensures { result ≡ attack_status n attack.now }
{
    match attack {
        Attacked::Evaded(_) => Status::Evaded,
        Attacked::Robust(_) => Status::Done,
        Attacked::Spent(_) => Status::Spent(n, None),
    }
}

// The deck of a table, or its first fault.
fn find_deck(alloc: Global, style: &AskedStyle, table: &[u8]) -> Result<Deck, Refusal>
    requires { NamesFit style.now.names.contests style.now.shape }
    ensures deck { Judged result (table_deck style.now table.now) }
    ensures targets { IfOk result (λ deck. deck.targets ≡ target_count style.now.shape) }
{
    match read_deck_csv(alloc, &style.shape, &style.names, table) {
        Ok(deck) => Ok(deck),
        Err(CsvFail::Fault(fault)) => Err(Refusal::Csv(fault)),
        Err(CsvFail::Memory) => Err(Refusal::Memory),
    }
}

/// The deck of a file, in a style.
pub fn read_deck<H: Shelf>(
    alloc: Global,
    shelf: &mut H,
    style: &AskedStyle,
    name: &str,
) -> Result<Deck, Refusal>
    requires { NamesFit style.now.names.contests style.now.shape }
    ensures reads { let seen = moment H.files H.faults in
        Reads (deck_in_file style.now name.now) (seen shelf.old) (seen shelf.new) result }
    ensures targets { IfOk result (λ deck. deck.targets ≡ target_count style.now.shape) }
{
    let table = read_file(alloc, shelf, name, FILE_LIMIT)?;
    find_deck(alloc, style, &table)
}

/// The deck of a file, in the style of that id of a definition's file.
pub fn read_attackable<H: Shelf>(
    alloc: Global,
    shelf: &mut H,
    definition: &str,
    id: &str,
    name: &str,
) -> Result<Attackable, Refusal>
    ensures reads { let seen = moment H.files H.faults in
        Reads (attackable definition.now id.now name.now) (seen shelf.old) (seen shelf.new) result }
    ensures fits { IfOk result (λ a. NamesFit a.style.names.contests a.style.shape) }
    ensures targets { IfOk result (λ a. a.deck.targets ≡ target_count a.style.shape) }
{
    let style = read_style(alloc, shelf, definition, id)?;
    let deck = read_deck(alloc, shelf, &style, name)?;
    Ok(Attackable { style, deck })
}

// The file of an attack that was spent.
fn attack_files(
    alloc: Global,
    name: &str,
    inputs: &Attackable,
    attack: &Attacked,
) -> Result<Vec<Put>, AllocError>
    requires fits { NamesFit inputs.now.style.names.contests inputs.now.style.shape }
    requires targets { inputs.now.deck.targets ≡ target_count inputs.now.style.shape }
    ensures puts { IfOk result (λ puts.
        entries puts.items ≡ attack_files name.now inputs.now attack.now) }
    ensures spelled { OnOk result (AttackSpelled inputs.now attack.now) }
{
    let mut puts = Vec::new(alloc);
    let Attacked::Spent(tree) = attack else {
        return Ok(puts);
    };
    let style = &inputs.style;
    let bytes = write_evade(
        alloc,
        &style.names,
        &style.shape,
        &style.rules,
        &inputs.deck,
        tree,
    )?;
    let name = format!(in alloc; "{name}.open")?;
    puts.push(Put { name, bytes })?;
    Ok(puts)
}

// What `verify` writes for a deck.
fn verified(
    alloc: Global,
    asked: &VerifyWords<'_>,
    inputs: &Attackable,
) -> Result<Output, AllocError>
    requires fits { NamesFit inputs.now.style.names.contests inputs.now.style.shape }
    requires targets { inputs.now.deck.targets ≡ target_count inputs.now.style.shape }
    ensures { IfOk result (λ output.
        IsVerify (kept_verify asked.now) inputs.now output.status (texts_of output)) }
{
    let style = &inputs.style;
    let deck = &inputs.deck;
    let attack = attack(alloc, &style.shape, deck, asked.budget)?;
    let summary = verify_text(
        alloc,
        &style.shape,
        &style.names,
        &style.rules,
        deck,
        &attack,
    )?;
    Ok(Output {
        status: attack_status(deck.ballots(), &attack),
        puts: attack_files(alloc, asked.deck, inputs, &attack)?,
        summary,
    })
}

/// Attacks the deck of the file that the words name, in the style of the definition that they name.
pub fn verify<H: Shelf>(
    alloc: Global,
    asked: &VerifyWords<'_>,
    shelf: &mut H,
) -> Result<Output, Refusal>
    ensures { let seen = moment H.files H.faults in
        Answers (verify_job (kept_verify asked.now)) (seen shelf.old) (seen shelf.new) result }
{
    let inputs = read_attackable(alloc, shelf, asked.definition, asked.style, asked.deck)?;
    let output = verified(alloc, asked, &inputs)?;
    Ok(output)
}
