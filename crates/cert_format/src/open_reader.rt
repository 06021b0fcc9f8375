ghost use Rattle.std.specs.Prelude.{◌≡◌, ◌≤◌, Err, IfOk, length};
ghost use Rattle.lat_base.specs.declared.limits.TheConstants.{MOST_BALLOTS};
ghost use Rattle.cert_fields.specs.Reading.{Gives};
ghost use Rattle.cert_types.specs.OpenValue.{OpenValue};
ghost use Rattle.cert_format.specs.Files.{open_text, open_magic, IsOpen};
ghost use Rattle.cert_format.specs.Reading.{sizes_at, open_body_at, open_parts_at, file_at};

use crate::decks::best_of;
use crate::license::license_of;
use crate::lower_parts::lower_part_of;
use crate::magic::magic_of;
use crate::verdicts::{ballots_of, limited_of, size_below};
use cert_fields::head_of;
use cert_types::{CertFault, License, Lower, OpenFile, Proved};
use lat_base::{Names, Rules, Shape};
use std::alloc::Global;

// The two numbers of an open file, and the bytes behind them.
fn sizes_of(bytes: &[u8]) -> Result<((u16, u16), &[u8]), CertFault>
    ensures read { Gives (λ x. (x.0, x.1.now)) result (sizes_at bytes.now) }
    ensures limit { IfOk result (λ x. x.0.1 ≤ MOST_BALLOTS) }
{
    let (max, rest) = ballots_of(bytes, 1)?;
    let (from, rest) = limited_of(rest, 0, max)?;
    Ok(((max, from), rest))
}

// What stands behind the head of an open file, and the bytes behind it.
#[tactic(auto, unfolding(crate::specs::Reading::open_body_at))]
fn body_of<'a>(
    alloc: Global,
    bytes: &'a [u8],
    shape: &Shape,
) -> Result<((u16, u16, Option<Proved>, Option<Lower>, License), &'a [u8]), CertFault>
    ensures { Gives (λ x. (((((x.0.0, x.0.1), x.0.2), x.0.3), x.0.4), x.1.now)) result
        (open_body_at shape.now bytes.now) }
{
    let ((max, from), rest) = sizes_of(bytes)?;
    let (best, rest) = best_of(alloc, rest, shape)?;
    let (lower, rest) = lower_part_of(alloc, rest, shape, size_below(from))?;
    let (license, rest) = license_of(alloc, rest, shape, from)?;
    Ok(((max, from, best, lower, license), rest))
}

// The parts of an open file, which are all that the bytes hold.
#[tactic(auto, unfolding(crate::specs::Reading::file_at))]
fn parts_of(
    alloc: Global,
    bytes: &[u8],
) -> Result<
    (
        Names,
        Shape,
        Rules,
        u16,
        u16,
        Option<Proved>,
        Option<Lower>,
        License,
    ),
    CertFault,
>
    ensures { Gives (λ x. (
      record { names = x.0; contests = x.1; rules = x.2 },
      ((((x.3, x.4), x.5), x.6), x.7),
    ))
        result (file_at open_magic open_parts_at bytes.now) }
{
    let rest = magic_of(bytes, b"LATOPEN1".as_slice())?;
    match head_of(alloc, rest) {
        Ok((names, shape, rules, rest)) => match body_of(alloc, rest, &shape) {
            Ok(((max, from, best, lower, license), rest)) => {
                if !rest.is_empty() {
                    return Err(CertFault::NotACertificate);
                }
                Ok((names, shape, rules, max, from, best, lower, license))
            }
            Err(fault) => Err(fault),
        },
        Err(fault) => Err(fault),
    }
}

/// The open file whose spelling the bytes are; `NotACertificate` exactly where they are the
/// spelling of none.
pub fn read_open(alloc: Global, bytes: &[u8]) -> Result<OpenFile, CertFault>
    ensures found { IfOk result (λ file. IsOpen file × (bytes.now ≡ open_text file)) }
    ensures refused { result ≡ Err CertFault.NotACertificate →
        (file : OpenValue) → IsOpen file → bytes.now ≡ open_text file → ⊥ }
{
    match parts_of(alloc, bytes) {
        Ok((names, shape, rules, max, from, best, lower, license)) => Ok(OpenFile::new(
            names, shape, rules, max, from, lower, best, license,
        )),
        Err(fault) => Err(fault),
    }
}
