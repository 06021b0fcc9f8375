ghost use Rattle.std.specs.Prelude.{◌≡◌, Err, IfOk, length};
ghost use Rattle.cert_fields.specs.Reading.{Gives};
ghost use Rattle.cert_types.specs.CertValue.{CertValue};
ghost use Rattle.cert_format.specs.Files.{cert_text, cert_magic, IsCert};
ghost use Rattle.cert_format.specs.Reading.{cert_body_at, cert_parts_at, file_at};

use crate::decks::deck_part_of;
use crate::lower_parts::lower_part_of;
use crate::magic::magic_of;
use crate::verdicts::{lower_size, verdict_of};
use cert_fields::head_of;
use cert_types::{Cert, CertFault, Lower, Proved, Verdict};
use lat_base::{Names, Rules, Shape};
use std::alloc::Global;

// What stands behind the head of a certificate, and the bytes behind it.
#[tactic(auto, unfolding(crate::specs::Reading::cert_body_at))]
fn body_of<'a>(
    alloc: Global,
    bytes: &'a [u8],
    shape: &Shape,
) -> Result<((Verdict, Option<Proved>, Option<Lower>), &'a [u8]), CertFault>
    ensures { Gives (λ x. (((x.0.0, x.0.1), x.0.2), x.1.now)) result
        (cert_body_at shape.now bytes.now) }
{
    let (verdict, rest) = verdict_of(bytes)?;
    let (proved, rest) = deck_part_of(alloc, rest, shape, verdict)?;
    let (lower, rest) = lower_part_of(alloc, rest, shape, lower_size(verdict))?;
    Ok(((verdict, proved, lower), rest))
}

// The parts of a certificate, which are all that the bytes hold.
#[tactic(auto, unfolding(crate::specs::Reading::file_at))]
fn parts_of(
    alloc: Global,
    bytes: &[u8],
) -> Result<(Names, Shape, Rules, Verdict, Option<Proved>, Option<Lower>), CertFault>
    ensures { Gives (λ x. (record { names = x.0; contests = x.1; rules = x.2 }, ((x.3, x.4), x.5)))
        result (file_at cert_magic cert_parts_at bytes.now) }
{
    let rest = magic_of(bytes, b"LATCERT1".as_slice())?;
    match head_of(alloc, rest) {
        Ok((names, shape, rules, rest)) => match body_of(alloc, rest, &shape) {
            Ok(((verdict, proved, lower), rest)) => {
                if !rest.is_empty() {
                    return Err(CertFault::NotACertificate);
                }
                Ok((names, shape, rules, verdict, proved, lower))
            }
            Err(fault) => Err(fault),
        },
        Err(fault) => Err(fault),
    }
}

/// The certificate whose spelling the bytes are; `NotACertificate` exactly where they are the
/// spelling of none.
pub fn read_cert(alloc: Global, bytes: &[u8]) -> Result<Cert, CertFault>
    ensures found { IfOk result (λ cert. IsCert cert × (bytes.now ≡ cert_text cert)) }
    ensures refused { result ≡ Err CertFault.NotACertificate →
        (cert : CertValue) → IsCert cert → bytes.now ≡ cert_text cert → ⊥ }
{
    match parts_of(alloc, bytes) {
        Ok((names, shape, rules, verdict, proved, lower)) => {
            Ok(Cert::new(names, shape, rules, verdict, proved, lower))
        }
        Err(fault) => Err(fault),
    }
}
