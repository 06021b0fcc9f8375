ghost use Rattle.std.specs.Prelude.{◌≡◌, ◌≤◌, IfOk, IfSome};
ghost use Rattle.lat_base.specs.declared.limits.TheConstants.{MOST_BALLOTS};
ghost use Rattle.cert_fields.specs.Reading.{Gives};
ghost use Rattle.cert_types.specs.Fitting.{IsVerdict};
ghost use Rattle.cert_stream.specs.Left.{ballots_at, front_at};
ghost use Rattle.cert_stream.specs.Phases.{head_of};

use crate::front::Front;
use cert_fields::{head_of, u8_of};
use cert_format::{ballots_of, magic_of, verdict_of};
use cert_types::{CertFault, Verdict};
use std::alloc::Global;

/// The number of ballots of the deck, if there is one, and the bytes behind it. That of `Least`
/// stands in the verdict.
fn best_of(verdict: Verdict, bytes: &[u8]) -> Result<(Option<u16>, &[u8]), CertFault>
    requires { IsVerdict verdict }
    ensures read { Gives (λ x. (x.0, x.1.now)) result (ballots_at verdict bytes.now) }
    ensures few { IfOk result (λ x. IfSome x.0 (λ k. k ≤ MOST_BALLOTS)) }
{
    match verdict {
        Verdict::Least(k) => Ok((Some(k), bytes)),
        Verdict::NoneWithin(_) => Ok((None, bytes)),
        Verdict::Bounds(_) => {
            let (tag, rest) = u8_of(bytes)?;
            match tag {
                0 => Ok((None, rest)),
                1 => {
                    let (n, rest) = ballots_of(rest, 0)?;
                    Ok((Some(n), rest))
                }
                _ => Err(CertFault::NotACertificate),
            }
        }
    }
}

/// All that stands in front of the deck, and the bytes behind it.
#[tactic(auto, unfolding(crate::specs::Left::front_at))]
pub(crate) fn front_of(alloc: Global, bytes: &[u8]) -> Result<(Front, &[u8]), CertFault>
    ensures read { Gives (λ x. (((head_of x.0, x.0.verdict), x.0.best), x.1.now)) result
        (front_at bytes.now) }
    ensures verdict { IfOk result (λ x. IsVerdict x.0.verdict) }
    ensures few { IfOk result (λ x. IfSome x.0.best (λ k. k ≤ MOST_BALLOTS)) }
{
    let rest = magic_of(bytes, b"LATCERT1".as_slice())?;
    match head_of(alloc, rest) {
        Ok((names, shape, rules, rest)) => {
            let (verdict, rest) = verdict_of(rest)?;
            let (best, rest) = best_of(verdict, rest)?;
            let front = Front {
                names,
                shape,
                rules,
                verdict,
                best,
            };
            Ok((front, rest))
        }
        Err(fault) => Err(fault),
    }
}
