ghost use Rattle.std.specs.Prelude.{◌≡◌, ◌≤◌, ◌++◌, IfOk, OnOk, OnErr};
ghost use Rattle.lat_base.specs.declared.limits.TheConstants.{MOST_BALLOTS};
ghost use Rattle.cert_fields.specs.Reading.{Gives};
ghost use Rattle.cert_types.specs.Fitting.{IsVerdict, lower_size, size_below};
ghost use Rattle.cert_format.specs.Fields.{verdict_text};
ghost use Rattle.cert_format.specs.Reading.{limited_at, verdict_at};

use cert_fields::{put_one, u8_of, u16_of};
use cert_types::{CertFault, Verdict};
use lat_base::MOST_BALLOTS;
use std::alloc::AllocError;

/// The number of two bytes at the front, and the bytes behind them; it must be in range.
pub(crate) fn limited_of(bytes: &[u8], least: u16, most: u16) -> Result<(u16, &[u8]), CertFault>
    ensures read { Gives (λ x. (x.0, x.1.now)) result (limited_at least most bytes.now) }
    ensures limit { IfOk result (λ x. x.0 ≤ most) }
{
    let (n, rest) = u16_of(bytes)?;
    if n < least {
        return Err(CertFault::NotACertificate);
    }
    if n > most {
        return Err(CertFault::NotACertificate);
    }
    Ok((n, rest))
}

/// The number of ballots at the front, from `least` to 1,024, and the bytes behind it.
pub fn ballots_of(bytes: &[u8], least: u16) -> Result<(u16, &[u8]), CertFault>
    ensures read { Gives (λ x. (x.0, x.1.now)) result (limited_at least MOST_BALLOTS bytes.now) }
    ensures limit { IfOk result (λ x. x.0 ≤ MOST_BALLOTS) }
{
    limited_of(bytes, least, MOST_BALLOTS)
}

/// The verdict at the front, and the bytes behind it.
#[tactic(auto, unfolding(crate::specs::Reading::verdict_at))]
pub fn verdict_of(bytes: &[u8]) -> Result<(Verdict, &[u8]), CertFault>
    ensures read { Gives (λ x. (x.0, x.1.now)) result (verdict_at bytes.now) }
    ensures verdict { IfOk result (λ x. IsVerdict x.0) }
{
    let (tag, rest) = u8_of(bytes)?;
    match tag {
        1 => {
            let (k, rest) = ballots_of(rest, 0)?;
            Ok((Verdict::Least(k), rest))
        }
        2 => {
            let (m, rest) = ballots_of(rest, 1)?;
            Ok((Verdict::NoneWithin(m), rest))
        }
        3 => {
            let (f, rest) = ballots_of(rest, 0)?;
            Ok((Verdict::Bounds(f), rest))
        }
        _ => Err(CertFault::NotACertificate),
    }
}

/// Appends a verdict.
pub(crate) fn put_verdict(out: &mut Vec<u8>, verdict: Verdict) -> Result<(), AllocError>
    ensures { OnOk result (out.new.items ≡ out.old.items ++ verdict_text verdict) }
{
    match verdict {
        Verdict::Least(k) => put_one(out, 1, k),
        Verdict::NoneWithin(m) => put_one(out, 2, m),
        Verdict::Bounds(f) => put_one(out, 3, f),
    }
}

/// The size of the lower part that shows that no deck of fewer ballots is good.
pub(crate) fn size_below(ballots: u16) -> Option<u16>
    ensures { result ≡ size_below ballots }
{
    match ballots {
        0 => None,
        k => Some(k - 1),
    }
}

/// The size of the lower part that the verdict needs, if it needs one.
pub(crate) fn lower_size(verdict: Verdict) -> Option<u16>
    ensures { result ≡ lower_size verdict }
{
    match verdict {
        Verdict::Least(k) => size_below(k),
        Verdict::NoneWithin(m) => Some(m),
        Verdict::Bounds(f) => size_below(f),
    }
}
