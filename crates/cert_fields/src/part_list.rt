ghost use Rattle.std.specs.Prelude.{◌≡◌, ◌++◌, ℕ, List, Err, IfOk, OnOk, OnErr, length, take};
ghost use Rattle.lat_base.specs.Part.{IsPart};
ghost use Rattle.cert_fields.specs.PartList.{part_text, rises, part_at};
ghost use Rattle.cert_fields.specs.Reading.{Gives};
ghost use Rattle.cert_fields.specs.Spelling.{Begins};

use crate::{CertFault, numbers_of, put_numbers, put_u16, u16_of};
use lat_base::Shape;
use std::alloc::{AllocError, Global};

// Whether the contests are below `count` and rise.
fn rises(count: u16, contests: &[u16]) -> bool
    ensures { result ≡ rises count 0 contests.now }
{
    let mut low: u32 = 0;
    for contest in contests {
        if (*contest as u32) < low {
            return false;
        }
        if *contest >= count {
            return false;
        }
        low = *contest as u32 + 1;
    }
    true
}

/// The contests of a part of a style of `count` contests at the front, and the bytes behind them.
#[tactic(auto, unfolding(crate::specs::PartList::part_at))]
pub fn part_list_of(alloc: Global, bytes: &[u8], count: u16) -> Result<(Vec<u16>, &[u8]), CertFault>
    ensures { Gives (λ x. (x.0.items, x.1.now)) result (part_at count bytes.now) }
{
    let (n, rest) = u16_of(bytes)?;
    let (contests, rest) = numbers_of(alloc, n, rest)?;
    if contests.is_empty() {
        return Err(CertFault::NotACertificate);
    }
    if !rises(count, &contests) {
        return Err(CertFault::NotACertificate);
    }
    Ok((contests, rest))
}

/// The contests of a part of the style whose spelling the bytes begin with, and the length of that
/// spelling: at least one contest, rising, all in the style.
pub fn take_contests(
    alloc: Global,
    bytes: &[u8],
    shape: &Shape,
) -> Result<(Vec<u16>, usize), CertFault>
    ensures found { IfOk result (λ x.
        Begins (IsPart shape.now) part_text bytes.now x.0.items x.1) }
    ensures refused { result ≡ Err CertFault.NotACertificate →
        (v : List ℕ) (n : ℕ) → Begins (IsPart shape.now) part_text bytes.now v n → ⊥ }
{
    match part_list_of(alloc, bytes, shape.contests()) {
        Ok((contests, rest)) => Ok((contests, bytes.len() - rest.len())),
        Err(fault) => Err(fault),
    }
}

// Appends the number of contests and the contests; after want of memory perhaps only the first
// ones.
fn append_contests(out: &mut Vec<u8>, shape: &Shape, contests: &[u16]) -> Result<(), AllocError>
    requires { IsPart shape.now contests.now }
    ensures ok { OnOk result (out.new.items ≡ out.old.items ++ part_text contests.now) }
    ensures kept { take (length out.old.items) out.new.items ≡ out.old.items }
{
    let _contests = shape.contests();
    put_u16(out, contests.len() as u16)?;
    put_numbers(out, contests)
}

/// Appends the list of contests of a part of the style. After want of memory, which is the only
/// error, nothing is appended.
pub fn put_contests(
    _alloc: Global,
    out: &mut Vec<u8>,
    shape: &Shape,
    contests: &[u16],
) -> Result<(), AllocError>
    requires { IsPart shape.now contests.now }
    ensures ok { OnOk result (out.new.items ≡ out.old.items ++ part_text contests.now) }
    ensures err { OnErr result (out.new.items ≡ out.old.items) }
{
    let before = out.len();
    let done = append_contests(out, shape, contests);
    if done.is_err() {
        out.truncate(before);
    }
    done
}
