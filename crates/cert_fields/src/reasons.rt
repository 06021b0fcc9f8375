ghost use Rattle.std.specs.Prelude.{◌≡◌, ◌≤◌, ◌∷◌, ◌++◌, OnOk, OnErr, take, length, flat_map};
ghost use Rattle.lat_base.specs.declared.limits.TheConstants.{MOST_TARGETS};
ghost use Rattle.cert_fields.specs.Spelling.{u16_text, Takes};
ghost use Rattle.lat_misassign.specs.Sources.{AreSources};
ghost use Rattle.cert_fields.specs.Reading.{Gives};
ghost use Rattle.cert_fields.specs.Trees.{reason_text, IsReason};
ghost use Rattle.cert_fields.specs.TreeReading.{reason_at, sources_at, is_count};

use crate::{
    CertFault, Spelt, numbers_of, put_numbers, put_one, put_two, put_u8, two_of, u8_of, u16_of,
};
use close_rules::Reason;
use lat_base::MOST_TARGETS;
use lat_misassign::{MisFault, Misassignment};
use std::alloc::{AllocError, Global};

fn is_count(n: u16) -> bool
    ensures { result ≡ is_count n }
{
    1 <= n && n <= MOST_TARGETS
}

fn sources_of(alloc: Global, bytes: &[u8]) -> Result<(Misassignment, &[u8]), CertFault>
    ensures { Gives (λ x. (x.0, x.1.now)) result (sources_at bytes.now) }
{
    let (count, rest) = u16_of(bytes)?;
    if !is_count(count) {
        return Err(CertFault::NotACertificate);
    }
    let (sources, rest) = numbers_of(alloc, count, rest)?;
    match Misassignment::from_sources(alloc, &sources) {
        Ok(sources) => Ok((sources, rest)),
        Err(fault) => match fault {
            MisFault::Memory => Err(CertFault::Memory),
            _ => Err(CertFault::NotACertificate),
        },
    }
}

/// The reason at the front, and the bytes behind it.
#[tactic(auto, unfolding(crate::specs::TreeReading::reason_at))]
pub(crate) fn reason_of(alloc: Global, bytes: &[u8]) -> Result<(Reason, &[u8]), CertFault>
    ensures { Gives (λ x. (x.0, x.1.now)) result (reason_at bytes.now) }
{
    let (tag, rest) = u8_of(bytes)?;
    match tag {
        1 => {
            let (j, rest) = u16_of(rest)?;
            Ok((Reason::Order(j), rest))
        }
        2 => {
            let (c, rest) = u16_of(rest)?;
            Ok((Reason::Totals(c), rest))
        }
        3 => {
            let (c, rest) = u16_of(rest)?;
            Ok((Reason::Capacity(c), rest))
        }
        4 => Ok((Reason::Blank, rest)),
        5 => {
            let (c, rest) = u16_of(rest)?;
            Ok((Reason::Over(c), rest))
        }
        6 => {
            let ((c, d), rest) = two_of(rest)?;
            Ok((Reason::Twin(c, d), rest))
        }
        7 => {
            let ((c, d), rest) = two_of(rest)?;
            Ok((Reason::ContestOrder(c, d), rest))
        }
        8 => {
            let (c, rest) = u16_of(rest)?;
            Ok((Reason::Pigeon(c), rest))
        }
        9 => Ok((Reason::Columns, rest)),
        10 => {
            let ((t, u), rest) = two_of(rest)?;
            Ok((Reason::Same(t, u), rest))
        }
        11 => {
            let (sources, rest) = sources_of(alloc, rest)?;
            Ok((Reason::Evade(sources), rest))
        }
        _ => Err(CertFault::NotACertificate),
    }
}

// Appends the number of sources and the sources; after want of memory perhaps only the first ones.
fn append_sources(out: &mut Vec<u8>, sources: &[u16]) -> Result<(), AllocError>
    requires { length sources.now ≤ MOST_TARGETS }
    ensures ok { OnOk result (out.new.items ≡ out.old.items ++
        11 ∷ (u16_text (length sources.now) ++ flat_map u16_text sources.now)) }
    ensures kept { take (length out.old.items) out.new.items ≡ out.old.items }
{
    put_one(out, 11, sources.len() as u16)?;
    put_numbers(out, sources)
}

fn append_evade(out: &mut Vec<u8>, sources: &Misassignment) -> Result<(), AllocError>
    ensures ok { OnOk result (out.new.items ≡ out.old.items ++
        11 ∷ (u16_text (length sources.now) ++ flat_map u16_text sources.now)) }
    ensures err { OnErr result (out.new.items ≡ out.old.items) }
    ensures spelled { AreSources sources.now }
{
    let before = out.len();
    let done = append_sources(out, sources.as_slice());
    if done.is_err() {
        out.truncate(before);
    }
    done
}

/// Appends a reason. After want of memory nothing is appended.
pub(crate) fn append_reason(out: &mut Vec<u8>, reason: &Reason) -> Result<(), AllocError>
    ensures ok { OnOk result (out.new.items ≡ out.old.items ++ reason_text reason.now) }
    ensures err { OnErr result (out.new.items ≡ out.old.items) }
    ensures spelled { IsReason reason.now }
{
    match reason {
        Reason::Order(j) => put_one(out, 1, *j),
        Reason::Totals(c) => put_one(out, 2, *c),
        Reason::Capacity(c) => put_one(out, 3, *c),
        Reason::Blank => put_u8(out, 4),
        Reason::Over(c) => put_one(out, 5, *c),
        Reason::Twin(c, d) => put_two(out, 6, *c, *d),
        Reason::ContestOrder(c, d) => put_two(out, 7, *c, *d),
        Reason::Pigeon(c) => put_one(out, 8, *c),
        Reason::Columns => put_u8(out, 9),
        Reason::Same(t, u) => put_two(out, 10, *t, *u),
        Reason::Evade(sources) => append_evade(out, sources),
    }
}

/// Appends a reason: a tag and its numbers. After want of memory nothing is appended.
pub fn put_reason(_alloc: Global, out: &mut Vec<u8>, reason: &Reason) -> Result<(), AllocError>
    ensures ok { OnOk result (out.new.items ≡ out.old.items ++ reason_text reason.now) }
    ensures err { OnErr result (out.new.items ≡ out.old.items) }
{
    append_reason(out, reason)
}

/// The reason whose spelling the bytes begin with, and the length of that spelling.
pub fn take_reason(alloc: Global, bytes: &[u8]) -> Result<(Reason, usize), CertFault>
    ensures { Takes IsReason reason_text result bytes.now }
{
    match reason_of(alloc, bytes) {
        Ok((reason, rest)) => Ok((reason, bytes.len() - rest.len())),
        Err(fault) => Err(fault),
    }
}

impl Spelt for Reason {
    ghost text = { reason_text };

    ghost fits = { IsReason };

    ghost read_at = { reason_at };

    fn read(alloc: Global, bytes: &[u8]) -> Result<(Reason, &[u8]), CertFault> {
        reason_of(alloc, bytes)
    }

    fn put(&self, out: &mut Vec<u8>) -> Result<(), AllocError> {
        append_reason(out, self)
    }

    #[tactic(auto, using(crate::proofs::Fields::reason_exact))]
    fn exact() {}
}
