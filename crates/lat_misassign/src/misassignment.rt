ghost use Rattle.std.specs.Prelude.{◌≡◌, ◌≢◌, ◌<◌, ◌≤◌, ◌↔◌, None, Some, Err, length, swap, IsTrue, IfOk, OnOk};
ghost use Rattle.std.specs.List.{list_any};
ghost use Rattle.lat_base.specs.Shape.{contest_at, target_count};
ghost use Rattle.lat_base.specs.Misassignment.{IsMisassignment, identity, source};
ghost use Rattle.lat_base.specs.declared.limits.TheConstants.{MOST_TARGETS};
ghost use Rattle.lat_misassign.specs.Sources.{AreSources, contests_exchanged};
ghost use Rattle.lat_misassign.specs.SourceFault.{source_fault};

use crate::MisFault;
use crate::exchange::exchanged;
use lat_base::Shape;
use std::alloc::{AllocError, Global};
use std::marker::Model;

/// A misassignment of 1 to 256 targets: for each target `u` the source, whose marks count for `u`.
/// Each target is the source of exactly one.
#[derive(Debug, Drop)]
pub struct Misassignment {
    sources: Vec<u16>,
}

impl Model for Misassignment {
    ghost use Rattle.std.specs.Prelude.{List, ℕ};
    ghost use Rattle.lat_misassign.specs.Sources.{AreSources};

    ghost Value = { List ℕ };

    ghost view = { λ a. a.sources.items };

    ghost invariant = { λ a. AreSources a.sources.items };
}

// The first place whose source isn't below the length or stood before.
fn find_fault(sources: &[u16]) -> Option<MisFault>
    requires { length sources.now ≤ MOST_TARGETS }
    ensures { result ≡ source_fault sources.now }
{
    for (i, source) in sources.iter().enumerate() {
        if usize::from(*source) >= sources.len() {
            return Some(MisFault::OutOfRange(i as u16));
        }
        if sources[..i].contains(source) {
            return Some(MisFault::Repeated(i as u16));
        }
    }
    None
}

impl Misassignment {
    /// The identity of `n` targets: each target counts for itself.
    #[tactic(auto, using(crate::proofs::Identity::identity_sources, lemmas::proofs::Ranges::range_more))]
    pub fn identity(alloc: Global, n: u16) -> Result<Misassignment, AllocError>
        requires some { 1 ≤ n }
        requires few { n ≤ MOST_TARGETS }
        ensures { IfOk result (λ s. s ≡ identity n) }
    {
        let mut sources = Vec::with_capacity(alloc, usize::from(n))?;
        for t in 0..n {
            sources.push(t)?;
        }
        Ok(Misassignment { sources })
    }

    /// The misassignment of these sources, or the first place that is wrong: a source that isn't
    /// below the number of sources, or that stood before.
    #[tactic(auto, using(crate::proofs::Valid::valid_sources, crate::proofs::Valid::faulty))]
    pub fn from_sources(alloc: Global, sources: &[u16]) -> Result<Misassignment, MisFault>
        requires some { 1 ≤ length sources.now }
        requires few { length sources.now ≤ MOST_TARGETS }
        ensures ok { IfOk result (λ s. s ≡ sources.now) }
        ensures valid { OnOk result (IsMisassignment (length sources.now) sources.now) }
        ensures refused { (f : MisFault) → f ≢ MisFault.Memory → result ≡ Err f
            → ¬ IsMisassignment (length sources.now) sources.now }
        ensures fault { (f : MisFault) → f ≢ MisFault.Memory
            → (result ≡ Err f) ↔ (source_fault sources.now ≡ Some f) }
    {
        if let Some(fault) = find_fault(sources) {
            return Err(fault);
        }
        match Vec::from_slice(alloc, sources) {
            Ok(sources) => Ok(Misassignment { sources }),
            Err(_) => Err(MisFault::Memory),
        }
    }

    /// The misassignment of sources that are known to be one's.
    pub fn from_valid(sources: Vec<u16>) -> Misassignment
        requires { AreSources sources.items }
        ensures { result ≡ sources.items }
    {
        Misassignment { sources }
    }

    /// The exchange of the targets `t` and `u`, of `n` targets in all.
    #[tactic(auto, using(crate::proofs::Identity::identity_long, crate::proofs::Swaps::sources_swapped))]
    pub fn swap(alloc: Global, n: u16, t: u16, u: u16) -> Result<Misassignment, AllocError>
        requires few { n ≤ MOST_TARGETS }
        requires first { t < n }
        requires second { u < n }
        ensures { IfOk result (λ s. s ≡ swap (identity n) t u) }
    {
        let mut s = Misassignment::identity(alloc, n)?;
        s.sources.swap(usize::from(t), usize::from(u));
        Ok(s)
    }

    /// The exchange of the contests `c` and `d` of a style, which have as many targets: each target
    /// of the one with the target at the same place of the other.
    #[tactic(auto, using(crate::proofs::Exchanges::exchanged_sources, lemmas::proofs::Ranges::made_more))]
    pub fn swap_contests(
        alloc: Global,
        shape: &Shape,
        c: u16,
        d: u16,
    ) -> Result<Misassignment, AllocError>
        requires first { c < length shape.now }
        requires second { d < length shape.now }
        requires alike { (contest_at shape.now c).targets ≡ (contest_at shape.now d).targets }
        ensures { IfOk result (λ s. s ≡ contests_exchanged shape.now c d) }
    {
        let mut sources = Vec::with_capacity(alloc, usize::from(shape.targets()))?;
        for u in 0..shape.targets() {
            sources.push(exchanged(shape, c, d, u))?;
        }
        Ok(Misassignment { sources })
    }

    /// An equal misassignment.
    pub fn copy(&self, alloc: Global) -> Result<Misassignment, AllocError>
        ensures { IfOk result (λ s. s ≡ self.now) }
    {
        Ok(Misassignment {
            sources: Vec::from_slice(alloc, self.sources.as_slice())?,
        })
    }

    /// How many targets there are.
    pub fn len(&self) -> u16
        ensures count { result ≡ length self.now }
        ensures sources { AreSources self.now }
    {
        self.sources.len() as u16
    }

    /// The sources, in target order.
    pub fn as_slice(&self) -> &[u16]
        ensures sources { result.now ≡ self.now }
        ensures valid { AreSources self.now }
    {
        self.sources.as_slice()
    }

    /// The target whose marks count for `u`.
    pub fn source(&self, u: u16) -> u16
        requires { u < length self.now }
        ensures { result ≡ source self.now u }
    {
        self.sources[usize::from(u)]
    }

    /// Whether each target counts for itself.
    pub fn is_identity(&self) -> bool
        ensures { IsTrue result ↔ (self.now ≡ identity (length self.now)) }
    {
        for (u, source) in self.sources.iter().enumerate() {
            if usize::from(*source) != u {
                return false;
            }
        }
        true
    }
}
