//! Every misassignment of a deck is tried.

ghost use Rattle.std.specs.Prelude.{◌≡◌, ◌≢◌, ◌<◌, ◌≤◌, ◌↔◌, [], length, take, IsTrue, IfOk, MatchBool};
ghost use Rattle.lat_base.specs.Goodness.{IsRobust};
ghost use Rattle.lat_base.specs.Shape.{target_count};
ghost use Rattle.lat_base.specs.Tally.{report};
ghost use Rattle.lat_base.specs.Misassignment.{IsMisassignment, identity};
ghost use Rattle.plain_search.specs.Trying.{RobustFrom, EvadesFrom};

use lat_ballots::Deck;
use lat_base::Shape;
use lat_misassign::{MisFault, Misassignment};
use lat_tabulate::leaves_report;
use std::alloc::{AllocError, Global};

// Whether these sources are a misassignment, not the identity, that leaves the report equal.
fn evades(alloc: Global, shape: &Shape, deck: &Deck, sources: &[u16]) -> Result<bool, AllocError>
    requires targets { deck.now.targets ≡ target_count shape.now }
    requires long { length sources.now ≡ target_count shape.now }
    ensures { let n = target_count shape.now in let s = sources.now in
        let totals = report shape.now deck.now.ballots in
        IfOk result (λ evades. IsTrue evades ↔
        (IsMisassignment n s × (totals s ≡ totals (identity n)) × (s ≢ identity n))) }
{
    let _targets = shape.targets();
    match Misassignment::from_sources(alloc, sources) {
        Ok(s) => Ok(!s.is_identity() && leaves_report(shape, deck, &s)),
        Err(MisFault::Memory) => Err(AllocError),
        Err(_) => Ok(false),
    }
}

// Whether no misassignment that begins as the sources do before place u evades the deck.
fn is_robust_from(
    alloc: Global,
    shape: &Shape,
    deck: &Deck,
    sources: &mut [u16],
    u: u16,
) -> Result<bool, AllocError>
    requires targets { deck.now.targets ≡ target_count shape.now }
    requires long { length sources.old ≡ target_count shape.now }
    requires place { u ≤ target_count shape.now }
    ensures kept { IfOk result (λ robust. take u sources.new ≡ take u sources.old) }
    ensures robust { let front = take u sources.old in
        IfOk result (λ robust. MatchBool robust (RobustFrom shape.now deck.now.ballots front)
        (EvadesFrom shape.now deck.now.ballots front)) }
{
    let n = shape.targets();
    if u == n {
        return Ok(!evades(alloc, shape, deck, sources)?);
    }
    for t in 0..n {
        sources[u as usize] = t;
        if !is_robust_from(alloc, shape, deck, sources, u + 1)? {
            return Ok(false);
        }
    }
    Ok(true)
}

/// Whether every misassignment but the identity changes some total of the deck. The only error is
/// want of memory.
#[tactic(auto, using(crate::proofs::Tried::all_tried))]
pub fn is_robust(alloc: Global, shape: &Shape, deck: &Deck) -> Result<bool, AllocError>
    requires { deck.now.targets ≡ target_count shape.now }
    ensures { let is = IsRobust shape.now deck.now.ballots in
        IfOk result (λ robust. MatchBool robust is (¬ is)) }
{
    let mut sources = vec![in alloc; 0u16; usize::from(shape.targets())]?;
    is_robust_from(alloc, shape, deck, &mut sources, 0)
}
