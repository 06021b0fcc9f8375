ghost use Rattle.std.specs.Prelude.{◌≡◌, ◌≤◌, Result};
ghost use Rattle.lat_base.specs.Shape.{target_count};
ghost use Rattle.lat_base.specs.Goodness.{IsRobust};

use crate::evaders::{Evaders, moved_contests};
use adversary::{Attacked, attack};
use lat_ballots::Deck;
use lat_base::Shape;
use std::alloc::{AllocError, Global};

// The most nodes of an attack: a deck that takes more is better laid anew.
const MOST_NODES: u64 = 200_000;

/// What is known of a deck.
#[derive(Drop)]
pub enum Judgement {
    Robust,
    /// Evaded by a misassignment that moves these contests.
    Evaded(Vec<u16>),
    /// Neither, after as many nodes as an attack may take.
    Spent,
}

/// Judges a deck, by the kept evaders first and then by an attack of at most `budget` nodes, and at
/// most 200,000. A new evader is kept. The only error is want of memory.
pub fn judge(
    alloc: Global,
    shape: &Shape,
    deck: &Deck,
    evaders: &mut Evaders,
    budget: u64,
) -> Result<Judgement, AllocError>
    requires targets { deck.now.targets ≡ target_count shape.now }
    requires budget { 1 ≤ budget }
    ensures { result ≡ Result.Ok Judgement.Robust → IsRobust shape.now deck.now.ballots }
{
    if let Some(s) = evaders.find(shape, deck) {
        return Ok(Judgement::Evaded(moved_contests(alloc, shape, s)?));
    }
    match attack(alloc, shape, deck, budget.min(MOST_NODES))? {
        Attacked::Robust(_) => Ok(Judgement::Robust),
        Attacked::Evaded(s) => {
            let moved = moved_contests(alloc, shape, &s)?;
            evaders.keep(s)?;
            Ok(Judgement::Evaded(moved))
        }
        Attacked::Spent(_) => Ok(Judgement::Spent),
    }
}
