ghost use Rattle.std.specs.Prelude.{◌≡◌, ◌<◌, length, IfOk};
ghost use Rattle.lat_base.specs.Shape.{target_count};
ghost use Rattle.lat_base.specs.Tally.{report};

use crate::total_under;
use lat_ballots::Deck;
use lat_base::Shape;
use lat_misassign::Misassignment;
use std::alloc::{AllocError, Global};

/// The totals of all targets under a misassignment, in target order.
#[tactic(auto, using(lemmas::proofs::Ranges::made_more))]
pub fn report(
    alloc: Global,
    shape: &Shape,
    deck: &Deck,
    s: &Misassignment,
) -> Result<Vec<u32>, AllocError>
    requires targets { deck.now.targets ≡ target_count shape.now }
    requires sources { length s.now ≡ target_count shape.now }
    ensures { IfOk result (λ totals. totals.items ≡ report shape.now deck.now.ballots s.now) }
{
    let mut totals = Vec::with_capacity(alloc, usize::from(shape.targets()))?;
    for u in 0..shape.targets() {
        totals.push(total_under(shape, deck, s, u))?;
    }
    Ok(totals)
}
