ghost use Rattle.std.specs.Prelude.{◌≡◌, ◌↔◌, length, IfOk};
ghost use Rattle.lat_base.specs.Shape.{target_count};
ghost use Rattle.lat_base.specs.Canonical.{IsCanonical};
ghost use Rattle.lat_base.specs.Goodness.{IsGood};
ghost use Rattle.lat_base.specs.Rules.{RuleSet, Obeys};
ghost use Rattle.symmetry.specs.Reordering.{IsReordered};
ghost use Rattle.symmetry.specs.Counted.{IsMoved, total_at};
ghost use Rattle.symmetry.specs.Ordered.{AreOrdered};
ghost use Rattle.symmetry.specs.Order.{RiseWithin, AreEarlier};

use crate::contest_order::order_contests;
use crate::counted::{Counted, count_targets, list_targets};
use crate::target_order::order_targets;
use lat_ballots::Deck;
use lat_base::Shape;
use std::alloc::{AllocError, Global};

// Reorders the targets within contests, and then contests of the same limit and number of targets.
#[tactic(auto, using(crate::proofs::Moved::moved_then, crate::proofs::Moved::moved_as_long))]
fn order(shape: &Shape, list: &mut [Counted])
    requires { length list.old ≡ target_count shape.now }
    ensures moved { IsMoved shape.now list.old list.new }
    ensures rise { RiseWithin shape.now (total_at list.new) }
    ensures earlier { AreEarlier shape.now (total_at list.new) }
{
    order_targets(shape, list);
    order_contests(shape, list);
}

// The targets in the order in which they are to stand.
fn ordered_targets(alloc: Global, shape: &Shape, deck: &Deck) -> Result<Vec<u16>, AllocError>
    requires { deck.now.targets ≡ target_count shape.now }
    ensures { IfOk result (λ sources. AreOrdered shape.now deck.now.ballots sources.items) }
{
    let mut list = count_targets(alloc, shape, deck)?;
    order(shape, &mut list);
    let sources = list_targets(alloc, list.as_slice())?;
    Ok(sources)
}

/// The canonical deck that arises by reordering the deck's ballots, the targets within its
/// contests, and contests of the same limit and number of targets. It has as many ballots; under
/// any rules it is good exactly where the given deck is, and obeys them where that deck does. After
/// want of memory the given deck is dropped.
pub fn canonical(alloc: Global, shape: &Shape, deck: Deck) -> Result<Deck, AllocError>
    requires { deck.targets ≡ target_count shape.now }
    ensures canonical { IfOk result (λ copy. IsCanonical shape.now copy.ballots) }
    ensures reordered { IfOk result (λ copy. IsReordered shape.now deck.ballots copy.ballots) }
    ensures good { IfOk result
        (λ copy. (rules : RuleSet) → IsGood shape.now rules copy.ballots ↔
        IsGood shape.now rules deck.ballots) }
    ensures obeys { IfOk result (λ copy. (rules : RuleSet) →
        Obeys shape.now rules deck.ballots → Obeys shape.now rules copy.ballots) }
    ensures size { IfOk result (λ copy. length copy.ballots ≡ length deck.ballots) }
    ensures targets { IfOk result (λ copy. copy.targets ≡ deck.targets) }
{
    let sources = ordered_targets(alloc, shape, &deck)?;
    let mut copy = deck.read(alloc, sources.as_slice())?;
    copy.sort_rows(alloc)?;
    Ok(copy)
}
