ghost use Rattle.std.specs.Prelude.{◌≡◌, ◌≤◌, IfOk, length};
ghost use Rattle.lat_base.specs.Shape.{target_count};
ghost use Rattle.lat_base.specs.declared.limits.TheConstants.{MOST_BALLOTS};

use crate::ballot_set::BallotSet;
use crate::loom::Loom;
use lat_ballots::Deck;
use lat_base::Shape;
use std::alloc::{AllocError, Global};

// Marks target `t` of ballot `j`, where the deck has them.
fn mark(deck: &mut Deck, j: u16, t: u16)
    ensures targets { deck.new.targets ≡ deck.old.targets }
    ensures ballots { length deck.new.ballots ≡ length deck.old.ballots }
{
    if j < deck.ballots() && t < deck.targets() {
        deck.set(j, t, true);
    }
}

// Marks every target on the first ballots.
fn mark_overvoted(deck: &mut Deck, over: u16)
    ensures targets { deck.new.targets ≡ deck.old.targets }
    ensures ballots { length deck.new.ballots ≡ length deck.old.ballots }
{
    for j in 0..over {
        for t in 0..deck.targets() {
            mark(deck, j, t);
        }
    }
}

// Marks target `t` on the working ballots of a column, which come after the overvoted ones.
fn mark_column(deck: &mut Deck, over: u16, t: u16, column: &BallotSet)
    ensures targets { deck.new.targets ≡ deck.old.targets }
    ensures ballots { length deck.new.ballots ≡ length deck.old.ballots }
{
    for j in over..deck.ballots() {
        if column.has(j - over) {
            mark(deck, j, t);
        }
    }
}

// Marks the targets of all contests.
fn mark_contests(deck: &mut Deck, loom: &Loom)
    ensures targets { deck.new.targets ≡ deck.old.targets }
    ensures ballots { length deck.new.ballots ≡ length deck.old.ballots }
{
    let mut t: u16 = 0;
    for marks in &loom.contests {
        for column in &marks.columns {
            mark_column(deck, loom.sizes.over, t, column);
            t = t.saturating_add(1);
        }
    }
}

/// The deck of `k` ballots on which the contests are marked as they are laid. The only error is
/// want of memory.
pub fn deck_of(alloc: Global, shape: &Shape, k: u16, loom: &Loom) -> Result<Deck, AllocError>
    requires { k ≤ MOST_BALLOTS }
    ensures targets { IfOk result (λ deck. deck.targets ≡ target_count shape.now) }
    ensures ballots { IfOk result (λ deck. length deck.ballots ≡ k) }
{
    let mut deck = Deck::blank(alloc, shape, k)?;
    mark_overvoted(&mut deck, loom.sizes.over);
    mark_contests(&mut deck, loom);
    Ok(deck)
}
