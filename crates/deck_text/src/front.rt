ghost use Rattle.std.specs.Prelude.{◌≡◌, ◌<◌, ◌≤◌, length, slice_set, IfOk};
ghost use Rattle.lat_base.specs.Shape.{target_count};
ghost use Rattle.lat_ballots.specs.Deck.{ballot_at};
ghost use Rattle.deck_text.specs.Draft.{front_of};

use lat_ballots::Deck;
use lat_base::Shape;
use std::alloc::{AllocError, Global};

// Gives ballot j the marks that it has in another deck.
fn copy_ballot(deck: &mut Deck, whole: &Deck, j: u16)
    requires ballot { j < length deck.old.ballots }
    requires whole { j < length whole.now.ballots }
    requires targets { deck.old.targets ≡ whole.now.targets }
    ensures { deck.new
        ≡ record deck.old { ballots = slice_set deck.old.ballots j (ballot_at whole.now j) } }
{
    let _ballots = deck.ballots();
    for t in 0..whole.targets() {
        deck.set(j, t, whole.is_marked(j, t));
    }
}

/// The first `ballots` ballots of a deck of the style.
pub fn first_ballots(
    alloc: Global,
    shape: &Shape,
    whole: &Deck,
    ballots: u16,
) -> Result<Deck, AllocError>
    requires targets { whole.now.targets ≡ target_count shape.now }
    requires ballots { ballots ≤ length whole.now.ballots }
    ensures { IfOk result (λ deck. deck ≡ front_of ballots whole.now) }
{
    let _ballots = whole.ballots();
    let mut deck = Deck::blank(alloc, shape, ballots)?;
    for j in 0..ballots {
        copy_ballot(&mut deck, whole, j);
    }
    Ok(deck)
}
