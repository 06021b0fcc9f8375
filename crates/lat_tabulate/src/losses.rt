ghost use Rattle.std.specs.Prelude.{◌≡◌, ◌<◌, ◌≤◌, length};
ghost use Rattle.lat_base.specs.Shape.{target_count};
ghost use Rattle.lat_base.specs.declared.limits.TheConstants.{MOST_TARGETS};
ghost use Rattle.lat_ballots.specs.Deck.{ballot_at};
ghost use Rattle.lat_tabulate.specs.Lost.{marks_of, mark_total, votes_below, lost_marks};

use crate::total;
use lat_ballots::Deck;
use lat_base::Shape;

// How many targets ballot j marks.
fn count_ballot(deck: &Deck, j: u16) -> u32
    requires { j < length deck.now.ballots }
    ensures marks { result ≡ marks_of (ballot_at deck.now j) }
    ensures few { result ≤ MOST_TARGETS }
{
    let _ballots = deck.ballots();
    let mut marks: u32 = 0;
    for t in 0..deck.targets() {
        if deck.is_marked(j, t) {
            marks += 1;
        }
    }
    marks
}

/// How many marks the deck has.
pub fn count_marks(deck: &Deck) -> u32
    ensures { result ≡ mark_total deck.now.ballots }
{
    let mut marks: u32 = 0;
    for j in 0..deck.ballots() {
        marks += count_ballot(deck, j);
    }
    marks
}

// The sum of the totals.
#[tactic(auto, using(crate::proofs::Votes::votes_more))]
fn count_votes(shape: &Shape, deck: &Deck) -> u32
    requires { deck.now.targets ≡ target_count shape.now }
    ensures { result ≡ votes_below shape.now deck.now.ballots (target_count shape.now) }
{
    let _ballots = deck.ballots();
    let mut votes: u32 = 0;
    for u in 0..shape.targets() {
        votes += total(shape, deck, u);
    }
    votes
}

/// The number of marks that give no vote: the marks of the deck less the sum of its totals.
pub fn lost(shape: &Shape, deck: &Deck) -> u32
    requires { deck.now.targets ≡ target_count shape.now }
    ensures { result ≡ lost_marks shape.now deck.now.ballots }
{
    count_marks(deck).saturating_sub(count_votes(shape, deck))
}
