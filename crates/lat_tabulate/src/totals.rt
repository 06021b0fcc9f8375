ghost use Rattle.std.specs.Prelude.{◌≡◌, ◌<◌, ◌≤◌, length};
ghost use Rattle.lat_base.specs.Shape.{target_count};
ghost use Rattle.lat_base.specs.Tally.{mark_count, votes_for, own_total, total};
ghost use Rattle.lat_ballots.specs.Deck.{ballot_at};

use crate::read::total_read;
use lat_ballots::Deck;
use lat_base::Shape;
use lat_misassign::Misassignment;

/// How many targets of contest `c` ballot `j` marks.
#[tactic(auto, using(crate::proofs::Own::counted_bits, crate::proofs::Marks::contest_places))]
pub fn mark_count(shape: &Shape, deck: &Deck, j: u16, c: u16) -> u16
    requires contest { c < length shape.now }
    requires ballot { j < length deck.now.ballots }
    requires targets { deck.now.targets ≡ target_count shape.now }
    ensures { result ≡ mark_count shape.now (ballot_at deck.now j) c }
{
    let _contests = shape.contests();
    let marks = deck.marks(j, shape.first_of(c), shape.first_of(c + 1));
    marks.count_ones() as u16
}

// Whether ballot j votes for u.
fn votes_for(shape: &Shape, deck: &Deck, j: u16, u: u16) -> bool
    requires target { u < target_count shape.now }
    requires ballot { j < length deck.now.ballots }
    requires targets { deck.now.targets ≡ target_count shape.now }
    ensures { result ≡ votes_for shape.now (ballot_at deck.now j) u }
{
    let c = shape.contest_of(u);
    deck.is_marked(j, u) && mark_count(shape, deck, j, c) <= shape.contest(c).limit
}

/// The votes of target `u`: the number of ballots that mark it and have at most the limit of marks
/// in its contest.

pub fn total(shape: &Shape, deck: &Deck, u: u16) -> u32
    requires target { u < target_count shape.now }
    requires targets { deck.now.targets ≡ target_count shape.now }
    ensures votes { result ≡ own_total shape.now deck.now.ballots u }
    ensures few { result ≤ length deck.now.ballots }
{
    let mut votes: u32 = 0;
    for j in 0..deck.ballots() {
        if votes_for(shape, deck, j, u) {
            votes += 1;
        }
    }
    votes
}

/// The votes of target `u` under a misassignment: each ballot is read with the mark of its source
/// at each target, and the overvote test is made on the marks as read.
#[tactic(auto, using(crate::proofs::Marks::are_read))]
pub fn total_under(shape: &Shape, deck: &Deck, s: &Misassignment, u: u16) -> u32
    requires target { u < target_count shape.now }
    requires targets { deck.now.targets ≡ target_count shape.now }
    requires sources { length s.now ≡ target_count shape.now }
    ensures votes { result ≡ total shape.now deck.now.ballots s.now u }
    ensures few { result ≤ length deck.now.ballots }
{
    total_read(shape, deck, s.as_slice(), u)
}
