ghost use Rattle.std.specs.Prelude.{◌≡◌, ◌<◌, ◌≤◌, length};
ghost use Rattle.lat_base.specs.Shape.{target_count};
ghost use Rattle.lat_base.specs.Tally.{mark_count, votes_for, total, reading};
ghost use Rattle.lat_ballots.specs.Deck.{ballot_at};
ghost use Rattle.lat_tabulate.specs.Fitting.{AreRead};

use lat_ballots::Deck;
use lat_base::Shape;

// How many targets of contest c ballot j marks, as read.
#[tactic(auto, using(crate::proofs::Marks::marks_more, crate::proofs::Marks::first_le_next))]
fn mark_count(shape: &Shape, deck: &Deck, sources: &[u16], j: u16, c: u16) -> u16
    requires contest { c < length shape.now }
    requires ballot { j < length deck.now.ballots }
    requires targets { deck.now.targets ≡ target_count shape.now }
    requires read { AreRead shape.now sources.now }
    ensures { result ≡ mark_count shape.now (reading (ballot_at deck.now j) sources.now) c }
{
    let _contests = shape.contests();
    let first = shape.first_of(c);
    let last = shape.first_of(c + 1);
    let mut count: u16 = 0;
    for t in first..last {
        if deck.is_marked(j, sources[usize::from(t)]) {
            count += 1;
        }
    }
    count
}

// Whether ballot j votes for u, as read.
fn votes_for(shape: &Shape, deck: &Deck, sources: &[u16], j: u16, u: u16) -> bool
    requires target { u < target_count shape.now }
    requires ballot { j < length deck.now.ballots }
    requires targets { deck.now.targets ≡ target_count shape.now }
    requires read { AreRead shape.now sources.now }
    ensures { result ≡ votes_for shape.now (reading (ballot_at deck.now j) sources.now) u }
{
    let c = shape.contest_of(u);
    deck.is_marked(j, sources[usize::from(u)])
        && mark_count(shape, deck, sources, j, c) <= shape.contest(c).limit
}

/// The votes that a deck gives to target `u` where each ballot is read with the mark of its source
/// at each target. The sources may be any targets, one for each target of the style.
pub fn total_read(shape: &Shape, deck: &Deck, sources: &[u16], u: u16) -> u32
    requires target { u < target_count shape.now }
    requires targets { deck.now.targets ≡ target_count shape.now }
    requires read { AreRead shape.now sources.now }
    ensures votes { result ≡ total shape.now deck.now.ballots sources.now u }
    ensures few { result ≤ length deck.now.ballots }
{
    let mut votes: u32 = 0;
    for j in 0..deck.ballots() {
        if votes_for(shape, deck, sources, j, u) {
            votes += 1;
        }
    }
    votes
}
