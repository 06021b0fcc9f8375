//! What the known sources of a misassignment leave of a deck, counted anew from the deck.

ghost use Rattle.std.specs.Prelude.{◌<◌, length};
ghost use Rattle.lat_base.specs.Shape.{target_count};

use lat_ballots::Deck;
use lat_base::Shape;

// Whether ballot j marks target t.
fn is_marked(deck: &Deck, j: u16, t: u16) -> bool {
    j < deck.ballots() && t < deck.targets() && deck.is_marked(j, t)
}

// The sources of contest c's images, where they have one.
fn places<'a>(shape: &Shape, sources: &'a [Option<u16>], c: u16) -> &'a [Option<u16>]
    requires { c < length shape.now }
{
    let _contests = shape.contests();
    let first = shape.first_of(c) as usize;
    let last = shape.first_of(c + 1) as usize;
    sources.get(first..last).unwrap_or(&[])
}

/// How many sources of contest c's images ballot j marks.
pub fn taken(shape: &Shape, deck: &Deck, sources: &[Option<u16>], j: u16, c: u16) -> u16
    requires { c < length shape.now }
{
    let mut marks: u16 = 0;
    for source in places(shape, sources, c) {
        if let Some(t) = source {
            marks = marks.saturating_add(u16::from(is_marked(deck, j, *t)));
        }
    }
    marks
}

/// How many targets that are no image's source ballot j marks.
pub fn free(deck: &Deck, sources: &[Option<u16>], j: u16) -> u16 {
    let mut marks: u16 = 0;
    for t in 0..deck.targets() {
        if !sources.contains(&Some(t)) {
            marks = marks.saturating_add(u16::from(is_marked(deck, j, t)));
        }
    }
    marks
}

// How many marks ballot j can come to have in contest c: each place without a source gets another
// unused target.
fn most(shape: &Shape, deck: &Deck, sources: &[Option<u16>], j: u16, c: u16) -> u16
    requires { c < length shape.now }
{
    let mut empty: u16 = 0;
    for source in places(shape, sources, c) {
        empty = empty.saturating_add(u16::from(source.is_none()));
    }
    taken(shape, deck, sources, j, c).saturating_add(empty.min(free(deck, sources, j)))
}

/// How many ballots may vote for image u, and how many surely do.
pub fn votes(shape: &Shape, deck: &Deck, sources: &[Option<u16>], u: u16) -> (u32, u32)
    requires { u < target_count shape.now }
{
    let c = shape.contest_of(u);
    let limit = shape.contest(c).limit;
    let mut may: u32 = 0;
    let mut must: u32 = 0;
    let Some(Some(t)) = sources.get(u as usize) else {
        return (0, 0);
    };
    for j in 0..deck.ballots() {
        if is_marked(deck, j, *t) {
            may = may.saturating_add(u32::from(taken(shape, deck, sources, j, c) <= limit));
            must = must.saturating_add(u32::from(most(shape, deck, sources, j, c) <= limit));
        }
    }
    (may, must)
}

/// How many marks are surely lost: those of the known sources of a contest in which a ballot marks
/// more of them than the limit.
pub fn lost(shape: &Shape, deck: &Deck, sources: &[Option<u16>]) -> u32 {
    let mut lost: u32 = 0;
    for c in 0..shape.contests() {
        for j in 0..deck.ballots() {
            let marks = taken(shape, deck, sources, j, c);
            if marks > shape.contest(c).limit {
                lost = lost.saturating_add(u32::from(marks));
            }
        }
    }
    lost
}
