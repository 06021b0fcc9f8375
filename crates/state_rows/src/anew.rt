//! The counts of a partial deck, counted anew from its marks.

ghost use Rattle.std.specs.Prelude.{◌<◌, ◌≤◌, length};
ghost use Rattle.lat_base.specs.Shape.{target_count, contest_at};

use deck_state::{Mark, Partial};

// How many targets of contest c ballot j marks, and how many it marks or leaves undecided.
fn counts(partial: &Partial, j: u16, c: u16) -> (u16, u16)
    requires ballot { j < partial.now.ballots }
    requires contest { c < length partial.now.contests }
{
    let shape = partial.shape();
    let _contests = shape.contests();
    let mut marked: u16 = 0;
    let mut possible: u16 = 0;
    for t in shape.first_of(c)..shape.first_of(c + 1) {
        let mark = partial.mark(j, t);
        marked = marked.saturating_add(u16::from(mark == Mark::Marked));
        possible = possible.saturating_add(u16::from(mark != Mark::Unmarked));
    }
    (marked, possible)
}

// Whether ballot j marks target t and can't come to be overvoted there.
fn votes_surely(partial: &Partial, j: u16, t: u16) -> bool
    requires ballot { j < partial.now.ballots }
    requires target { t < target_count partial.now.contests }
{
    let c = partial.shape().contest_of(t);
    let (_, possible) = counts(partial, j, c);
    partial.mark(j, t) == Mark::Marked && possible <= partial.shape().contest(c).limit
}

// Whether ballot j can come to mark target t without being overvoted there.
fn votes_possibly(partial: &Partial, j: u16, t: u16) -> bool
    requires ballot { j < partial.now.ballots }
    requires target { t < target_count partial.now.contests }
{
    let c = partial.shape().contest_of(t);
    let (marked, _) = counts(partial, j, c);
    let limit = partial.shape().contest(c).limit;
    match partial.mark(j, t) {
        Mark::Marked => marked <= limit,
        Mark::Undecided => marked < limit,
        Mark::Unmarked => false,
    }
}

// Whether ballot j belongs to level v of contest c: below the limit, where it can give more than v
// votes; at the limit, where it can be overvoted.
fn is_at_level(partial: &Partial, j: u16, c: u16, v: u16) -> bool
    requires ballot { j < partial.now.ballots }
    requires contest { c < length partial.now.contests }
{
    let limit = partial.shape().contest(c).limit;
    let (marked, possible) = counts(partial, j, c);
    if v < limit {
        marked <= limit && possible > v
    } else {
        possible > limit
    }
}

// Whether the least and the greatest total of target t are those of its bounds and the ballots.
fn is_total_right(partial: &Partial, t: u16) -> bool
    requires { t < target_count partial.now.contests }
{
    let mut sure: u16 = 0;
    let mut possible: u16 = 0;
    for j in 0..partial.ballots() {
        sure = sure.saturating_add(u16::from(votes_surely(partial, j, t)));
        possible = possible.saturating_add(u16::from(votes_possibly(partial, j, t)));
    }
    let bounds = partial.bounds(t);
    partial.lo(t) == bounds.low.max(sure) && partial.hi(t) == bounds.high.min(possible)
}

// Whether level v of contest c has as many ballots as it says.
fn is_level_right(partial: &Partial, c: u16, v: u16) -> bool
    requires contest { c < length partial.now.contests }
    requires level { v ≤ (contest_at partial.now.contests c).limit }
{
    let mut ballots: u16 = 0;
    for j in 0..partial.ballots() {
        ballots = ballots.saturating_add(u16::from(is_at_level(partial, j, c, v)));
    }
    partial.level(c, v) == ballots
}

// Whether the counts of each ballot in contest c, and the levels of it, are right.
fn is_contest_right(partial: &Partial, c: u16) -> bool
    requires { c < length partial.now.contests }
{
    for j in 0..partial.ballots() {
        if counts(partial, j, c) != (partial.marked_in(j, c), partial.possible_in(j, c)) {
            return false;
        }
    }
    for v in 0..=partial.shape().contest(c).limit {
        if !is_level_right(partial, c, v) {
            return false;
        }
    }
    true
}

/// Whether all that a partial deck keeps of its targets, ballots and contests are the counts of its
/// marks.
pub fn is_right(partial: &Partial) -> bool {
    for t in 0..partial.shape().targets() {
        if !is_total_right(partial, t) {
            return false;
        }
    }
    for c in 0..partial.shape().contests() {
        if !is_contest_right(partial, c) {
            return false;
        }
    }
    true
}
