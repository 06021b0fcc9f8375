ghost use Rattle.std.specs.Prelude.{◌<◌, length};
ghost use Rattle.lat_base.specs.Shape.{target_count};

use close_rules::Label;
use deck_state::{Mark, Partial};

// The first total of contest c that can be split: a total of at least what the rules ask for stands
// against all greater ones.
fn split_in(state: &Partial, c: u16) -> Option<Label>
    requires { c < length state.now.contests }
{
    let least = state.rules().least();
    let shape = state.shape();
    for t in shape.first_of(c)..shape.first_of(c + 1) {
        let low = state.lo(t).max(least);
        if low < state.hi(t) {
            return Some(Label::Split(t, low + 1));
        }
    }
    None
}

// The first total that can be split, of the first contest with one that can be overvoted.
fn next_split(state: &Partial) -> Option<Label> {
    for c in 0..state.shape().contests() {
        if state.shape().can_overvote(c) {
            if let Some(label) = split_in(state, c) {
                return Some(label);
            }
        }
    }
    None
}

// The first undecided mark of ballot j in contest c.
fn undecided_in(state: &Partial, j: u16, c: u16) -> Option<Label>
    requires ballot { j < state.now.ballots }
    requires contest { c < length state.now.contests }
{
    let shape = state.shape();
    for t in shape.first_of(c)..shape.first_of(c + 1) {
        if matches!(state.mark(j, t), Mark::Undecided) {
            return Some(Label::Mark(j, t));
        }
    }
    None
}

// The first undecided mark of target t.
fn undecided_of(state: &Partial, t: u16) -> Option<Label>
    requires { t < target_count state.now.contests }
{
    for j in 0..state.ballots() {
        if matches!(state.mark(j, t), Mark::Undecided) {
            return Some(Label::Mark(j, t));
        }
    }
    None
}

// The first undecided mark, in contest c, of a ballot that marks target t of it and isn't overvoted
// yet.
fn overvote_at(state: &Partial, c: u16, t: u16) -> Option<Label>
    requires contest { c < length state.now.contests }
    requires target { t < target_count state.now.contests }
{
    let limit = state.shape().contest(c).limit;
    for j in 0..state.ballots() {
        if state.mark(j, t).is_marked() && state.marked_in(j, c) <= limit {
            if let Some(label) = undecided_in(state, j, c) {
                return Some(label);
            }
        }
    }
    None
}

// The same for the targets of contest c that can't have a vote: a ballot that marks one has to be
// overvoted.
fn overvote_in(state: &Partial, c: u16) -> Option<Label>
    requires { c < length state.now.contests }
{
    let shape = state.shape();
    for t in shape.first_of(c)..shape.first_of(c + 1) {
        if state.hi(t) == 0 {
            if let Some(label) = overvote_at(state, c, t) {
                return Some(label);
            }
        }
    }
    None
}

// The first mark by which a ballot may become overvoted that has to.
fn next_overvote(state: &Partial) -> Option<Label> {
    for c in 0..state.shape().contests() {
        if let Some(label) = overvote_in(state, c) {
            return Some(label);
        }
    }
    None
}

// The first undecided mark of contest c at a target that can't have a vote.
fn voteless_in(state: &Partial, c: u16) -> Option<Label>
    requires { c < length state.now.contests }
{
    let shape = state.shape();
    for t in shape.first_of(c)..shape.first_of(c + 1) {
        if state.hi(t) == 0 {
            if let Some(label) = undecided_of(state, t) {
                return Some(label);
            }
        }
    }
    None
}

// How many votes contest c can have beyond those that its totals surely have.
fn spare_votes(state: &Partial, c: u16) -> u32
    requires { c < length state.now.contests }
{
    let shape = state.shape();
    let limit = shape.contest(c).limit;
    let mut votes: u32 = 0;
    for j in 0..state.ballots() {
        if state.marked_in(j, c) <= limit {
            votes = votes.saturating_add(u32::from(state.possible_in(j, c).min(limit)));
        }
    }
    for t in shape.first_of(c)..shape.first_of(c + 1) {
        votes = votes.saturating_sub(u32::from(state.lo(t)));
    }
    votes
}

// An undecided mark at a target that can't have a vote, of the contest that has the fewest votes to
// spare.
fn next_voteless(state: &Partial) -> Option<Label> {
    let mut fewest = u32::MAX;
    let mut best = None;
    for c in 0..state.shape().contests() {
        if let Some(label) = voteless_in(state, c) {
            let spare = spare_votes(state, c);
            if spare < fewest {
                fewest = spare;
                best = Some(label);
            }
        }
    }
    best
}

// The first undecided mark of contest c, ballot by ballot.
fn by_ballots(state: &Partial, c: u16) -> Option<Label>
    requires { c < length state.now.contests }
{
    for j in 0..state.ballots() {
        if state.marked_in(j, c) != state.possible_in(j, c) {
            return undecided_in(state, j, c);
        }
    }
    None
}

// The first undecided mark of contest c, target by target.
fn by_targets(state: &Partial, c: u16) -> Option<Label>
    requires { c < length state.now.contests }
{
    let shape = state.shape();
    for t in shape.first_of(c)..shape.first_of(c + 1) {
        if let Some(label) = undecided_of(state, t) {
            return Some(label);
        }
    }
    None
}

// The first undecided mark of the first contest that has one: ballot by ballot where the contest
// can be overvoted, else target by target.
fn next_mark(state: &Partial) -> Option<Label> {
    for c in 0..state.shape().contests() {
        let label = if state.shape().can_overvote(c) {
            by_ballots(state, c)
        } else {
            by_targets(state, c)
        };
        if label.is_some() {
            return label;
        }
    }
    None
}

/// A label that is worth a fork, of which nothing has to be known: first the totals of contests
/// that can be overvoted; then, where a target can't have a vote, the marks that make a ballot
/// overvoted or leave it without the target; then contest after contest.
pub(crate) fn preferred(state: &Partial) -> Option<Label> {
    if let Some(label) = next_split(state) {
        return Some(label);
    }
    if let Some(label) = next_overvote(state) {
        return Some(label);
    }
    if let Some(label) = next_voteless(state) {
        return Some(label);
    }
    next_mark(state)
}
