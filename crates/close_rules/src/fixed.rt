ghost use Rattle.std.specs.Prelude.{◌≡◌, ◌<◌, length};
ghost use Rattle.std.specs.Cmp.Lexicographic.{slice_cmp};
ghost use Rattle.std.specs.Ordering.{nat_cmp};
ghost use Rattle.lat_base.specs.Shape.{contest_at};
ghost use Rattle.deck_state.specs.PartialDeck.{PartialDeck};
ghost use Rattle.close_rules.specs.Fixed.{lows, is_fixed, are_comparable, are_twins, are_out_of_order};

use deck_state::Partial;
use std::cmp::Ordering;

/// Whether the totals of contest c are known.
pub fn is_fixed(state: &Partial, c: u16) -> bool
    requires { c < length state.now.contests }
    ensures { result ≡ is_fixed state.now c }
{
    let first = state.shape().first_of(c);
    let targets = state.shape().contest(c).targets;
    for i in 0..targets {
        if state.lo(first + i) != state.hi(first + i) {
            return false;
        }
    }
    true
}

// How the least totals of contest c compare with those of contest d.
fn compare_lows(state: &Partial, c: u16, d: u16) -> Ordering
    requires first { c < length state.now.contests }
    requires second { d < length state.now.contests }
    requires alike { (contest_at state.now.contests c).targets
        ≡ (contest_at state.now.contests d).targets }
    ensures { result ≡ slice_cmp nat_cmp (lows state.now c) (lows state.now d) }
{
    let here = state.shape().first_of(c);
    let there = state.shape().first_of(d);
    let targets = state.shape().contest(c).targets;
    for i in 0..targets {
        let order = state.lo(here + i).cmp(&state.lo(there + i));
        if order != Ordering::Equal {
            return order;
        }
    }
    Ordering::Equal
}

// Whether c comes before d, both have the same shape, and the totals of both are known.
fn are_comparable(state: &Partial, c: u16, d: u16) -> bool
    ensures { result ≡ are_comparable state.now c d }
{
    let shape = state.shape();
    c < d
        && d < shape.contests()
        && shape.contest(c) == shape.contest(d)
        && is_fixed(state, c)
        && is_fixed(state, d)
}

/// Whether two contests of one shape have totals that are known and the same.
pub fn are_twins(state: &Partial, c: u16, d: u16) -> bool
    ensures { result ≡ are_twins state.now c d }
{
    are_comparable(state, c, d) && compare_lows(state, c, d) == Ordering::Equal
}

/// Whether two contests of one shape have totals that are known, and those of the first are
/// greater.
pub fn are_out_of_order(state: &Partial, c: u16, d: u16) -> bool
    ensures { result ≡ are_out_of_order state.now c d }
{
    are_comparable(state, c, d) && compare_lows(state, c, d) == Ordering::Greater
}
