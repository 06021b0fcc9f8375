ghost use Rattle.std.specs.Prelude.{◌≡◌, ◌<◌, ◌+◌, ◌↔◌, length, IsTrue};
ghost use Rattle.std.specs.Ordering.{bool_cmp};
ghost use Rattle.std.specs.Cmp.Lexicographic.{slice_cmp};
ghost use Rattle.std.specs.declared.cmp.Ordering.TheVariants.{Less, Greater};
ghost use Rattle.lat_base.specs.Shape.{target_count, contest_at, contest_of};
ghost use Rattle.lat_base.specs.Tally.{own_total};
ghost use Rattle.lat_base.specs.Canonical.{IsCanonical};
ghost use Rattle.lat_ballots.specs.Deck.{ballot_at};
ghost use Rattle.lat_ballots.specs.Falling.{AreFalling};
ghost use Rattle.symmetry.specs.Order.{IsLeast, RiseWithin, IsNotGreater, AreEarlier, compare_totals};

use crate::places::target_of;
use lat_ballots::Deck;
use lat_base::Shape;
use lat_tabulate::total;

// Whether ballot j is smaller than ballot i, from target 0 on, a mark being greater than none.
fn is_smaller(deck: &Deck, j: u16, i: u16) -> bool
    requires first { j < length deck.now.ballots }
    requires second { i < length deck.now.ballots }
    ensures { IsTrue result ↔
        (slice_cmp bool_cmp (ballot_at deck.now j) (ballot_at deck.now i) ≡ Less) }
{
    for t in 0..deck.targets() {
        let other = deck.is_marked(i, t);
        if deck.is_marked(j, t) != other {
            return other;
        }
    }
    false
}

// Whether no ballot is smaller than the next.
fn are_falling(deck: &Deck) -> bool
    ensures { IsTrue result ↔ AreFalling deck.now.ballots }
{
    for j in 1..deck.ballots() {
        if is_smaller(deck, j - 1, j) {
            return false;
        }
    }
    true
}

// Whether target t and the next are of one contest and the next has a smaller total.
fn falls(shape: &Shape, deck: &Deck, t: u16) -> bool
    requires targets { deck.now.targets ≡ target_count shape.now }
    requires next { t + 1 < target_count shape.now }
    ensures { IsTrue result ↔
        (contest_of shape.now t ≡ contest_of shape.now (t + 1)) ×
        (own_total shape.now deck.now.ballots (t + 1) < own_total shape.now deck.now.ballots t) }
{
    let _targets = shape.targets();
    shape.contest_of(t) == shape.contest_of(t + 1)
        && total(shape, deck, t + 1) < total(shape, deck, t)
}

// Whether totals don't fall within a contest.
fn rise_within(shape: &Shape, deck: &Deck) -> bool
    requires { deck.now.targets ≡ target_count shape.now }
    ensures { IsTrue result ↔ RiseWithin shape.now (own_total shape.now deck.now.ballots) }
{
    for t in 0..shape.targets() - 1 {
        if falls(shape, deck, t) {
            return false;
        }
    }
    true
}

// Whether contest c's totals are greater than contest d's.
fn is_greater(shape: &Shape, deck: &Deck, c: u16, d: u16) -> bool
    requires targets { deck.now.targets ≡ target_count shape.now }
    requires first { c < length shape.now }
    requires second { d < length shape.now }
    requires alike { contest_at shape.now c ≡ contest_at shape.now d }
    ensures { IsTrue result ↔
        (compare_totals shape.now (own_total shape.now deck.now.ballots) c d ≡ Greater) }
{
    for i in 0..shape.contest(c).targets {
        let here = total(shape, deck, target_of(shape, c, i));
        let there = total(shape, deck, target_of(shape, d, i));
        if here != there {
            return there < here;
        }
    }
    false
}

// Whether contest c's totals aren't greater than those of any later contest of its limit and number
// of targets.
fn is_least(shape: &Shape, deck: &Deck, c: u16) -> bool
    requires targets { deck.now.targets ≡ target_count shape.now }
    requires contest { c < length shape.now }
    ensures { IsTrue result ↔ IsLeast (contest_at shape.now)
        (IsNotGreater shape.now (own_total shape.now deck.now.ballots)) c (length shape.now) }
{
    let contests = shape.contests();
    for d in c + 1..contests {
        if shape.contest(c) == shape.contest(d) && is_greater(shape, deck, c, d) {
            return false;
        }
    }
    true
}

// Whether of two contests of the same limit and number of targets the earlier one's totals aren't
// greater.
fn are_earlier(shape: &Shape, deck: &Deck) -> bool
    requires { deck.now.targets ≡ target_count shape.now }
    ensures { IsTrue result ↔ AreEarlier shape.now (own_total shape.now deck.now.ballots) }
{
    for c in 0..shape.contests() {
        if !is_least(shape, deck, c) {
            return false;
        }
    }
    true
}

/// Whether the deck is canonical: no ballot is smaller than the next, totals don't fall within a
/// contest, and of two contests of the same limit and number of targets the earlier one's totals
/// aren't greater.
pub fn is_canonical(shape: &Shape, deck: &Deck) -> bool
    requires { deck.now.targets ≡ target_count shape.now }
    ensures { IsTrue result ↔ IsCanonical shape.now deck.now.ballots }
{
    are_falling(deck) && rise_within(shape, deck) && are_earlier(shape, deck)
}
