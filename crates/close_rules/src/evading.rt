ghost use Rattle.std.specs.Prelude.{◌≡◌, ◌<◌, length};
ghost use Rattle.std.specs.List.{list_all, range_with_len};
ghost use Rattle.lat_base.specs.Shape.{target_count};
ghost use Rattle.deck_state.specs.PartialDeck.{PartialDeck};
ghost use Rattle.close_rules.specs.Evading.{is_decided, keeps_totals, is_left, keeps_contest, evades};

use crate::kept::keeps_total;
use deck_state::Partial;
use lat_base::Shape;
use lat_misassign::Misassignment;

// Whether each mark in contest c is decided: as many targets are marked as may be.
fn is_decided(state: &Partial, c: u16) -> bool
    requires { c < length state.now.contests }
    ensures { result ≡ is_decided state.now c }
{
    for j in 0..state.ballots() {
        if state.marked_in(j, c) != state.possible_in(j, c) {
            return false;
        }
    }
    true
}

// Whether each target of contest c counts for itself.
fn is_left(shape: &Shape, s: &Misassignment, c: u16) -> bool
    requires contest { c < length shape.now }
    requires targets { length s.now ≡ target_count shape.now }
    ensures { result ≡ is_left shape.now s.now c }
{
    let _targets = shape.targets();
    let first = shape.first_of(c);
    for i in 0..shape.contest(c).targets {
        if s.source(first + i) != first + i {
            return false;
        }
    }
    true
}

// Whether each mark in contest c is decided, and each total in it the same.
fn keeps_totals(state: &Partial, s: &Misassignment, c: u16) -> bool
    requires contest { c < length state.now.contests }
    requires targets { length s.now ≡ target_count state.now.contests }
    ensures { result ≡ keeps_totals state.now s.now c }
{
    if !is_decided(state, c) {
        return false;
    }
    let first = state.shape().first_of(c);
    for i in 0..state.shape().contest(c).targets {
        if !keeps_total(state, s, first + i) {
            return false;
        }
    }
    true
}

// Whether contest c is left as it is, or decided and keeps its totals.
fn keeps_contest(state: &Partial, s: &Misassignment, c: u16) -> bool
    requires contest { c < length state.now.contests }
    requires targets { length s.now ≡ target_count state.now.contests }
    ensures { result ≡ keeps_contest state.now s.now c }
{
    is_left(state.shape(), s, c) || keeps_totals(state, s, c)
}

// Whether each contest is left as it is, or decided and keeps its totals.
fn keeps_contests(state: &Partial, s: &Misassignment) -> bool
    requires { length s.now ≡ target_count state.now.contests }
    ensures { result
        ≡ list_all (keeps_contest state.now s.now) (range_with_len 0 (length state.now.contests)) }
{
    for c in 0..state.shape().contests() {
        if !keeps_contest(state, s, c) {
            return false;
        }
    }
    true
}

// Whether a misassignment of as many targets isn't the identity, and each contest that it doesn't
// leave as it is keeps its totals.
fn moves_unseen(state: &Partial, s: &Misassignment) -> bool
    requires { length s.now ≡ target_count state.now.contests }
    ensures { result ≡ evades state.now s.now }
{
    let _sources = s.len();
    !s.is_identity() && keeps_contests(state, s)
}

/// Whether a misassignment isn't the identity, and each contest that it doesn't leave as it is
/// keeps its totals.
pub fn evades(state: &Partial, s: &Misassignment) -> bool
    ensures { result ≡ evades state.now s.now }
{
    s.len() == state.shape().targets() && moves_unseen(state, s)
}
