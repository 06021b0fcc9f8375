ghost use Rattle.std.specs.Prelude.{◌≡◌, ◌<◌, ℕ, true, false, None, Some, length};
ghost use Rattle.lat_base.specs.Shape.{target_count};
ghost use Rattle.deck_state.specs.Mark.{is_undecided};
ghost use Rattle.deck_state.specs.PartialDeck.{PartialDeck, mark_at};
ghost use Rattle.deck_state.specs.Shown.{IsComplete};
ghost use Rattle.close_rules.specs.declared.label.Label.{Label};
ghost use Rattle.close_rules.specs.Moves.{is_allowed};

use crate::forks::preferred;
use close_rules::Label;
use deck_space::is_allowed;
use deck_state::{Mark, Partial};

// The first target whose mark on ballot j is undecided.
fn first_undecided(state: &Partial, j: u16) -> Option<u16>
    requires { j < state.now.ballots }
    ensures some { (t : ℕ) → result ≡ Some t → is_allowed state.now (Label.Mark j t) ≡ true }
    ensures none { result ≡ None → (t : ℕ) → t < target_count state.now.contests →
        is_undecided (mark_at state.now j t) ≡ false }
{
    for t in 0..state.shape().targets() {
        if matches!(state.mark(j, t), Mark::Undecided) {
            return Some(t);
        }
    }
    None
}

// The first mark that is undecided, or None where the deck is complete.
fn first_label(state: &Partial) -> Option<Label>
    ensures some { (l : Label) → result ≡ Some l → is_allowed state.now l ≡ true }
    ensures none { result ≡ None → IsComplete state.now }
{
    for j in 0..state.ballots() {
        if let Some(t) = first_undecided(state, j) {
            return Some(Label::Mark(j, t));
        }
    }
    None
}

/// A label to fork on, or None where the deck is complete.
pub(crate) fn next_label(state: &Partial) -> Option<Label>
    ensures some { (l : Label) → result ≡ Some l → is_allowed state.now l ≡ true }
    ensures none { result ≡ None → IsComplete state.now }
{
    if let Some(label) = preferred(state) {
        if is_allowed(state, &label) {
            return Some(label);
        }
    }
    first_label(state)
}
