ghost use Rattle.std.specs.Prelude.{◌≡◌, ◌<◌, ℕ, List};

use crate::allowing::is_allowed;
use close_rules::{Label, Reason, refutes};
use deck_state::Partial;
use tree_core::Space;

/// The space of partial decks. A solution of one is a good canonical deck that it can become, as
/// the list of its marks ballot by ballot, 1 for marked and 0 for unmarked. No call takes memory.
#[derive(Debug, Drop)]
pub struct Decks;

impl Decks {
    /// The space.
    pub fn new() -> Decks {
        Decks
    }
}

impl Space for Decks {
    type State = Partial;

    type Label = Label;

    type Reason = Reason;

    ghost use Rattle.deck_state.specs.Shown.{IsComplete};
    ghost use Rattle.deck_state.specs.Trail.{IsPartial};
    ghost use Rattle.deck_space.specs.Numbers.{marks_as_numbers};
    ghost use Rattle.deck_space.specs.Steps.{deck_steps, Solves};

    ghost steps = { λ _. deck_steps };

    ghost is_own = { λ _ p. IsPartial p };

    ghost is_solution = { λ _ p v. Solves p v };

    ghost is_complete = { λ _ p. IsComplete p };

    ghost value = { λ _ p. marks_as_numbers p };

    fn closes(&self, state: &Partial, reason: &Reason) -> bool {
        refutes(state, reason)
    }

    fn arity(&self, state: &Partial, label: &Label) -> Option<u16> {
        if is_allowed(state, label) {
            Some(2)
        } else {
            None
        }
    }

    fn enter(&self, state: &mut Partial, label: &Label, kid: u16) {
        match label {
            Label::Mark(j, t) => state.decide(*j, *t, kid == 0),
            Label::Split(t, x) => {
                if kid == 0 {
                    let low = state.lo(*t);
                    state.narrow(*t, low, *x - 1);
                } else {
                    let high = state.hi(*t);
                    state.narrow(*t, *x, high);
                }
            }
        }
    }

    fn leave(&self, state: &mut Partial) {
        state.undo();
    }

    fn laws(&self) {}
}
