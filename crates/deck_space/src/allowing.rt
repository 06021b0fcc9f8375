ghost use Rattle.std.specs.Prelude.{◌≡◌};
ghost use Rattle.close_rules.specs.Moves.{is_allowed};

use close_rules::Label;
use deck_state::{Mark, Partial};

/// Whether the label can be chosen at the partial deck: the mark is there and undecided, or the
/// number is above the least total that is still possible and at most the greatest.
pub fn is_allowed(state: &Partial, label: &Label) -> bool
    ensures { result ≡ is_allowed state.now label.now }
{
    let targets = state.shape().targets();
    match label {
        Label::Mark(j, t) => {
            *j < state.ballots() && *t < targets && matches!(state.mark(*j, *t), Mark::Undecided)
        }
        Label::Split(t, x) => *t < targets && state.lo(*t) < *x && *x <= state.hi(*t),
    }
}
