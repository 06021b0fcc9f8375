ghost use Rattle.std.specs.Prelude.{◌≡◌, ◌<◌, ◌≤◌, length};
ghost use Rattle.lat_base.specs.declared.limits.TheConstants.{MOST_BALLOTS};
ghost use Rattle.deck_state.specs.PartialDeck.{PartialDeck};
ghost use Rattle.close_rules.specs.Totals.{is_above, least_totals, highs, most_voting, has_no_totals};

use deck_state::Partial;

/// How many ballots can vote in contest `c`: those that needn't be blank nor overvoted in it.
pub fn most_voting(state: &Partial, c: u16) -> u16
    requires { c < length state.now.contests }
    ensures value { result ≡ most_voting state.now c }
    ensures few { result ≤ MOST_BALLOTS }
{
    let rules = state.rules();
    let rest = state.ballots().saturating_sub(rules.blank());
    if state.shape().can_overvote(c) {
        rest.saturating_sub(rules.over())
    } else {
        rest
    }
}

// Whether some least total of contest c is above what its total can be.
fn is_above(state: &Partial, c: u16) -> bool
    requires { c < length state.now.contests }
    ensures { result
        ≡ is_above (most_voting state.now c) (least_totals state.now c) (highs state.now c) }
{
    let most = most_voting(state, c);
    let first = state.shape().first_of(c);
    let targets = state.shape().contest(c).targets;
    let mut from = state.rules().least();
    for i in 0..targets {
        let least = from.max(state.lo(first + i));
        if state.hi(first + i) < least || most < least {
            return true;
        }
        from = least + 1;
    }
    false
}

/// Whether some least total of contest `c` is above what its total can be.
pub fn has_no_totals(state: &Partial, c: u16) -> bool
    ensures { result ≡ has_no_totals state.now c }
{
    c < state.shape().contests() && is_above(state, c)
}
