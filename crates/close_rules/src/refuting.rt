ghost use Rattle.std.specs.Prelude.{◌≡◌};
ghost use Rattle.deck_state.specs.PartialDeck.{PartialDeck};
ghost use Rattle.close_rules.specs.Refutes.{refutes};

use crate::Reason;
use crate::ballots::{lacks_blank, lacks_overvoted};
use crate::capacity::has_no_capacity;
use crate::columns::{has_few_columns, have_same_columns};
use crate::evading::evades;
use crate::fixed::{are_out_of_order, are_twins};
use crate::order::is_out_of_order;
use crate::pigeon::has_few_lists;
use crate::totals::has_no_totals;
use deck_state::Partial;

/// Whether the reason holds of the partial deck, so that no good canonical deck is left in it. A
/// reason with a number out of range, or with a misassignment of another number of targets,
/// doesn't.
pub fn refutes(state: &Partial, reason: &Reason) -> bool
    ensures { result ≡ refutes state.now reason.now }
{
    match reason {
        Reason::Order(j) => is_out_of_order(state, *j),
        Reason::Totals(c) => has_no_totals(state, *c),
        Reason::Capacity(c) => has_no_capacity(state, *c),
        Reason::Blank => lacks_blank(state),
        Reason::Over(c) => lacks_overvoted(state, *c),
        Reason::Twin(c, d) => are_twins(state, *c, *d),
        Reason::ContestOrder(c, d) => are_out_of_order(state, *c, *d),
        Reason::Pigeon(c) => has_few_lists(state, *c),
        Reason::Columns => has_few_columns(state),
        Reason::Same(t, u) => have_same_columns(state, *t, *u),
        Reason::Evade(s) => evades(state, s),
    }
}
