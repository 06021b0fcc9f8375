ghost use Rattle.std.specs.Prelude.{◌≡◌, length};
ghost use Rattle.deck_state.specs.PartialDeck.{PartialDeck};
ghost use Rattle.close_rules.specs.Order.{is_smaller, is_out_of_order};

use deck_state::{Mark, Partial};

// Whether two rows are decided and equal up to a target at which the first is unmarked and the
// second marked.
fn is_smaller(row: &[Mark], other: &[Mark]) -> bool
    requires { length row.now ≡ length other.now }
    ensures { result ≡ is_smaller row.now other.now }
{
    for t in 0..row.len() {
        match (row[t], other[t]) {
            (Mark::Marked, Mark::Marked) => {}
            (Mark::Unmarked, Mark::Unmarked) => {}
            (Mark::Unmarked, Mark::Marked) => return true,
            _ => return false,
        }
    }
    false
}

/// Whether ballot `j` is smaller than the next, as far as both are decided.
pub fn is_out_of_order(state: &Partial, j: u16) -> bool
    ensures { result ≡ is_out_of_order state.now j }
{
    let ballots = state.ballots();
    j < ballots && j + 1 < ballots && is_smaller(state.row(j), state.row(j + 1))
}
