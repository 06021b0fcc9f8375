ghost use Rattle.std.specs.Prelude.{◌≡◌, ◌<◌};
ghost use Rattle.std.specs.List.{list_all};
ghost use Rattle.lat_base.specs.Shape.{target_count};
ghost use Rattle.deck_state.specs.PartialDeck.{PartialDeck};
ghost use Rattle.close_rules.specs.Columns.{is_same, has_same, have_same_columns, has_few_columns};

use deck_state::{Mark, Partial};

// Whether two marks are decided and the same.
fn is_same(mark: Mark, other: Mark) -> bool
    ensures { result ≡ is_same mark other }
{
    match (mark, other) {
        (Mark::Marked, Mark::Marked) => true,
        (Mark::Unmarked, Mark::Unmarked) => true,
        _ => false,
    }
}

// Whether the marks of t and u are decided and the same on every ballot.
fn agree_everywhere(state: &Partial, t: u16, u: u16) -> bool
    requires first { t < target_count state.now.contests }
    requires second { u < target_count state.now.contests }
    ensures { result ≡ list_all (has_same t u) state.now.marks }
{
    for j in 0..state.ballots() {
        if !is_same(state.mark(j, t), state.mark(j, u)) {
            return false;
        }
    }
    true
}

/// Whether two targets have marks that are decided and the same on every ballot.
pub fn have_same_columns(state: &Partial, t: u16, u: u16) -> bool
    ensures { result ≡ have_same_columns state.now t u }
{
    let targets = state.shape().targets();
    t < targets && u < targets && t != u && agree_everywhere(state, t, u)
}

/// Whether there are fewer columns of marks than targets.
pub fn has_few_columns(state: &Partial) -> bool
    ensures { result ≡ has_few_columns state.now }
{
    let ballots = state.ballots();
    ballots < 8 && (1u16 << ballots) < state.shape().targets()
}
