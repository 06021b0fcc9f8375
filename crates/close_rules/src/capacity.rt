ghost use Rattle.std.specs.Prelude.{◌≡◌, ◌<◌, ◌≤◌, length, count_by, nat_lt};
ghost use Rattle.std.specs.List.{sum};
ghost use Rattle.lat_base.specs.Shape.{contest_at};
ghost use Rattle.deck_state.specs.PartialDeck.{PartialDeck};
ghost use Rattle.close_rules.specs.Totals.{least_totals};
ghost use Rattle.close_rules.specs.Capacity.{most_votes, capacity, has_no_capacity};

use crate::totals::most_voting;
use deck_state::Partial;

// How many ballots can give more than so many votes in contest c, below its limit.
fn count_above(state: &Partial, c: u16, votes: u16) -> u16
    requires contest { c < length state.now.contests }
    requires below { votes < (contest_at state.now.contests c).limit }
    ensures { result ≡
        count_by (λ row. nat_lt votes (most_votes state.now.contests c row)) state.now.marks }
{
    state.level(c, votes)
}

// How many votes contest c can have in all: the first votes of its ballots, the second ones, and
// so on.
fn capacity(state: &Partial, c: u16) -> u32
    requires { c < length state.now.contests }
    ensures { result ≡ capacity state.now c }
{
    let most = most_voting(state, c);
    let mut sum: u32 = 0;
    for votes in 0..state.shape().contest(c).limit {
        sum += u32::from(most.min(count_above(state, c, votes)));
    }
    sum
}

// The sum of the least totals of contest c.
fn sum_of_least(state: &Partial, c: u16) -> u32
    requires { c < length state.now.contests }
    ensures { result ≡ sum (least_totals state.now c) }
{
    let first = state.shape().first_of(c);
    let targets = state.shape().contest(c).targets;
    let mut from = state.rules().least();
    let mut sum: u32 = 0;
    for i in 0..targets {
        let least = from.max(state.lo(first + i));
        sum += u32::from(least);
        from = least + 1;
    }
    sum
}

/// Whether the least totals of contest `c` are more votes than it can have.
pub fn has_no_capacity(state: &Partial, c: u16) -> bool
    ensures { result ≡ has_no_capacity state.now c }
{
    c < state.shape().contests() && capacity(state, c) < sum_of_least(state, c)
}
