ghost use Rattle.std.specs.Prelude.{◌≡◌, ◌<◌, ◌≤◌, ◌+◌, ℕ, length, min};
ghost use Rattle.std.specs.List.{range_with_len, sum};
ghost use Rattle.lat_base.specs.declared.limits.TheConstants.{MOST_IN_CONTEST};
ghost use Rattle.deck_state.specs.PartialDeck.{PartialDeck};
ghost use Rattle.close_rules.specs.Pigeon.{rising_lists, lists_of_totals, alike_count, has_few_lists};

use crate::totals::most_voting;
use deck_state::Partial;

// How many contests have the limit and number of targets of contest c.
fn count_alike(state: &Partial, c: u16) -> u16
    requires { c < length state.now.contests }
    ensures { result ≡ alike_count state.now c }
{
    let shape = state.shape();
    let contest = shape.contest(c);
    let mut alike: u16 = 0;
    for d in 0..shape.contests() {
        alike += u16::from(contest == shape.contest(d));
    }
    alike
}

// The sum of n numbers from one on: the least sum of a rising list.
fn least_sum(from: u16, n: u16) -> u32
    requires low { from ≤ MOST_IN_CONTEST }
    requires few { n ≤ MOST_IN_CONTEST }
    ensures { result ≡ sum (range_with_len from n) }
{
    let mut sum: u32 = 0;
    for i in 0..n {
        sum += u32::from(from + i);
    }
    sum
}

// How many strictly rising lists of n numbers there are where `gap` numbers are left out and the
// sum is at most `spare` above the least, or `most` where there are more. It stops once there are
// as many: each list takes at most n calls, and no call is in vain.
fn count_lists(most: u16, n: u16, gap: u16, spare: u32) -> u16
    requires short { n + gap ≤ 2048 }
    ensures few { result ≤ most }
    ensures count { (from : ℕ) →
        let room = sum (range_with_len from n) + spare in
        result ≡ min most (length (rising_lists n from (n + gap) room)) }
{
    if n == 0 {
        return most.min(1);
    }
    let with_first = count_lists(most, n - 1, gap, spare);
    if with_first == most {
        return with_first;
    }
    if gap == 0 || spare < u32::from(n) {
        return with_first;
    }
    with_first + count_lists(most - with_first, n, gap - 1, spare - u32::from(n))
}

// How many lists of totals there are for contests of the shape of contest c, or `most` where there
// are more.
fn count_totals(state: &Partial, c: u16, most: u16) -> u16
    requires { c < length state.now.contests }
    ensures { result ≡ min most (length (lists_of_totals state.now c)) }
{
    let contest = state.shape().contest(c);
    let voting = most_voting(state, c);
    let least = state.rules().least();
    let needed = least_sum(least, contest.targets);
    let room = u32::from(contest.limit) * u32::from(voting);
    if voting + 1 < least + contest.targets || room < needed {
        return 0;
    }
    count_lists(
        most,
        contest.targets,
        voting + 1 - least - contest.targets,
        room - needed,
    )
}

// Whether there are more contests of the shape of contest c, which there is, than lists of totals.
fn are_too_many(state: &Partial, c: u16) -> bool
    requires { c < length state.now.contests }
    ensures { result ≡ has_few_lists state.now c }
{
    let alike = count_alike(state, c);
    count_totals(state, c, alike) < alike
}

/// Whether there are more contests of the shape of contest `c` than lists of totals for them.
pub fn has_few_lists(state: &Partial, c: u16) -> bool
    ensures { result ≡ has_few_lists state.now c }
{
    c < state.shape().contests() && are_too_many(state, c)
}
