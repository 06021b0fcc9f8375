ghost use Rattle.std.specs.Prelude.{◌≤◌, ◌<◌, ◌↔◌, length, IsTrue};
ghost use Rattle.lat_base.specs.declared.limits.TheConstants.{MOST_BALLOTS};
ghost use Rattle.deck_builder.specs.Pattern.{pattern, FitsContest, CanPropose};

use crate::counts::{first_count, least_sum, working_ballots};
use crate::mode::PATTERNS;
use lat_base::{Rules, Shape};

// Whether in contest c the last count is at most the working ballots, and there are votes for all.
fn fits_contest(shape: &Shape, rules: &Rules, k: u16, turn: u32, c: u16) -> bool
    requires contest { c < length shape.now }
    requires few { k ≤ MOST_BALLOTS }
    ensures { IsTrue result ↔ FitsContest (pattern shape.now rules.now k turn) c }
{
    let _contests = shape.contests();
    let contest = shape.contest(c);
    let first = first_count(shape, rules, k, turn, c);
    let working = working_ballots(rules, k);
    first + contest.targets <= working + 1
        && least_sum(first, contest.targets) <= u32::from(contest.limit) * u32::from(working)
}

/// Whether there is a pattern of that number, and it fits `k` ballots.
pub fn can_propose(shape: &Shape, rules: &Rules, k: u16, turn: u32) -> bool
    requires { k ≤ MOST_BALLOTS }
    ensures { IsTrue result ↔ CanPropose shape.now rules.now k turn }
{
    if turn >= PATTERNS || k < rules.over() + rules.blank() {
        return false;
    }
    for c in 0..shape.contests() {
        if !fits_contest(shape, rules, k, turn, c) {
            return false;
        }
    }
    true
}
