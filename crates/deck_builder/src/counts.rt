ghost use Rattle.std.specs.Prelude.{◌≡◌, ◌<◌, ◌≤◌, ◌-◌, length};
ghost use Rattle.std.specs.List.{range_with_len, sum};
ghost use Rattle.lat_base.specs.declared.limits.TheConstants.{MOST_BALLOTS, MOST_CONTESTS, MOST_IN_CONTEST, MOST_TARGETS};
ghost use Rattle.deck_builder.specs.Pattern.{pattern, alike_before, earlier, first_count, spare, gap, is_raised};
ghost use Rattle.deck_builder.specs.Runs.{marking_of, raise_by, marks_of};

use crate::mode::{Mode, mode_of};
use lat_base::{Rules, Shape};

// How many contests before c have its limit and number of targets.
fn alike_before(shape: &Shape, c: u16) -> u16
    requires { c < length shape.now }
    ensures value { result ≡ alike_before shape.now c }
    ensures few { result ≤ MOST_CONTESTS }
{
    let _contests = shape.contests();
    let contest = shape.contest(c);
    let mut alike: u16 = 0;
    for d in 0..c {
        alike += u16::from(shape.contest(d) == contest);
    }
    alike
}

// How many contests or targets before contest c make its counts greater.
fn earlier(shape: &Shape, mode: Mode, c: u16) -> u16
    requires { c < length shape.now }
    ensures value { result ≡ earlier mode shape.now c }
    ensures few { result ≤ MOST_TARGETS }
{
    let _targets = shape.targets();
    match mode {
        Mode::Apart => shape.first_of(c),
        _ => alike_before(shape, c),
    }
}

/// The count of the first target of contest `c` before any is raised.
pub fn first_count(shape: &Shape, rules: &Rules, k: u16, turn: u32, c: u16) -> u16
    requires { c < length shape.now }
    ensures value { result ≡ first_count (pattern shape.now rules.now k turn) c }
    ensures few { result ≤ 320 }
{
    let earlier = earlier(shape, mode_of(turn), c);
    rules.least() + earlier
}

/// The sum of `n` numbers from one on.
pub fn least_sum(from: u16, n: u16) -> u32
    requires low { from ≤ 320 }
    requires few { n ≤ MOST_IN_CONTEST }
    ensures { result ≡ sum (range_with_len from n) }
{
    let mut sum: u32 = 0;
    for i in 0..n {
        sum += u32::from(from + i);
    }
    sum
}

/// How many ballots are neither wholly marked nor blank.
pub fn working_ballots(rules: &Rules, k: u16) -> u16
    requires { k ≤ MOST_BALLOTS }
    ensures value { result ≡ k - rules.now.over - rules.now.blank }
    ensures few { result ≤ MOST_BALLOTS }
{
    k.saturating_sub(rules.over()).saturating_sub(rules.blank())
}

// How many votes are left in contest c.
fn spare(shape: &Shape, rules: &Rules, k: u16, turn: u32, c: u16) -> u32
    requires contest { c < length shape.now }
    requires few { k ≤ MOST_BALLOTS }
    ensures value { result ≡ spare (pattern shape.now rules.now k turn) c }
{
    let _contests = shape.contests();
    let contest = shape.contest(c);
    let first = first_count(shape, rules, k, turn, c);
    let needed = least_sum(first, contest.targets);
    let room = u32::from(contest.limit) * u32::from(working_ballots(rules, k));
    room.saturating_sub(needed)
}

// How far each count of contest c can be raised.
fn gap(shape: &Shape, rules: &Rules, k: u16, turn: u32, c: u16) -> u16
    requires contest { c < length shape.now }
    requires few { k ≤ MOST_BALLOTS }
    ensures value { result ≡ gap (pattern shape.now rules.now k turn) c }
    ensures few { result ≤ 1025 }
{
    let ballots = working_ballots(rules, k) + 1;
    let first = first_count(shape, rules, k, turn, c);
    ballots
        .saturating_sub(first)
        .saturating_sub(shape.contest(c).targets)
}

/// How often the targets of a contest are marked: the count of the first before any is raised, how
/// far each can be raised, and how many votes are left.
#[derive(Clone, Copy, Debug)]
pub struct Marking {
    pub mode: Mode,
    pub targets: u16,
    pub first: u16,
    pub gap: u16,
    pub spare: u32,
}

/// How often the targets of contest `c` are marked.
pub fn marking_in(shape: &Shape, rules: &Rules, k: u16, turn: u32, c: u16) -> Marking
    requires contest { c < length shape.now }
    requires few { k ≤ MOST_BALLOTS }
    ensures value { result ≡ marking_of (pattern shape.now rules.now k turn) c }
    ensures low { result.first ≤ 320 }
    ensures near { result.gap ≤ 1025 }
{
    Marking {
        mode: mode_of(turn),
        targets: shape.contest(c).targets,
        first: first_count(shape, rules, k, turn, c),
        gap: gap(shape, rules, k, turn, c),
        spare: spare(shape, rules, k, turn, c),
    }
}

// Whether the count of a target is raised after which so many of its contest come.
fn is_raised(mode: Mode, after: u16) -> bool
    ensures { result ≡ is_raised mode after }
{
    match mode {
        Mode::Filled => true,
        Mode::LastFilled => after == 0,
        Mode::Least | Mode::Apart => false,
    }
}

// By how much a count is raised after which so many of its contest come.
fn raise(marking: Marking, after: u16) -> u16
    requires within { after ≤ MOST_IN_CONTEST }
    requires near { marking.gap ≤ 1025 }
    ensures value { result ≡ raise_by marking after }
    ensures few { result ≤ 1025 }
{
    if is_raised(marking.mode, after) {
        let gap = u32::from(marking.gap);
        let left = marking.spare.saturating_sub(u32::from(after) * gap);
        gap.min(left) as u16
    } else {
        0
    }
}

/// How often target `i` of the contest is marked.
pub fn marks(marking: Marking, i: u16) -> u16
    requires few { marking.targets ≤ MOST_IN_CONTEST }
    requires target { i < marking.targets }
    requires low { marking.first ≤ 320 }
    requires near { marking.gap ≤ 1025 }
    ensures value { result ≡ marks_of marking i }
    ensures few { result ≤ 1409 }
{
    let more = raise(marking, marking.targets - 1 - i);
    marking.first + i + more
}
