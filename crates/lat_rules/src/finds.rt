ghost use Rattle.std.specs.Prelude.{◌≡◌, ◌<◌, ◌+◌, length};
ghost use Rattle.std.specs.List.{range_with_len};
ghost use Rattle.lat_base.specs.Shape.{target_count};
ghost use Rattle.lat_base.specs.Rules.{is_blank};
ghost use Rattle.lat_ballots.specs.Deck.{ballot_at};
ghost use Rattle.lat_rules.specs.Broken.{blank_count, over_count, first_broken, broken_blank};
ghost use Rattle.lat_rules.specs.Broken.{broken_over, broken_least, broken_pair, broken_equal};
ghost use Rattle.lat_rules.specs.Broken.{broken_distinct};

use crate::Broken;
use lat_ballots::Deck;
use lat_base::{Rules, Shape};
use lat_tabulate::{mark_count, total};

// Whether ballot j has no mark.
fn is_blank(deck: &Deck, j: u16) -> bool
    requires { j < length deck.now.ballots }
    ensures { result ≡ is_blank (ballot_at deck.now j) }
{
    for t in 0..deck.targets() {
        if deck.is_marked(j, t) {
            return false;
        }
    }
    true
}

fn count_blank(deck: &Deck) -> u32
    ensures { result ≡ blank_count deck.now.ballots }
{
    let mut count: u32 = 0;
    for j in 0..deck.ballots() {
        if is_blank(deck, j) {
            count += 1;
        }
    }
    count
}

// On how many ballots contest c is overvoted.
fn count_over(shape: &Shape, deck: &Deck, c: u16) -> u32
    requires contest { c < length shape.now }
    requires targets { deck.now.targets ≡ target_count shape.now }
    ensures { result ≡ over_count shape.now deck.now.ballots c }
{
    let limit = shape.contest(c).limit;
    let mut count: u32 = 0;
    for j in 0..deck.ballots() {
        if mark_count(shape, deck, j, c) > limit {
            count += 1;
        }
    }
    count
}

/// Too few blank ballots.
pub fn find_blank(rules: &Rules, deck: &Deck) -> Option<Broken>
    ensures { result ≡ broken_blank rules.now deck.now.ballots }
{
    let count = count_blank(deck);
    if count < u32::from(rules.blank()) {
        return Some(Broken::Blank(count));
    }
    None
}

// Contest c, where it can be overvoted and is so on too few ballots.
fn over_at(shape: &Shape, rules: &Rules, deck: &Deck, c: u16) -> Option<Broken>
    requires contest { c < length shape.now }
    requires targets { deck.now.targets ≡ target_count shape.now }
    ensures { result ≡ broken_over shape.now rules.now deck.now.ballots c }
{
    let contest = shape.contest(c);
    if contest.limit < contest.targets {
        let count = count_over(shape, deck, c);
        if count < u32::from(rules.over()) {
            return Some(Broken::Over(c, count));
        }
    }
    None
}

/// The first contest that can be overvoted and is so on too few ballots.
#[tactic(auto, using(crate::proofs::First::first_here, crate::proofs::First::first_later, crate::proofs::First::first_end))]
pub fn find_over(shape: &Shape, rules: &Rules, deck: &Deck) -> Option<Broken>
    requires { deck.now.targets ≡ target_count shape.now }
    ensures { result ≡ first_broken (broken_over shape.now rules.now deck.now.ballots)
        (range_with_len 0 (length shape.now)) }
{
    for c in 0..shape.contests() {
        if let Some(broken) = over_at(shape, rules, deck, c) {
            return Some(broken);
        }
    }
    None
}

// Target t, where it has too few votes.
fn least_at(shape: &Shape, rules: &Rules, deck: &Deck, t: u16) -> Option<Broken>
    requires target { t < target_count shape.now }
    requires targets { deck.now.targets ≡ target_count shape.now }
    ensures { result ≡ broken_least shape.now rules.now deck.now.ballots t }
{
    let votes = total(shape, deck, t);
    if votes < u32::from(rules.least()) {
        return Some(Broken::Least(t, votes));
    }
    None
}

/// The first target with too few votes.
#[tactic(auto, using(crate::proofs::First::first_here, crate::proofs::First::first_later, crate::proofs::First::first_end))]
pub fn find_least(shape: &Shape, rules: &Rules, deck: &Deck) -> Option<Broken>
    requires { deck.now.targets ≡ target_count shape.now }
    ensures { result ≡ first_broken (broken_least shape.now rules.now deck.now.ballots)
        (range_with_len 0 (target_count shape.now)) }
{
    for t in 0..shape.targets() {
        if let Some(broken) = least_at(shape, rules, deck, t) {
            return Some(broken);
        }
    }
    None
}

// The targets t and u, where they have equal totals.
fn pair_at(shape: &Shape, deck: &Deck, t: u16, u: u16) -> Option<Broken>
    requires first { t < target_count shape.now }
    requires second { u < target_count shape.now }
    requires targets { deck.now.targets ≡ target_count shape.now }
    ensures { result ≡ broken_pair shape.now deck.now.ballots t u }
{
    let votes = total(shape, deck, t);
    if votes == total(shape, deck, u) {
        return Some(Broken::Equal(t, u, votes));
    }
    None
}

// The first later target of the same contest with the total of t.
#[tactic(auto, using(crate::proofs::First::first_here, crate::proofs::First::first_later, crate::proofs::First::first_end))]
fn equal_at(shape: &Shape, deck: &Deck, t: u16) -> Option<Broken>
    requires target { t < target_count shape.now }
    requires targets { deck.now.targets ≡ target_count shape.now }
    ensures { result ≡ broken_equal shape.now deck.now.ballots t }
{
    let _contests = shape.contests();
    let last = shape.first_of(shape.contest_of(t) + 1);
    for u in t + 1..last {
        if let Some(broken) = pair_at(shape, deck, t, u) {
            return Some(broken);
        }
    }
    None
}

// The first pair of targets of one contest with equal totals.
#[tactic(auto, using(crate::proofs::First::first_here, crate::proofs::First::first_later, crate::proofs::First::first_end))]
fn find_equal(shape: &Shape, deck: &Deck) -> Option<Broken>
    requires { deck.now.targets ≡ target_count shape.now }
    ensures { result ≡ first_broken (broken_equal shape.now deck.now.ballots)
        (range_with_len 0 (target_count shape.now)) }
{
    for t in 0..shape.targets() {
        if let Some(broken) = equal_at(shape, deck, t) {
            return Some(broken);
        }
    }
    None
}

/// The first pair of targets of one contest with equal totals, where totals must differ.
pub fn find_distinct(shape: &Shape, rules: &Rules, deck: &Deck) -> Option<Broken>
    requires { deck.now.targets ≡ target_count shape.now }
    ensures { result ≡ broken_distinct shape.now rules.now deck.now.ballots }
{
    if rules.distinct() {
        find_equal(shape, deck)
    } else {
        None
    }
}
