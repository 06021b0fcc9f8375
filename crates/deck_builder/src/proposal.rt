ghost use Rattle.std.specs.Prelude.{◌≡◌, ◌<◌, ◌≤◌, ◌+◌, ◌↔◌, None, length, IfOk, IfSome};
ghost use Rattle.lat_base.specs.Rules.{Obeys};
ghost use Rattle.lat_base.specs.Shape.{target_count};
ghost use Rattle.lat_base.specs.declared.limits.TheConstants.{MOST_BALLOTS};
ghost use Rattle.lat_ballots.specs.Deck.{mark_at, ballot_at};
ghost use Rattle.deck_builder.specs.Pattern.{pattern, pattern_deck, CanPropose};
ghost use Rattle.deck_builder.specs.Runs.{runs_of, with_ballot};

use crate::counts::working_ballots;
use crate::fitting::can_propose;
use crate::laid::is_laid;
use crate::runs::{Run, runs};
use lat_ballots::Deck;
use lat_base::{Rules, Shape};
use std::alloc::{AllocError, Global};

// Whether ballot j of the pattern marks target t.
fn has_mark(runs: &[Run], rules: &Rules, shape: &Shape, k: u16, turn: u32, j: u16, t: u16) -> bool
    requires fits { CanPropose shape.now rules.now k turn }
    requires runs { let p = pattern shape.now rules.now k turn in
        runs.now ≡ runs_of p (target_count shape.now) }
    requires few { k ≤ MOST_BALLOTS }
    requires ballot { j < k }
    requires target { t < target_count shape.now }
    ensures { result ≡ mark_at (pattern_deck (pattern shape.now rules.now k turn)) j t }
{
    let over = rules.over();
    let working = working_ballots(rules, k);
    if j < over {
        return true;
    }
    if j - over >= working {
        return false;
    }
    let run = runs[usize::from(t)];
    is_laid(working, run.place, run.marks, j - over)
}

// Sets the marks of ballot j to those of the pattern.
fn set_ballot(
    deck: &mut Deck,
    runs: &[Run],
    rules: &Rules,
    shape: &Shape,
    k: u16,
    turn: u32,
    j: u16,
)
    requires fits { CanPropose shape.now rules.now k turn }
    requires runs { let p = pattern shape.now rules.now k turn in
        runs.now ≡ runs_of p (target_count shape.now) }
    requires few { k ≤ MOST_BALLOTS }
    requires ballot { j < k }
    requires ballots { length deck.old.ballots ≡ k }
    requires targets { deck.old.targets ≡ target_count shape.now }
    ensures { let whole = pattern_deck (pattern shape.now rules.now k turn) in
        deck.new ≡ with_ballot deck.old j (ballot_at whole j) }
{
    let _targets = deck.targets();
    for t in 0..shape.targets() {
        deck.set(j, t, has_mark(runs, rules, shape, k, turn, j, t));
    }
}

// The deck of a pattern that fits.
fn lay(alloc: Global, shape: &Shape, rules: &Rules, k: u16, turn: u32) -> Result<Deck, AllocError>
    requires few { k ≤ MOST_BALLOTS }
    requires fits { CanPropose shape.now rules.now k turn }
    ensures deck { IfOk result (λ deck. deck ≡ pattern_deck (pattern shape.now rules.now k turn)) }
    ensures size { IfOk result (λ deck. length deck.ballots ≡ k) }
    ensures obeys { IfOk result (λ deck. Obeys shape.now rules.now deck.ballots) }
{
    let runs = runs(alloc, shape, rules, k, turn)?;
    let mut deck = Deck::blank(alloc, shape, k)?;
    for j in 0..k {
        set_ballot(&mut deck, runs.as_slice(), rules, shape, k, turn, j);
    }
    Ok(deck)
}

/// The deck of pattern number `turn` with `k` ballots, or None where there is no pattern of that
/// number (there are 32) or it doesn't fit `k` ballots. The deck obeys the rules. The only error is
/// want of memory.
///
/// `over` ballots are marked everywhere and come first, `blank` ones nowhere and come last. On
/// those between, the targets of a contest are marked as often as the mode says, one after the
/// other, going round.
pub fn propose(
    alloc: Global,
    shape: &Shape,
    rules: &Rules,
    k: u16,
    turn: u32,
) -> Result<Option<Deck>, AllocError>
    requires { k ≤ MOST_BALLOTS }
    ensures none { IfOk result (λ proposed.
        (proposed ≡ None) ↔ ¬ CanPropose shape.now rules.now k turn) }
    ensures deck { let whole = pattern_deck (pattern shape.now rules.now k turn) in
        IfOk result (λ proposed. IfSome proposed (λ deck. deck ≡ whole)) }
    ensures size { IfOk result (λ proposed. IfSome proposed (λ deck. length deck.ballots ≡ k)) }
    ensures obeys { IfOk result (λ proposed.
        IfSome proposed (λ deck. Obeys shape.now rules.now deck.ballots)) }
{
    if !can_propose(shape, rules, k, turn) {
        return Ok(None);
    }
    let deck = lay(alloc, shape, rules, k, turn)?;
    Ok(Some(deck))
}
