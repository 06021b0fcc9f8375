ghost use Rattle.std.specs.Prelude.{◌≡◌, ◌↔◌, ◌<◌, ℕ, None, Some, false, true, length};
ghost use Rattle.lat_base.specs.Shape.{target_count, contest_at};
ghost use Rattle.deck_state.specs.PartialDeck.{PartialDeck};
ghost use Rattle.close_rules.specs.declared.reason.Reason.{Reason};
ghost use Rattle.close_rules.specs.Refutes.{refutes, IsCheap, Closes};

use crate::fixed::is_fixed;
use crate::{Reason, refutes};
use deck_state::{Mark, Partial};

// The reason, where it holds.
fn tested(state: &Partial, reason: Reason) -> Option<Reason>
    requires { IsCheap reason }
    ensures none { result ≡ None → refutes state.now reason ≡ false }
    ensures some { (r : Reason) → result ≡ Some r → Closes state.now r }
{
    if refutes(state, &reason) {
        Some(reason)
    } else {
        None
    }
}

// A ballot that is out of order.
fn find_order(state: &Partial) -> Option<Reason>
    ensures none { result ≡ None → (j : ℕ) → refutes state.now (Reason.Order j) ≡ false }
    ensures some { (r : Reason) → result ≡ Some r → Closes state.now r }
{
    for j in 0..state.ballots() {
        if let Some(reason) = tested(state, Reason::Order(j)) {
            return Some(reason);
        }
    }
    None
}

// A contest whose totals can't be, or have no room, or that too few ballots overvote.
fn find_in_contest(state: &Partial, c: u16) -> Option<Reason>
    ensures none { result ≡ None →
        (refutes state.now (Reason.Totals c) ≡ false) ×
        (refutes state.now (Reason.Capacity c) ≡ false) ×
        (refutes state.now (Reason.Over c) ≡ false) }
    ensures some { (r : Reason) → result ≡ Some r → Closes state.now r }
{
    if let Some(reason) = tested(state, Reason::Totals(c)) {
        return Some(reason);
    }
    if let Some(reason) = tested(state, Reason::Capacity(c)) {
        return Some(reason);
    }
    tested(state, Reason::Over(c))
}

fn find_contest(state: &Partial) -> Option<Reason>
    ensures none { result ≡ None → (c : ℕ) →
        (refutes state.now (Reason.Totals c) ≡ false) ×
        (refutes state.now (Reason.Capacity c) ≡ false) ×
        (refutes state.now (Reason.Over c) ≡ false) }
    ensures some { (r : Reason) → result ≡ Some r → Closes state.now r }
{
    for c in 0..state.shape().contests() {
        if let Some(reason) = find_in_contest(state, c) {
            return Some(reason);
        }
    }
    None
}

// Two contests that are twins, or out of order.
fn find_in_pair(state: &Partial, c: u16, d: u16) -> Option<Reason>
    ensures none { result ≡ None →
        (refutes state.now (Reason.Twin c d) ≡ false) ×
        (refutes state.now (Reason.ContestOrder c d) ≡ false) }
    ensures some { (r : Reason) → result ≡ Some r → Closes state.now r }
{
    if let Some(reason) = tested(state, Reason::Twin(c, d)) {
        return Some(reason);
    }
    tested(state, Reason::ContestOrder(c, d))
}

// The same with a contest after c, whose totals are known.
fn find_pair_with(state: &Partial, c: u16) -> Option<Reason>
    requires { c < length state.now.contests }
    ensures none { result ≡ None → (d : ℕ) → c < d →
        (refutes state.now (Reason.Twin c d) ≡ false) ×
        (refutes state.now (Reason.ContestOrder c d) ≡ false) }
    ensures some { (r : Reason) → result ≡ Some r → Closes state.now r }
{
    let contests = state.shape().contests();
    for d in c + 1..contests {
        if let Some(reason) = find_in_pair(state, c, d) {
            return Some(reason);
        }
    }
    None
}

// The same with a contest after c.
fn find_pair_from(state: &Partial, c: u16) -> Option<Reason>
    requires { c < length state.now.contests }
    ensures none { result ≡ None → (d : ℕ) → c < d →
        (refutes state.now (Reason.Twin c d) ≡ false) ×
        (refutes state.now (Reason.ContestOrder c d) ≡ false) }
    ensures some { (r : Reason) → result ≡ Some r → Closes state.now r }
{
    if is_fixed(state, c) {
        find_pair_with(state, c)
    } else {
        None
    }
}

fn find_pair(state: &Partial) -> Option<Reason>
    ensures none { result ≡ None → (c d : ℕ) → c < d →
        (refutes state.now (Reason.Twin c d) ≡ false) ×
        (refutes state.now (Reason.ContestOrder c d) ≡ false) }
    ensures some { (r : Reason) → result ≡ Some r → Closes state.now r }
{
    for c in 0..state.shape().contests() {
        if let Some(reason) = find_pair_from(state, c) {
            return Some(reason);
        }
    }
    None
}

// Whether the mark of target t on the last ballot is undecided: then no target has the same marks
// yet.
fn ends_undecided(state: &Partial, t: u16) -> bool
    requires { t < target_count state.now.contests }
    ensures { result ≡ true → (u : ℕ) → refutes state.now (Reason.Same t u) ≡ false }
{
    let ballots = state.ballots();
    ballots > 0 && state.mark(ballots - 1, t) == Mark::Undecided
}

// A target after t with the same marks.
fn find_same_with(state: &Partial, t: u16) -> Option<Reason>
    requires { t < target_count state.now.contests }
    ensures none { result ≡ None → (u : ℕ) → t < u → refutes state.now (Reason.Same t u) ≡ false }
    ensures some { (r : Reason) → result ≡ Some r → Closes state.now r }
{
    let targets = state.shape().targets();
    for u in t + 1..targets {
        if let Some(reason) = tested(state, Reason::Same(t, u)) {
            return Some(reason);
        }
    }
    None
}

fn find_same_from(state: &Partial, t: u16) -> Option<Reason>
    requires { t < target_count state.now.contests }
    ensures none { result ≡ None → (u : ℕ) → t < u → refutes state.now (Reason.Same t u) ≡ false }
    ensures some { (r : Reason) → result ≡ Some r → Closes state.now r }
{
    if ends_undecided(state, t) {
        None
    } else {
        find_same_with(state, t)
    }
}

fn find_same(state: &Partial) -> Option<Reason>
    ensures none { result ≡ None → (t u : ℕ) → t < u → refutes state.now (Reason.Same t u) ≡ false }
    ensures some { (r : Reason) → result ≡ Some r → Closes state.now r }
{
    for t in 0..state.shape().targets() {
        if let Some(reason) = find_same_from(state, t) {
            return Some(reason);
        }
    }
    None
}

// Whether a contest before c has its limit and number of targets.
fn is_alike_before(state: &Partial, c: u16) -> bool
    requires { c < length state.now.contests }
    ensures { result ≡ true → (d : ℕ) × (d < c) ×
        (contest_at state.now.contests d ≡ contest_at state.now.contests c) }
{
    let _contests = state.shape().contests();
    for d in 0..c {
        if state.shape().contest(d) == state.shape().contest(c) {
            return true;
        }
    }
    false
}

// Whether contest c is one of too many of its shape, which is tested at the first of them.
fn find_pigeon_at(state: &Partial, c: u16) -> Option<Reason>
    requires { c < length state.now.contests }
    ensures none { result ≡ None →
        ((d : ℕ) → d < c → refutes state.now (Reason.Pigeon d) ≡ false) →
        refutes state.now (Reason.Pigeon c) ≡ false }
    ensures some { (r : Reason) → result ≡ Some r → Closes state.now r }
{
    if is_alike_before(state, c) {
        None
    } else {
        tested(state, Reason::Pigeon(c))
    }
}

// A contest that is one of too many of its shape.
fn find_pigeon(state: &Partial) -> Option<Reason>
    ensures none { result ≡ None → (c : ℕ) → refutes state.now (Reason.Pigeon c) ≡ false }
    ensures some { (r : Reason) → result ≡ Some r → Closes state.now r }
{
    for c in 0..state.shape().contests() {
        if let Some(reason) = find_pigeon_at(state, c) {
            return Some(reason);
        }
    }
    None
}

fn find_reason(state: &Partial) -> Option<Reason>
    ensures none { result ≡ None → (r : Reason) → IsCheap r → refutes state.now r ≡ false }
    ensures some { (r : Reason) → result ≡ Some r → Closes state.now r }
{
    if let Some(reason) = tested(state, Reason::Columns) {
        return Some(reason);
    }
    if let Some(reason) = tested(state, Reason::Blank) {
        return Some(reason);
    }
    if let Some(reason) = find_pigeon(state) {
        return Some(reason);
    }
    if let Some(reason) = find_order(state) {
        return Some(reason);
    }
    if let Some(reason) = find_contest(state) {
        return Some(reason);
    }
    if let Some(reason) = find_same(state) {
        return Some(reason);
    }
    find_pair(state)
}

/// A reason other than `Evade` that holds of the partial deck, or None where no such reason does.
pub fn cheap(state: &Partial) -> Option<Reason>
    ensures none { (result ≡ None) ↔ ((r : Reason) → IsCheap r → refutes state.now r ≡ false) }
    ensures some { (r : Reason) → result ≡ Some r → Closes state.now r }
{
    find_reason(state)
}
