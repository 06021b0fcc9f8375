ghost use Rattle.std.specs.Prelude.{◌≡◌, ◌<◌, ◌≤◌, ℕ, List, Result, Option, length};
ghost use Rattle.lat_base.specs.Shape.{target_count};
ghost use Rattle.lat_base.specs.Tally.{report};
ghost use Rattle.lat_base.specs.Misassignment.{identity};
ghost use Rattle.evade_space.specs.Sought.{Evades};

use lat_ballots::Deck;
use lat_base::Shape;
use lat_misassign::Misassignment;
use lat_tabulate::{gives_report, mark_count};
use std::alloc::{AllocError, Global};

// The misassignment, where it isn't the identity and gives the deck's own totals.
fn if_it_evades(
    shape: &Shape,
    deck: &Deck,
    totals: &[u32],
    s: Misassignment,
) -> Option<Misassignment>
    requires deck { deck.now.targets ≡ target_count shape.now }
    requires long { length totals.now ≡ target_count shape.now }
    requires own { totals.now
        ≡ report shape.now deck.now.ballots (identity (target_count shape.now)) }
    requires sources { length s ≡ target_count shape.now }
    ensures { (evader : List ℕ) → result ≡ Option.Some evader
        → Evades shape.now deck.now.ballots evader }
{
    if !s.is_identity() && gives_report(shape, deck, &s, totals) {
        Some(s)
    } else {
        None
    }
}

// The votes of target `u` where it is exchanged with target `v` of another contest: the ballots
// that mark `v` and have less than the limit of marks among the others of `u`'s contest.
fn votes_exchanged(shape: &Shape, deck: &Deck, u: u16, v: u16) -> u32
    requires deck { deck.now.targets ≡ target_count shape.now }
    requires first { u < target_count shape.now }
    requires second { v < target_count shape.now }
{
    let _contests = shape.contests();
    let c = shape.contest_of(u);
    let limit = shape.contest(c).limit;
    let mut votes: u32 = 0;
    for j in 0..deck.ballots() {
        let own = if deck.is_marked(j, u) { 1 } else { 0 };
        if deck.is_marked(j, v) && mark_count(shape, deck, j, c).saturating_sub(own) < limit {
            votes = votes.saturating_add(1);
        }
    }
    votes
}

// Whether the exchange of two targets leaves the totals of both as they are.
fn keeps_both(shape: &Shape, deck: &Deck, totals: &[u32], u: u16, v: u16) -> bool
    requires deck { deck.now.targets ≡ target_count shape.now }
    requires long { length totals.now ≡ target_count shape.now }
    requires first { u < target_count shape.now }
    requires second { v < target_count shape.now }
{
    if shape.contest_of(u) == shape.contest_of(v) {
        return totals[u as usize] == totals[v as usize];
    }
    votes_exchanged(shape, deck, u, v) == totals[u as usize]
        && votes_exchanged(shape, deck, v, u) == totals[v as usize]
}

// Whether two contests of the same number of targets have the same totals.
fn are_level(shape: &Shape, totals: &[u32], c: u16, d: u16) -> bool
    requires long { length totals.now ≡ target_count shape.now }
    requires first { c < length shape.now }
    requires second { d < length shape.now }
{
    let _contests = shape.contests();
    let first = shape.first_of(c);
    let other = shape.first_of(d);
    for u in first..shape.first_of(c + 1) {
        let v = other.saturating_add(u.saturating_sub(first));
        if totals.get(usize::from(u)) != totals.get(usize::from(v)) {
            return false;
        }
    }
    true
}

// How many ballots overvote some contest.
fn count_overvoted(shape: &Shape, deck: &Deck) -> u32
    requires { deck.now.targets ≡ target_count shape.now }
    ensures { result ≤ length deck.now.ballots }
{
    let mut overvoted: u32 = 0;
    for j in 0..deck.ballots() {
        if is_overvoted(shape, deck, j) {
            overvoted += 1;
        }
    }
    overvoted
}

// Whether ballot `j` overvotes some contest.
fn is_overvoted(shape: &Shape, deck: &Deck, j: u16) -> bool
    requires deck { deck.now.targets ≡ target_count shape.now }
    requires ballot { j < length deck.now.ballots }
{
    for c in 0..shape.contests() {
        if mark_count(shape, deck, j, c) > shape.contest(c).limit {
            return true;
        }
    }
    false
}

// An exchange of target `u` with a later one that evades, where there is one. Their totals differ
// by no more than the number of ballots that overvote a contest.
#[tactic(auto, using(crate::proofs::Exchanged::targets_long))]
fn exchange_of(
    alloc: Global,
    shape: &Shape,
    deck: &Deck,
    totals: &[u32],
    overvoted: u32,
    u: u16,
) -> Result<Option<Misassignment>, AllocError>
    requires deck { deck.now.targets ≡ target_count shape.now }
    requires long { length totals.now ≡ target_count shape.now }
    requires own { totals.now
        ≡ report shape.now deck.now.ballots (identity (target_count shape.now)) }
    requires target { u < target_count shape.now }
    ensures { (s : List ℕ) → result ≡ Result.Ok (Option.Some s)
        → Evades shape.now deck.now.ballots s }
{
    let targets = shape.targets();
    for v in u + 1..targets {
        let apart = totals[u as usize].abs_diff(totals[v as usize]);
        if apart <= overvoted && keeps_both(shape, deck, totals, u, v) {
            let s = Misassignment::swap(alloc, targets, u, v)?;
            let evader = if_it_evades(shape, deck, totals, s);
            if evader.is_some() {
                return Ok(evader);
            }
        }
    }
    Ok(None)
}

// An exchange of two targets that evades, where there is one.
fn find_target_exchange(
    alloc: Global,
    shape: &Shape,
    deck: &Deck,
    totals: &[u32],
) -> Result<Option<Misassignment>, AllocError>
    requires deck { deck.now.targets ≡ target_count shape.now }
    requires long { length totals.now ≡ target_count shape.now }
    requires own { totals.now
        ≡ report shape.now deck.now.ballots (identity (target_count shape.now)) }
    ensures { (s : List ℕ) → result ≡ Result.Ok (Option.Some s)
        → Evades shape.now deck.now.ballots s }
{
    let overvoted = count_overvoted(shape, deck);
    for u in 0..shape.targets() {
        let evader = exchange_of(alloc, shape, deck, totals, overvoted, u)?;
        if evader.is_some() {
            return Ok(evader);
        }
    }
    Ok(None)
}

// An exchange of contest `d` with an earlier one of the same limit and number of targets that
// evades, where there is one.
#[tactic(auto, using(crate::proofs::Exchanged::contests_long))]
fn contest_exchange_of(
    alloc: Global,
    shape: &Shape,
    deck: &Deck,
    totals: &[u32],
    d: u16,
) -> Result<Option<Misassignment>, AllocError>
    requires deck { deck.now.targets ≡ target_count shape.now }
    requires long { length totals.now ≡ target_count shape.now }
    requires own { totals.now
        ≡ report shape.now deck.now.ballots (identity (target_count shape.now)) }
    requires contest { d < length shape.now }
    ensures { (s : List ℕ) → result ≡ Result.Ok (Option.Some s)
        → Evades shape.now deck.now.ballots s }
{
    for c in 0..d {
        if shape.contest(c) == shape.contest(d) && are_level(shape, totals, c, d) {
            let s = Misassignment::swap_contests(alloc, shape, c, d)?;
            let evader = if_it_evades(shape, deck, totals, s);
            if evader.is_some() {
                return Ok(evader);
            }
        }
    }
    Ok(None)
}

// An exchange of two contests that evades, where there is one.
fn find_contest_exchange(
    alloc: Global,
    shape: &Shape,
    deck: &Deck,
    totals: &[u32],
) -> Result<Option<Misassignment>, AllocError>
    requires deck { deck.now.targets ≡ target_count shape.now }
    requires long { length totals.now ≡ target_count shape.now }
    requires own { totals.now
        ≡ report shape.now deck.now.ballots (identity (target_count shape.now)) }
    ensures { (s : List ℕ) → result ≡ Result.Ok (Option.Some s)
        → Evades shape.now deck.now.ballots s }
{
    for d in 0..shape.contests() {
        let evader = contest_exchange_of(alloc, shape, deck, totals, d)?;
        if evader.is_some() {
            return Ok(evader);
        }
    }
    Ok(None)
}

/// An exchange of two targets or of two whole contests that evades, where there is one. `totals`
/// are the deck's own, in ballots. The only error is want of memory.
pub fn find_exchange(
    alloc: Global,
    shape: &Shape,
    deck: &Deck,
    totals: &[u32],
) -> Result<Option<Misassignment>, AllocError>
    requires deck { deck.now.targets ≡ target_count shape.now }
    requires long { length totals.now ≡ target_count shape.now }
    requires own { totals.now
        ≡ report shape.now deck.now.ballots (identity (target_count shape.now)) }
    ensures { (s : List ℕ) → result ≡ Result.Ok (Option.Some s)
        → Evades shape.now deck.now.ballots s }
{
    let evader = find_target_exchange(alloc, shape, deck, totals)?;
    if evader.is_some() {
        return Ok(evader);
    }
    let evader = find_contest_exchange(alloc, shape, deck, totals)?;
    Ok(evader)
}
