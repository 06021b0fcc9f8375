ghost use Rattle.std.specs.Prelude.{◌≡◌, ◌<◌, ◌≤◌, true, Some, Ok, length};
ghost use Rattle.close_rules.specs.declared.reason.Reason.{Reason};
ghost use Rattle.close_rules.specs.Refutes.{refutes};

use crate::shown_deck::shown_deck;
use adversary::{Attacked, attack};
use close_rules::{Reason, refutes};
use deck_state::{Partial, Step};
use lat_base::{MOST_TARGETS, Shape};
use lat_misassign::{MisFault, Misassignment};
use projection::{PartFault, part, restrict};
use std::alloc::{AllocError, Global};

/// How many nodes an attack on the contests that are decided may have, where the budget allows it.
const PART_NODES: u64 = 100_000;

// Whether each mark of contest c is decided.
fn is_decided(state: &Partial, c: u16) -> bool
    requires { c < length state.now.contests }
{
    for j in 0..state.ballots() {
        if state.marked_in(j, c) != state.possible_in(j, c) {
            return false;
        }
    }
    true
}

// Whether the last step decided the last undecided mark of a contest.
fn has_just_decided(state: &Partial) -> bool {
    let shape = state.shape();
    match state.last_step() {
        Some(Step::Decided(_, t)) => t < shape.targets() && is_decided(state, shape.contest_of(t)),
        _ => false,
    }
}

// The contests of which each mark is decided.
fn decided_contests(alloc: Global, state: &Partial) -> Result<Vec<u16>, AllocError> {
    let mut contests = Vec::new(alloc);
    for c in 0..state.shape().contests() {
        if is_decided(state, c) {
            contests.push(c)?;
        }
    }
    Ok(contests)
}

// The targets of these contests, in order.
fn targets_of(alloc: Global, shape: &Shape, contests: &[u16]) -> Result<Vec<u16>, AllocError> {
    let mut targets = Vec::new(alloc);
    for c in contests {
        if *c < shape.contests() {
            for t in shape.first_of(*c)..shape.first_of(*c + 1) {
                targets.push(t)?;
            }
        }
    }
    Ok(targets)
}

// A misassignment of the part's targets as one of the style's, under which each other target keeps
// its own marks.
fn extended(
    alloc: Global,
    shape: &Shape,
    contests: &[u16],
    s: &Misassignment,
) -> Result<Option<Misassignment>, AllocError> {
    let targets = targets_of(alloc, shape, contests)?;
    let mut sources = Vec::new(alloc);
    for t in 0..shape.targets() {
        sources.push(t)?;
    }
    for (u, source) in s.as_slice().iter().enumerate() {
        let image = targets.get(u).copied().unwrap_or(0);
        let from = targets.get(usize::from(*source)).copied().unwrap_or(0);
        if let Some(place) = sources.get_mut(usize::from(image)) {
            *place = from;
        }
    }
    if sources.is_empty() || sources.len() > usize::from(MOST_TARGETS) {
        return Ok(None);
    }
    match Misassignment::from_sources(alloc, sources.as_slice()) {
        Ok(whole) => Ok(Some(whole)),
        Err(MisFault::Memory) => Err(AllocError),
        Err(_) => Ok(None),
    }
}

// A misassignment that evades the part of the contests that are decided, where a contest has just
// become so and an attack finds one.
fn guessed(alloc: Global, state: &Partial, budget: u64) -> Result<Option<Misassignment>, AllocError>
    requires { 1 ≤ budget }
{
    if !has_just_decided(state) {
        return Ok(None);
    }
    let shape = state.shape();
    let contests = decided_contests(alloc, state)?;
    let part_shape = match part(alloc, shape, contests.as_slice()) {
        Ok(part_shape) => part_shape,
        Err(PartFault::Memory) => return Err(AllocError),
        Err(_) => return Ok(None),
    };
    let deck = shown_deck(alloc, state)?;
    let cut = restrict(alloc, shape, &deck, contests.as_slice())?;
    match attack(alloc, &part_shape, &cut, PART_NODES.min(budget))? {
        Attacked::Evaded(s) => {
            let whole = extended(alloc, shape, contests.as_slice(), &s)?;
            Ok(whole)
        }
        Attacked::Robust(_) => Ok(None),
        Attacked::Spent(_) => Ok(None),
    }
}

/// A misassignment that evades what is decided, if one is guessed by an attack of at most `budget`
/// nodes.
pub(crate) fn guess(
    alloc: Global,
    state: &Partial,
    budget: u64,
) -> Result<Option<Reason>, AllocError>
    requires { 1 ≤ budget }
    ensures { (r : Reason) → result ≡ Ok (Some r) → refutes state.now r ≡ true }
{
    let Some(s) = guessed(alloc, state, budget)? else {
        return Ok(None);
    };
    let reason = Reason::Evade(s);
    if refutes(state, &reason) {
        Ok(Some(reason))
    } else {
        Ok(None)
    }
}
