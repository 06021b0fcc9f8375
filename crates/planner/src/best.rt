ghost use Rattle.std.specs.Prelude.{◌≡◌, ◌≢◌, ◌≤◌, ◌<◌, Some, Ok, IfOk};
ghost use Rattle.lat_base.specs.Goodness.{NoGoodBelow};
ghost use Rattle.lat_base.specs.declared.limits.TheConstants.{MOST_BALLOTS};
ghost use Rattle.cert_types.specs.declared.proved.Proved.{Proved};
ghost use Rattle.planner.specs.Answer.{IsBest, IsBetween, most};

use crate::candidates::try_candidate;
use crate::patterns::try_pattern;
use crate::plain_deck::plain_proved;
use cert_types::Proved;
use lat_ballots::plain_size;
use lat_base::{Rules, Shape};
use std::alloc::{AllocError, Global};

/// How many sizes above the first open one get a candidate.
const NEAR: u16 = 40;

/// The first pattern whose targets all have different totals.
const APART: u32 = 24;

// A good deck of more than `from` and at most `top` ballots, if the candidate of a size not far
// above `from` is one.
fn find_near(
    alloc: Global,
    shape: &Shape,
    rules: &Rules,
    from: u16,
    top: u16,
    budget: u64,
) -> Result<Option<Proved>, AllocError>
    requires few { top ≤ MOST_BALLOTS }
    requires budget { 1 ≤ budget }
    ensures { (proved : Proved) → result ≡ Ok (Some proved) →
        IsBetween shape.now rules.now from top proved }
{
    for k in from..top.min(from.saturating_add(NEAR)) {
        if let Some(proved) = try_candidate(alloc, shape, rules, k + 1, budget)? {
            return Ok(Some(proved));
        }
    }
    Ok(None)
}

// The smallest good deck of more than `from` and at most `top` ballots among those of one pattern,
// if one is found within the budget.
fn find_apart(
    alloc: Global,
    shape: &Shape,
    rules: &Rules,
    from: u16,
    top: u16,
    budget: u64,
) -> Result<Option<Proved>, AllocError>
    requires few { top ≤ MOST_BALLOTS }
    requires budget { 1 ≤ budget }
    ensures { (proved : Proved) → result ≡ Ok (Some proved) →
        IsBetween shape.now rules.now from top proved }
{
    for k in from..top {
        if let Some(proved) = try_pattern(alloc, shape, rules, k + 1, APART, budget)? {
            return Ok(Some(proved));
        }
    }
    Ok(None)
}

// A good deck of more than `from` and at most `top` ballots, if one is found.
fn find_between(
    alloc: Global,
    shape: &Shape,
    rules: &Rules,
    from: u16,
    top: u16,
    budget: u64,
) -> Result<Option<Proved>, AllocError>
    requires few { top ≤ MOST_BALLOTS }
    requires budget { 1 ≤ budget }
    ensures { (proved : Proved) → result ≡ Ok (Some proved) →
        IsBetween shape.now rules.now from top proved }
{
    if let Some(proved) = find_near(alloc, shape, rules, from, top, budget)? {
        return Ok(Some(proved));
    }
    let found = find_apart(alloc, shape, rules, from, top, budget)?;
    Ok(found)
}

/// A good deck of more than `from` and at most `max` ballots with its tree: there is one wherever
/// the plain deck has at most `max`, and it has at most as many as that. The only error is want of
/// memory.
pub(crate) fn find_best(
    alloc: Global,
    shape: &Shape,
    rules: &Rules,
    from: u16,
    max: u16,
    budget: u64,
) -> Result<Option<Proved>, AllocError>
    requires few { max ≤ MOST_BALLOTS }
    requires budget { 1 ≤ budget }
    requires none { NoGoodBelow shape.now rules.now from }
    requires plain { from ≢ most shape.now rules.now }
    ensures { IfOk result (IsBest shape.now rules.now from max) }
{
    let size = plain_size(shape, rules);
    if size > u32::from(max) {
        let found = find_between(alloc, shape, rules, from, max, budget)?;
        return Ok(found);
    }
    match find_between(alloc, shape, rules, from, size as u16, budget)? {
        Some(proved) => Ok(Some(proved)),
        None => {
            let plain = plain_proved(alloc, shape, rules)?;
            Ok(Some(plain))
        }
    }
}
