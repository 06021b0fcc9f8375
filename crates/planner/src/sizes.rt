ghost use Rattle.std.specs.Prelude.{◌≡◌, ◌≤◌, ◌≢◌, Some, Ok, IfOk};
ghost use Rattle.lat_base.specs.declared.limits.TheConstants.{MOST_BALLOTS};
ghost use Rattle.cert_types.specs.declared.proved.Proved.{Proved};
ghost use Rattle.planner.specs.Answer.{most};
ghost use Rattle.planner.specs.Searched.{IsGoodOf, IsSpentAt};
ghost use Rattle.planner.specs.Step.{IsStep};

use crate::candidates::try_candidate;
use crate::parts::try_parts;
use crate::patterns::try_patterns;
use crate::plain_deck::plain_proved;
use crate::root::close_root;
use crate::searched::Searched;
use crate::searching::search_size;
use crate::step::Step;
use crate::whole::whole_lower;
use cert_types::{License, Proved};
use lat_ballots::plain_size;
use lat_base::{Rules, Shape};
use std::alloc::{AllocError, Global};

/// How many nodes a tree over a part, or an attack on a deck for which nothing is claimed, may
/// have.
pub(crate) const QUICK: u64 = 200_000;

/// How many nodes the first attack on a pattern may have: most patterns that are robust need few,
/// and the whole budget is spent on the others only where the answer would be that a budget was
/// spent.
const GLANCE: u64 = 20_000;

// A good deck of `k` ballots, if one is found with small budgets: the candidate, or a pattern.
fn try_quickly(
    alloc: Global,
    shape: &Shape,
    rules: &Rules,
    k: u16,
    budget: u64,
) -> Result<Option<Proved>, AllocError>
    requires few { k ≤ MOST_BALLOTS }
    requires budget { 1 ≤ budget }
    ensures { (proved : Proved) → result ≡ Ok (Some proved) →
        IsGoodOf shape.now rules.now k proved }
{
    if let Some(proved) = try_candidate(alloc, shape, rules, k, budget.min(QUICK))? {
        return Ok(Some(proved));
    }
    let tried = try_patterns(alloc, shape, rules, k, budget.min(GLANCE))?;
    Ok(tried)
}

// Tries the patterns with the whole budget before it is said that a budget was spent.
fn try_at_last(
    alloc: Global,
    shape: &Shape,
    rules: &Rules,
    k: u16,
    budget: u64,
    license: License,
) -> Result<Step, AllocError>
    requires few { k ≤ MOST_BALLOTS }
    requires budget { 1 ≤ budget }
    requires plain { k ≢ most shape.now rules.now }
    requires spent { IsSpentAt shape.now rules.now k budget license }
    ensures { IfOk result (IsStep shape.now rules.now k budget) }
{
    match try_patterns(alloc, shape, rules, k, budget)? {
        Some(proved) => Ok(Step::Good(proved)),
        None => Ok(Step::Spent(license)),
    }
}

// Searches among all decks of `k` ballots, and tries the patterns where that spends its budget.
fn search_whole(
    alloc: Global,
    shape: &Shape,
    rules: &Rules,
    k: u16,
    budget: u64,
) -> Result<Step, AllocError>
    requires few { k ≤ MOST_BALLOTS }
    requires budget { 1 ≤ budget }
    requires plain { k ≢ most shape.now rules.now }
    ensures { IfOk result (IsStep shape.now rules.now k budget) }
{
    match search_size(alloc, shape, rules, k, budget)? {
        Searched::Good(proved) => Ok(Step::Good(proved)),
        Searched::Closed(tree) => {
            let lower = whole_lower(alloc, shape, k, tree)?;
            Ok(Step::Closed(lower))
        }
        Searched::Spent(license) => {
            let step = try_at_last(alloc, shape, rules, k, budget, license)?;
            Ok(step)
        }
    }
}

// The plan for a number of ballots other than that of the plain deck.
fn plan_other(
    alloc: Global,
    shape: &Shape,
    rules: &Rules,
    k: u16,
    budget: u64,
) -> Result<Step, AllocError>
    requires few { k ≤ MOST_BALLOTS }
    requires budget { 1 ≤ budget }
    requires plain { k ≢ most shape.now rules.now }
    ensures { IfOk result (IsStep shape.now rules.now k budget) }
{
    if let Some(tree) = close_root(alloc, shape, rules, k)? {
        let lower = whole_lower(alloc, shape, k, tree)?;
        return Ok(Step::Closed(lower));
    }
    if let Some(proved) = try_quickly(alloc, shape, rules, k, budget)? {
        return Ok(Step::Good(proved));
    }
    if let Some(lower) = try_parts(alloc, shape, rules, k, budget.min(QUICK))? {
        return Ok(Step::Closed(lower));
    }
    let step = search_whole(alloc, shape, rules, k, budget)?;
    Ok(step)
}

/// The plan for `k` ballots: the plain deck; or a cheap reason for which no deck is good; a few
/// decks and parts of the style with small budgets; all decks; and the patterns where that spends
/// its budget. The only error is want of memory.
pub(crate) fn plan_size(
    alloc: Global,
    shape: &Shape,
    rules: &Rules,
    k: u16,
    budget: u64,
) -> Result<Step, AllocError>
    requires few { k ≤ MOST_BALLOTS }
    requires budget { 1 ≤ budget }
    ensures { IfOk result (IsStep shape.now rules.now k budget) }
{
    if u32::from(k) == plain_size(shape, rules) {
        let proved = plain_proved(alloc, shape, rules)?;
        return Ok(Step::Good(proved));
    }
    let step = plan_other(alloc, shape, rules, k, budget)?;
    Ok(step)
}
