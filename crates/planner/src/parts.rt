ghost use Rattle.std.specs.Prelude.{◌≡◌, ◌<◌, ◌≤◌, Some, Ok, length};
ghost use Rattle.lat_base.specs.declared.limits.TheConstants.{MOST_BALLOTS};
ghost use Rattle.cert_types.specs.LowerPart.{LowerPart};
ghost use Rattle.planner.specs.Step.{IsLowerOf};

use crate::searched::Searched;
use crate::searching::search_size;
use cert_types::Lower;
use lat_base::{Rules, Shape};
use projection::{PartFault, part};
use std::alloc::{AllocError, Global};

// The contests of the limit and number of targets of contest c, where c is the first of them, there
// are others, and they aren't all.
fn alike_contests(alloc: Global, shape: &Shape, c: u16) -> Result<Option<Vec<u16>>, AllocError>
    requires { c < length shape.now }
{
    let mut contests = Vec::new(alloc);
    for d in 0..shape.contests() {
        if shape.contest(d) == shape.contest(c) {
            if d < c {
                return Ok(None);
            }
            contests.push(d)?;
        }
    }
    if contests.len() < 2 || contests.len() == usize::from(shape.contests()) {
        return Ok(None);
    }
    Ok(Some(contests))
}

// Whether contest c must have a target with the least total that the rules allow: its totals
// differ, and all greater ones are too much for the votes on the ballots that may count.
fn is_forced(shape: &Shape, rules: &Rules, k: u16, c: u16) -> bool
    requires { c < length shape.now }
{
    let contest = shape.contest(c);
    let working = k.saturating_sub(rules.over().saturating_add(rules.blank()));
    let votes = u64::from(contest.limit) * u64::from(working);
    let targets = u64::from(contest.targets);
    let above = targets.saturating_mul(u64::from(rules.least()) + 1);
    let apart = targets.saturating_mul(targets.saturating_sub(1)) / 2;
    shape.can_overvote(c) && above.saturating_add(apart) > votes
}

// The contests that must have a target with the least total.
fn forced_contests(
    alloc: Global,
    shape: &Shape,
    rules: &Rules,
    k: u16,
) -> Result<Vec<u16>, AllocError> {
    let mut contests = Vec::new(alloc);
    for c in 0..shape.contests() {
        if is_forced(shape, rules, k, c) {
            contests.push(c)?;
        }
    }
    Ok(contests)
}

// The lower part of these contests, where they are a part of the style and the search over it
// closes.
fn try_part(
    alloc: Global,
    shape: &Shape,
    rules: &Rules,
    k: u16,
    contests: Vec<u16>,
    budget: u64,
) -> Result<Option<Lower>, AllocError>
    requires few { k ≤ MOST_BALLOTS }
    requires budget { 1 ≤ budget }
    ensures { (lower : LowerPart) → result ≡ Ok (Some lower) →
        IsLowerOf shape.now rules.now k lower }
{
    let part_shape = match part(alloc, shape, contests.as_slice()) {
        Ok(part_shape) => part_shape,
        Err(PartFault::Memory) => return Err(AllocError),
        Err(_) => return Ok(None),
    };
    match search_size(alloc, &part_shape, rules, k, budget)? {
        Searched::Closed(tree) => Ok(Some(Lower {
            contests,
            size: k,
            tree,
        })),
        Searched::Good(_) => Ok(None),
        Searched::Spent(_) => Ok(None),
    }
}

// The lower part of the contests of the shape of contest c, where the search over them closes.
fn try_alike(
    alloc: Global,
    shape: &Shape,
    rules: &Rules,
    k: u16,
    c: u16,
    budget: u64,
) -> Result<Option<Lower>, AllocError>
    requires few { k ≤ MOST_BALLOTS }
    requires contest { c < length shape.now }
    requires budget { 1 ≤ budget }
    ensures { (lower : LowerPart) → result ≡ Ok (Some lower) →
        IsLowerOf shape.now rules.now k lower }
{
    match alike_contests(alloc, shape, c)? {
        Some(contests) => {
            let lower = try_part(alloc, shape, rules, k, contests, budget)?;
            Ok(lower)
        }
        None => Ok(None),
    }
}

// The lower part of the first group of contests of one shape over which the search closes.
fn try_groups(
    alloc: Global,
    shape: &Shape,
    rules: &Rules,
    k: u16,
    budget: u64,
) -> Result<Option<Lower>, AllocError>
    requires few { k ≤ MOST_BALLOTS }
    requires budget { 1 ≤ budget }
    ensures { (lower : LowerPart) → result ≡ Ok (Some lower) →
        IsLowerOf shape.now rules.now k lower }
{
    for c in 0..shape.contests() {
        let lower = try_alike(alloc, shape, rules, k, c, budget)?;
        if lower.is_some() {
            return Ok(lower);
        }
    }
    Ok(None)
}

/// A lower part of `k` ballots over some part of the style, if one is found: a group of contests of
/// one shape, or the contests that must have a target with the least total. The only error is want
/// of memory.
pub(crate) fn try_parts(
    alloc: Global,
    shape: &Shape,
    rules: &Rules,
    k: u16,
    budget: u64,
) -> Result<Option<Lower>, AllocError>
    requires few { k ≤ MOST_BALLOTS }
    requires budget { 1 ≤ budget }
    ensures { (lower : LowerPart) → result ≡ Ok (Some lower) →
        IsLowerOf shape.now rules.now k lower }
{
    let of_group = try_groups(alloc, shape, rules, k, budget)?;
    if of_group.is_some() {
        return Ok(of_group);
    }
    let forced = forced_contests(alloc, shape, rules, k)?;
    if forced.len() < 2 || forced.len() == usize::from(shape.contests()) {
        return Ok(None);
    }
    let lower = try_part(alloc, shape, rules, k, forced, budget)?;
    Ok(lower)
}
