ghost use Rattle.std.specs.Prelude.{◌≤◌, IfOk};
ghost use Rattle.lat_base.specs.declared.limits.TheConstants.{MOST_BALLOTS};
ghost use Rattle.planner.specs.Answer.{IsAnswer, IsSearchedAnswer, IsNotBelow, most};
ghost use Rattle.planner.specs.Lower.{IsLowerFor, IsEagerLower};
ghost use Rattle.planner.specs.Reach.{IsAmple, IsDecided};

use crate::best::find_best;
use crate::sizes::{QUICK, plan_size};
use crate::step::Step;
use crate::{Answer, Kept};
use cert_types::Lower;
use lat_base::{Rules, Shape};
use std::alloc::{AllocError, Global};

// The plan from `first` ballots on, where `lower` shows that no deck of fewer is good.
fn plan_sizes(
    alloc: Global,
    shape: &Shape,
    rules: &Rules,
    first: u16,
    lower: Option<Lower>,
    max: u16,
    budget: u64,
) -> Result<Answer, AllocError>
    requires within { first ≤ max }
    requires plain { first ≤ most shape.now rules.now }
    requires few { max ≤ MOST_BALLOTS }
    requires budget { 1 ≤ budget }
    requires below { IsLowerFor shape.now rules.now first lower }
    ensures answer { IfOk result (IsAnswer shape.now rules.now max budget) }
    ensures searched { IsEagerLower shape.now rules.now lower →
        IfOk result (IsSearchedAnswer shape.now rules.now budget) }
    ensures from { IfOk result (IsNotBelow first) }
    ensures ample { IsAmple shape.now max budget → IfOk result IsDecided }
{
    let _contests = shape.contests();
    let mut below = lower;
    for k in first..max + 1 {
        match plan_size(alloc, shape, rules, k, budget)? {
            Step::Good(proved) => return Ok(Answer::Least(proved, below)),
            Step::Closed(closed) => below = Some(closed),
            Step::Spent(license) => {
                let best = find_best(alloc, shape, rules, k, max, budget.min(QUICK))?;
                return Ok(Answer::Spent(Kept {
                    from: k,
                    lower: below,
                    best,
                    license,
                }));
            }
        }
    }
    match below {
        Some(lower) => Ok(Answer::NoneWithin(lower)),
        None => unreachable!(),
    }
}

/// Plans a style: a good deck of the fewest ballots, of at most `max`; or that there is none; or,
/// where a search or an attack of `budget` nodes doesn't tell, from which number of ballots on it
/// is open.
///
/// Where the plain deck has at most `max` ballots there is always a good deck: then the answer is
/// `Least`, or `Spent` with a best deck of at most as many. A budget that is at least 2^(2 · max ·
/// T + 1) and three times the factorial of T, the number of targets, is never spent. Which of the
/// good decks of least size is given is left open. The only error is want of memory.
pub fn plan(
    alloc: Global,
    shape: &Shape,
    rules: &Rules,
    max: u16,
    budget: u64,
) -> Result<Answer, AllocError>
    requires some { 1 ≤ max }
    requires few { max ≤ MOST_BALLOTS }
    requires budget { 1 ≤ budget }
    ensures answer { IfOk result (IsAnswer shape.now rules.now max budget) }

    // Nothing was passed over on the way.
    ensures searched { IfOk result (IsSearchedAnswer shape.now rules.now budget) }

    // A budget that no search and no attack can spend leaves no size open.
    ensures ample { IsAmple shape.now max budget → IfOk result IsDecided }
{
    let answer = plan_sizes(alloc, shape, rules, 0, None, max, budget)?;
    Ok(answer)
}
