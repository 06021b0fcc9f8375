use crate::choice::Choice;
use crate::contest_marks::ContestMarks;
use crate::free_totals::free_totals;
use crate::full_totals::Seeker;
use crate::ranks::rank_contests;
use crate::sizes::Sizes;
use crate::usage::Usage;
use lat_base::{Contest, Shape};
use std::alloc::{AllocError, Global};

// All contests, with no totals yet.
fn unlaid_contests(alloc: Global, shape: &Shape) -> Result<Vec<ContestMarks>, AllocError> {
    let mut contests = Vec::with_capacity(alloc, usize::from(shape.contests()))?;
    for c in 0..shape.contests() {
        contests.push(ContestMarks::unlaid(alloc, shape.contest(c))?)?;
    }
    Ok(contests)
}

// The best totals of one contest, after those of the others.
fn choose(
    alloc: Global,
    contest: Contest,
    sizes: Sizes,
    usage: &Usage,
    taken: &Usage,
    contests: &[ContestMarks],
) -> Result<Option<Choice>, AllocError> {
    if contest.targets > contest.limit {
        let seeker = Seeker {
            contest,
            sizes,
            usage,
            contests,
        };
        let choice = seeker.seek(alloc)?;
        return Ok(choice);
    }
    let Some(totals) = free_totals(alloc, sizes, contest.targets, usage, taken)? else {
        return Ok(None);
    };
    Ok(Some(Choice {
        score: 0,
        totals,
        over: 0,
    }))
}

// Notes which totals are used. A target with no vote that is marked on overvoted ballots uses none.
fn give_totals(choice: &Choice, is_free: bool, usage: &mut Usage, taken: &mut Usage) {
    for total in &choice.totals {
        if *total > 0 || choice.over == 0 {
            usage.give(*total);
        }
        if is_free {
            taken.give(*total);
        }
    }
}

/// The contests with the totals of their targets, spread so that few targets have equal ones; none
/// where some contest finds no totals. The only error is want of memory.
pub fn choose_totals(
    alloc: Global,
    shape: &Shape,
    sizes: Sizes,
) -> Result<Option<Vec<ContestMarks>>, AllocError> {
    let mut contests = unlaid_contests(alloc, shape)?;
    let mut usage = Usage::none(alloc, sizes.working)?;
    let mut taken = Usage::none(alloc, sizes.working)?;
    let ranks = rank_contests(alloc, shape, sizes)?;
    for rank in &ranks {
        let c = usize::from(rank.contest);
        let Some(contest) = contests.get(c).map(|marks| marks.contest) else {
            return Ok(None);
        };
        let chosen = choose(alloc, contest, sizes, &usage, &taken, contests.as_slice())?;
        let Some(choice) = chosen else {
            return Ok(None);
        };
        let is_free = contest.targets <= contest.limit;
        give_totals(&choice, is_free, &mut usage, &mut taken);
        if let Some(marks) = contests.get_mut(c) {
            marks.over = choice.over;
            marks.totals = choice.totals;
        }
    }
    Ok(Some(contests))
}
