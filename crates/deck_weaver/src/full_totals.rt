use crate::choice::Choice;
use crate::contest_marks::ContestMarks;
use crate::rising_lists::{fill_first, greatest_sum, least_sum, step_on};
use crate::sizes::Sizes;
use crate::usage::Usage;
use lat_base::Contest;
use std::alloc::{AllocError, Global};

// How many lists of one sum are looked at.
const MOST_LISTS: u32 = 200;

// How many sums are looked at until one has a list.
const MOST_SUMS: u32 = 64;

// How many sums are looked at below the first that has one.
const MORE_SUMS: u32 = 2;

// How many working ballots may overvote a contest one of whose targets has no vote.
const MOST_OVER: u16 = 2;

// A list of less score is good enough to overvote no working ballot.
const GOOD_SCORE: u64 = 60;

// What a target adds to the score for each other target with its total.
const USED: u64 = 4;

// What a vote adds that is missing from a full contest.
const MISSING: u64 = 3;

// What a total adds that is a vote on every ballot.
const WHOLE: u64 = 40;

// What a ballot adds that overvotes the contest.
const OVERVOTED: u64 = 30;

/// The search for the totals of a contest that can be overvoted, and what the others have.
#[derive(Drop)]
pub struct Seeker<'a> {
    pub contest: Contest,
    pub sizes: Sizes,
    pub usage: &'a Usage,
    pub contests: &'a [ContestMarks],
}

// The totals but for a leading zero.
fn nonzero(totals: &[u16]) -> &[u16] {
    match totals {
        [0, rest @ ..] => rest,
        _ => totals,
    }
}

impl<'a> Seeker<'a> {
    // Whether a contest of the same limit has the same totals, zeros left out: the two could be
    // exchanged whole.
    fn is_taken(&self, totals: &[u16]) -> bool {
        for other in self.contests {
            if other.contest.limit == self.contest.limit
                && !other.totals.is_empty()
                && nonzero(other.totals.as_slice()) == nonzero(totals)
            {
                return true;
            }
        }
        false
    }

    // Whether these totals can't be given: only one target may have the vote of every working
    // ballot, and on overvoted working ballots the first target has no vote.
    fn is_refused(&self, totals: &[u16], over: u16) -> bool {
        let working = self.sizes.working;
        let has_all = totals.contains(&working) && self.usage.of(working) > 0;
        let lacks_zero = over > 0 && !totals.contains(&0);
        has_all || lacks_zero || self.is_taken(totals)
    }

    // How many working ballots can give votes where so many overvote the contest.
    fn voting(&self, over: u16) -> u16 {
        self.sizes.working.saturating_sub(over)
    }

    // How bad these totals are, where `missing` more votes would make every ballot full.
    fn score(&self, totals: &[u16], over: u16, missing: u64) -> u64 {
        let whole = self.voting(over);
        let mut score = missing.saturating_mul(MISSING);
        for total in totals {
            if *total == whole {
                score = score.saturating_add(WHOLE);
            }
            if *total > 0 {
                score = score.saturating_add(u64::from(self.usage.of(*total)) * USED);
            }
        }
        score.saturating_add(u64::from(over) * OVERVOTED)
    }

    // Keeps the best of the first lists of one sum, of which the list given is the first; whether
    // some list isn't refused.
    fn seek_sum(
        &self,
        list: &mut [u16],
        over: u16,
        missing: u64,
        best: &mut Choice,
    ) -> Result<bool, AllocError> {
        let mut is_found = false;
        for _ in 0..MOST_LISTS {
            if !self.is_refused(list, over) {
                is_found = true;
                let score = self.score(list, over, missing);
                if score < best.score {
                    best.score = score;
                    best.over = over;
                    best.totals.clear();
                    best.totals.extend_from_slice(list)?;
                }
            }
            if !step_on(list, self.voting(over)) {
                break;
            }
        }
        Ok(is_found)
    }

    // The least total of a target. Only one target of the style may be marked nowhere.
    fn low(&self, over: u16) -> u16 {
        if over == 0 && self.usage.of(0) > 0 {
            self.sizes.least.max(1)
        } else {
            self.sizes.least
        }
    }

    // The greatest sum of votes that the contest takes with so many ballots overvoted.
    fn full_sum(&self, over: u16) -> u64 {
        let high = self.voting(over);
        let votes = u64::from(self.contest.limit) * u64::from(high);
        votes.min(greatest_sum(usize::from(self.contest.targets), high))
    }

    // Keeps the best list with so many working ballots overvoted, from the greatest sum down.
    fn seek_over(&self, list: &mut [u16], over: u16, best: &mut Choice) -> Result<(), AllocError> {
        let low = self.low(over);
        let full = self.full_sum(over);
        let mut left = MOST_SUMS;
        for sum in (least_sum(list.len(), low)..full.saturating_add(1)).rev() {
            if left == 0 {
                break;
            }
            left = left.saturating_sub(1);
            if fill_first(list, low, self.voting(over), sum)
                && self.seek_sum(list, over, full.saturating_sub(sum), best)?
            {
                left = left.min(MORE_SUMS);
            }
        }
        Ok(())
    }

    /// The best totals of the contest, where some are left for it. The only error is want of
    /// memory.
    pub fn seek(&self, alloc: Global) -> Result<Option<Choice>, AllocError> {
        let targets = self.contest.targets;
        let mut best = Choice {
            score: u64::MAX,
            totals: Vec::new(alloc),
            over: 0,
        };
        let mut list = Vec::with_capacity(alloc, usize::from(targets))?;
        for _ in 0..targets {
            list.push(0)?;
        }
        let may_over = self.sizes.least == 0 && self.sizes.working > targets;
        let most = if may_over { MOST_OVER } else { 0 };
        for over in 0..most + 1 {
            if over > 0 && best.over == 0 && best.score < GOOD_SCORE {
                break;
            }
            self.seek_over(&mut list, over, &mut best)?;
        }
        if best.totals.is_empty() {
            return Ok(None);
        }
        Ok(Some(best))
    }
}
