use crate::ballot_set::BallotSet;
use crate::conflicts::count_conflicts;
use crate::contest_marks::ContestMarks;
use crate::draws::Draws;
use crate::exchanges::mix;
use crate::layout::lay;
use crate::sizes::Sizes;
use std::alloc::{AllocError, Global};
use std::mem;

// How often a contest is laid for one that has few conflicts.
const TRIES: u32 = 24;

/// The contests of a deck in the making.
#[derive(Drop)]
pub struct Loom {
    pub sizes: Sizes,
    pub contests: Vec<ContestMarks>,
    draws: Draws,
    // the working ballots, in the order in which they were drawn last
    order: Vec<u16>,
}

// Makes the columns those given.
fn copy_columns(copy: &mut Vec<BallotSet>, columns: &[BallotSet]) -> Result<(), AllocError> {
    copy.clear();
    copy.extend_from_slice(columns)?;
    Ok(())
}

impl Loom {
    /// The contests laid one after the other. The only error is want of memory.
    pub fn set_up(
        alloc: Global,
        sizes: Sizes,
        contests: Vec<ContestMarks>,
    ) -> Result<Loom, AllocError> {
        let mut order = Vec::with_capacity(alloc, usize::from(sizes.working))?;
        for j in 0..sizes.working {
            order.push(j)?;
        }
        let count = contests.len();
        let mut loom = Loom {
            sizes,
            contests,
            draws: Draws::new(),
            order,
        };
        for c in 0..count {
            loom.relay(alloc, c)?;
        }
        Ok(loom)
    }

    // Lays contest `c` in an order that is drawn.
    fn lay_once(&mut self, c: usize) {
        if let Some(marks) = self.contests.get_mut(c) {
            self.draws.shuffle(&mut self.order);
            lay(marks, self.order.as_slice());
            mix(marks, &mut self.order, &mut self.draws);
            marks.find_full(self.sizes.working);
            marks.is_laid = true;
        }
    }

    // Puts these columns in the place of those of contest `c`.
    fn put_columns(&mut self, c: usize, columns: &mut Vec<BallotSet>) {
        if let Some(marks) = self.contests.get_mut(c) {
            mem::swap(&mut marks.columns, columns);
            marks.find_full(self.sizes.working);
        }
    }

    // Copies the columns of contest `c`.
    fn save_columns(&self, c: usize, copy: &mut Vec<BallotSet>) -> Result<(), AllocError> {
        if let Some(marks) = self.contests.get(c) {
            copy_columns(copy, marks.columns.as_slice())?;
        }
        Ok(())
    }

    /// Lays contest `c` anew, the best of some tries. The only error is want of memory.
    pub fn relay(&mut self, alloc: Global, c: usize) -> Result<(), AllocError> {
        let mut best = Vec::new(alloc);
        let mut fewest = u32::MAX;
        for _ in 0..TRIES {
            self.lay_once(c);
            let conflicts = count_conflicts(self.contests.as_slice(), c);
            if conflicts < fewest {
                fewest = conflicts;
                self.save_columns(c, &mut best)?;
            }
            if conflicts == 0 {
                break;
            }
        }
        self.put_columns(c, &mut best);
        Ok(())
    }

    /// Lays one of these contests anew, drawn. The only error is want of memory.
    pub fn relay_one(&mut self, alloc: Global, contests: &[u16]) -> Result<(), AllocError> {
        if contests.is_empty() {
            return Ok(());
        }
        let c = contests[self.draws.below(contests.len())];
        self.relay(alloc, usize::from(c))
    }

    /// Lays a contest anew, drawn from all. The only error is want of memory.
    pub fn relay_any(&mut self, alloc: Global) -> Result<(), AllocError> {
        if self.contests.is_empty() {
            return Ok(());
        }
        let c = self.draws.below(self.contests.len());
        self.relay(alloc, c)
    }
}
