use crate::ballot_set::BallotSet;
use lat_base::Contest;
use std::alloc::{AllocError, Global};

/// The marks of one contest on the working ballots.
#[derive(Drop)]
pub struct ContestMarks {
    pub contest: Contest,
    /// The votes of each target on the working ballots, strictly rising. Empty until chosen.
    pub totals: Vec<u16>,
    /// How many working ballots overvote the contest.
    pub over: u16,
    /// The working ballots that mark each target.
    pub columns: Vec<BallotSet>,
    /// The working ballots with as many marks as the limit, where the contest can be overvoted. One
    /// mark more on such a ballot would lose its votes.
    pub full: BallotSet,
    pub is_laid: bool,
}

impl ContestMarks {
    /// A contest with no totals and no marks. The only error is want of memory.
    pub fn unlaid(alloc: Global, contest: Contest) -> Result<ContestMarks, AllocError> {
        let mut columns = Vec::with_capacity(alloc, usize::from(contest.targets))?;
        for _ in 0..contest.targets {
            columns.push(BallotSet::empty())?;
        }
        Ok(ContestMarks {
            contest,
            totals: Vec::new(alloc),
            over: 0,
            columns,
            full: BallotSet::empty(),
            is_laid: false,
        })
    }

    /// Whether a ballot can overvote the contest.
    pub fn can_overvote(&self) -> bool {
        self.contest.targets > self.contest.limit
    }

    // How many targets ballot `j` marks.
    fn count_marks(&self, j: u16) -> usize {
        self.columns.iter().filter(|column| column.has(j)).count()
    }

    /// Finds the ballots with as many marks as the limit anew, among so many working ballots.
    pub fn find_full(&mut self, working: u16) {
        self.full = BallotSet::empty();
        if !self.can_overvote() {
            return;
        }
        for j in 0..working {
            if self.count_marks(j) == usize::from(self.contest.limit) {
                self.full.put(j);
            }
        }
    }
}
