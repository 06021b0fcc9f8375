ghost use Rattle.std.specs.Prelude.{◌≡◌, IfOk};

use lat_misassign::Misassignment;
use std::alloc::{AllocError, Global};

/// Why no good canonical deck is left in a partial deck. Ballots, contests and targets are numbered
/// from 0.
#[derive(Debug, Drop)]
pub enum Reason {
    /// This ballot is smaller than the next.
    Order(u16),
    /// A total of this contest would have to be greater than it can be.
    Totals(u16),
    /// The totals of this contest together would have to be more than all votes in it.
    Capacity(u16),
    /// Too few ballots can be blank.
    Blank,
    /// Too few ballots can be overvoted in this contest.
    Over(u16),
    /// These two contests of one shape have the same totals.
    Twin(u16, u16),
    /// The first of these two contests of one shape has the greater totals.
    ContestOrder(u16, u16),
    /// There are more contests of this one's shape than lists of totals for them.
    Pigeon(u16),
    /// There are fewer different columns than targets.
    Columns,
    /// These two targets have the same marks.
    Same(u16, u16),
    /// The totals are the same under this misassignment.
    Evade(Misassignment),
}

impl Reason {
    /// An equal reason. The only error is want of memory.
    pub fn copy(&self, alloc: Global) -> Result<Reason, AllocError>
        ensures { IfOk result (λ copy. copy ≡ self.now) }
    {
        match self {
            Reason::Order(j) => Ok(Reason::Order(*j)),
            Reason::Totals(c) => Ok(Reason::Totals(*c)),
            Reason::Capacity(c) => Ok(Reason::Capacity(*c)),
            Reason::Blank => Ok(Reason::Blank),
            Reason::Over(c) => Ok(Reason::Over(*c)),
            Reason::Twin(c, d) => Ok(Reason::Twin(*c, *d)),
            Reason::ContestOrder(c, d) => Ok(Reason::ContestOrder(*c, *d)),
            Reason::Pigeon(c) => Ok(Reason::Pigeon(*c)),
            Reason::Columns => Ok(Reason::Columns),
            Reason::Same(t, u) => Ok(Reason::Same(*t, *u)),
            Reason::Evade(s) => Ok(Reason::Evade(s.copy(alloc)?)),
        }
    }
}
