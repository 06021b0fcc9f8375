use thiserror::Error;

/// Why a list of contests is no part of a style. Places count from 0.
#[derive(Clone, Copy, Debug, PartialEq, Eq, Error)]
pub enum PartFault {
    /// There is no contest.
    #[error("a part has no contest")]
    Empty,
    /// The first bad place, whose contest isn't in the style.
    #[error("the contest at place {0} is not in the style")]
    OutOfRange(u16),
    /// The first bad place, whose contest isn't above the one before.
    #[error("the contest at place {0} is not above the one before")]
    NotRising(u16),
    #[error("out of memory")]
    Memory,
}
