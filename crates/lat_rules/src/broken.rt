use thiserror::Error;

/// The first rule that a deck breaks. Contests and targets are numbered from 0.
#[derive(Clone, Copy, Debug, PartialEq, Eq, Error)]
pub enum Broken {
    /// Too few ballots are blank: how many are.
    #[error("only {0} ballots are blank")]
    Blank(u32),
    /// A contest that can be overvoted is so on too few ballots: the contest, and how many.
    #[error("only {1} ballots overvote contest {0}")]
    Over(u16, u32),
    /// A target has too few votes: the target, and its total.
    #[error("target {0} has only {1} votes")]
    Least(u16, u32),
    /// Two targets of one contest have equal totals: the targets, and the total.
    #[error("targets {0} and {1} both have {2} votes")]
    Equal(u16, u16, u32),
}
