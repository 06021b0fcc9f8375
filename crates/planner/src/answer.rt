use crate::Kept;
use cert_types::{Lower, Proved};

/// What a plan comes to.
#[derive(Debug, Drop)]
pub enum Answer {
    /// A good canonical deck of the fewest ballots with its tree, and the lower part of one ballot
    /// less, which is absent exactly where the deck is empty.
    Least(Proved, Option<Lower>),
    /// No good deck has at most the greatest number of ballots, as the lower part of that size
    /// shows.
    NoneWithin(Lower),
    /// A budget was spent.
    Spent(Kept),
}
