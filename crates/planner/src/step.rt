use cert_types::{License, Lower, Proved};

/// What the plan for one size comes to.
#[derive(Debug, Drop)]
pub(crate) enum Step {
    /// A good canonical deck of that size with its tree.
    Good(Proved),
    /// The lower part of that size.
    Closed(Lower),
    /// The search, or the attack on a deck, that spent the budget.
    Spent(License),
}
