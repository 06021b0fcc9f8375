use cert_types::{License, Lower, Proved};

/// What is known where a budget was spent at `from` ballots.
#[derive(Debug, Drop)]
pub struct Kept {
    /// No deck of fewer ballots is good; whether one of so many is was left open.
    pub from: u16,
    /// The lower part of one ballot less, absent exactly where `from` is 0.
    pub lower: Option<Lower>,
    /// A good deck of more than `from` ballots with its tree, if one was found.
    pub best: Option<Proved>,
    /// The search at `from` ballots, or the attack on a deck of so many, that spent the budget.
    pub license: License,
}
