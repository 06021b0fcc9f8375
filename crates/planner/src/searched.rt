use cert_types::{License, Proved};
use close_rules::{Label, Reason};
use tree_core::Tree;

/// What the search among the decks of one size comes to.
#[derive(Debug, Drop)]
pub(crate) enum Searched {
    /// A good canonical deck with its tree.
    Good(Proved),
    /// A tree that shows that no deck is good.
    Closed(Tree<Label, Reason>),
    /// The search, or the attack on a deck, that spent the budget.
    Spent(License),
}
