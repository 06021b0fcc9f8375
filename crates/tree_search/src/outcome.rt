use tree_core::{Space, Tree};

/// What a search comes to.
#[derive(Drop)]
pub enum Outcome<S: Space, P, W> {
    /// A solution was found: the state holds it, and this is the chooser's proof.
    Found(P),
    /// A tree that checks: the state has no solution.
    Closed(Tree<S::Label, S::Reason>),
    /// An open tree of as many Close and Fork nodes as the budget.
    Spent(Tree<S::Label, S::Reason>),
    /// An open tree, and what the chooser said at its first open leaf.
    Halted(Tree<S::Label, S::Reason>, W),
}
