use evade_space::Skipped;
use lat_ballots::Deck;
use tree_core::Tree;

/// A deck, and the open tree of an attack on it that spent its budget.
#[derive(Debug, Drop)]
pub(crate) struct Attempt {
    pub deck: Deck,
    pub tree: Tree<u16, Skipped>,
}
