use close_rules::{Label, Reason};
use evade_space::Skipped;
use lat_ballots::Deck;
use tree_core::Tree;

/// What a search that spent its budget leaves: the open tree of the search at one number of
/// ballots, or a deck of so many ballots with the open tree of the attack on it.
#[derive(Debug, Drop)]
pub enum License {
    Tree(Tree<Label, Reason>),
    Deck(Deck, Tree<u16, Skipped>),
}
