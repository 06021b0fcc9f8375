use evade_space::Skipped;
use lat_ballots::Deck;
use tree_core::Tree;

/// A deck, and a tree over the misassignments of its style's targets that shows that it is robust.
/// A value may be false: `specs/Proved.antt` says when it holds.
#[derive(Debug, Drop)]
pub struct Proved {
    pub deck: Deck,
    pub robust: Tree<u16, Skipped>,
}
