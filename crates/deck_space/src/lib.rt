//! Partial decks as a space of states that is searched by trees.
#![tactic(auto)]

mod allowing;
mod decks;
mod law;

pub use allowing::is_allowed;
pub use decks::Decks;
pub use law::{checked_tree_leaves_no_good_deck, padding_keeps_good, shown_solution_is_value};
