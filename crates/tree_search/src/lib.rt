//! The search of a space by a tree, within a budget of nodes.
#![tactic(auto)]

mod chooser;
mod growth;
mod outcome;
mod pick;
mod searching;
mod turn;

pub use chooser::Chooser;
pub use outcome::Outcome;
pub use pick::Pick;
pub use searching::search;
