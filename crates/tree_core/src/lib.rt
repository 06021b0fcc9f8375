//! Search trees, the spaces of states that they are searched in, and the check of a tree.
#![tactic(auto)]

mod check;
mod law;
mod node;
mod space;
mod tree;
mod walk;

pub use check::{Verdict0, check_open, check_tree, node_holds};
pub use law::{lists_one_tree, places_are_the_trees};
pub use node::Node;
pub use space::Space;
pub use tree::Tree;
pub use walk::{Entry, go_back, go_on, next_place};
