//! The attack on a deck: a misassignment that it lets pass, or a tree that shows that there is
//! none.
#![tactic(auto)]

mod attacking;
mod chooser;
mod columns;
mod exchange;
mod order;
mod plain;

pub use attacking::{Attacked, attack};
pub use plain::plain_robust;
