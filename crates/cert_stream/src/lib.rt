//! Checks a certificate that comes in pieces, and never holds more of it than one field, its deck
//! and the state of the tree that is being checked.
#![tactic(auto)]

mod front;
mod head;
mod node;
mod phase;
mod reading;
mod step;
mod stream;
mod walk;

pub use head::Head;
pub use stream::StreamCheck;
