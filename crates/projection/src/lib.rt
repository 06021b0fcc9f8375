//! Parts of a style: some of its contests, and decks cut to their targets.
#![tactic(auto)]

mod law;
mod part_fault;
mod parts;
mod restriction;

pub use law::good_restricted;
pub use part_fault::PartFault;
pub use parts::part;
pub use restriction::restrict;
