//! Misassignments: the ways in which a machine's voting targets may be swapped, one for one.
#![tactic(auto)]

mod exchange;
mod fault;
mod misassignment;

pub use fault::MisFault;
pub use misassignment::Misassignment;
