//! Decks of given patterns, which obey the rules.
#![tactic(auto)]

mod counts;
mod fitting;
mod laid;
mod law;
mod mode;
mod proposal;
mod runs;

pub use law::{marks_are_spread, patterns_obey, working_ballots_are_counted};
pub use proposal::propose;
