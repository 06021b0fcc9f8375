//! Ballot styles that a generator of numbers gives, one after the other, and their rules. What a
//! seed gives is the same on every machine.
#![tactic(auto)]

mod generator;
mod sample;
mod samples;
mod worked;

pub use sample::Sample;
pub use samples::{Samples, sample_rules};
