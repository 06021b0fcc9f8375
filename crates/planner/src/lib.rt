//! The plan of a style: a good deck of the fewest ballots, or how far the search for one came.
#![tactic(auto)]

mod answer;
mod attempt;
mod best;
mod candidates;
mod choosing;
mod deck_chooser;
mod finding;
mod forks;
mod guessing;
mod kept;
mod kept_reasons;
mod parts;
mod patterns;
mod plain_deck;
mod planning;
mod root;
mod searched;
mod searching;
mod shown_deck;
mod sizes;
mod step;
mod trial;
mod whole;

pub use answer::Answer;
pub use kept::Kept;
pub use planning::plan;
