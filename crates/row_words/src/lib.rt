//! The words of a line that a program of the gate reads: numbers, styles, rules and decks.
#![tactic(auto)]

mod deck;
mod rules;
mod style;
mod words;

pub use deck::deck_of;
pub use rules::rules_of;
pub use style::style_of;
pub use words::{number, split_word};
