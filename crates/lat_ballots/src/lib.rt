//! Test decks: ballots with a mark or none for each target.
#![tactic(auto)]

mod column_sets;
mod deck;
mod plain;
mod row;
mod words;

pub use column_sets::{columns, push_bit};
pub use deck::Deck;
pub use plain::plain_size;
pub use row::Row;
