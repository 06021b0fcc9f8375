//! Decimal numerals: digits with no 0 before another, read as numbers of 64 bits.
#![tactic(auto)]

mod number;

pub use number::number_of;
