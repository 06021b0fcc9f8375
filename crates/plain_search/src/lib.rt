//! The least deck of a style, found by trying every deck, and each deck by trying every
//! misassignment. It is the definition as a program, slow on purpose: what a search answers is
//! compared with it.
#![tactic(auto)]

mod least;
mod robust;

pub use least::{is_good, least_deck};
pub use robust::is_robust;
