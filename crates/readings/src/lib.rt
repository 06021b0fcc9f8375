//! Laws of decks as they are read: what a robust deck rules out, and what keeps a deck robust.
#![tactic(auto)]

mod relabelled;
mod robust;

pub use relabelled::relabelled_robust;
pub use robust::{columns_differ, structural_stays, totals_differ, twins_differ};
