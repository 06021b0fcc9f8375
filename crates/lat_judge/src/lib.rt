//! Judges the totals that a machine reported by those of a certificate's deck.
#![tactic(auto)]

mod judging;
mod law;

pub use judging::{Judged, judge};
pub use law::robust_decks_show_misassignments;
