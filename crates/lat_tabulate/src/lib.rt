//! Tabulation: the totals of a deck, as its marks stand and as they are read under a misassignment.
#![tactic(auto)]

mod losses;
mod read;
mod reports;
mod same_report;
mod totals;
mod wanted_report;

pub use losses::{count_marks, lost};
pub use read::total_read;
pub use reports::report;
pub use same_report::leaves_report;
pub use totals::{mark_count, total, total_under};
pub use wanted_report::gives_report;
