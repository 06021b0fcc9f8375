//! Why a partial deck has no good canonical deck in it.
#![tactic(auto)]

mod ballots;
mod capacity;
mod columns;
mod evading;
mod finding;
mod fixed;
mod kept;
mod label;
mod law;
mod order;
mod pigeon;
mod reason;
mod refuting;
mod totals;

pub use finding::cheap;
pub use label::Label;
pub use law::{complete_is_judged, kids_share_solutions, refuted_is_empty};
pub use reason::Reason;
pub use refuting::refutes;
