//! Canonical decks: of all reorderings of a deck's ballots, of the targets within its contests and
//! of contests of the same limit and number of targets, one.
#![tactic(auto)]

mod canonical_copy;
mod canonical_order;
mod contest_order;
mod counted;
mod law;
mod places;
mod target_order;

pub use canonical_copy::canonical;
pub use canonical_order::is_canonical;
pub use law::{good_has_canonical, plain_is_canonical, reordering_keeps_good};
