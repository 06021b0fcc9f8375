//! Woven decks: contests marked in full, totals spread over the contests, ballots drawn; and their
//! repair against the misassignments that evaded them. All of it is a guess that an attack judges.
#![tactic(auto)]

mod ballot_set;
mod choice;
mod conflicts;
mod contest_marks;
mod cycle;
mod draws;
mod evaders;
mod exchanges;
mod free_totals;
mod full_totals;
mod judgement;
mod layout;
mod loom;
mod ranks;
mod repair;
mod rising_lists;
mod sizes;
mod totals;
mod usage;
mod woven_deck;

pub use repair::weave;
