//! Ballot styles, names, the rules of a test deck, and the definitions on which every claim rests:
//! reading, votes, totals, robust and good decks, least size, parts and canonical decks (`specs/`).
#![tactic(auto)]

mod contest;
mod contest_names;
mod id;
mod limits;
mod names;
mod names0;
mod rules;
mod shape;
mod shape_fault;
mod worked;

pub use contest::Contest;
pub use contest_names::ContestNames;
pub use id::{Id, IdFault, is_id};
pub use limits::{
    MOST_BALLOTS, MOST_BLANK, MOST_CONTESTS, MOST_ID_BYTES, MOST_IN_CONTEST, MOST_LEAST, MOST_OVER,
    MOST_TARGETS, MOST_VOTES, the_limits,
};
pub use names::{NameFault, Names};
pub use names0::Names0;
pub use rules::{RuleFault, Rules};
pub use shape::Shape;
pub use shape_fault::ShapeFault;
