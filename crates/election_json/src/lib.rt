//! Election definitions in JSON (RFC 8259, as `serde_json` reads it): the rules of a test deck, the
//! contests and the ballot styles, or the first fault with its place.
#![tactic(auto)]

mod contest_entry;
mod contest_table;
mod contests;
mod definition;
mod fault;
mod id_set;
mod member;
mod place;
mod reading;
mod rules;
mod style_entry;
mod style_names;
mod style_shape;
mod styles;

pub use definition::Definition;
pub use fault::{DefFail, DefFault};
pub use place::Place;
pub use reading::read_definition;
