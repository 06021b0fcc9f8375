//! Certificates, open files and evade files as bytes: each has one spelling, which no other begins.
#![tactic(auto)]

mod cert_reader;
mod cert_writer;
mod decks;
mod evade;
mod law;
mod license;
mod lower_parts;
mod magic;
mod open_reader;
mod open_writer;
mod verdicts;

pub use cert_reader::read_cert;
pub use cert_writer::write_cert;
pub use evade::{read_evade, write_evade};
pub use law::{cert_spellings, evade_spellings, open_spellings};
pub use magic::magic_of;
pub use open_reader::read_open;
pub use open_writer::write_open;
pub use verdicts::{ballots_of, verdict_of};
