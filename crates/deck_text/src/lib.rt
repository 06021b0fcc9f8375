//! The tables of a test deck as CSV (RFC 4180, as the crate `csv` reads and writes it): the deck's
//! ballots, the totals that it should give, and the report of a voting system. Also the texts of
//! answers: the summaries of an attack and of a plan, the lines of many styles, and the manifest.
#![tactic(auto)]

mod blank;
mod counts;
mod draft;
mod fault;
mod find;
mod front;
mod manifest;
mod mark;
mod plan_summary;
mod read_deck;
mod read_report;
mod records;
mod rules_line;
mod style_summary;
mod table;
mod target_name;
mod verdict_words;
mod verify_summary;
mod write_deck;
mod write_totals;

pub use counts::Counts;
pub use fault::{CsvFail, CsvFault};
pub use manifest::manifest_line;
pub use plan_summary::plan_text;
pub use read_deck::read_deck_csv;
pub use read_report::read_report_csv;
pub use rules_line::print_target;
pub use style_summary::style_line;
pub use verify_summary::verify_text;
pub use write_deck::deck_csv;
pub use write_totals::totals_csv;
