//! The fields of certificates, open files and evade files as bytes: each value has one spelling,
//! and no spelling of a field begins another.
#![tactic(auto)]

mod evade;
mod fault;
mod head_reader;
mod head_writer;
mod labels;
mod lists;
mod nodes;
mod numbers;
mod part_list;
mod reasons;
mod row_reader;
mod row_writer;
mod spelt;
mod texts;
mod trees;

pub use evade::{put_evade_tree, take_evade_tree};
pub use fault::CertFault;
pub use head_reader::{head_of, take_head};
pub use head_writer::put_head;
pub use labels::{put_label, take_label};
pub use lists::{numbers_of, put_numbers};
pub use nodes::{kids_of, node_of};
pub use numbers::{put_one, put_two, put_u8, put_u16, two_of, u8_of, u16_of};
pub use part_list::{part_list_of, put_contests, take_contests};
pub use reasons::{put_reason, take_reason};
pub use row_reader::{row_of, rows_of, take_rows};
pub use row_writer::put_rows;
pub use spelt::Spelt;
pub use texts::{put_text, take_text, text_of};
pub use trees::{put_deck_tree, put_tree, take_deck_tree, take_tree, tree_of};
