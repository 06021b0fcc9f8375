//! Plans test decks: from the words of a call and the files to files, text and a status.
#![tactic(auto)]

mod all;
mod all_style;
mod all_words;
mod asked_style;
mod attackable;
mod cert_file;
mod cert_pieces;
mod check;
mod check_words;
mod command;
mod county;
mod finding;
mod judge_words;
mod judgeable;
mod judging;
mod match_words;
mod matching;
mod output;
mod plan;
mod plan_answer;
mod plan_files;
mod plan_words;
mod planned;
mod put;
mod reading;
mod refusal;
mod sample_words;
mod sampling;
mod spot;
mod status;
mod status_text;
mod top;
mod verify;
mod verify_words;
mod word_fault;
mod words;
mod write;

pub use spot::Spot;
pub use status::Status;
pub use top::run;
pub use word_fault::WordFault;
