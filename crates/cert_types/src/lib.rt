//! Certificates and open files as values: their parts, the conditions that they keep, what it means
//! that they hold, and what they then claim. Also the fields that such files are written in.
#![tactic(auto)]

mod cert;
mod checked;
mod license;
mod lower;
mod open_file;
mod part;
mod proved;
mod verdict;

pub use cert::Cert;
pub use cert_fields::{
    CertFault, put_contests, put_deck_tree, put_evade_tree, put_head, put_label, put_reason,
    put_rows, take_contests, take_deck_tree, take_evade_tree, take_head, take_label, take_reason,
    take_rows,
};
pub use checked::Checked;
pub use license::License;
pub use lower::Lower;
pub use open_file::OpenFile;
pub use part::Part;
pub use proved::Proved;
pub use verdict::Verdict;
