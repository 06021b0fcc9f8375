//! Checks certificates and open files: that they hold, or their first fault.
#![tactic(auto)]

mod cert;
mod law;
mod license;
mod lower;
mod open_file;
mod parts;
mod proved;
mod robust;
mod rules;

pub use cert::check_cert;
pub use law::faults_exclude_holding;
pub use open_file::check_open_file;
