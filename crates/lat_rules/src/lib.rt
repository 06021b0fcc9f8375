//! The rules that a test deck must obey.
#![tactic(auto)]

mod broken;
mod finds;
mod obeyed;

pub use broken::Broken;
pub use obeyed::obeys;
