use thiserror::Error;

/// A file could not be opened or read.
#[derive(Clone, Copy, Debug, PartialEq, Eq, Error)]
#[error("the file can't be read")]
pub struct Failed;

/// Why bytes were not put or given.
#[derive(Clone, Copy, Debug, PartialEq, Eq, Error)]
pub enum OutFail {
    /// The outside failed.
    #[error("the bytes can't be written")]
    Failed,
    #[error("out of memory")]
    Memory,
}
