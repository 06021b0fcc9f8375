use thiserror::Error;

/// Why a list of sources is no misassignment. Places count from 0.
#[derive(Clone, Copy, Debug, PartialEq, Eq, Error)]
pub enum MisFault {
    /// The first bad place, whose source isn't below the number of targets.
    #[error("the source at place {0} is no target")]
    OutOfRange(u16),
    /// The first bad place, whose source stood before.
    #[error("the source at place {0} stands twice")]
    Repeated(u16),
    #[error("out of memory")]
    Memory,
}
