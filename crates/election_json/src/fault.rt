use crate::Place;
use thiserror::Error;

/// The first fault of a definition, and its place.
#[derive(Clone, Copy, Debug, PartialEq, Eq, Error)]
pub enum DefFault {
    /// The bytes are no JSON text that `serde_json` reads.
    #[error("the bytes are not JSON")]
    NotJson,
    /// A member isn't there.
    #[error("a member is missing")]
    Missing(Place),
    /// A value is of another kind: `null` always is, and so is a number other than an unsigned
    /// 64-bit integer where a whole number is wanted.
    #[error("a value is of the wrong kind")]
    WrongKind(Place),
    /// A string is no id: 1 to 64 ASCII letters, digits, dots, underscores and dashes.
    #[error("a string is not an id")]
    BadId(Place),
    /// An earlier contest, style, target of the contest or contest of the style has this id.
    #[error("an id stands twice")]
    Repeated(Place),
    /// A number, or the length of an array, is outside its range: that number.
    #[error("{1} is out of range")]
    OutOfRange(Place, u64),
    /// No contest has the id that a style names.
    #[error("no contest has this id")]
    UnknownContest(Place),
    /// The contests of a style have more than 256 targets together: their number.
    #[error("a style has {1} targets, more than 256")]
    TooManyTargets(Place, u32),
}

/// Why a definition was not read.
#[derive(Clone, Copy, Debug, PartialEq, Eq, Error)]
pub enum DefFail {
    /// The first fault of the bytes.
    #[error("{0}")]
    Fault(DefFault),
    #[error("out of memory")]
    Memory,
}
