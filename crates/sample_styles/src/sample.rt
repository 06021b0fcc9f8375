use lat_base::{Id, Shape};

/// A ballot style that was drawn, and its id.
#[derive(Debug, Drop)]
pub struct Sample {
    pub id: Id,
    pub shape: Shape,
}
