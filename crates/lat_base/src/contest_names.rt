use crate::{Id, Names0};

/// The ids of a contest and its targets.
#[derive(Debug, Drop)]
pub struct ContestNames {
    pub id: Id,
    pub targets: Names0,
}
