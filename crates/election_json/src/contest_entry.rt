use lat_base::{Id, Names0};

/// A contest of a definition: its id, its vote limit and the ids of its targets.
#[derive(Debug, Drop)]
pub struct ContestEntry {
    pub id: Id,
    pub limit: u16,
    pub targets: Names0,
}
