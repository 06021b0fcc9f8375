use lat_base::Id;

/// A style of a definition: its id and the numbers of its contests, in order.
#[derive(Debug, Drop)]
pub struct StyleEntry {
    pub id: Id,
    pub contests: Vec<u32>,
}
