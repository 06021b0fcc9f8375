/// The totals of one contest, and how many working ballots overvote it. The least score is best.
#[derive(Drop)]
pub struct Choice {
    pub score: u64,
    pub totals: Vec<u16>,
    pub over: u16,
}
