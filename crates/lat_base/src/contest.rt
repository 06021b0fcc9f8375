/// A contest: how many votes a ballot may give in it, and how many voting targets it has.
///
/// A contest whose limit is at or above its number of targets can't be overvoted.
#[derive(Clone, Copy, Debug, PartialEq, Eq)]
pub struct Contest {
    pub limit: u16,
    pub targets: u16,
}
