/// Where a certificate's style first differs from that of a definition.
#[derive(Clone, Copy, Debug, PartialEq, Eq)]
pub enum Spot {
    /// The style's id.
    Style,
    /// The contest of that number: its id, its limit, its targets or their ids, or that there is
    /// none.
    Contest(u16),
    /// The rules.
    Rules,
}
