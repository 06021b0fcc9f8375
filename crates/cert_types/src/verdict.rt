/// What a certificate claims, in ballots.
#[derive(Clone, Copy, Debug, PartialEq, Eq)]
pub enum Verdict {
    /// A good deck of so many ballots exists, and none of fewer.
    Least(u16),
    /// No good deck has at most so many ballots.
    NoneWithin(u16),
    /// No good deck has fewer ballots; the deck given, if there is one, is good.
    Bounds(u16),
}
