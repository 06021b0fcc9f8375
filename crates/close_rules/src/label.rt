/// What a tree of partial decks forks on.
#[derive(Clone, Copy, Debug, PartialEq, Eq)]
pub enum Label {
    /// The mark of this ballot at this target: marked, then unmarked.
    Mark(u16, u16),
    /// The total of this target: below this number, then at least this number.
    Split(u16, u16),
}
