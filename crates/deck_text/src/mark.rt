/// What a row of a deck's file says of its ballot: that it marks nothing, or the target that it
/// marks.
#[derive(Clone, Copy, Debug, PartialEq, Eq)]
pub enum Mark {
    Blank,
    Target(u16),
}
