/// A node of a search tree.
#[derive(Debug, Drop)]
pub enum Node<B, R> {
    /// The state is closed by a reason.
    Close(R),
    /// The state is forked on a label, into this number of kids.
    Fork(B, u16),
    /// Nothing is said of the state.
    Open,
}
