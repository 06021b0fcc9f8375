/// What a chooser picks at a state.
#[derive(Debug, Drop)]
pub enum Pick<B, R, P, W> {
    /// To close the state by a reason.
    Close(R),
    /// To fork the state on a label.
    Fork(B),
    /// To end the search: the state's value is a solution, with a proof.
    Found(P),
    /// To end the search with a value that says why.
    Halt(W),
}
