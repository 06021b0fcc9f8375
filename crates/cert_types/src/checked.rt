use crate::{Part, Verdict};

/// What the check of a certificate answers.
#[derive(Clone, Copy, Debug, PartialEq, Eq)]
pub enum Checked {
    /// The certificate holds; its own verdict.
    Yes(Verdict),
    /// The first part that doesn't hold, and in a tree the number of the first node in preorder
    /// that doesn't; 0 for a part that is no tree.
    No(Part, u64),
}
