/// A part of a certificate or an open file that can be false.
#[derive(Clone, Copy, Debug, PartialEq, Eq)]
pub enum Part {
    /// There is no deck where one is needed.
    Deck,
    /// The deck breaks a rule.
    Rules,
    /// The tree that is to show that the deck is robust.
    Robust,
    /// The tree that is to show that no smaller deck is good.
    Lower,
    /// What a search that spent its budget left.
    License,
}
