use close_rules::{Label, Reason};
use std::marker::Model;
use tree_core::Tree;

/// A part of a style, a number of ballots, and a tree over partial decks that shows that no good
/// deck of the part has `size` ballots; hence none of the style has at most so many. A value may be
/// false: `specs/Lower.antt` says when it holds.
#[derive(Debug, Drop)]
pub struct Lower {
    pub contests: Vec<u16>,
    pub size: u16,
    pub tree: Tree<Label, Reason>,
}

impl Model for Lower {
    ghost use Rattle.cert_types.specs.LowerPart.{LowerPart};

    ghost Value = { LowerPart };

    ghost view = { λ l. record { contests = l.contests.items; size = l.size; tree = l.tree } };
}
