use crate::reasons::read_reason;
use crate::stacking::stack;
use crate::words::{pair, split_dot};
use anyhow::{Result, bail};
use close_rules::{Label, Reason};
use deck_space::Decks;
use deck_state::Partial;
use std::alloc::Global;
use tree_core::{Node, Tree, Verdict0, check_open, check_tree};

// The node that a word names.
fn read_node(alloc: Global, word: &str) -> Result<Node<Label, Reason>> {
    let (head, rest) = split_dot(word);
    match head {
        "Open" => Ok(Node::Open),
        "Mark" => {
            let (j, t) = pair(rest)?;
            Ok(Node::Fork(Label::Mark(j, t), 2))
        }
        "Split" => {
            let (t, x) = pair(rest)?;
            Ok(Node::Fork(Label::Split(t, x), 2))
        }
        _ => match read_reason(alloc, word)? {
            Some(reason) => Ok(Node::Close(reason)),
            None => bail!("no node"),
        },
    }
}

// The tree of nodes that are joined by commas, in preorder.
fn read_tree(alloc: Global, text: &str) -> Result<Tree<Label, Reason>> {
    let mut nodes = Vec::new(alloc);
    for word in text.split(',') {
        nodes.push(read_node(alloc, word)?)?;
    }
    stack(alloc, nodes)
}

/// What the check of a tree at a partial deck says, where an open leaf holds or not.
pub fn judge(
    alloc: Global,
    partial: &mut Partial,
    text: &str,
    open_holds: bool,
) -> Result<Verdict0> {
    let tree = read_tree(alloc, text)?;
    let _ballots = partial.ballots();
    let space = Decks::new();
    if open_holds {
        Ok(check_open(alloc, &space, partial, &tree)?)
    } else {
        Ok(check_tree(alloc, &space, partial, &tree)?)
    }
}
