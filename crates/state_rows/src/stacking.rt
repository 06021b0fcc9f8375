use anyhow::{Result, bail, ensure};
use std::alloc::Global;
use tree_core::{Node, Tree};

// The tree of a fork on a label over the last trees of a list, the last of them first.
fn fork<B: Drop, R: Drop>(
    alloc: Global,
    trees: &mut Vec<Tree<B, R>>,
    label: B,
    count: u16,
) -> Result<Tree<B, R>> {
    let mut kids = Vec::new(alloc);
    for _ in 0..count {
        let Some(kid) = trees.pop() else {
            bail!("a kid is missing");
        };
        kids.push(kid)?;
    }
    ensure!(kids.len() <= 65_535, "too many kids");
    Ok(Tree::fork(alloc, label, kids)?)
}

/// The tree that these nodes list in preorder.
pub fn stack<B: Drop, R: Drop>(alloc: Global, nodes: Vec<Node<B, R>>) -> Result<Tree<B, R>> {
    let mut trees = Vec::new(alloc);
    for node in nodes.into_iter().rev() {
        let tree = match node {
            Node::Close(reason) => Tree::close(alloc, reason)?,
            Node::Fork(label, kids) => fork(alloc, &mut trees, label, kids)?,
            Node::Open => Tree::open(alloc)?,
        };
        trees.push(tree)?;
    }
    let Some(tree) = trees.pop() else {
        bail!("a tree has no node");
    };
    ensure!(trees.is_empty(), "a tree has too many nodes");
    Ok(tree)
}
