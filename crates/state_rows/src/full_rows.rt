use crate::answers::print_verdict;
use crate::full_tree::{Descend, FullTree};
use crate::stacking::stack;
use anyhow::{Result, bail, ensure};
use row_words::split_word;
use std::alloc::Global;
use tree_core::{Node, Tree, check_open, check_tree};
use tree_search::{Outcome, search};

// The number that a word writes, or one that is never reached.
fn limit(word: &str) -> u64 {
    word.parse::<u64>().unwrap_or(u64::MAX)
}

// Prints how many nodes of a tree were picked and how many are open, and what its checks say.
fn print_tree<R: Print>(
    rt: &R,
    alloc: Global,
    space: &FullTree,
    state: &mut u32,
    tree: &Tree<u8, u8>,
) -> Result<()> {
    ensure!(*state <= space.depth, "no state of the space");
    let picked = tree.nodes();
    print!(rt;
        " picked={picked} open-leaves={} open=",
        tree.len().saturating_sub(picked)
    )?;
    print_verdict(rt, check_open(alloc, space, state, tree)?)?;
    print!(rt; " check=")?;
    print_verdict(rt, check_tree(alloc, space, state, tree)?)?;
    print!(rt; " state={state}")?;
    Ok(())
}

// Searches the space from its root, and prints what that came to.
fn print_search<R: Print>(
    rt: &R,
    alloc: Global,
    space: &FullTree,
    picks: u64,
    budget: u64,
) -> Result<()> {
    ensure!(budget > 0, "no budget");
    let mut state = 0;
    let mut chooser = Descend { picks };
    let tree = match search(alloc, space, &mut chooser, &mut state, budget)? {
        Outcome::Found(_) => bail!("found"),
        Outcome::Closed(tree) => {
            print!(rt; " closed")?;
            tree
        }
        Outcome::Spent(tree) => {
            print!(rt; " spent")?;
            tree
        }
        Outcome::Halted(tree, depth) => {
            print!(rt; " halted-at-{depth}")?;
            tree
        }
    };
    print_tree(rt, alloc, space, &mut state, &tree)
}

// The tree of nodes that are joined by commas, in preorder. A fork has as many kids as the space
// gives it.
fn read_tree(alloc: Global, space: &FullTree, text: &str) -> Result<Tree<u8, u8>> {
    let mut nodes = Vec::new(alloc);
    for word in text.split(',') {
        nodes.push(match word {
            "Close" => Node::Close(0),
            "Fork" => Node::Fork(0, space.kids),
            "Open" => Node::Open,
            _ => bail!("no node"),
        })?;
    }
    stack(alloc, nodes)
}

/// Prints what a line says of a full tree of states.
pub fn print_full<R: Print>(rt: &R, alloc: Global, words: &str) -> Result<()> {
    let (depth, rest) = split_word(words);
    let (kids, rest) = split_word(rest);
    let space = FullTree {
        depth: depth.parse::<u32>()?,
        kids: kids.parse::<u16>()?,
    };
    let (head, rest) = split_word(rest);
    if head == "search" {
        let (picks, budget) = split_word(rest);
        print_search(rt, alloc, &space, limit(picks), limit(budget))
    } else {
        let tree = read_tree(alloc, &space, rest)?;
        let tree = Tree::from_nodes(tree.into_nodes());
        print_tree(rt, alloc, &space, &mut 0, &tree)
    }
}
