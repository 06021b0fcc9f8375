ghost use Rattle.std.specs.Prelude.{◌≡◌, ◌++◌, OnOk, OnErr, take, length, flat_map, All};
ghost use Rattle.cert_fields.specs.Spelling.{Takes};
ghost use Rattle.cert_fields.specs.Reading.{Gives};
ghost use Rattle.cert_fields.specs.TreeReading.{tree_at};
ghost use Rattle.cert_fields.specs.Trees.{node_text, IsNode, tree_text, IsTreeOf, AnyLabel};
ghost use Rattle.cert_fields.specs.Trees.{label_text, reason_text, IsReason};

use crate::nodes::nodes_of;
use crate::{CertFault, Spelt, put_u8, put_u16};
use close_rules::{Label, Reason};
use evade_space::Skipped;
use std::alloc::{AllocError, Global};
use tree_core::{Node, Tree};

// Appends a node; after want of memory perhaps only its front.
fn append_node<B: Spelt, R: Spelt>(out: &mut Vec<u8>, node: &Node<B, R>) -> Result<(), AllocError>
    ensures ok { OnOk result (out.new.items ≡ out.old.items ++ node_text B.text R.text node.now) }
    ensures kept { take (length out.old.items) out.new.items ≡ out.old.items }
    ensures spelled { OnOk result (IsNode B.fits R.fits node.now) }
{
    match node {
        Node::Open => put_u8(out, 0),
        Node::Close(reason) => {
            put_u8(out, 1)?;
            reason.put(out)
        }
        Node::Fork(label, kids) => {
            put_u8(out, 2)?;
            label.put(out)?;
            put_u16(out, *kids)
        }
    }
}

// Appends the nodes in preorder; after want of memory perhaps only the first ones.
fn append_nodes<B: Spelt, R: Spelt>(
    out: &mut Vec<u8>,
    nodes: &[Node<B, R>],
) -> Result<(), AllocError>
    ensures ok { OnOk result (out.new.items ≡ out.old.items ++ tree_text B.text R.text nodes.now) }
    ensures kept { take (length out.old.items) out.new.items ≡ out.old.items }
    ensures spelled { OnOk result (All (IsNode B.fits R.fits) nodes.now) }
{
    for node in nodes {
        append_node(out, node)?;
    }
    Ok(())
}

/// Appends a tree: its nodes in preorder. After want of memory nothing is appended.
pub fn put_tree<B: Spelt, R: Spelt>(out: &mut Vec<u8>, tree: &Tree<B, R>) -> Result<(), AllocError>
    ensures ok { OnOk result (out.new.items ≡ out.old.items ++ tree_text B.text R.text tree.now) }
    ensures err { OnErr result (out.new.items ≡ out.old.items) }
    ensures spelled { OnOk result (IsTreeOf B.fits R.fits tree.now) }
{
    let before = out.len();
    let done = append_nodes(out, tree.as_slice());
    if done.is_err() {
        out.truncate(before);
    }
    done
}

/// The tree at the front, and the bytes behind it.
pub fn tree_of<B: Spelt, R: Spelt>(
    alloc: Global,
    bytes: &[u8],
) -> Result<(Tree<B, R>, &[u8]), CertFault>
    ensures { Gives (λ x. (x.0, x.1.now)) result (tree_at B.read_at R.read_at bytes.now) }
{
    B::exact();
    R::exact();
    match nodes_of(alloc, bytes) {
        Ok((nodes, rest)) => Ok((Tree::from_nodes(nodes), rest)),
        Err(fault) => Err(fault),
    }
}

/// The tree whose spelling the bytes begin with, and the length of that spelling.
pub fn take_tree<B: Spelt, R: Spelt>(
    alloc: Global,
    bytes: &[u8],
) -> Result<(Tree<B, R>, usize), CertFault>
    ensures { Takes (IsTreeOf B.fits R.fits) (tree_text B.text R.text) result bytes.now }
{
    B::exact();
    R::exact();
    match nodes_of(alloc, bytes) {
        Ok((nodes, rest)) => Ok((Tree::from_nodes(nodes), bytes.len() - rest.len())),
        Err(fault) => Err(fault),
    }
}

/// The deck tree whose spelling the bytes begin with, and the length of that spelling.
pub fn take_deck_tree(
    alloc: Global,
    bytes: &[u8],
) -> Result<(Tree<Label, Reason>, usize), CertFault>
    ensures { let text = tree_text label_text reason_text in
        Takes (IsTreeOf AnyLabel IsReason) text result bytes.now }
{
    take_tree(alloc, bytes)
}

/// Appends a deck tree. After want of memory nothing is appended.
pub fn put_deck_tree(
    _alloc: Global,
    out: &mut Vec<u8>,
    tree: &Tree<Label, Reason>,
) -> Result<(), AllocError>
    ensures ok { OnOk result (out.new.items ≡ out.old.items ++
        tree_text label_text reason_text tree.now) }
    ensures err { OnErr result (out.new.items ≡ out.old.items) }
    ensures spelled { OnOk result (IsTreeOf AnyLabel IsReason tree.now) }
{
    put_tree(out, tree)
}
