ghost use Rattle.std.specs.Prelude.{◌≡◌, ◌<◌, ◌≤◌, ◌++◌, IfOk, OnOk, OnErr, length, take, flat_map};
ghost use Rattle.cert_fields.specs.Reading.{Gives};
ghost use Rattle.cert_fields.specs.Trees.{node_text, IsNode, tree_text};
ghost use Rattle.cert_fields.specs.TreeReading.{node_at, tree_at, kids_of};

use crate::{CertFault, Spelt, u8_of, u16_of};
use std::alloc::{AllocError, Global};
use tree_core::Node;

/// How many kids a node says that it has; none where it isn't a fork.
pub fn kids_of<B, R>(node: &Node<B, R>) -> u16
    ensures { result ≡ kids_of node.now }
{
    match node {
        Node::Fork(_, kids) => *kids,
        _ => 0,
    }
}

/// The node at the front, and the bytes behind it.
#[tactic(auto, unfolding(crate::specs::TreeReading::node_at))]
pub fn node_of<B: Spelt, R: Spelt>(
    alloc: Global,
    bytes: &[u8],
) -> Result<(Node<B, R>, &[u8]), CertFault>
    ensures { Gives (λ x. (x.0, x.1.now)) result (node_at B.read_at R.read_at bytes.now) }
{
    let (tag, rest) = u8_of(bytes)?;
    match tag {
        0 => Ok((Node::Open, rest)),
        1 => {
            let (reason, rest) = R::read(alloc, rest)?;
            Ok((Node::Close(reason), rest))
        }
        2 => {
            let (label, rest) = B::read(alloc, rest)?;
            let (kids, rest) = u16_of(rest)?;
            Ok((Node::Fork(label, kids), rest))
        }
        _ => Err(CertFault::NotACertificate),
    }
}

/// The nodes of the tree at the front, and the bytes behind them.
pub(crate) fn nodes_of<B: Spelt, R: Spelt>(
    alloc: Global,
    bytes: &[u8],
) -> Result<(Vec<Node<B, R>>, &[u8]), CertFault>
    ensures { Gives (λ x. (x.0.items, x.1.now)) result (tree_at B.read_at R.read_at bytes.now) }
{
    B::exact();
    R::exact();
    let mut nodes = Vec::new(alloc);
    let mut rest = bytes;
    let mut wanted: u128 = 1;
    while wanted > 0 {
        let (node, after) = node_of(alloc, rest)?;
        wanted = wanted - 1 + kids_of(&node) as u128;
        nodes.push(node)?;
        rest = after;
    }
    Ok((nodes, rest))
}
