ghost use Rattle.std.specs.Prelude.{◌≡◌, ◌<◌, ◌≤◌, ◌∷◌, [], Option, IfOk, length, vec_len, flat_map, count_by, slice_get};
ghost use Rattle.tree_core.specs.Reading.{IsTree};
ghost use Rattle.tree_core.specs.Nodes.{is_pick};

use crate::node::Node;
use std::alloc::{AllocError, Global};
use std::marker::Model;

/// A search tree, seen as the list of its nodes in preorder.
#[derive(Debug, Drop)]
pub struct Tree<B, R> {
    nodes: Vec<Node<B, R>>,
}

impl<B, R> Model for Tree<B, R> {
    ghost use Rattle.std.specs.Prelude.{List};
    ghost use Rattle.tree_core.specs.declared.node.Node.{Node};
    ghost use Rattle.tree_core.specs.Reading.{IsTree};

    ghost Value = { List (Node B R) };

    ghost view = { λ t. t.nodes.items };

    ghost invariant = { λ t. IsTree t.nodes.items };
}

impl<B: Drop, R: Drop> Tree<B, R> {
    /// One open node. The only error is want of memory.
    pub fn open(alloc: Global) -> Result<Tree<B, R>, AllocError>
        ensures { IfOk result (λ tree. tree ≡ Node.Open ∷ []) }
    {
        let mut nodes = Vec::new(alloc);
        nodes.push(Node::Open)?;
        Ok(Tree { nodes })
    }

    /// One node that is closed by a reason. The only error is want of memory.
    pub fn close(alloc: Global, reason: R) -> Result<Tree<B, R>, AllocError>
        ensures { IfOk result (λ tree. tree ≡ Node.Close reason ∷ []) }
    {
        let mut nodes = Vec::new(alloc);
        nodes.push(Node::Close(reason))?;
        Ok(Tree { nodes })
    }

    /// A Fork node over these trees, of which there may be at most 65,535. The only error is want
    /// of memory.
    pub fn fork(alloc: Global, label: B, kids: Vec<Tree<B, R>>) -> Result<Tree<B, R>, AllocError>
        requires { vec_len kids ≤ 65535 }
        ensures { IfOk result (λ tree.
            tree ≡ Node.Fork label (vec_len kids) ∷ flat_map (λ kid. kid) kids.items) }
    {
        let mut nodes = Vec::new(alloc);
        nodes.push(Node::Fork(label, kids.len() as u16))?;
        for kid in kids {
            nodes.append(&mut kid.into_nodes())?;
        }
        Ok(Tree { nodes })
    }

    /// The number of all nodes.
    pub fn len(&self) -> u64
        ensures { result ≡ length self.now }
    {
        self.nodes.len() as u64
    }

    /// The number of Close and Fork nodes.
    pub fn nodes(&self) -> u64
        ensures { result ≡ count_by is_pick self.now }
    {
        let picks = self.nodes.iter().filter(|node| !matches!(node, Node::Open));
        picks.count() as u64
    }

    /// A law: the nodes list exactly one tree. The call does nothing.
    pub fn lists_a_tree(&self)
        ensures { IsTree self.now }
    {
        let _nodes = self.nodes.len();
    }

    /// The node of that number in preorder, from 0 on.
    pub fn node(&self, i: u64) -> &Node<B, R>
        requires { i < length self.now }
        ensures { slice_get self.now i ≡ Option.Some result.now }
    {
        &self.nodes[i as usize]
    }

    /// The nodes in preorder, lent.
    pub fn as_slice(&self) -> &[Node<B, R>]
        ensures nodes { result.now ≡ self.now }
        ensures tree { IsTree result.now }
    {
        self.nodes.as_slice()
    }

    /// The list of nodes in preorder.
    pub fn into_nodes(self) -> Vec<Node<B, R>>
        ensures nodes { result.items ≡ self }
        ensures tree { IsTree result.items }
    {
        self.nodes
    }

    /// The tree of these nodes in preorder. They must list exactly one tree.
    pub fn from_nodes(nodes: Vec<Node<B, R>>) -> Tree<B, R>
        requires { IsTree nodes.items }
        ensures { result ≡ nodes.items }
    {
        Tree { nodes }
    }
}
