//! Laws that join a list of nodes to the tree that it lists.

ghost use Rattle.std.specs.Prelude.{◌≡◌, ◌<◌, ℕ, List, length, slice_get};
ghost use Rattle.tree_core.specs.declared.node.Node.{Node};
ghost use Rattle.tree_core.specs.Rose.{Rose, preorder};
ghost use Rattle.tree_core.specs.Reading.{IsTree, tree_of};
ghost use Rattle.tree_core.specs.Places.{state_at, states_of};

use crate::space::Space;

/// A law: the nodes of a tree in preorder list that tree and no other. The call does nothing.
pub fn lists_one_tree<S: Space>(_space: &S)
    ensures is_tree { (tree : Rose S.Label S.Reason) → IsTree (preorder tree) }
    ensures same { (tree : Rose S.Label S.Reason) → tree_of (preorder tree) ≡ tree }
{}

/// A law: the state at a place of a list that lists a tree, found by a walk over the nodes before
/// it, is the state of that node in the tree, and each node has one. The call does nothing.
pub fn places_are_the_trees<S: Space>(_space: &S)
    ensures states { let steps = S.steps _space.now in
        (root : S.State) (nodes : List (Node S.Label S.Reason)) (i : ℕ) →
        IsTree nodes → i < length nodes →
        state_at steps root nodes i ≡ slice_get (states_of steps root (tree_of nodes)) i }
    ensures each { (root : S.State) (nodes : List (Node S.Label S.Reason)) → IsTree nodes →
        length (states_of (S.steps _space.now) root (tree_of nodes)) ≡ length nodes }
{}
