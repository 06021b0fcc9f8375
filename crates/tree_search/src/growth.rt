//! How the list of nodes of a search grows.

ghost use Rattle.std.specs.Prelude.{◌≡◌, ◌∷◌, ◌++◌, [], true, false, List, OnOk, Result, reverse};
ghost use Rattle.tree_core.specs.Reading.{IsTree};
ghost use Rattle.tree_core.specs.Checks.{NodeHolds};
ghost use Rattle.tree_core.specs.Walk.{IsAt};
ghost use Rattle.tree_search.specs.Turn.{AddsOpen};

use std::alloc::AllocError;
use tree_core::{Entry, Node, Space, go_on};

/// Puts a node at the place at hand and goes on to the next place, and says whether there is one.
/// Where there is none the nodes list one tree, and the state is the root's again.
pub(crate) fn add_node<S: Space>(
    space: &S,
    state: &mut S::State,
    nodes: &mut Vec<Node<S::Label, S::Reason>>,
    way: &mut Vec<Entry>,
    node: Node<S::Label, S::Reason>,
) -> Result<bool, AllocError>
    requires own { S.is_own space.now state.old }
    requires at { let steps = S.steps space.now in let own = S.is_own space.now in
        (root : S.State) × IsAt steps own root nodes.old.items (reverse way.old.items) state.old }
    requires holds { NodeHolds true (S.steps space.now) state.old node }
    ensures nodes { OnOk result (nodes.new.items ≡ nodes.old.items ++ node ∷ []) }
    ensures next { let steps = S.steps space.now in let own = S.is_own space.now in
        result ≡ Result.Ok true → (root : S.State) →
        IsAt steps own root nodes.old.items (reverse way.old.items) state.old →
        IsAt steps own root nodes.new.items (reverse way.new.items) state.new }
    ensures end { let steps = S.steps space.now in let own = S.is_own space.now in
        result ≡ Result.Ok false → (root : S.State) →
        IsAt steps own root nodes.old.items (reverse way.old.items) state.old →
        IsTree nodes.new.items × (state.new ≡ root) }
{
    let place = nodes.len();
    nodes.push(node)?;
    go_on(space, state, nodes.as_slice(), place, way)
}

/// Leaves the place at hand and each place that is still to come open, and goes back to the root.
pub(crate) fn leave_open<S: Space>(
    space: &S,
    state: &mut S::State,
    nodes: &mut Vec<Node<S::Label, S::Reason>>,
    way: &mut Vec<Entry>,
) -> Result<(), AllocError>
    requires { let steps = S.steps space.now in let own = S.is_own space.now in
        (root : S.State) × IsAt steps own root nodes.old.items (reverse way.old.items) state.old }
    ensures nodes { OnOk result (AddsOpen nodes.old.items nodes.new.items) }
    ensures end { let steps = S.steps space.now in let own = S.is_own space.now in
        OnOk result ((root : S.State) →
        IsAt steps own root nodes.old.items (reverse way.old.items) state.old →
        IsTree nodes.new.items × (state.new ≡ root)) }
{
    space.laws();
    'rest: while add_node(space, state, nodes, way, Node::Open)? {}
    Ok(())
}
