ghost use Rattle.std.specs.Prelude.{◌≡◌, ◌<◌, ◌↔◌, ◌∷◌, ◌++◌, [], true, ℕ, List, Option, OnSome};
ghost use Rattle.std.specs.Prelude.{IsNone, IfSome, IfNone, IfOk, OnOk, OnErr, take, length, reverse, slice_get};
ghost use Rattle.std.specs.Prelude.{vec_len, vec_capacity};
ghost use Rattle.tree_core.specs.declared.node.Node.{Node};
ghost use Rattle.tree_core.specs.declared.walk.Entry.{Entry};
ghost use Rattle.tree_core.specs.Steps.{IsKid};
ghost use Rattle.tree_core.specs.Checks.{NodeHolds};
ghost use Rattle.tree_core.specs.Places.{after};
ghost use Rattle.tree_core.specs.Walk.{Stands, IsOnWay, Lands, places_of};

use crate::node::Node;
use crate::space::Space;
use std::alloc::AllocError;

/// A Fork on the way from the root to the state at hand.
#[derive(Clone, Copy, Debug, PartialEq, Eq)]
pub struct Entry {
    /// The place of the Fork in the list of nodes.
    pub node: usize,
    /// The number of the kid that is entered next.
    pub next: u16,
}

/// Leaves the kid at hand for the state of its Fork, the innermost one on the way, and takes that
/// Fork off the way. At the root there is none, and nothing changes.
fn go_up<S: Space>(space: &S, state: &mut S::State, way: &mut Vec<Entry>) -> Option<Entry>
    requires { let steps = S.steps space.now in let own = S.is_own space.now in
        (entry : Entry) (outer : List Entry) → way.old.items ≡ outer ++ entry ∷ [] →
        (s : S.State) × (l : S.Label) × (k : ℕ) × IsKid steps own s l k state.old }
    ensures up { IfSome result (λ entry. way.old.items ≡ way.new.items ++ entry ∷ []) }
    ensures left { let steps = S.steps space.now in let own = S.is_own space.now in
        OnSome result ((s : S.State) (l : S.Label) (k : ℕ) →
        IsKid steps own s l k state.old → state.new ≡ s) }
    ensures room { OnSome result (vec_len way.new < vec_capacity way.new) }
    ensures root { IsNone result ↔ (way.old.items ≡ []) }
    ensures way { IfNone result (way.new.items ≡ way.old.items) }
    ensures state { IfNone result (state.new ≡ state.old) }
{
    let entry = way.pop()?;
    space.leave(state);
    Some(entry)
}

/// Goes from a place whose nodes are done to the next place in preorder, and says whether there is
/// one. Where there is none the state is that of the root again.
pub fn next_place<S: Space>(
    space: &S,
    state: &mut S::State,
    nodes: &[Node<S::Label, S::Reason>],
    way: &mut Vec<Entry>,
) -> bool
    requires { let steps = S.steps space.now in let own = S.is_own space.now in
        IsOnWay steps own nodes.now (reverse way.old.items) state.old }
    ensures lands { let steps = S.steps space.now in let own = S.is_own space.now in
        (root : S.State) (to_come : List S.State) →
        Stands steps own nodes.now root (reverse way.old.items) state.old to_come →
        Lands steps own nodes.now root (reverse way.new.items) state.new result to_come }

    // The places on the way are the first ones of those before.
    ensures places { places_of way.new.items
        ≡ take (length way.new.items) (places_of way.old.items) }
{
    while let Some(entry) = go_up(space, state, way) {
        let Node::Fork(label, kids) = &nodes[entry.node] else {
            unreachable!()
        };
        if entry.next < *kids {
            space.enter(state, label, entry.next);
            way.push_reserved(Entry {
                node: entry.node,
                next: entry.next + 1,
            });
            return true;
        }
    }
    false
}

/// Goes from the node at a place, which holds at the state, to the next place in preorder, and says
/// whether there is one. Where there is none the state is that of the root again. After want of
/// memory, the only error, the state and the way are as before.
pub fn go_on<S: Space>(
    space: &S,
    state: &mut S::State,
    nodes: &[Node<S::Label, S::Reason>],
    place: usize,
    way: &mut Vec<Entry>,
) -> Result<bool, AllocError>
    requires own { S.is_own space.now state.old }
    requires place { place < length nodes.now }
    requires stands { let steps = S.steps space.now in let own = S.is_own space.now in
        IsOnWay steps own nodes.now (reverse way.old.items) state.old }
    requires holds { (node : Node S.Label S.Reason) → slice_get nodes.now place ≡ Option.Some node →
        NodeHolds true (S.steps space.now) state.old node }
    ensures ok { let steps = S.steps space.now in let own = S.is_own space.now in
        IfOk result (λ found.
        (root : S.State) (to_come : List S.State) (node : Node S.Label S.Reason) →
        Stands steps own nodes.now root (reverse way.old.items) state.old to_come →
        slice_get nodes.now place ≡ Option.Some node →
        Lands steps own nodes.now root (reverse way.new.items) state.new found
        (after steps (state.old ∷ to_come) node)) }
    // The places on the way are the first ones of those before and this one.
    ensures places { OnOk result (places_of way.new.items ≡
        take (length way.new.items) (places_of way.old.items ++ place ∷ [])) }
    ensures err_state { OnErr result (state.new ≡ state.old) }
    ensures err_way { OnErr result (way.new.items ≡ way.old.items) }
{
    if let Node::Fork(label, kids) = &nodes[place] {
        if *kids > 0 {
            way.push(Entry {
                node: place,
                next: 1,
            })?;
            space.enter(state, label, 0);
            return Ok(true);
        }
    }
    Ok(next_place(space, state, nodes, way))
}

/// Goes back to the root.
pub fn go_back<S: Space>(space: &S, state: &mut S::State, mut way: Vec<Entry>)
    requires { let steps = S.steps space.now in let own = S.is_own space.now in
        (nodes : List (Node S.Label S.Reason)) ×
        IsOnWay steps own nodes (reverse way.items) state.old }
    ensures { let steps = S.steps space.now in let own = S.is_own space.now in
        (nodes : List (Node S.Label S.Reason)) (root : S.State) (to_come : List S.State) →
        Stands steps own nodes root (reverse way.items) state.old to_come → state.new ≡ root }
{
    while let Some(_entry) = go_up(space, state, &mut way) {}
}
