ghost use Rattle.std.specs.Prelude.{◌≡◌, ◌∷◌, ◌++◌, [], ℕ, List, Bool, Box, true, false, Ok, IfOk, OnOk, reverse};
ghost use Rattle.std.specs.declared.alloc.Global.{Global};
ghost use Rattle.tree_core.specs.declared.node.Node.{Node};
ghost use Rattle.tree_core.specs.Checks.{NodeHolds};
ghost use Rattle.tree_core.specs.Places.{after};
ghost use Rattle.tree_core.specs.Walk.{Stands, IsOnWay};
ghost use Rattle.cert_stream.specs.Walks.{IsStack, ComesTo, IsOpenWalk, OpenAt, Follows, fault_of};

use cert_types::Part;
use std::alloc::AllocError;
use tree_core::{Entry, Node, Space, go_on, node_holds};

/// A walk over the nodes of a tree that come one by one. Of the nodes only the open Forks are kept,
/// the outermost first, with the next kid of each.
#[derive(Debug, Drop)]
pub(crate) struct Walk<W, S, B, R> {
    pub(crate) space: W,
    pub(crate) state: S,
    pub(crate) forks: Vec<Node<B, R>>,
    pub(crate) way: Vec<Entry>,
    /// The number of nodes so far.
    pub(crate) seen: u64,
}

/// The check of a tree so far.
#[derive(Debug, Drop)]
pub(crate) enum Checking<W, S, B, R> {
    /// Each node so far holds.
    // Behind a pointer, since the check is handed from node to node.
    On(Box<Walk<W, S, B, R>>),
    /// The first fault of all. The nodes behind it are not looked at.
    Off(Part, u64),
}

/// Whether the next node in preorder holds at the state at hand; if so, goes on to the state of the
/// node after it.
fn visit<S: Space>(
    space: &S,
    state: &mut S::State,
    node: Node<S::Label, S::Reason>,
    forks: &mut Vec<Node<S::Label, S::Reason>>,
    way: &mut Vec<Entry>,
) -> Result<bool, AllocError>
    requires own { S.is_own space.now state.old }
    requires stack { IsStack forks.old.items way.old.items }
    requires stands { IsOnWay (S.steps space.now) (S.is_own space.now) forks.old.items
        (reverse way.old.items) state.old }
    ensures fails { result ≡ Ok false → NodeHolds false (S.steps space.now) state.old node → ⊥ }
    ensures holds { result ≡ Ok true → NodeHolds false (S.steps space.now) state.old node }
    ensures comes { let steps = S.steps space.now in let own = S.is_own space.now in
        result ≡ Ok true → (root : S.State) (to_come : List S.State) →
        Stands steps own forks.old.items root (reverse way.old.items) state.old to_come →
        ComesTo steps own forks.new.items root (reverse way.new.items) state.new
        (after steps (state.old ∷ to_come) node) }
    ensures stack { result ≡ Ok true → IsStack forks.new.items way.new.items }
{
    if !node_holds(space, state, &node, false) {
        return Ok(false);
    }
    let depth = forks.len();
    forks.push(node)?;
    go_on(space, state, forks, depth, way)?;
    forks.truncate(way.len());
    Ok(true)
}

/// Checks the next node in preorder; where it doesn't hold, it is the first fault of this part.
fn walk_on<S: Space + Drop>(
    mut walk: Box<Walk<S, S::State, S::Label, S::Reason>>,
    node: Node<S::Label, S::Reason>,
    part: Part,
) -> Result<Checking<S, S::State, S::Label, S::Reason>, AllocError>
    requires { OpenAt S.steps S.is_own walk.value }
    ensures { let space = walk.value.space in
        IfOk result (λ check. (root : S.State) (nodes : List (Node S.Label S.Reason))
        (wanted : ℕ) →
        IsOpenWalk (S.steps space) (S.is_own space) walk.value root nodes wanted →
        Follows (S.steps space) (S.is_own space) space root part (nodes ++ node ∷ []) check) }
{
    let here = &mut *walk;
    here.space.laws();
    if !visit(
        &here.space,
        &mut here.state,
        node,
        &mut here.forks,
        &mut here.way,
    )? {
        return Ok(Checking::Off(part, here.seen));
    }
    match here.seen.checked_add(1) {
        Some(seen) => {
            here.seen = seen;
            Ok(Checking::On(walk))
        }
        // No memory holds so many bytes.
        None => Err(AllocError),
    }
}

/// Checks the next node in preorder, unless there is a first fault already.
pub(crate) fn check_node<S: Space + Drop>(
    check: Checking<S, S::State, S::Label, S::Reason>,
    node: Node<S::Label, S::Reason>,
    part: Part,
) -> Result<Checking<S, S::State, S::Label, S::Reason>, AllocError>
    requires { (walk : Box (Walk S S.State S.Label S.Reason) Global) → check ≡ Checking.On walk →
        OpenAt S.steps S.is_own walk.value }
    ensures on { (walk : Box (Walk S S.State S.Label S.Reason) Global) →
        check ≡ Checking.On walk →
        let space = walk.value.space in
        IfOk result (λ after. (root : S.State) (nodes : List (Node S.Label S.Reason))
        (wanted : ℕ) →
        IsOpenWalk (S.steps space) (S.is_own space) walk.value root nodes wanted →
        Follows (S.steps space) (S.is_own space) space root part (nodes ++ node ∷ []) after) }
    ensures off { (fault : Part) (i : ℕ) → check ≡ Checking.Off fault i →
        IfOk result (λ after. after ≡ Checking.Off fault i) }
{
    match check {
        Checking::On(walk) => walk_on(walk, node, part),
        Checking::Off(fault, i) => Ok(Checking::Off(fault, i)),
    }
}

/// The first fault, if there is one.
pub(crate) fn fault_of<W, S, B, R>(check: &Checking<W, S, B, R>) -> Option<(Part, u64)>
    ensures { result ≡ fault_of check.now }
{
    match check {
        Checking::On(_) => None,
        Checking::Off(part, i) => Some((*part, *i)),
    }
}
