ghost use Rattle.std.specs.Prelude.{◌≡◌, ◌↔◌, ℕ, List, [], Option, Result, IfOk, IsTrue, true, false, reverse};
ghost use Rattle.tree_core.specs.Reading.{IsTree, tree_of};
ghost use Rattle.tree_core.specs.Checks.{ChecksWith, Checks, OpenChecks, NodeHolds};
ghost use Rattle.tree_core.specs.Places.{IsFirstFault};
ghost use Rattle.tree_core.specs.Walk.{Stands};

use crate::node::Node;
use crate::space::Space;
use crate::tree::Tree;
use crate::walk::{Entry, go_back, go_on};
use std::alloc::{AllocError, Global};

/// Whether each node of a tree holds.
#[derive(Clone, Copy, Debug, PartialEq, Eq)]
pub enum Verdict0 {
    /// Each node holds.
    Holds,
    /// The number of the first node in preorder that doesn't hold.
    Fails(u64),
}

/// Whether a node holds at a state: a Close node where its reason closes the state, a Fork node
/// where its label is allowed and has as many kids, an Open node where `open_holds` says so.
pub fn node_holds<S: Space>(
    space: &S,
    state: &S::State,
    node: &Node<S::Label, S::Reason>,
    open_holds: bool,
) -> bool
    requires { S.is_own space.now state.now }
    ensures { IsTrue result ↔ NodeHolds open_holds (S.steps space.now) state.now node.now }
{
    match node {
        Node::Close(reason) => space.closes(state, reason),
        Node::Fork(label, kids) => space.arity(state, label) == Some(*kids),
        Node::Open => open_holds,
    }
}

/// Walks over the nodes of a tree in preorder, up to the first that doesn't hold, and gives its
/// place.
fn first_fault<S: Space>(
    space: &S,
    state: &mut S::State,
    nodes: &[Node<S::Label, S::Reason>],
    open_holds: bool,
    way: &mut Vec<Entry>,
) -> Result<Option<usize>, AllocError>
    requires own { S.is_own space.now state.old }
    requires tree { IsTree nodes.now }
    requires root { way.old.items ≡ [] }
    ensures none { result ≡ Result.Ok Option.None →
        ChecksWith open_holds (S.steps space.now) state.old (tree_of nodes.now) }
    ensures fault { (i : ℕ) → result ≡ Result.Ok (Option.Some i) →
        IsFirstFault open_holds (S.steps space.now) state.old nodes.now i }
    ensures way { let steps = S.steps space.now in let own = S.is_own space.now in
        (to_come : List S.State) ×
        Stands steps own nodes.now state.old (reverse way.new.items) state.new to_come }
{
    space.laws();
    for (i, node) in nodes.iter().enumerate() {
        if !node_holds(space, state, node, open_holds) {
            return Ok(Some(i));
        }
        go_on(space, state, nodes, i, way)?;
    }
    Ok(None)
}

/// The check of a tree, where `open_holds` says whether an Open node holds.
fn check_with<S: Space>(
    alloc: Global,
    space: &S,
    state: &mut S::State,
    nodes: &[Node<S::Label, S::Reason>],
    open_holds: bool,
) -> Result<Verdict0, AllocError>
    requires own { S.is_own space.now state.old }
    requires tree { IsTree nodes.now }
    ensures checks { IfOk result (λ verdict. (verdict ≡ Verdict0.Holds) ↔
        ChecksWith open_holds (S.steps space.now) state.old (tree_of nodes.now)) }
    ensures fails { (i : ℕ) → result ≡ Result.Ok (Verdict0.Fails i) →
        IsFirstFault open_holds (S.steps space.now) state.old nodes.now i }
    ensures state { state.new ≡ state.old }
{
    let mut way = Vec::new(alloc);
    let fault = first_fault(space, state, nodes, open_holds, &mut way);
    go_back(space, state, way);
    match fault? {
        None => Ok(Verdict0::Holds),
        Some(i) => Ok(Verdict0::Fails(i as u64)),
    }
}

/// Whether a tree checks at a state: a Close node holds where its reason closes the state, a Fork
/// node where its label is allowed and has as many kids as the tree, an Open node never. The state
/// is as before. The only error is want of memory.
pub fn check_tree<S: Space>(
    alloc: Global,
    space: &S,
    state: &mut S::State,
    tree: &Tree<S::Label, S::Reason>,
) -> Result<Verdict0, AllocError>
    requires { S.is_own space.now state.old }
    ensures checks { IfOk result (λ verdict. (verdict ≡ Verdict0.Holds) ↔
        Checks (S.steps space.now) state.old (tree_of tree.now)) }
    ensures fails { (i : ℕ) → result ≡ Result.Ok (Verdict0.Fails i) →
        IsFirstFault false (S.steps space.now) state.old tree.now i }

    // A tree that checks leaves the state no solution.
    ensures empty { result ≡ Result.Ok Verdict0.Holds →
        (v : List ℕ) → S.is_solution space.now state.old v → ⊥ }
    ensures state { state.new ≡ state.old }
{
    space.laws();
    check_with(alloc, space, state, tree.as_slice(), false)
}

/// The same check, but every Open node holds. The state is as before. The only error is want of
/// memory.
pub fn check_open<S: Space>(
    alloc: Global,
    space: &S,
    state: &mut S::State,
    tree: &Tree<S::Label, S::Reason>,
) -> Result<Verdict0, AllocError>
    requires { S.is_own space.now state.old }
    ensures checks { IfOk result (λ verdict. (verdict ≡ Verdict0.Holds) ↔
        OpenChecks (S.steps space.now) state.old (tree_of tree.now)) }
    ensures fails { (i : ℕ) → result ≡ Result.Ok (Verdict0.Fails i) →
        IsFirstFault true (S.steps space.now) state.old tree.now i }
    ensures state { state.new ≡ state.old }
{
    check_with(alloc, space, state, tree.as_slice(), true)
}
