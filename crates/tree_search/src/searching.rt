ghost use Rattle.std.specs.Prelude.{◌≡◌, ◌<◌, ◌≤◌, ℕ, List, OnOk, Result, count_by};
ghost use Rattle.tree_core.specs.declared.node.Node.{Node};
ghost use Rattle.tree_core.specs.Reading.{tree_of};
ghost use Rattle.tree_core.specs.Nodes.{is_pick, IsGapless};
ghost use Rattle.tree_core.specs.Checks.{Checks};
ghost use Rattle.tree_search.specs.declared.pick.Pick.{Pick};
ghost use Rattle.tree_search.specs.Habits.{KeepsHabits};
ghost use Rattle.tree_search.specs.Memory.{Follows};
ghost use Rattle.tree_search.specs.Outcome.{IsOpenTree, IsFound, IsHalted};

use crate::chooser::Chooser;
use crate::growth::{add_node, leave_open};
use crate::outcome::Outcome;
use crate::turn::{Turn, take_turn};
use std::alloc::{AllocError, Global};
use tree_core::{Space, Tree};

/// Searches below a state until a solution is found, the tree is closed, the chooser halts, or the
/// tree has as many Close and Fork nodes as the budget, which is at least 1. The state is as before
/// but where a solution is found. The only error is want of memory; after it neither the state nor
/// the chooser may be used again.
pub fn search<S: Space, C: Chooser<S>>(
    alloc: Global,
    space: &S,
    chooser: &mut C,
    state: &mut S::State,
    budget: u64,
) -> Result<Outcome<S, C::Proof, C::Why>, AllocError>
    requires own { S.is_own space.now state.old }
    requires budget { 1 ≤ budget }

    ensures found { let habits = C.habits chooser.old space.now in
        (proof : C.Proof) → result ≡ Result.Ok (Outcome.Found proof) →
        IsFound (S.steps space.now) (S.is_own space.now) (S.is_complete space.now)
        (S.is_solution space.now) (S.value space.now) habits state.old state.new proof }

    ensures closed { let steps = S.steps space.now in
        (tree : List (Node S.Label S.Reason)) → result ≡ Result.Ok (Outcome.Closed tree) →
        Checks steps state.old (tree_of tree) × (count_by is_pick tree ≤ budget) ×
        (state.new ≡ state.old) }

    // A closed tree leaves the state no solution.
    ensures empty { (tree : List (Node S.Label S.Reason)) →
        result ≡ Result.Ok (Outcome.Closed tree) →
        (v : List ℕ) → S.is_solution space.now state.old v → ⊥ }

    ensures spent { let steps = S.steps space.now in
        (tree : List (Node S.Label S.Reason)) → result ≡ Result.Ok (Outcome.Spent tree) →
        IsOpenTree steps state.old budget tree × IsGapless tree × (state.new ≡ state.old) }

    ensures halted { let steps = S.steps space.now in let habits = C.habits chooser.old space.now in
        (tree : List (Node S.Label S.Reason)) (why : C.Why) →
        result ≡ Result.Ok (Outcome.Halted tree why) →
        (picked : ℕ) × (picked < budget) × IsOpenTree steps state.old picked tree ×
        IsGapless tree ×
        IsHalted steps (S.is_own space.now) habits state.old (C.memory chooser.old) tree why ×
        (state.new ≡ state.old) }

    // At each place of a tree that is given the chooser's relation holds of the memory, the state
    // and the node there, and the chooser's memory has gone by its rule.
    ensures follows_closed { let habits = C.habits chooser.old space.now in
        (tree : List (Node S.Label S.Reason)) → result ≡ Result.Ok (Outcome.Closed tree) →
        Follows habits (S.steps space.now) state.old (C.memory chooser.old)
        (C.memory chooser.new) tree }
    ensures follows_spent { let habits = C.habits chooser.old space.now in
        (tree : List (Node S.Label S.Reason)) → result ≡ Result.Ok (Outcome.Spent tree) →
        Follows habits (S.steps space.now) state.old (C.memory chooser.old)
        (C.memory chooser.new) tree }
    ensures follows_halted { let habits = C.habits chooser.old space.now in
        (tree : List (Node S.Label S.Reason)) (why : C.Why) →
        result ≡ Result.Ok (Outcome.Halted tree why) →
        (memory : List S.Reason) × (C.memory chooser.new ≡ habits.rule memory (Pick.Halt why)) ×
        Follows habits (S.steps space.now) state.old (C.memory chooser.old) memory tree }

    // The rule and the relations are those of the chooser as it was lent.
    ensures same { OnOk result
        (KeepsHabits (C.habits chooser.old space.now) (C.habits chooser.new space.now)) }
{
    space.laws();
    let mut nodes = Vec::new(alloc);
    let mut way = Vec::new(alloc);
    let mut picked: u64 = 0;
    while picked < budget {
        match take_turn(alloc, space, chooser, state)? {
            Turn::Go(node) => {
                picked += 1;
                if !add_node(space, state, &mut nodes, &mut way, node)? {
                    return Ok(Outcome::Closed(Tree::from_nodes(nodes)));
                }
            }
            Turn::Found(proof) => return Ok(Outcome::Found(proof)),
            Turn::Halt(why) => {
                leave_open(space, state, &mut nodes, &mut way)?;
                return Ok(Outcome::Halted(Tree::from_nodes(nodes), why));
            }
        }
    }
    leave_open(space, state, &mut nodes, &mut way)?;
    Ok(Outcome::Spent(Tree::from_nodes(nodes)))
}
