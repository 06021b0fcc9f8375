ghost use Rattle.std.specs.Prelude.{◌≡◌, ℕ, Option, Result};
ghost use Rattle.tree_core.specs.declared.node.Node.{Node};
ghost use Rattle.tree_search.specs.declared.pick.Pick.{Pick};
ghost use Rattle.tree_search.specs.Habits.{IsSolved, KeepsHabits};
ghost use Rattle.tree_search.specs.Turn.{IsPicked};

use crate::chooser::Chooser;
use crate::pick::Pick;
use std::alloc::{AllocError, Global};
use tree_core::{Node, Space};

/// A pick, with a Close or Fork as its node.
#[derive(Drop)]
pub(crate) enum Turn<B, R, P, W> {
    Go(Node<B, R>),
    Found(P),
    Halt(W),
}

/// The Fork node of a label that is allowed at the state.
fn fork_at<S: Space>(space: &S, state: &S::State, label: S::Label) -> Node<S::Label, S::Reason>
    requires own { S.is_own space.now state.now }
    requires allowed { (kids : ℕ) × ((S.steps space.now).arity state.now label ≡ Option.Some kids) }
    ensures { (kids : ℕ) → (S.steps space.now).arity state.now label ≡ Option.Some kids →
        result ≡ Node.Fork label kids }
{
    let Some(kids) = space.arity(state, &label) else {
        unreachable!()
    };
    Node::Fork(label, kids)
}

/// One pick of the chooser at the state.
pub(crate) fn take_turn<S: Space, C: Chooser<S>>(
    alloc: Global,
    space: &S,
    chooser: &mut C,
    state: &S::State,
) -> Result<Turn<S::Label, S::Reason, C::Proof, C::Why>, AllocError>
    requires { S.is_own space.now state.now }
    ensures go { let habits = C.habits chooser.old space.now in
        (node : Node S.Label S.Reason) → result ≡ Result.Ok (Turn.Go node) →
        IsPicked (S.steps space.now) habits (C.memory chooser.old) (C.memory chooser.new)
        state.now node }
    ensures found { let s = space.now in let habits = C.habits chooser.old s in
        (proof : C.Proof) → result ≡ Result.Ok (Turn.Found proof) →
        IsSolved (S.is_complete s) (S.is_solution s) (S.value s) state.now ×
        habits.proves state.now proof ×
        habits.relation (C.memory chooser.old) state.now (Pick.Found proof) }
    ensures halt { let habits = C.habits chooser.old space.now in
        (why : C.Why) → result ≡ Result.Ok (Turn.Halt why) →
        habits.excuses state.now why ×
        habits.relation (C.memory chooser.old) state.now (Pick.Halt why) ×
        (C.memory chooser.new ≡ habits.rule (C.memory chooser.old) (Pick.Halt why)) }
    ensures same { KeepsHabits (C.habits chooser.old space.now) (C.habits chooser.new space.now) }
{
    match chooser.pick(alloc, space, state)? {
        Pick::Close(reason) => Ok(Turn::Go(Node::Close(reason))),
        Pick::Fork(label) => Ok(Turn::Go(fork_at(space, state, label))),
        Pick::Found(proof) => Ok(Turn::Found(proof)),
        Pick::Halt(why) => Ok(Turn::Halt(why)),
    }
}
