ghost use Rattle.std.specs.Prelude.{◌≡◌, List, IfOk};
ghost use Rattle.tree_search.specs.Habits.{Habits, IsSolved, Fits, KeepsHabits};

use crate::pick::Pick;
use std::alloc::{AllocError, Global};
use tree_core::Space;

/// Picks at each state what a search does there.
pub trait Chooser<S: Space> {
    /// What a Found pick shows of the complete state.
    type Proof: Drop;

    /// What a Halt pick says of the state.
    type Why: Drop;

    /// The reasons that the chooser remembers.
    ghost memory: { Self → List S.Reason };

    /// The rule by which a pick changes the memory, and the relations that its picks meet.
    ghost habits: { Self → S → Habits S.State S.Label S.Reason Self.Proof Self.Why };

    /// One pick, at one of the space's own states. The only error is want of memory; after it the
    /// chooser may not be used again.
    fn pick(
        &mut self,
        alloc: Global,
        space: &S,
        state: &S::State,
    ) -> Result<Pick<S::Label, S::Reason, Self::Proof, Self::Why>, AllocError>
        requires { S.is_own space.now state.now }

        // A Close's reason closes the state, a Fork's label is allowed there, Found comes only
        // where the state is complete and its value a solution, with a proof of it, and Halt says
        // what the chooser's relation allows at the state.
        ensures fits { let s = space.now in
            let solved = IsSolved (S.is_complete s) (S.is_solution s) (S.value s) in
            IfOk result (Fits (S.steps s) solved (habits self.old s) state.now) }

        // The pick meets the relation to the memory and the state, and the memory goes by the rule.
        ensures related { IfOk result (λ pick.
            (habits self.old space.now).relation (memory self.old) state.now pick) }
        ensures remembers { IfOk result (λ pick.
            memory self.new ≡ (habits self.old space.now).rule (memory self.old) pick) }

        // The rule and the relations stay as they were.
        ensures same { KeepsHabits (habits self.old space.now) (habits self.new space.now) };
}
