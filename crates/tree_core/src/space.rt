ghost use Rattle.std.specs.Prelude.{◌≡◌, ◌<◌, ◌↔◌, ℕ, List, Option, true};
ghost use Rattle.tree_core.specs.Steps.{Steps, IsKid};

/// A space of states that is searched by trees: a state has kids under each label that is allowed
/// there, and a reason may close it.
pub trait Space {
    /// A state, with the way back to those that it was entered from.
    type State: Drop;

    /// What a state is forked on.
    type Label: Drop;

    /// What closes a state.
    type Reason: Drop;

    /// What the calls answer, at each state.
    ghost steps: { Self → Steps Self.State Self.Label Self.Reason };

    /// The states that are the space's own. A call takes no other.
    ghost is_own: { Self → Self.State → Type 0 };

    /// The values that are solutions of a state.
    ghost is_solution: { Self → Self.State → List ℕ → Type 0 };

    /// The states that are complete.
    ghost is_complete: { Self → Self.State → Type 0 };

    /// The one value of a complete state.
    ghost value: { Self → Self.State → List ℕ };

    /// Whether the reason closes the state.
    fn closes(&self, state: &Self::State, reason: &Self::Reason) -> bool
        requires { is_own self.now state.now }
        ensures { result ≡ (steps self.now).closes state.now reason.now };

    /// The number of kids under the label, or `None` exactly where the label isn't allowed at the
    /// state.
    fn arity(&self, state: &Self::State, label: &Self::Label) -> Option<u16>
        requires { is_own self.now state.now }
        ensures { result ≡ (steps self.now).arity state.now label.now };

    /// Makes the state its kid of that number under the label, and keeps the way back in it.
    fn enter(&self, state: &mut Self::State, label: &Self::Label, kid: u16)
        requires own { is_own self.now state.old }
        requires kid { (kids : ℕ) ×
            ((steps self.now).arity state.old label.now ≡ Option.Some kids) × (kid < kids) }
        ensures { state.new ≡ (steps self.now).kid state.old label.now kid };

    /// Makes the state what it was before it was last entered.
    fn leave(&self, state: &mut Self::State)
        requires { (s : Self.State) × (l : Self.Label) × (k : ℕ) ×
            IsKid (steps self.now) (is_own self.now) s l k state.old }
        ensures { (s : Self.State) (l : Self.Label) (k : ℕ) →
            IsKid (steps self.now) (is_own self.now) s l k state.old → state.new ≡ s };

    /// The laws of the space. The call does nothing; what it ensures is proved with the space.
    fn laws(&self)
        // A kid of one of the space's own states is one of its own.
        ensures keeps_own { (s : Self.State) (l : Self.Label) (k : ℕ) (kid : Self.State) →
            IsKid (steps self.now) (is_own self.now) s l k kid → is_own self.now kid }

        // A state that a reason closes has no solution.
        ensures closed_is_empty { (s : Self.State) (r : Self.Reason) (v : List ℕ) →
            is_own self.now s → (steps self.now).closes s r ≡ true → is_solution self.now s v → ⊥ }

        // For each allowed label, the solutions of a state are exactly the solutions of its kids.
        ensures split { (s : Self.State) (l : Self.Label) (kids : ℕ) (v : List ℕ) →
            is_own self.now s → (steps self.now).arity s l ≡ Option.Some kids →
            (is_solution self.now s v ↔
            ((k : ℕ) × (k < kids) × is_solution self.now ((steps self.now).kid s l k) v)) };
}
