ghost use Rattle.std.specs.Prelude.{◌≡◌, ◌≤◌, ◌+◌, ◌∷◌, ℕ, Bool, false, List, length, replicate};
ghost use Rattle.lat_base.specs.declared.contest.Contest.{Contest};
ghost use Rattle.lat_base.specs.Goodness.{IsGood, NoGoodBelow};
ghost use Rattle.lat_base.specs.Rules.{RuleSet};
ghost use Rattle.lat_base.specs.Shape.{target_count, IsShape};
ghost use Rattle.lat_base.specs.declared.limits.TheConstants.{MOST_BALLOTS};
ghost use Rattle.close_rules.specs.declared.label.Label.{Label};
ghost use Rattle.close_rules.specs.declared.reason.Reason.{Reason};
ghost use Rattle.close_rules.specs.Solution.{IsSolution};
ghost use Rattle.deck_state.specs.PartialDeck.{PartialDeck, empty};
ghost use Rattle.deck_state.specs.Shown.{shown};
ghost use Rattle.tree_core.specs.Checks.{Checks};
ghost use Rattle.tree_core.specs.Rose.{Rose};
ghost use Rattle.deck_space.specs.Numbers.{marks_as_numbers};
ghost use Rattle.deck_space.specs.Steps.{deck_steps, Solves};

/// A law: where a tree checks at the partial deck of `k` ballots of which nothing is decided, no
/// deck of `k` ballots is good, canonical or not, and none of fewer. The call does nothing.
pub fn checked_tree_leaves_no_good_deck()
    ensures of_size { (contests : List Contest) (rules : RuleSet) (k : ℕ) (tree : Rose Label Reason)
        → IsShape contests → k ≤ MOST_BALLOTS →
        Checks deck_steps (empty contests rules k) tree →
        (deck : List (List Bool)) → IsGood contests rules deck → length deck ≡ k → ⊥ }
    ensures below { (contests : List Contest) (rules : RuleSet) (k : ℕ) (tree : Rose Label Reason) →
        IsShape contests → k ≤ MOST_BALLOTS →
        Checks deck_steps (empty contests rules k) tree → NoGoodBelow contests rules (k + 1) }
{}

/// A law: where the deck that a partial deck shows is a solution of it, the list of its marks is a
/// solution in the space. The call does nothing.
pub fn shown_solution_is_value()
    ensures { (p : PartialDeck) → IsSolution p (shown p) → Solves p (marks_as_numbers p) }
{}

/// A law: a good deck with a blank ballot added is good. The call does nothing.
pub fn padding_keeps_good()
    ensures { (contests : List Contest) (rules : RuleSet) (deck : List (List Bool)) →
        IsGood contests rules deck →
        IsGood contests rules (replicate (target_count contests) false ∷ deck) }
{}
