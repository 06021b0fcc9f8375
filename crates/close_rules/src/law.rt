ghost use Rattle.std.specs.Prelude.{◌≡◌, ◌≢◌, ◌⊎◌, false, ℕ, true, Bool, List};
ghost use Rattle.lat_base.specs.Canonical.{IsCanonical};
ghost use Rattle.lat_base.specs.Goodness.{IsRobust};
ghost use Rattle.lat_base.specs.Misassignment.{IsMisassignment, identity};
ghost use Rattle.lat_base.specs.Rules.{Obeys};
ghost use Rattle.lat_base.specs.Shape.{target_count};
ghost use Rattle.lat_base.specs.Tally.{report};
ghost use Rattle.deck_state.specs.Changes.{undone};
ghost use Rattle.deck_state.specs.PartialDeck.{PartialDeck};
ghost use Rattle.deck_state.specs.Shown.{IsComplete, decided_as, shown};
ghost use Rattle.deck_state.specs.Trail.{IsPartial};
ghost use Rattle.close_rules.specs.declared.label.Label.{Label};
ghost use Rattle.close_rules.specs.declared.reason.Reason.{Reason};
ghost use Rattle.close_rules.specs.Moves.{is_allowed, kid_of};
ghost use Rattle.close_rules.specs.Refutes.{refutes, IsCheap};
ghost use Rattle.close_rules.specs.Solution.{IsSolution};

/// A law: where a reason holds of a partial deck, no good canonical deck is left in it. The call
/// does nothing.
pub fn refuted_is_empty()
    ensures { (p : PartialDeck) (reason : Reason) (deck : List (List Bool)) → IsPartial p →
        refutes p reason ≡ true → IsSolution p deck → ⊥ }
{}

/// A law: the kids of a partial deck under an allowed label are partial decks, from which `undo`
/// leads back, and they share its solutions. The call does nothing.
pub fn kids_share_solutions()
    ensures partial { (p : PartialDeck) (label : Label) (kid : ℕ) → IsPartial p →
        is_allowed p label ≡ true → IsPartial (kid_of p label kid) }
    ensures undone { (p : PartialDeck) (label : Label) (kid : ℕ) → IsPartial p →
        is_allowed p label ≡ true → undone (kid_of p label kid) ≡ p }
    ensures of_kid { (p : PartialDeck) (label : Label) (kid : ℕ) (deck : List (List Bool)) →
        IsPartial p → is_allowed p label ≡ true → IsSolution (kid_of p label kid) deck →
        IsSolution p deck }
    ensures in_kid { (p : PartialDeck) (label : Label) (deck : List (List Bool)) → IsPartial p →
        is_allowed p label ≡ true → IsSolution p deck →
        IsSolution (kid_of p label 0) deck ⊎ IsSolution (kid_of p label 1) deck }
{}

/// A law: a complete partial deck is judged by the reasons. Where none without a misassignment
/// holds, the deck that it shows obeys the rules and is canonical, and it is good if it is robust;
/// no such reason holds with bounds that say nothing either; and a misassignment that shows that it
/// isn't robust is a reason. The call does nothing.
pub fn complete_is_judged()
    ensures solution { (p : PartialDeck) → IsPartial p → IsComplete p →
        IsRobust p.contests (shown p) → ((r : Reason) → IsCheap r → refutes p r ≡ false) →
        IsSolution p (shown p) }
    ensures left { (p : PartialDeck) → IsPartial p → IsComplete p →
        ((r : Reason) → IsCheap r → refutes p r ≡ false) →
        Obeys p.contests p.rules (shown p) × IsCanonical p.contests (shown p) }
    ensures own_bounds { (p : PartialDeck) → IsPartial p → IsComplete p →
        ((r : Reason) → IsCheap r → refutes p r ≡ false) →
        (r : Reason) → IsCheap r →
        refutes (decided_as p.contests p.rules p.ballots (shown p)) r ≡ false }
    ensures evaded { (p : PartialDeck) (s : List ℕ) → IsPartial p → IsComplete p →
        IsMisassignment (target_count p.contests) s → s ≢ identity (target_count p.contests) →
        report p.contests (shown p) s
        ≡ report p.contests (shown p) (identity (target_count p.contests)) →
        refutes p (Reason.Evade s) ≡ true }
{}
