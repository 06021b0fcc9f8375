ghost use Rattle.std.specs.Prelude.{◌≡◌, ◌≢◌, ◌<◌, ◌+◌, ℕ, length, Bool, List, All};
ghost use Rattle.lat_base.specs.declared.contest.Contest.{Contest};
ghost use Rattle.lat_base.specs.Shape.{target_count, first_target, contest_at, contest_of};
ghost use Rattle.lat_base.specs.Deck.{Fits};
ghost use Rattle.lat_base.specs.Tally.{is_marked, own_total};
ghost use Rattle.lat_base.specs.Goodness.{IsRobust};
ghost use Rattle.readings.specs.Turn.{IsTurn};
ghost use Rattle.readings.specs.Structural.{IsStructural};

/// A law: no two targets of a robust deck have equal columns. The call does nothing.
pub fn columns_differ()
    ensures { (contests : List Contest) (deck : List (List Bool)) (t u : ℕ) →
        IsRobust contests deck → Fits (target_count contests) deck →
        t < target_count contests → u < target_count contests → t ≢ u →
        All (λ ballot. is_marked ballot t ≡ is_marked ballot u) deck → ⊥ }
{}

/// A law: a misassignment that keeps contests together and takes each target of a robust deck to
/// one of equal total moves none. The call does nothing.
pub fn structural_stays()
    ensures { (contests : List Contest) (deck : List (List Bool)) (f g turn : ℕ → ℕ) →
        IsRobust contests deck → Fits (target_count contests) deck →
        IsTurn (target_count contests) f g → IsStructural contests f turn →
        ((u : ℕ) → u < target_count contests →
        own_total contests deck (f u) ≡ own_total contests deck u) →
        (u : ℕ) → u < target_count contests → f u ≡ u }
{}

/// A law: in a robust deck the totals of one contest differ, also where no rule asks for it. The
/// call does nothing.
pub fn totals_differ()
    ensures { (contests : List Contest) (deck : List (List Bool)) (t u : ℕ) →
        IsRobust contests deck → Fits (target_count contests) deck →
        t < target_count contests → u < target_count contests →
        contest_of contests t ≡ contest_of contests u → t ≢ u →
        own_total contests deck t ≡ own_total contests deck u → ⊥ }
{}

/// A law: in a robust deck two contests of equal limit and number of targets have different lists
/// of totals. The call does nothing.
pub fn twins_differ()
    ensures { (contests : List Contest) (deck : List (List Bool)) (c d : ℕ) →
        IsRobust contests deck → Fits (target_count contests) deck → c ≢ d →
        c < length contests → d < length contests →
        contest_at contests c ≡ contest_at contests d → 0 < (contest_at contests c).targets →
        ((i : ℕ) → i < (contest_at contests c).targets →
        own_total contests deck (first_target contests c + i)
        ≡ own_total contests deck (first_target contests d + i)) → ⊥ }
{}
