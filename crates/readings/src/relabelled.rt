ghost use Rattle.std.specs.Prelude.{ℕ, Bool, List};
ghost use Rattle.lat_base.specs.declared.contest.Contest.{Contest};
ghost use Rattle.lat_base.specs.Shape.{target_count};
ghost use Rattle.lat_base.specs.Deck.{Fits};
ghost use Rattle.lat_base.specs.Goodness.{IsRobust};
ghost use Rattle.readings.specs.Turn.{IsTurn};
ghost use Rattle.readings.specs.Structural.{IsStructural, relabelled};

/// A law: a robust deck stays robust where its targets are relabelled so that contests stay
/// together. The call does nothing.
pub fn relabelled_robust()
    ensures { (contests : List Contest) (deck : List (List Bool)) (f g turn : ℕ → ℕ) →
        Fits (target_count contests) deck → IsTurn (target_count contests) f g →
        IsStructural contests f turn → IsRobust contests deck →
        IsRobust contests (relabelled (target_count contests) f deck) }
{}
