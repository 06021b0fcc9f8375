ghost use Rattle.std.specs.Prelude.{◌≡◌, ◌↔◌, length, Bool, List};
ghost use Rattle.lat_base.specs.declared.contest.Contest.{Contest};
ghost use Rattle.lat_base.specs.Shape.{target_count, IsShape};
ghost use Rattle.lat_base.specs.Deck.{Fits};
ghost use Rattle.lat_base.specs.Rules.{RuleSet, Obeys};
ghost use Rattle.lat_base.specs.Goodness.{IsGood};
ghost use Rattle.lat_base.specs.Canonical.{IsCanonical};
ghost use Rattle.lat_ballots.specs.Plain.{plain_ballots};
ghost use Rattle.symmetry.specs.Reordering.{IsReordered};

/// A law: every good deck has a canonical good one of the same size. The call does nothing.
pub fn good_has_canonical()
    ensures { (contests : List Contest) (rules : RuleSet) (deck : List (List Bool)) →
        IsGood contests rules deck →
        (copy : List (List Bool)) × IsCanonical contests copy × IsGood contests rules copy
        × (length copy ≡ length deck) }
{}

/// A law: a deck whose ballots, targets within contests, and contests of the same limit and number
/// of targets are reordered is good exactly where it was before, obeys the rules where it did, and
/// has as many ballots. The call does nothing.
pub fn reordering_keeps_good()
    ensures good { (contests : List Contest) (rules : RuleSet) (deck result : List (List Bool)) →
        Fits (target_count contests) deck →
        IsReordered contests deck result
        → (IsGood contests rules result ↔ IsGood contests rules deck) }
    ensures obeys { (contests : List Contest) (rules : RuleSet) (deck result : List (List Bool)) →
        Fits (target_count contests) deck →
        IsReordered contests deck result → Obeys contests rules deck → Obeys contests rules result }
    ensures size { (contests : List Contest) (deck result : List (List Bool)) →
        IsReordered contests deck result → length result ≡ length deck }
{}

/// A law: the plain deck of every style obeys the rules, under any rules, and is canonical. The
/// call does nothing.
pub fn plain_is_canonical()
    ensures canonical { (contests : List Contest) (rules : RuleSet) → IsShape contests →
        IsCanonical contests (plain_ballots (target_count contests) rules).ballots }
    ensures obeys { (contests : List Contest) (rules : RuleSet) → IsShape contests →
        Obeys contests rules (plain_ballots (target_count contests) rules).ballots }
{}
