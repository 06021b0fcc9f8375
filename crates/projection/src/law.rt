ghost use Rattle.std.specs.Prelude.{ℕ, Bool, List};
ghost use Rattle.lat_base.specs.declared.contest.Contest.{Contest};
ghost use Rattle.lat_base.specs.Rules.{RuleSet};
ghost use Rattle.lat_base.specs.Goodness.{IsGood};
ghost use Rattle.lat_base.specs.Part.{IsPart, part, restricted};

/// A law: a good deck that is restricted to a part of the style is good there. The call does
/// nothing.
pub fn good_restricted()
    ensures { (contests : List Contest) (chosen : List ℕ) (rules : RuleSet)
        (deck : List (List Bool)) → IsPart contests chosen → IsGood contests rules deck
        → IsGood (part contests chosen) rules (restricted contests chosen deck) }
{}
