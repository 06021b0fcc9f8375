ghost use Rattle.std.specs.Prelude.{◌≡◌, ◌<◌, ◌≤◌, ◌*◌, ℕ, false, length, count_by};
ghost use Rattle.std.specs.List.{range_with_len};
ghost use Rattle.lat_base.specs.Rules.{Obeys};
ghost use Rattle.lat_base.specs.Tally.{is_overvoted};
ghost use Rattle.deck_builder.specs.Pattern.{Pattern, is_laid, working_ballot, pattern_ballots, Fits};

/// A law: marks that are laid one after the other, going round, are on different ballots where
/// there are no more of them than ballots. The call does nothing.
pub fn marks_are_spread()
    ensures { (ballots first marks : ℕ) → marks ≤ ballots →
        count_by (is_laid ballots first marks) (range_with_len 0 ballots) ≡ marks }
{}

/// A law: no working ballot of a pattern that fits is overvoted. The call does nothing.
pub fn working_ballots_are_counted()
    ensures { (p : Pattern) (b c : ℕ) → Fits p → c < length p.contests →
        is_overvoted p.contests (working_ballot p b) c ≡ false }
{}

/// A law: the deck of a pattern that fits obeys the rules. The call does nothing.
pub fn patterns_obey()
    ensures { (p : Pattern) → Fits p → Obeys p.contests p.rules (pattern_ballots p) }
{}
