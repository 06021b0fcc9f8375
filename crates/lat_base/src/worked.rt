//! Totals that are worked out by hand, as theorems: what a reader of the definitions gets wrong
//! first.

ghost use Rattle.std.specs.Prelude.{◌≡◌, [], ◌∷◌, true};
ghost use Rattle.lat_base.specs.Misassignment.{identity};
ghost use Rattle.lat_base.specs.Tally.{report};
ghost use Rattle.lat_base.specs.Worked.{two_contests, one_contest, first_and_last, both_and_last, seconds_exchanged};

/// A mark is a vote where its contest has no more marks than its limit.
pub fn a_mark_is_a_vote()
    ensures { report two_contests (first_and_last ∷ []) (identity 4) ≡ 1 ∷ 0 ∷ 0 ∷ 1 ∷ [] }
{}

/// Overvotes are tested on the marks as they are read: where the second targets of both contests
/// are exchanged, the same ballot overvotes the first contest, and no target has a vote.
pub fn overvotes_are_tested_as_read()
    ensures { report two_contests (first_and_last ∷ []) seconds_exchanged ≡ 0 ∷ 0 ∷ 0 ∷ 0 ∷ [] }
{}

/// An overvoted contest gives no vote on that ballot, and the other contests give theirs.
pub fn an_overvoted_contest_gives_no_vote()
    ensures { report two_contests (both_and_last ∷ []) (identity 4) ≡ 0 ∷ 0 ∷ 0 ∷ 1 ∷ [] }
{}

/// A contest without more targets than its limit can't be overvoted.
pub fn all_marked_can_be_votes()
    ensures { report one_contest ((true ∷ true ∷ []) ∷ []) (identity 2) ≡ 1 ∷ 1 ∷ [] }
{}
