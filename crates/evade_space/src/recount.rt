//! Votes counted anew where a source came or went.

ghost use Rattle.std.specs.Prelude.{◌≡◌, ◌≢◌, ◌<◌, ◌≤◌, ◌+◌, ◌⊎◌, ℕ, None, false, length, get_or};
ghost use Rattle.lat_base.specs.Shape.{target_count, first_target, contest_of};
ghost use Rattle.evade_space.specs.Sources.{source_at, empty_places, AreGiven};
ghost use Rattle.evade_space.specs.Counts.{counts_of};
ghost use Rattle.evade_space.specs.PartialMisassignment.{keeping};
ghost use Rattle.evade_space.specs.Recounts.{HasMarks, HasVotes, HasVotesBeside, AreVotes, KeepsRest};
ghost use Rattle.evade_space.specs.Masks.{AreContestSets};

use crate::ballot_words::count_common;
use crate::contest_sets::ContestSets;
use crate::sets::empty_places;
use crate::trial::is_open;
use crate::{Evade, EvadeState};

// How many ballots may vote for an image, and how many surely do.
#[derive(Clone, Copy)]
struct Votes {
    may: u32,
    must: u32,
}

// The votes for image `u` of contest `c`, whose places that are empty all are to be filled.
fn votes_for(space: &Evade, state: &EvadeState, sets: &ContestSets, c: u16, u: u16) -> Votes
    requires marks { HasMarks space.now state.now }
    requires image { u < target_count space.now.contests }
    requires contest { c ≡ contest_of space.now.contests u }
    requires sets { AreContestSets space.now state.now.sources c
        (empty_places space.now.contests state.now.sources c) sets.now }
    ensures { AreVotes space.now state.now.sources u result.may result.must }
{
    match state.source(u) {
        Some(t) => {
            let column = space.column(t);
            Votes {
                may: count_common(column, &sets.within, sets.pages),
                must: count_common(column, &sets.sure, sets.pages),
            }
        }
        None => Votes { may: 0, must: 0 },
    }
}

impl EvadeState {
    // Counts the votes for the images of contest `c` anew.
    fn recount_contest(&mut self, space: &Evade, c: u16)
        requires marks { HasMarks space.now self.old }
        requires contest { c < length space.now.contests }
        ensures marks { HasMarks space.now self.new }
        ensures rest { KeepsRest self.old self.new }
        ensures here { (u : ℕ) → first_target space.now.contests c ≤ u
            → u < first_target space.now.contests (c + 1) → HasVotes space.now self.new u }
        ensures elsewhere { (u : ℕ) → (u < first_target space.now.contests c)
            ⊎ (first_target space.now.contests (c + 1) ≤ u) → HasVotes space.now self.old u
            → HasVotes space.now self.new u }
    {
        let places = empty_places(&space.shape, self.sources(), c);
        let sets = ContestSets::new(space, self, c, places);
        for u in space.shape.first_of(c)..space.shape.first_of(c + 1) {
            let votes = votes_for(space, self, &sets, c, u);
            self.keep_votes(u, votes.may, votes.must);
        }
    }

    // Counts the votes for the images of contest `c` anew where they may have changed: a source of
    // contest `own` came or went.
    fn recount_changed(&mut self, space: &Evade, own: u16, c: u16)
        requires marks { HasMarks space.now self.old }
        requires contest { c < length space.now.contests }
        requires beside { HasVotesBeside space.now self.old own }
        ensures marks { HasMarks space.now self.new }
        ensures rest { KeepsRest self.old self.new }
        ensures here { (u : ℕ) → first_target space.now.contests c ≤ u
            → u < first_target space.now.contests (c + 1) → HasVotes space.now self.new u }
        ensures elsewhere { (u : ℕ) → (u < first_target space.now.contests c)
            ⊎ (first_target space.now.contests (c + 1) ≤ u) → HasVotes space.now self.old u
            → HasVotes space.now self.new u }
    {
        if c == own {
            self.recount_contest(space, c);
            return;
        }
        if is_open(space, self.sources(), c) {
            self.recount_contest(space, c);
        }
    }

    // Counts the votes anew where a source of contest `own` came or went: those for its own images,
    // and those for images of contests that have an empty place, since the unused targets are
    // others now.
    pub(crate) fn recount_votes(&mut self, space: &Evade, own: u16)
        requires marks { HasMarks space.now self.old }
        requires beside { HasVotesBeside space.now self.old own }
        ensures { self.new ≡ keeping self.old
            (counts_of space.now.contests space.now.deck self.old.sources) }
    {
        for c in 0..space.shape.contests() {
            self.recount_changed(space, own, c);
        }
    }
}
