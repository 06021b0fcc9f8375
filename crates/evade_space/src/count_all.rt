//! Counts taken anew, from the sources alone.

ghost use Rattle.std.specs.Prelude.{◌≡◌, ◌<◌, ◌≤◌, ℕ, false, length, map, get_or, IfOk};
ghost use Rattle.std.specs.List.{range_with_len};
ghost use Rattle.lat_base.specs.Shape.{target_count};
ghost use Rattle.lat_ballots.specs.Row.{common_count};
ghost use Rattle.evade_space.specs.Sources.{AreGiven};
ghost use Rattle.evade_space.specs.Votes.{may_vote, must_vote};
ghost use Rattle.evade_space.specs.Counts.{taken_in, counts_of};

use crate::losses::lost;
use crate::sets::{taken_targets, unused_targets};
use crate::votes::{may_vote, must_vote};
use crate::{Evade, KeptCounts};
use lat_ballots::{Deck, Row};
use std::alloc::{AllocError, Global};

// How many targets of a set each ballot marks.
fn count_row(alloc: Global, deck: &Deck, targets: &Row) -> Result<Vec<u16>, AllocError>
    requires { (t : ℕ) → deck.now.targets ≤ t → get_or targets.now t false ≡ false }
    ensures { IfOk result (λ row. row.items
        ≡ map (λ ballot. common_count ballot targets.now) deck.now.ballots) }
{
    let mut row = Vec::with_capacity(alloc, usize::from(deck.ballots()))?;
    for j in 0..deck.ballots() {
        row.push(deck.count_marked(j, targets))?;
    }
    Ok(row)
}

// For each contest, how many sources of its images each ballot marks.
fn count_taken(
    alloc: Global,
    space: &Evade,
    sources: &[Option<u16>],
) -> Result<Vec<Vec<u16>>, AllocError>
    requires { AreGiven (target_count space.now.contests) sources.now }
    ensures { IfOk result (λ rows. map (λ row. row.items) rows.items
        ≡ map (taken_in space.now.contests space.now.deck sources.now)
        (range_with_len 0 (length space.now.contests))) }
{
    let contests = space.shape.contests();
    let mut rows = Vec::with_capacity(alloc, usize::from(contests))?;
    for c in 0..contests {
        let taken = taken_targets(&space.shape, sources, c);
        rows.push(count_row(alloc, &space.deck, &taken)?)?;
    }
    Ok(rows)
}

// How many ballots may vote for image `u`: none where it has no source.
fn count_may(space: &Evade, sources: &[Option<u16>], u: u16) -> u32
    requires sources { AreGiven (target_count space.now.contests) sources.now }
    requires image { u < target_count space.now.contests }
    ensures { result ≡ may_vote space.now.contests space.now.deck sources.now u }
{
    match sources[u as usize] {
        Some(t) => may_vote(&space.shape, &space.deck, sources, u, t),
        None => 0,
    }
}

// How many ballots surely vote for image `u`: none where it has no source.
fn count_must(space: &Evade, sources: &[Option<u16>], u: u16) -> u32
    requires sources { AreGiven (target_count space.now.contests) sources.now }
    requires image { u < target_count space.now.contests }
    ensures { result ≡ must_vote space.now.contests space.now.deck sources.now u }
{
    match sources[u as usize] {
        Some(t) => must_vote(&space.shape, &space.deck, sources, u, t),
        None => 0,
    }
}

/// All counts of the deck under these sources.
#[tactic(auto, using(lemmas::proofs::Ranges::made_more))]
pub fn count_all(
    alloc: Global,
    space: &Evade,
    sources: &[Option<u16>],
) -> Result<KeptCounts, AllocError>
    requires { AreGiven (target_count space.now.contests) sources.now }
    ensures { IfOk result (λ counts. counts
        ≡ counts_of space.now.contests space.now.deck sources.now) }
{
    let taken = count_taken(alloc, space, sources)?;
    let free = count_row(alloc, &space.deck, &unused_targets(sources))?;
    let mut may = Vec::with_capacity(alloc, sources.len())?;
    let mut must = Vec::with_capacity(alloc, sources.len())?;
    for u in 0..sources.len() as u16 {
        may.push(count_may(space, sources, u))?;
        must.push(count_must(space, sources, u))?;
    }
    let lost = lost(&space.shape, &space.deck, sources);
    Ok(KeptCounts {
        taken,
        free,
        may,
        must,
        lost,
    })
}
