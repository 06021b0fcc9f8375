//! A walk through the misassignments that a deck lets pass, whose kept counts are counted anew.

ghost use Rattle.std.specs.Prelude.{◌≡◌, OnOk, length};
ghost use Rattle.lat_base.specs.Shape.{target_count};
ghost use Rattle.evade_space.specs.Steps.{IsEvadeState};

use crate::known_sources::{free, lost, taken, votes};
use anyhow::Result;
use evade_space::{Evade, EvadeState, KeptCounts};
use lat_ballots::Deck;
use lat_base::Shape;
use row_words::{deck_of, number, split_word, style_of};
use std::alloc::{AllocError, Global};
use tree_core::Space;

// The steps and undos of a walk, those that left the counts right, and sums of the kept counts
// after each.
#[derive(Clone, Copy, Debug)]
struct Walked {
    made: u32,
    right: u32,
    taken: u64,
    free: u64,
    may: u64,
    must: u64,
    lost: u64,
}

// A sum of so many votes or marks more.
fn sum(before: u64, more: &[u16]) -> u64 {
    let mut sum = before;
    for number in more {
        sum = sum.saturating_add(u64::from(*number));
    }
    sum
}

// The sources of the images.
fn sources_of(alloc: Global, state: &EvadeState) -> Result<Vec<Option<u16>>, AllocError> {
    let mut sources = Vec::new(alloc);
    for u in 0..state.images() {
        sources.push(state.source(u))?;
    }
    Ok(sources)
}

impl Walked {
    // One step or undo more.
    fn and(self, shape: &Shape, deck: &Deck, sources: &[Option<u16>], kept: &KeptCounts) -> Walked
        requires taken { length kept.now.taken ≡ length shape.now }
        requires may { length kept.now.may ≡ target_count shape.now }
        requires must { length kept.now.must ≡ target_count shape.now }
    {
        let mut walked = self;
        let mut right = kept.lost() == lost(shape, deck, sources);
        for c in 0..shape.contests() {
            let row = kept.taken(c);
            for j in 0..deck.ballots() {
                let marks = taken(shape, deck, sources, j, c);
                right = right && row.get(usize::from(j)) == Some(&marks);
            }
            walked.taken = sum(walked.taken, row);
        }
        for j in 0..deck.ballots() {
            right = right && kept.free().get(usize::from(j)) == Some(&free(deck, sources, j));
        }
        for u in 0..shape.targets() {
            let may = kept.may(u);
            let must = kept.must(u);
            right = right && (may, must) == votes(shape, deck, sources, u);
            walked.may = walked.may.saturating_add(u64::from(may));
            walked.must = walked.must.saturating_add(u64::from(must));
        }
        walked.free = sum(walked.free, kept.free());
        walked.lost = walked.lost.saturating_add(u64::from(kept.lost()));
        walked.made = walked.made.saturating_add(1);
        walked.right = walked.right.saturating_add(u32::from(right));
        walked
    }
}

// The walk with the step that led to this state.
fn step_more(
    alloc: Global,
    space: &Evade,
    shape: &Shape,
    deck: &Deck,
    state: &EvadeState,
    walked: Walked,
) -> Result<Walked, AllocError>
    requires own { IsEvadeState space.now state.now }
    requires style { space.now.contests ≡ shape.now }
{
    let sources = sources_of(alloc, state)?;
    Ok(walked.and(shape, deck, sources.as_slice(), state.counts()))
}

// The first image without a source, counted from image 0, 2, 4, .. on and then from the odd ones,
// so that contests stay open.
fn next_image(state: &EvadeState) -> u16 {
    for u in 0..state.images() {
        if u % 2 == 0 && state.is_free(u) {
            return u;
        }
    }
    for u in 0..state.images() {
        if state.is_free(u) {
            return u;
        }
    }
    0
}

// Goes to each kid and back, down to so many levels.
fn walk(
    alloc: Global,
    space: &Evade,
    shape: &Shape,
    deck: &Deck,
    state: &mut EvadeState,
    walked: Walked,
    levels: u16,
) -> Result<Walked, AllocError>
    requires own { IsEvadeState space.now state.old }
    requires style { space.now.contests ≡ shape.now }
    ensures { OnOk result (state.new ≡ state.old) }
{
    let label = next_image(state);
    if levels == 0 {
        return Ok(walked);
    }
    let Some(kids) = space.arity(state, &label) else {
        return Ok(walked);
    };
    space.laws();
    let mut walked = walked;
    for kid in 0..kids {
        space.enter(state, &label, kid);
        walked = step_more(alloc, space, shape, deck, state, walked)?;
        walked = walk(alloc, space, shape, deck, state, walked, levels - 1)?;
        space.leave(state);
        walked = step_more(alloc, space, shape, deck, state, walked)?;
    }
    Ok(walked)
}

/// Prints what a line says of the walk through all misassignments that leave a deck's totals as
/// they are, as far as its levels.
pub fn print_source_walk<R: Print>(rt: &R, alloc: Global, rest: &str) -> Result<()> {
    let (style, rest) = split_word(rest);
    let (rows, levels) = split_word(rest);
    let shape = style_of(alloc, style)?;
    let deck = deck_of(alloc, &shape, rows)?;
    let space = Evade::own(alloc, &shape, &deck)?;
    let mut state = space.state(alloc)?;
    let start = Walked {
        made: 0,
        right: 0,
        taken: 0,
        free: 0,
        may: 0,
        must: 0,
        lost: 0,
    };
    let walked = walk(
        alloc,
        &space,
        &shape,
        &deck,
        &mut state,
        start,
        number(levels)?,
    )?;
    print!(rt;
        " made={} right={} taken={}",
        walked.made, walked.right, walked.taken
    )?;
    print!(rt; " free={} may={}", walked.free, walked.may)?;
    print!(rt; " must={} lost={}", walked.must, walked.lost)?;
    Ok(())
}
