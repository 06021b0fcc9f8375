ghost use Rattle.std.specs.Prelude.{◌≡◌, ◌<◌, ◌≤◌, ◌+◌, ◌*◌, ℕ, true, [], length, get_or, slice_set, sum_by, cond, IfOk};
ghost use Rattle.lat_base.specs.Shape.{target_count, contest_of};
ghost use Rattle.lat_base.specs.declared.limits.TheConstants.{MOST_BALLOTS};
ghost use Rattle.evade_space.specs.Sources.{AreGiven, with_source};
ghost use Rattle.lat_ballots.specs.Columns.{has_mark};
ghost use Rattle.evade_space.specs.Losses.{over, lost};
ghost use Rattle.evade_space.specs.Counts.{Counts, taken_in, free_in, counts_of};
ghost use Rattle.evade_space.specs.Trials.{IsGiving};

use crate::Evade;
use std::marker::Model;

/// Counts of the deck that a state keeps beside its sources.
#[derive(Debug, Drop)]
pub struct KeptCounts {
    // For each contest, how many sources of its images each ballot marks.
    pub(crate) taken: Vec<Vec<u16>>,
    // How many unused targets each ballot marks.
    pub(crate) free: Vec<u16>,
    // For each image, how many ballots may vote for it, and how many surely do.
    pub(crate) may: Vec<u32>,
    pub(crate) must: Vec<u32>,
    // How many marks are surely lost.
    pub(crate) lost: u32,
}

impl Model for KeptCounts {
    ghost use Rattle.std.specs.Prelude.{map};
    ghost use Rattle.evade_space.specs.Counts.{Counts};

    ghost Value = { Counts };

    ghost view = { λ a. record {
      taken = map (λ row. row.items) a.taken.items;
      free = a.free.items;
      may = a.may.items;
      must = a.must.items;
      lost = a.lost;
    } };
}

impl KeptCounts {
    /// How many sources of contest `c`'s images each ballot marks.
    pub fn taken(&self, c: u16) -> &[u16]
        requires { c < length self.now.taken }
        ensures { result.now ≡ get_or self.now.taken c [] }
    {
        self.taken[c as usize].as_slice()
    }

    /// How many unused targets each ballot marks.
    pub fn free(&self) -> &[u16]
        ensures { result.now ≡ self.now.free }
    {
        self.free.as_slice()
    }

    /// How many ballots may vote for image `u`: 0 where it has no source.
    pub fn may(&self, u: u16) -> u32
        requires { u < length self.now.may }
        ensures { result ≡ get_or self.now.may u 0 }
    {
        self.may[u as usize]
    }

    /// How many ballots surely vote for image `u`: 0 where it has no source.
    pub fn must(&self, u: u16) -> u32
        requires { u < length self.now.must }
        ensures { result ≡ get_or self.now.must u 0 }
    {
        self.must[u as usize]
    }

    /// How many marks are surely lost.
    pub fn lost(&self) -> u32
        ensures { result ≡ self.now.lost }
    {
        self.lost
    }

    // Keeps these numbers for image `u`.
    pub(crate) fn set_votes(&mut self, u: u16, may: u32, must: u32)
        requires may { u < length self.old.may }
        requires must { u < length self.old.must }
        ensures { self.new ≡ record self.old
            { may = slice_set self.old.may u may; must = slice_set self.old.must u must } }
    {
        self.may[u as usize] = may;
        self.must[u as usize] = must;
    }

    // Counts the marks anew where image `u`, which has no source, is to get the source `t`: they
    // were marks of an unused target, and now they are taken. The votes stay.
    pub(crate) fn take_marks(&mut self, space: &Evade, sources: &[Option<u16>], u: u16, t: u16)
        requires giving { IsGiving space.now sources.now u t }
        requires kept { self.old ≡ counts_of space.now.contests space.now.deck sources.now }
        ensures { self.new
            ≡ record (counts_of space.now.contests space.now.deck (with_source sources.now u t))
            { may = self.old.may; must = self.old.must } }
    {
        let row = &mut self.taken[space.contest_of(u) as usize];
        self.lost = take_row(space, sources, u, t, &mut self.free, row, self.lost);
    }

    // Counts the marks anew where image `u`, which had the source `t`, has none.
    pub(crate) fn free_marks(&mut self, space: &Evade, sources: &[Option<u16>], u: u16, t: u16)
        requires giving { IsGiving space.now sources.now u t }
        requires kept { self.old ≡ counts_of space.now.contests space.now.deck
            (with_source sources.now u t) }
        ensures { self.new ≡ record (counts_of space.now.contests space.now.deck sources.now)
            { may = self.old.may; must = self.old.must } }
    {
        let row = &mut self.taken[space.contest_of(u) as usize];
        self.lost = free_row(space, sources, u, t, &mut self.free, row, self.lost);
    }
}

// Moves the marks of target `t`, which image `u` is to get, from the unused ones to those of the
// image's contest, and gives how many marks are lost then.
fn take_row(
    space: &Evade,
    sources: &[Option<u16>],
    u: u16,
    t: u16,
    free: &mut Vec<u16>,
    row: &mut Vec<u16>,
    kept: u32,
) -> u32
    requires giving { IsGiving space.now sources.now u t }
    requires free { free.old.items ≡ free_in space.now.deck sources.now }
    requires row { row.old.items ≡ taken_in space.now.contests space.now.deck sources.now
        (contest_of space.now.contests u) }
    requires kept { kept ≡ lost space.now.contests space.now.deck sources.now }
    ensures free { free.new.items ≡ free_in space.now.deck (with_source sources.now u t) }
    ensures row { row.new.items ≡ taken_in space.now.contests space.now.deck
        (with_source sources.now u t) (contest_of space.now.contests u) }
    ensures lost { result ≡ lost space.now.contests space.now.deck (with_source sources.now u t) }
{
    let limit = space.limit_of(space.contest_of(u));
    let _ballots = space.ballots();
    let before = lost_of(row.as_slice(), limit);
    move_marks(space, t, free, row);
    let after = lost_of(row.as_slice(), limit);
    kept + after - before
}

// The way back: image `u`, which had the source `t`, has none.
fn free_row(
    space: &Evade,
    sources: &[Option<u16>],
    u: u16,
    t: u16,
    free: &mut Vec<u16>,
    row: &mut Vec<u16>,
    kept: u32,
) -> u32
    requires giving { IsGiving space.now sources.now u t }
    requires free { free.old.items ≡ free_in space.now.deck (with_source sources.now u t) }
    requires row { row.old.items ≡ taken_in space.now.contests space.now.deck
        (with_source sources.now u t) (contest_of space.now.contests u) }
    requires kept { kept ≡ lost space.now.contests space.now.deck (with_source sources.now u t) }
    ensures free { free.new.items ≡ free_in space.now.deck sources.now }
    ensures row { row.new.items ≡ taken_in space.now.contests space.now.deck sources.now
        (contest_of space.now.contests u) }
    ensures lost { result ≡ lost space.now.contests space.now.deck sources.now }
{
    let limit = space.limit_of(space.contest_of(u));
    let _ballots = space.ballots();
    let before = lost_of(row.as_slice(), limit);
    move_marks(space, t, row, free);
    let after = lost_of(row.as_slice(), limit);
    kept + after - before
}

// Where so many marks of one contest are known on each ballot, how many are lost.
#[tactic(auto, using(crate::proofs::MovedMarks::over_more))]
fn lost_of(marks: &[u16], limit: u16) -> u32
    requires { length marks.now ≤ MOST_BALLOTS }
    ensures sum { result ≡ sum_by (over limit) marks.now }
    ensures few { result ≤ 65536 * 1024 }
{
    let mut lost: u32 = 0;
    for known in marks {
        lost += over(*known, limit);
    }
    lost
}

// How many of so many known marks are lost: all where they are more than the limit.
fn over(known: u16, limit: u16) -> u32
    ensures is { result ≡ over limit known }
    ensures few { result < 65536 }
{
    if known > limit { u32::from(known) } else { 0 }
}

// Moves each ballot's mark of target `t` from one count to another.
fn move_marks(space: &Evade, t: u16, from: &mut Vec<u16>, to: &mut Vec<u16>)
    requires target { t < target_count space.now.contests }
    requires from_long { length from.old.items ≡ length space.now.deck }
    requires to_long { length to.old.items ≡ length space.now.deck }
    requires some { (j : ℕ) → j < length space.now.deck
        → has_mark t (get_or space.now.deck j []) ≡ true → 1 ≤ get_or from.old.items j 0 }
    requires few { (j : ℕ) → j < length space.now.deck → get_or to.old.items j 0 ≤ MOST_BALLOTS }
    ensures fewer { (j : ℕ) → j < length space.now.deck
        → get_or from.new.items j 0 + cond (has_mark t (get_or space.now.deck j [])) 1 0
        ≡ get_or from.old.items j 0 }
    ensures more { (j : ℕ) → j < length space.now.deck
        → get_or to.new.items j 0
        ≡ get_or to.old.items j 0 + cond (has_mark t (get_or space.now.deck j [])) 1 0 }
    ensures from_long { length from.new.items ≡ length space.now.deck }
    ensures to_long { length to.new.items ≡ length space.now.deck }
{
    for j in 0..space.ballots() {
        let mark = space.mark(j, t);
        from[j as usize] -= mark;
        to[j as usize] += mark;
    }
}
