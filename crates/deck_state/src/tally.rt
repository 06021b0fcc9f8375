ghost use Rattle.std.specs.Prelude.{◌≡◌, ◌<◌, ◌≤◌, [], length, get_or, IfOk, replicate};
ghost use Rattle.lat_base.specs.Shape.{target_count, contest_at};
ghost use Rattle.lat_base.specs.declared.limits.TheConstants.{MOST_BALLOTS};
ghost use Rattle.deck_state.specs.Sheet.{MarkSheet, sheet_with, count_of, votes_of};
ghost use Rattle.deck_state.specs.Tally.{level_of};

use crate::Mark;
use crate::kept_counts::{ContestCount, VoteCount};
use crate::levels::{LEVELS, levels_alike, move_levels};
use crate::sheet::Sheet;
use lat_base::Shape;
use std::alloc::{AllocError, Global};
use std::marker::Model;

/// A sheet of marks, for each contest with the numbers of ballots that can give more than so many
/// votes in it, and of those that can be overvoted in it.
#[derive(Debug, Drop)]
pub struct Tally {
    sheet: Sheet,
    // 65 numbers for each contest
    levels: Vec<u16>,
}

impl Model for Tally {
    ghost use Rattle.deck_state.specs.Sheet.{MarkSheet};
    ghost use Rattle.deck_state.specs.Tally.{AreLevels};

    ghost Value = { MarkSheet };

    ghost view = { λ a. a.sheet };

    ghost invariant = { λ a. AreLevels a.sheet.contests a.sheet.marks a.levels.items };
}

impl Tally {
    /// `k` ballots of which nothing is decided.
    pub fn blank(alloc: Global, shape: &Shape, k: u16) -> Result<Tally, AllocError>
        requires { k ≤ MOST_BALLOTS }
        ensures { let undecided = replicate k (replicate (target_count shape.now) Mark.Undecided) in
            IfOk result (λ sheet. sheet ≡ record { contests = shape.now; marks = undecided }) }
    {
        let row = vec![in alloc; Mark::Undecided; shape.targets() as usize]?;
        let levels = levels_alike(alloc, shape, row.as_slice(), k)?;
        let sheet = Sheet::blank(alloc, shape, k)?;
        Ok(Tally { sheet, levels })
    }

    /// The style.
    pub fn shape(&self) -> &Shape
        ensures { result.now ≡ self.now.contests }
    {
        self.sheet.shape()
    }

    /// The mark of ballot `j` at target `t`.
    pub fn mark(&self, j: u16, t: u16) -> Mark
        requires ballot { j < length self.now.marks }
        requires target { t < target_count self.now.contests }
        ensures { result ≡ get_or (get_or self.now.marks j []) t Mark.Undecided }
    {
        self.sheet.mark(j, t)
    }

    /// The marks of ballot `j`, target by target.
    pub fn row(&self, j: u16) -> &[Mark]
        requires { j < length self.now.marks }
        ensures marks { result.now ≡ get_or self.now.marks j [] }
    {
        self.sheet.row(j)
    }

    /// How many targets of contest `c` ballot `j` marks, and how many it marks or leaves undecided.
    pub fn count(&self, j: u16, c: u16) -> ContestCount
        requires ballot { j < length self.now.marks }
        requires contest { c < length self.now.contests }
        ensures { result ≡ count_of self.now.contests (get_or self.now.marks j []) c }
    {
        self.sheet.count(j, c)
    }

    /// How many ballots surely vote for target `t`, and how many possibly.
    pub fn votes(&self, t: u16) -> VoteCount
        requires { t < target_count self.now.contests }
        ensures { result ≡ votes_of self.now.contests self.now.marks t }
    {
        self.sheet.votes(t)
    }

    /// On how many ballots contest `c` can have more than `v` votes, or, where `v` is its limit, be
    /// overvoted.
    pub fn level(&self, c: u16, v: u16) -> u16
        requires contest { c < length self.now.contests }
        requires level { v ≤ (contest_at self.now.contests c).limit }
        ensures { result ≡ level_of self.now.contests self.now.marks c v }
    {
        let _contests = self.sheet.shape().contests();
        self.levels[c as usize * LEVELS as usize + v as usize]
    }

    /// Puts a mark in the place of ballot `j`'s at target `t`.
    pub fn put(&mut self, j: u16, t: u16, mark: Mark)
        requires ballot { j < length self.old.marks }
        requires target { t < target_count self.old.contests }
        ensures { self.new ≡ sheet_with self.old j t mark }
    {
        let c = self.sheet.shape().contest_of(t);
        let limit = self.sheet.shape().contest(c).limit;
        let before = self.sheet.count(j, c);
        self.sheet.put(j, t, mark);
        let after = self.sheet.count(j, c);
        let first = c as usize * LEVELS as usize;
        move_levels(&mut self.levels, first, limit, before, after);
    }
}
