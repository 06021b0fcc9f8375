ghost use Rattle.std.specs.Prelude.{◌≡◌, ◌<◌, ◌≤◌, ◌-◌, length, slice_get, IfOk};
ghost use Rattle.lat_base.specs.Shape.{target_count, contest_at};
ghost use Rattle.lat_base.specs.declared.limits.TheConstants.{MOST_BALLOTS};
ghost use Rattle.deck_state.specs.Tally.{level_of};
ghost use Rattle.deck_state.specs.PartialDeck.{PartialDeck, mark_at, row_at, bounds_at, empty};
ghost use Rattle.deck_state.specs.Trail.{IsPartial};
ghost use Rattle.deck_state.specs.Votes.{marked_in, possible_in};

mod changes;
mod totals;

use crate::tally::Tally;
use crate::{Bounds, Mark, Step};
use lat_base::{Rules, Shape};
use std::alloc::{AllocError, Global};
use std::marker::Model;

/// A deck of at most 1,024 ballots of which some marks are decided, with a low and a high bound on
/// the total of each target, and the steps that led to it, which can be taken back one by one.
#[derive(Debug, Drop)]
pub struct Partial {
    sheet: Tally,
    rules: Rules,
    ballots: u16,
    bounds: Vec<Bounds>,
    steps: Vec<Step>,
}

impl Model for Partial {
    ghost use Rattle.std.specs.Prelude.{◌≤◌, ◌*◌, vec_capacity};
    ghost use Rattle.lat_base.specs.Shape.{target_count};
    ghost use Rattle.deck_state.specs.PartialDeck.{PartialDeck};
    ghost use Rattle.deck_state.specs.Trail.{IsPartial};

    ghost Value = { PartialDeck };

    ghost view = { λ a. record {
      contests = a.sheet.contests;
      rules = a.rules;
      ballots = a.ballots;
      marks = a.sheet.marks;
      bounds = a.bounds.items;
      steps = a.steps.items;
    } };

    ghost invariant = { λ a. IsPartial
        (record {
          contests = a.sheet.contests;
          rules = a.rules;
          ballots = a.ballots;
          marks = a.sheet.marks;
          bounds = a.bounds.items;
          steps = a.steps.items;
        })
        × (2 * (a.ballots * target_count a.sheet.contests) ≤ vec_capacity a.steps) };
}

impl Partial {
    /// `k` ballots of which nothing is decided; each total is from 0 to `k`. The room for all steps
    /// is taken here, so no other call takes memory.
    pub fn open(alloc: Global, shape: &Shape, rules: &Rules, k: u16) -> Result<Partial, AllocError>
        requires { k ≤ MOST_BALLOTS }
        ensures empty { IfOk result (λ p. p ≡ empty shape.now rules.now k) }
        ensures partial { IfOk result (λ p. IsPartial p) }
    {
        let targets = shape.targets();
        let steps = Vec::with_capacity(alloc, 2 * (k as usize * targets as usize))?;
        let bounds = vec![in alloc; Bounds { low: 0, high: k }; targets as usize]?;
        let sheet = Tally::blank(alloc, shape, k)?;
        Ok(Partial {
            sheet,
            rules: *rules,
            ballots: k,
            bounds,
            steps,
        })
    }

    /// The style.
    pub fn shape(&self) -> &Shape
        ensures value { result.now ≡ self.now.contests }
        ensures partial { IsPartial self.now }
    {
        self.sheet.shape()
    }

    /// The rules that the deck is to obey.
    pub fn rules(&self) -> Rules
        ensures value { result ≡ self.now.rules }
        ensures partial { IsPartial self.now }
    {
        self.rules
    }

    /// How many ballots there are.
    pub fn ballots(&self) -> u16
        ensures count { result ≡ self.now.ballots }
        ensures partial { IsPartial self.now }
    {
        self.ballots
    }

    /// How many steps were made and not taken back.
    pub fn depth(&self) -> u32
        ensures count { result ≡ length self.now.steps }
        ensures partial { IsPartial self.now }
    {
        self.steps.len() as u32
    }

    /// The last step that was made and not taken back, if there is one.
    pub fn last_step(&self) -> Option<Step>
        ensures { result ≡ slice_get self.now.steps (length self.now.steps - 1) }
    {
        self.steps.last().copied()
    }

    /// What is known of the mark of ballot `j` at target `t`.
    pub fn mark(&self, j: u16, t: u16) -> Mark
        requires ballot { j < self.now.ballots }
        requires target { t < target_count self.now.contests }
        ensures { result ≡ mark_at self.now j t }
    {
        self.sheet.mark(j, t)
    }

    /// What is known of the marks of ballot `j`, target by target.
    pub fn row(&self, j: u16) -> &[Mark]
        requires { j < self.now.ballots }
        ensures marks { result.now ≡ row_at self.now j }
        ensures long { length result.now ≡ target_count self.now.contests }
    {
        self.sheet.row(j)
    }

    /// How many targets of contest `c` ballot `j` marks.
    pub fn marked_in(&self, j: u16, c: u16) -> u16
        requires ballot { j < self.now.ballots }
        requires contest { c < length self.now.contests }
        ensures { result ≡ marked_in self.now.contests (row_at self.now j) c }
    {
        self.sheet.count(j, c).marked
    }

    /// How many targets of contest `c` ballot `j` marks or leaves undecided.
    pub fn possible_in(&self, j: u16, c: u16) -> u16
        requires ballot { j < self.now.ballots }
        requires contest { c < length self.now.contests }
        ensures { result ≡ possible_in self.now.contests (row_at self.now j) c }
    {
        self.sheet.count(j, c).possible
    }

    /// On how many ballots contest `c` can have more than `v` votes, or, where `v` is its limit, be
    /// overvoted.
    pub fn level(&self, c: u16, v: u16) -> u16
        requires contest { c < length self.now.contests }
        requires level { v ≤ (contest_at self.now.contests c).limit }
        ensures { result ≡ level_of self.now.contests self.now.marks c v }
    {
        self.sheet.level(c, v)
    }

    /// The bounds that are kept for the total of target `t`.
    pub fn bounds(&self, t: u16) -> Bounds
        requires { t < target_count self.now.contests }
        ensures { result ≡ bounds_at self.now t }
    {
        self.bounds[t as usize]
    }
}
