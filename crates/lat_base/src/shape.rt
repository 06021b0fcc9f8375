ghost use Rattle.std.specs.Prelude.{◌≡◌, ◌≢◌, ◌+◌, ◌<◌, ◌≤◌, ◌^◌, ◌↔◌, length, vec_len, None, Some, Err, OnOk, IfOk, IsTrue};
ghost use Rattle.lat_base.specs.Shape.{target_count, first_target, contest_at, contest_of, CanOvervote, IsShape, AreFirsts};
ghost use Rattle.lat_base.specs.ShapeFault.{shape_fault};

use crate::shape_fault::{count_targets, find_contest_fault};
use crate::{Contest, MOST_CONTESTS, MOST_TARGETS, ShapeFault};
use std::alloc::{AllocError, Global};
use std::marker::Model;

/// A ballot style: its contests, in order, within the limits (1 to 128 contests, each with a vote
/// limit and a number of targets from 1 to 64, and at most 256 targets in all).
///
/// Targets are numbered from 0, contest by contest.
#[derive(Debug, Drop)]
pub struct Shape {
    contests: Vec<Contest>,
    // the number of the first target of each contest, and of one more
    firsts: Vec<u16>,
}

impl Model for Shape {
    ghost use Rattle.std.specs.Prelude.{List};
    ghost use Rattle.lat_base.specs.declared.contest.Contest.{Contest};

    ghost Value = { List Contest };

    ghost use Rattle.lat_base.specs.Shape.{IsShape, AreFirsts};

    ghost view = { λ a. a.contests.items };

    ghost invariant = { λ a. IsShape a.contests.items × AreFirsts a.contests.items a.firsts.items };
}

// The number of the first target of each contest, and of one more.
fn first_targets(alloc: Global, contests: &[Contest]) -> Result<Vec<u16>, AllocError>
    requires { target_count contests.now ≤ MOST_TARGETS }
    ensures { IfOk result (λ firsts. AreFirsts contests.now firsts.items) }
{
    let mut firsts = Vec::new(alloc);
    let mut next: u16 = 0;
    firsts.push(next)?;
    for contest in contests {
        next += contest.targets;
        firsts.push(next)?;
    }
    Ok(firsts)
}

impl Shape {
    /// The style of these contests, or the first fault, in the order of the variants of
    /// `ShapeFault`.
    pub fn new(alloc: Global, contests: &[Contest]) -> Result<Shape, ShapeFault>
        requires { length contests.now < 2 ^ 32 }
        ensures ok { IfOk result (λ shape. shape ≡ contests.now) }
        ensures sound { OnOk result (shape_fault contests.now ≡ None) }
        ensures fault { (f : ShapeFault) → f ≢ ShapeFault.Memory →
            (result ≡ Err f) ↔ (shape_fault contests.now ≡ Some f) }
    {
        if contests.is_empty() {
            return Err(ShapeFault::Empty);
        }
        if contests.len() > usize::from(MOST_CONTESTS) {
            return Err(ShapeFault::TooManyContests(contests.len() as u32));
        }
        if let Some(fault) = find_contest_fault(contests) {
            return Err(fault);
        }
        let targets = count_targets(contests);
        if targets > u32::from(MOST_TARGETS) {
            return Err(ShapeFault::TooManyTargets(targets));
        }
        match Shape::copied(alloc, contests) {
            Ok(shape) => Ok(shape),
            Err(_) => Err(ShapeFault::Memory),
        }
    }

    // The style of contests that have no fault, which are copied.
    fn copied(alloc: Global, contests: &[Contest]) -> Result<Shape, AllocError>
        requires { shape_fault contests.now ≡ None }
        ensures { IfOk result (λ shape. shape ≡ contests.now) }
    {
        Shape::from_valid(alloc, Vec::from_slice(alloc, contests)?)
    }

    /// The style of contests that were tested already. The only error is want of memory.
    pub fn from_valid(alloc: Global, contests: Vec<Contest>) -> Result<Shape, AllocError>
        requires { IsShape contests.items }
        ensures { IfOk result (λ shape. shape ≡ contests.items) }
    {
        let firsts = first_targets(alloc, contests.as_slice())?;
        Ok(Shape { contests, firsts })
    }

    /// An equal shape.
    pub fn copy(&self, alloc: Global) -> Result<Shape, AllocError>
        ensures { IfOk result (λ shape. shape ≡ self.now) }
    {
        Ok(Shape {
            contests: Vec::from_slice(alloc, self.contests.as_slice())?,
            firsts: Vec::from_slice(alloc, self.firsts.as_slice())?,
        })
    }

    /// How many contests there are.
    pub fn contests(&self) -> u16
        ensures count { result ≡ length self.now }
        ensures shape { IsShape self.now }
    {
        self.contests.len() as u16
    }

    /// How many targets there are in all.
    pub fn targets(&self) -> u16
        ensures count { result ≡ target_count self.now }
        ensures some { 1 ≤ result }
        ensures shape { IsShape self.now }
    {
        self.firsts[self.contests.len()]
    }

    /// Contest number `c`.
    pub fn contest(&self, c: u16) -> Contest
        requires { c < length self.now }
        ensures { result ≡ contest_at self.now c }
    {
        self.contests[usize::from(c)]
    }

    /// How many targets stand before contest `c`; at the number of contests, how many there are.
    #[tactic(auto, using(crate::proofs::ShapeFacts::first_target_le))]
    pub fn first_of(&self, c: u16) -> u16
        requires { c ≤ length self.now }
        ensures value { result ≡ first_target self.now c }
        ensures within { result ≤ target_count self.now }
    {
        self.firsts[usize::from(c)]
    }

    /// The number of the contest that target `t` is of.
    pub fn contest_of(&self, t: u16) -> u16
        requires { t < target_count self.now }
        ensures value { result ≡ contest_of self.now t }
        ensures within { result < length self.now }
        ensures place { (first_target self.now result ≤ t) ×
            (t < first_target self.now (result + 1)) }
    {
        let mut rest = t;
        for (i, contest) in self.contests.iter().enumerate() {
            if rest < contest.targets {
                return i as u16;
            }
            rest -= contest.targets;
        }
        unreachable!()
    }

    /// Whether contest `c` has more targets than its limit, so that a ballot can overvote it.
    pub fn can_overvote(&self, c: u16) -> bool
        requires { c < length self.now }
        ensures { IsTrue result ↔ CanOvervote (contest_at self.now c) }
    {
        let contest = self.contests[usize::from(c)];
        contest.targets > contest.limit
    }
}
