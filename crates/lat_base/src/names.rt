ghost use Rattle.std.specs.Prelude.{◌≡◌, ◌<◌, ◌↔◌, [], true, false, length, get_or, OnOk, OnErr, Err, IsTrue};
ghost use Rattle.std.specs.List.{list_any};
ghost use Rattle.std.specs.Str.{bytes_eq};
ghost use Rattle.lat_base.specs.Names.{AreNames, names_at, with_contest, is_repeated, NamesFit};

use crate::{ContestNames, Id, Names0, Shape};
use std::alloc::{AllocError, Global};
use std::marker::Model;
use thiserror::Error;

/// Why a contest's names were not added.
#[derive(Clone, Copy, Debug, PartialEq, Eq, Error)]
pub enum NameFault {
    /// The contest's id is there, or a target's id stands twice.
    #[error("an id stands twice")]
    Repeated,
    #[error("out of memory")]
    Memory,
}

/// The ids of a style, its contests and their targets, in order. No contest's id stands twice, and
/// no target's id within a contest.
#[derive(Debug, Drop)]
pub struct Names {
    style: Id,
    contests: Vec<ContestNames>,
}

impl Model for Names {
    ghost use Rattle.lat_base.specs.Names.{StyleNames, AreNames};

    ghost Value = { StyleNames };

    ghost view = { λ a. record { style = a.style; contests = a.contests.items } };

    ghost invariant = { λ a. AreNames a.contests.items };
}

fn holds_contest(contests: &[ContestNames], id: &[u8]) -> bool
    ensures { result ≡ list_any (λ c. bytes_eq id.now c.id) contests.now }
{
    contests.iter().any(|other| id == other.id.as_bytes())
}

// Whether a contest's names can't be added.
fn is_repeated(contests: &[ContestNames], id: &[u8], targets: &Names0) -> bool
    ensures { result ≡ is_repeated contests.now id.now targets.now }
{
    holds_contest(contests, id) || targets.has_twice()
}

impl Names {
    /// A style with no contest yet.
    pub fn new(alloc: Global, style: Id) -> Names
        ensures { result ≡ record { style = style; contests = [] } }
    {
        Names {
            style,
            contests: Vec::new(alloc),
        }
    }

    /// Adds a contest's ids at the end; `Repeated` exactly where its id is there or a target's id
    /// stands twice.
    pub fn add(&mut self, id: Id, targets: Names0) -> Result<(), NameFault>
        ensures ok { OnOk result (self.new ≡ with_contest self.old id targets) }
        ensures repeated { (result ≡ Err NameFault.Repeated) ↔
            (is_repeated self.old.contests id targets ≡ true) }
        ensures err { OnErr result (self.new ≡ self.old) }
    {
        if is_repeated(&self.contests, id.as_bytes(), &targets) {
            return Err(NameFault::Repeated);
        }
        if self.add_valid(id, targets).is_err() {
            return Err(NameFault::Memory);
        }
        Ok(())
    }

    /// Adds a contest's ids at the end, which were tested already. The only error is want of
    /// memory; the names are then as before.
    #[tactic(auto, using(crate::proofs::NamesFacts::names_more))]
    pub fn add_valid(&mut self, id: Id, targets: Names0) -> Result<(), AllocError>
        requires { is_repeated self.old.contests id targets ≡ false }
        ensures ok { OnOk result (self.new ≡ with_contest self.old id targets) }
        ensures err { OnErr result (self.new ≡ self.old) }
    {
        Ok(self.contests.push(ContestNames { id, targets })?)
    }

    /// The style's id.
    pub fn style(&self) -> &Id
        ensures { result.now ≡ self.now.style }
    {
        &self.style
    }

    /// A law: no contest's id stands twice, and no target's id within a contest. The call does
    /// nothing.
    pub fn stand_once(&self)
        ensures { AreNames self.now.contests }
    {
        let _contests = self.contests.len();
    }

    /// The ids of the contests and their targets, in order.
    pub fn contests(&self) -> &[ContestNames]
        ensures { result.now ≡ self.now.contests }
    {
        self.contests.as_slice()
    }

    /// The id of contest `c`.
    pub fn contest(&self, c: u16) -> &Id
        requires { c < length self.now.contests }
        ensures { result.now ≡ (names_at self.now.contests c).id }
    {
        &self.contests[usize::from(c)].id
    }

    /// The id of target `i` of contest `c`, counted from 0 within the contest.
    pub fn target(&self, c: u16, i: u16) -> &Id
        requires contest { c < length self.now.contests }
        requires target { i < length (names_at self.now.contests c).targets }
        ensures { result.now ≡ get_or (names_at self.now.contests c).targets i [] }
    {
        &self.contests[usize::from(c)].targets.ids[usize::from(i)]
    }

    /// Whether there are as many contests as the style has, and in each as many targets.
    pub fn fits(&self, shape: &Shape) -> bool
        ensures { IsTrue result ↔ NamesFit self.now.contests shape.now }
    {
        if self.contests.len() != usize::from(shape.contests()) {
            return false;
        }
        for c in 0..shape.contests() {
            let targets = usize::from(shape.contest(c).targets);
            if self.contests[usize::from(c)].targets.ids.len() != targets {
                return false;
            }
        }
        true
    }
}
