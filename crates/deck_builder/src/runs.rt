ghost use Rattle.std.specs.Prelude.{◌≡◌, ◌<◌, ◌≤◌, ◌+◌, length, IfOk, OnOk};
ghost use Rattle.lat_base.specs.Shape.{target_count, first_target};
ghost use Rattle.lat_base.specs.declared.limits.TheConstants.{MOST_BALLOTS};
ghost use Rattle.deck_builder.specs.Pattern.{pattern};
ghost use Rattle.deck_builder.specs.Runs.{runs_of};

use crate::counts::{marking_in, marks};
use crate::mode::STEPS;
use lat_base::{Rules, Shape};
use std::alloc::{AllocError, Global};

/// The marks of one target: on as many places, one after the other, from one on.
#[derive(Clone, Copy, Debug)]
pub struct Run {
    pub place: u32,
    pub marks: u16,
}

// Puts the runs of contest c's targets at the end of those of the targets before.
fn push_runs(
    runs: &mut Vec<Run>,
    shape: &Shape,
    rules: &Rules,
    k: u16,
    turn: u32,
    c: u16,
) -> Result<(), AllocError>
    requires contest { c < length shape.now }
    requires few { k ≤ MOST_BALLOTS }
    requires before { let p = pattern shape.now rules.now k turn in
        runs.old.items ≡ runs_of p (first_target shape.now c) }
    ensures { let p = pattern shape.now rules.now k turn in
        OnOk result (runs.new.items ≡ runs_of p (first_target shape.now (c + 1))) }
{
    let _contests = shape.contests();
    let marking = marking_in(shape, rules, k, turn, c);
    let mut place = (turn % STEPS + 1) * u32::from(c);
    for i in 0..marking.targets {
        let marks = marks(marking, i);
        runs.push(Run { place, marks })?;
        place += u32::from(marks);
    }
    Ok(())
}

/// The runs of all targets.
pub fn runs(
    alloc: Global,
    shape: &Shape,
    rules: &Rules,
    k: u16,
    turn: u32,
) -> Result<Vec<Run>, AllocError>
    requires { k ≤ MOST_BALLOTS }
    ensures { let p = pattern shape.now rules.now k turn in
        IfOk result (λ runs. runs.items ≡ runs_of p (target_count shape.now)) }
{
    let mut runs = Vec::with_capacity(alloc, usize::from(shape.targets()))?;
    for c in 0..shape.contests() {
        push_runs(&mut runs, shape, rules, k, turn, c)?;
    }
    Ok(runs)
}
