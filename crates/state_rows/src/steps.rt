use crate::words::pair;
use anyhow::{Result, ensure};
use deck_state::{Mark, Partial};
use row_words::number;

// Decides the mark of ballot j at target t.
fn decide(partial: &mut Partial, j: u16, t: u16, on: bool) -> Result<()> {
    ensure!(j < partial.ballots(), "no such ballot");
    ensure!(t < partial.shape().targets(), "no such target");
    ensure!(partial.mark(j, t) == Mark::Undecided, "the mark is decided");
    partial.decide(j, t, on);
    Ok(())
}

// Fixes the total of target t.
fn fix(partial: &mut Partial, t: u16, total: u16) -> Result<()> {
    ensure!(t < partial.shape().targets(), "no such target");
    ensure!(
        partial.lo(t) <= total && total <= partial.hi(t),
        "no such total"
    );
    let bounds = partial.bounds(t);
    ensure!(
        bounds.low != total || bounds.high != total,
        "the total is narrowed already"
    );
    partial.narrow(t, total, total);
    Ok(())
}

// Takes the last step back.
fn take_back(partial: &mut Partial) -> Result<()> {
    ensure!(partial.depth() > 0, "no step was made");
    partial.undo();
    Ok(())
}

/// Takes the step that a word says, and gives whether it says one.
pub fn take_step(partial: &mut Partial, word: &str) -> Result<bool> {
    if word == "undo" {
        take_back(partial)?;
        return Ok(true);
    }
    let Some((place, value)) = word.split_once('=') else {
        return Ok(false);
    };
    if let Some(t) = place.strip_prefix('t') {
        fix(partial, number(t)?, number(value)?)?;
    } else {
        let (j, t) = pair(place)?;
        decide(partial, j, t, number(value)? == 1)?;
    }
    Ok(true)
}
