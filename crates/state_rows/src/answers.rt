use crate::deck_trees::judge;
use crate::reasons::read_reason;
use crate::steps::take_step;
use crate::walk::walk;
use crate::words::{pair, split_dot};
use anyhow::{Result, bail, ensure};
use close_rules::{cheap, refutes};
use deck_state::{Mark, Partial, marked_in, possible_in};
use row_words::number;
use std::alloc::Global;
use tree_core::Verdict0;

/// Prints what the check of a tree says.
pub fn print_verdict<R: Print>(rt: &R, verdict: Verdict0) -> Result<()> {
    match verdict {
        Verdict0::Holds => print!(rt; "holds")?,
        Verdict0::Fails(place) => print!(rt; "fails-at-{place}")?,
    }
    Ok(())
}

// Prints a choice of two words.
fn print_choice<R: Print>(rt: &R, holds: bool, word: &str, other: &str) -> Result<()> {
    print!(rt; "{}", if holds { word } else { other })?;
    Ok(())
}

// Prints the least and the greatest total of each target.
fn print_totals<R: Print>(rt: &R, partial: &Partial) -> Result<()> {
    for t in 0..partial.shape().targets() {
        let comma = if t == 0 { "" } else { "," };
        print!(rt; "{comma}{}-{}", partial.lo(t), partial.hi(t))?;
    }
    Ok(())
}

// Prints the bounds that are kept for the total of target t.
fn print_bounds<R: Print>(rt: &R, partial: &Partial, t: u16) -> Result<()> {
    ensure!(t < partial.shape().targets(), "no such target");
    let bounds = partial.bounds(t);
    print!(rt; "{}-{}", bounds.low, bounds.high)?;
    Ok(())
}

// Prints the marks of ballot j: 1, 0, or ? where they are undecided.
fn print_marks<R: Print>(rt: &R, partial: &Partial, j: u16) -> Result<()> {
    ensure!(j < partial.ballots(), "no such ballot");
    for mark in partial.row(j) {
        let sign = match mark {
            Mark::Marked => "1",
            Mark::Unmarked => "0",
            Mark::Undecided => "?",
        };
        print!(rt; "{sign}")?;
    }
    Ok(())
}

// Prints how many targets of contest c ballot j marks, and how many it marks or leaves undecided:
// as they are kept, or counted in its row.
fn print_counts<R: Print>(rt: &R, partial: &Partial, place: (u16, u16), kept: bool) -> Result<()> {
    let (j, c) = place;
    ensure!(j < partial.ballots(), "no such ballot");
    ensure!(c < partial.shape().contests(), "no such contest");
    if kept {
        print!(rt; "{}-{}", partial.marked_in(j, c), partial.possible_in(j, c))?;
    } else {
        let shape = partial.shape();
        let row = partial.row(j);
        print!(rt;
            "{}-{}",
            marked_in(shape, row, c),
            possible_in(shape, row, c)
        )?;
    }
    Ok(())
}

// Walks so many steps from a number on, and prints what the walk came to.
fn print_walk<R: Print>(rt: &R, partial: &mut Partial, seed: u16, steps: u16) -> Result<()> {
    let walked = walk(partial, u32::from(seed), steps);
    print!(rt; "{}-right,", walked.right)?;
    print!(rt; "{}-decided,{}-undone", walked.decided, walked.undone)?;
    Ok(())
}

// Prints the answer to a question of the partial deck that names no reason and no tree.
fn print_fact<R: Print>(rt: &R, partial: &mut Partial, word: &str) -> Result<()> {
    let (head, rest) = split_dot(word);
    match head {
        "totals" => print_totals(rt, partial)?,
        "bounds" => print_bounds(rt, partial, number(rest)?)?,
        "row" => print_marks(rt, partial, number(rest)?)?,
        "kept" => print_counts(rt, partial, pair(rest)?, true)?,
        "counted" => print_counts(rt, partial, pair(rest)?, false)?,
        "walk" => {
            let (seed, steps) = pair(rest)?;
            print_walk(rt, partial, seed, steps)?;
        }
        "depth" => print!(rt; "{}", partial.depth())?,
        "distinct" => print_choice(rt, partial.rules().distinct(), "yes", "no")?,
        "cheap" => print_choice(rt, cheap(partial).is_some(), "some", "none")?,
        _ => bail!("no question"),
    }
    Ok(())
}

// Prints the answer to a question of the partial deck.
fn print_answer<R: Print>(rt: &R, alloc: Global, partial: &mut Partial, word: &str) -> Result<()> {
    if let Some(tree) = word.strip_prefix("open:") {
        return print_verdict(rt, judge(alloc, partial, tree, true)?);
    }
    if let Some(tree) = word.strip_prefix("check:") {
        return print_verdict(rt, judge(alloc, partial, tree, false)?);
    }
    match read_reason(alloc, word)? {
        Some(reason) => print_choice(rt, refutes(partial, &reason), "yes", "no"),
        None => print_fact(rt, partial, word),
    }
}

/// Takes the steps that words say, and prints each other word with the answer to it.
pub fn print_answers<R: Print>(
    rt: &R,
    alloc: Global,
    partial: &mut Partial,
    words: &str,
) -> Result<()> {
    for word in words.split_whitespace() {
        if !take_step(partial, word)? {
            print!(rt; " {word}=")?;
            print_answer(rt, alloc, partial, word)?;
        }
    }
    Ok(())
}
