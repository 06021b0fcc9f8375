//! Prints what calls of the libraries give, one for each line of standard input: a name, the call
//! and its arguments, as docs/ADDING.md lists them. A style is its contests as `limit:targets` with
//! commas between them, rules are `distinct/least/blank/over`, a deck is its ballots with commas
//! between them, each a digit for a target, and a list is its numbers with commas between them, or
//! `-`. A line that begins with `#`, and one without a word, is printed as it is.
#![tactic(auto)]

mod ballots;
mod deck;
mod drawing;
mod exchanges;
mod ids;
mod orders;
mod parts;
mod proposals;
mod style;
mod tallies;
mod words;

use anyhow::{Result, bail};
use row_words::split_word;
use std::alloc::Global;

// What a call of the crates on ballots and totals gives.
fn of_ballots(alloc: Global, call: &str, rest: &str) -> Result<String> {
    match call {
        "set" => ballots::set(alloc, rest),
        "plain" => ballots::plain(alloc, rest),
        "sort" => ballots::sort(alloc, rest),
        "read" => ballots::read(alloc, rest),
        "report" => tallies::report_under(alloc, rest),
        "totals" => tallies::totals(alloc, rest),
        "under" => tallies::under(alloc, rest),
        "lost" => tallies::lost_marks(alloc, rest),
        "obeys" => tallies::obeyed(alloc, rest),
        _ => bail!("no such call"),
    }
}

// What a call gives.
fn answer(alloc: Global, call: &str, rest: &str) -> Result<String> {
    match call {
        "names" => ids::names(alloc, rest),
        "sources" => exchanges::sources(alloc, rest),
        "identity" => exchanges::identity(alloc, rest),
        "swap" => exchanges::swap(alloc, rest),
        "exchange" => exchanges::exchange(alloc, rest),
        "is-canonical" => orders::in_order(alloc, rest),
        "canonical" => orders::canonical_copy(alloc, rest),
        "propose" => proposals::proposed(alloc, rest),
        "part" => parts::part_of(alloc, rest),
        "restrict" => parts::cut(alloc, rest),
        "samples" => drawing::drawn(alloc, rest),
        _ => of_ballots(alloc, call, rest),
    }
}

// Prints what a line gives.
fn print_line<R: Print>(rt: &R, alloc: Global, line: &str) -> Result<()> {
    if line.is_empty() || line.starts_with('#') {
        println!(rt; "{line}")?;
        return Ok(());
    }
    let (name, rest) = split_word(line);
    let (call, rest) = split_word(rest);
    let text = answer(alloc, call, rest)?;
    println!(rt; "{name}: {text}")?;
    Ok(())
}

fn main(rt: HostRuntime) -> Result<()> {
    for line in rt.lines(rt.alloc()) {
        print_line(&rt, rt.alloc(), line?.as_str())?;
    }
    Ok(())
}
