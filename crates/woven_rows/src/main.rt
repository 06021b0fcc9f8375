//! Weaves a deck for each line of standard input, and prints in which cases one is found. A line
//! has a name, a style, rules and a number of ballots.
#![tactic(auto)]

use anyhow::{Result, ensure};
use deck_weaver::weave;
use lat_base::MOST_BALLOTS;
use row_words::{number, rules_of, split_word, style_of};
use std::alloc::Global;

// How many Close and Fork nodes an attack may take.
const BUDGET: u64 = 100_000;

// Whether a deck of `k` ballots is woven.
fn is_woven(alloc: Global, style: &str, rules: &str, k: u16) -> Result<bool> {
    ensure!(k <= MOST_BALLOTS, "too many ballots");
    let shape = style_of(alloc, style)?;
    let found = weave(alloc, &shape, &rules_of(rules)?, k, BUDGET)?;
    Ok(found.is_some())
}

// Weaves the deck of a line.
fn weave_line<R: Print>(rt: &R, alloc: Global, line: &str) -> Result<()> {
    let (name, rest) = split_word(line);
    let (style, rest) = split_word(rest);
    let (rules, ballots) = split_word(rest);
    let k = number(ballots)?;
    let answer = if is_woven(alloc, style, rules, k)? {
        "woven"
    } else {
        "none"
    };
    println!(rt; "{name} {k}: {answer}")?;
    Ok(())
}

fn main(rt: HostRuntime) -> Result<()> {
    for line in rt.lines(rt.alloc()) {
        weave_line(&rt, rt.alloc(), line?.as_str())?;
    }
    Ok(())
}
