//! Takes the steps that each line of standard input says, and prints what holds on the way. A line
//! has a name and then one of these:
//!
//! - a style as its contests, LIMIT:TARGETS or COUNTxLIMIT:TARGETS each, joined by commas; the
//!   rules DISTINCT/LEAST/BLANK/OVER; a number of ballots; and words, which are steps and questions
//!   of the partial deck of so many ballots (docs/ADDING.md tells them);
//! - `full DEPTH KIDS search PICKS BUDGET`: a search of a full tree of states, by a chooser that
//!   halts after that many picks (`all`: never);
//! - `full DEPTH KIDS tree NODES`: a tree of these nodes, in preorder and joined by commas;
//! - `sources STYLE ROWS LEVELS`: a walk through the misassignments that leave the totals of a deck
//!   (rows of 0 and 1, joined by commas) as they are, as far as so many known sources.
#![tactic(auto)]

mod anew;
mod answers;
mod deck_trees;
mod full_rows;
mod full_tree;
mod known_sources;
mod opening;
mod reasons;
mod source_walk;
mod stacking;
mod steps;
mod walk;
mod words;

use answers::print_answers;
use anyhow::Result;
use full_rows::print_full;
use opening::open;
use row_words::split_word;
use source_walk::print_source_walk;
use std::alloc::Global;

// Prints the row of a line.
fn print_row<R: Print>(rt: &R, alloc: Global, line: &str) -> Result<()> {
    let (name, rest) = split_word(line);
    print!(rt; "{name}:")?;
    let (style, rest) = split_word(rest);
    if style == "full" {
        print_full(rt, alloc, rest)?;
    } else if style == "sources" {
        print_source_walk(rt, alloc, rest)?;
    } else {
        let (rules, rest) = split_word(rest);
        let (ballots, rest) = split_word(rest);
        let mut partial = open(alloc, style, rules, ballots)?;
        print_answers(rt, alloc, &mut partial, rest)?;
    }
    println!(rt; "")?;
    Ok(())
}

fn main(rt: HostRuntime) -> Result<()> {
    for line in rt.lines(rt.alloc()) {
        print_row(&rt, rt.alloc(), line?.as_str())?;
    }
    Ok(())
}
