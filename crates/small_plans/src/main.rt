//! Plans a small style for each line of standard input twice, by the planner and by trying every
//! deck and every misassignment, and prints what both say. A line has the rules distinct, least,
//! blank and over, the greatest number of ballots, and the style's contests, each as its limit and
//! its number of targets.
#![tactic(auto)]

use anyhow::{Result, ensure};
use lat_base::{Contest, MOST_BALLOTS, MOST_CONTESTS, Rules, Shape};
use plain_search::least_deck;
use planner::{Answer, plan};
use std::alloc::Global;

// How many Close and Fork nodes a search or an attack may take.
const BUDGET: u64 = 1_000_000;

/// A style with its rules, and the greatest number of ballots.
#[derive(Drop)]
struct Case {
    shape: Shape,
    rules: Rules,
    max: u16,
}

// The number that a word writes; 0 where it is none.
fn number(word: &str) -> u16 {
    word.parse::<u16>().unwrap_or(0)
}

// The case of a line.
fn read_case(alloc: Global, line: &str) -> Result<Case> {
    let mut words = line.split_whitespace();
    let distinct = words.next() == Some("true");
    let least = number(words.next().unwrap_or(""));
    let blank = number(words.next().unwrap_or(""));
    let over = number(words.next().unwrap_or(""));
    let max = number(words.next().unwrap_or(""));
    let rules = Rules::new(distinct, least, blank, over)?;
    let mut contests = Vec::new(alloc);
    for word in words {
        let (limit, targets) = word.split_once(':').unwrap_or((word, ""));
        contests.push(Contest {
            limit: number(limit),
            targets: number(targets),
        })?;
    }
    ensure!(
        contests.len() <= usize::from(MOST_CONTESTS),
        "too many contests"
    );
    let shape = Shape::new(alloc, &contests)?;
    Ok(Case { shape, rules, max })
}

// What the planner says: the least size, or a word.
fn print_planned<R: Print>(rt: &R, alloc: Global, case: &Case) -> Result<()> {
    ensure!(case.max >= 1 && case.max <= MOST_BALLOTS, "no size cap");
    let answer = plan(alloc, &case.shape, &case.rules, case.max, BUDGET)?;
    match &answer {
        Answer::Least(proved, _) => print!(rt; "least {}", proved.deck.ballots())?,
        Answer::NoneWithin(_) => print!(rt; "none")?,
        Answer::Spent(_) => print!(rt; "open")?,
    }
    Ok(())
}

// What trying everything says.
fn print_tried<R: Print>(rt: &R, alloc: Global, case: &Case) -> Result<()> {
    ensure!(case.max <= MOST_BALLOTS, "no size cap");
    match least_deck(alloc, &case.shape, &case.rules, case.max)? {
        Some(deck) => print!(rt; "least {}", deck.ballots())?,
        None => print!(rt; "none")?,
    }
    Ok(())
}

fn main(rt: HostRuntime) -> Result<()> {
    for line in rt.lines(rt.alloc()) {
        let line = line?;
        let case = read_case(rt.alloc(), line.as_str())?;
        print!(rt; "{}: ", line.as_str())?;
        print_planned(&rt, rt.alloc(), &case)?;
        print!(rt; ", tried ")?;
        print_tried(&rt, rt.alloc(), &case)?;
        println!(rt; "")?;
    }
    Ok(())
}
