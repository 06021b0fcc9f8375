//! Prints the decks of all patterns of three small styles, at 0 to 40 ballots. What it must print
//! is made by bench/patterns.py, which follows the rules of the patterns and none of this code.
#![tactic(auto)]

use deck_builder::propose;
use lat_ballots::Deck;
use lat_base::{Contest, Rules, Shape};
use std::alloc::AllocError;
use std::process::ExitCode;

// The digit of a ballot: the mark at target t has the worth 2^t, and a ballot has at most four
// targets.
fn digit(deck: &Deck, j: u16) -> char {
    let mut worth: u8 = 0;
    for t in 0..4 {
        if j < deck.ballots() && t < deck.targets() && deck.is_marked(j, t) {
            worth |= 1 << t;
        }
    }
    match b"0123456789abcdef".get(usize::from(worth)) {
        Some(digit) => char::from(*digit),
        None => '?',
    }
}

// A digit for each ballot, or a dot where there is none.
fn print_deck(rt: &HostRuntime, deck: &Deck) {
    if deck.ballots() == 0 {
        let _ = print!(rt; " .");
        return;
    }
    let _ = print!(rt; " ");
    for j in 0..deck.ballots() {
        let _ = print!(rt; "{}", digit(deck, j));
    }
}

// A line for each number of ballots, with a word for each pattern.
fn print_style(rt: &HostRuntime, shape: &Shape, rules: &Rules) -> Result<(), AllocError> {
    for k in 0..41 {
        let _ = print!(rt; "{k}");
        for turn in 0..32 {
            match propose(rt.alloc(), shape, rules, k, turn)? {
                Some(deck) => print_deck(rt, &deck),
                None => {
                    let _ = print!(rt; " -");
                }
            }
        }
        let _ = print!(rt; "\n");
    }
    Ok(())
}

// The style of contests given as limits and numbers of targets, under rules of these numbers.
fn print_patterns(
    rt: &HostRuntime,
    contests: [(u16, u16); 3],
    least: u16,
    blank: u16,
    over: u16,
) -> bool {
    let mut list = Vec::new(rt.alloc());
    for (limit, targets) in contests {
        if targets > 0 && list.push(Contest { limit, targets }).is_err() {
            return false;
        }
    }
    if list.len() > contests.len() {
        return false;
    }
    let (Ok(shape), Ok(rules)) = (
        Shape::new(rt.alloc(), list.as_slice()),
        Rules::new(true, least, blank, over),
    ) else {
        return false;
    };
    print_style(rt, &shape, &rules).is_ok()
}

fn main(rt: HostRuntime) -> ExitCode {
    let is_printed = print_patterns(&rt, [(1, 2), (1, 2), (1, 0)], 1, 1, 1)
        && print_patterns(&rt, [(2, 3), (1, 1), (1, 0)], 0, 0, 1)
        && print_patterns(&rt, [(1, 1), (1, 2), (1, 1)], 2, 1, 0);
    ExitCode::from(u8::from(!is_printed))
}
