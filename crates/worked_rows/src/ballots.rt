use crate::deck::deck_text;
use crate::words::numbers_of;
use anyhow::{Result, ensure};
use lat_ballots::{Deck, plain_size};
use lat_base::{MOST_BALLOTS, MOST_TARGETS};
use row_words::{deck_of, number, rules_of, split_word, style_of};
use std::alloc::{AllocError, Global};

// The marks of a deck, each as its ballot, a colon and its target, or `-` for none.
fn marks_text(alloc: Global, deck: &Deck) -> Result<String, AllocError> {
    let mut text = String::new(alloc);
    for j in 0..deck.ballots() {
        for t in 0..deck.targets() {
            if deck.is_marked(j, t) {
                let mark = if text.is_empty() { "" } else { "," };
                write!(text, "{mark}{j}:{t}")?;
            }
        }
    }
    if text.is_empty() {
        text.push('-')?;
    }
    Ok(text)
}

/// The marks of a copy that is made once a target of a ballot is marked, and those of the deck
/// once that mark is taken away again.
pub fn set(alloc: Global, rest: &str) -> Result<String> {
    let (style, rest) = split_word(rest);
    let (deck, rest) = split_word(rest);
    let (ballot, target) = split_word(rest);
    let mut deck = deck_of(alloc, &style_of(alloc, style)?, deck)?;
    let j = number(ballot)?;
    let t = number(target)?;
    ensure!(j < deck.ballots() && t < deck.targets(), "no such mark");
    deck.set(j, t, true);
    let copy = deck.copy(alloc)?;
    deck.set(j, t, false);
    let with_it = marks_text(alloc, &copy)?;
    let without = marks_text(alloc, &deck)?;
    Ok(format!(in alloc; "with it {with_it}, without it {without}")?)
}

/// The plain deck of a style and rules, or its number of ballots where that is too high.
pub fn plain(alloc: Global, rest: &str) -> Result<String> {
    let (style, rules) = split_word(rest);
    let shape = style_of(alloc, style)?;
    let rules = rules_of(rules)?;
    let size = plain_size(&shape, &rules);
    if size > u32::from(MOST_BALLOTS) {
        return Ok(format!(in alloc; "{size} ballots are too many")?);
    }
    let deck = Deck::plain(alloc, &shape, &rules)?;
    let ballots = deck.ballots();
    let text = deck_text(alloc, &deck)?;
    Ok(format!(in alloc; "{ballots} ballots of {size}, {text}")?)
}

/// The deck with its ballots in order.
pub fn sort(alloc: Global, rest: &str) -> Result<String> {
    let (style, deck) = split_word(rest);
    let mut deck = deck_of(alloc, &style_of(alloc, style)?, deck)?;
    deck.sort_rows(alloc)?;
    Ok(deck_text(alloc, &deck)?)
}

/// The deck as it is read with sources.
pub fn read(alloc: Global, rest: &str) -> Result<String> {
    let (style, rest) = split_word(rest);
    let (deck, sources) = split_word(rest);
    let deck = deck_of(alloc, &style_of(alloc, style)?, deck)?;
    let sources = numbers_of(alloc, sources)?;
    ensure!(
        sources.len() <= usize::from(MOST_TARGETS),
        "too many sources"
    );
    let targets = deck.targets();
    ensure!(
        sources.iter().all(|source| *source < targets),
        "a source is no target"
    );
    Ok(deck_text(alloc, &deck.read(alloc, &sources)?)?)
}
