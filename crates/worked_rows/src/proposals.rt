use anyhow::{Result, ensure};
use deck_builder::propose;
use lat_base::MOST_BALLOTS;
use row_words::{number, rules_of, split_word, style_of};
use std::alloc::Global;

/// How many ballots the deck of a pattern has, or none where there is no such deck.
pub fn proposed(alloc: Global, rest: &str) -> Result<String> {
    let (style, rest) = split_word(rest);
    let (rules, rest) = split_word(rest);
    let (ballots, turn) = split_word(rest);
    let shape = style_of(alloc, style)?;
    let rules = rules_of(rules)?;
    let k = number(ballots)?;
    ensure!(k <= MOST_BALLOTS, "too many ballots");
    match propose(alloc, &shape, &rules, k, u32::from(number(turn)?))? {
        Some(deck) => {
            let found = deck.ballots();
            Ok(format!(in alloc; "{found} ballots")?)
        }
        None => Ok(String::from_str(alloc, "none")?),
    }
}
