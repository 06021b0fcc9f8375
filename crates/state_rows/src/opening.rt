use anyhow::{Result, ensure};
use deck_state::Partial;
use lat_base::MOST_BALLOTS;
use row_words::{number, rules_of, style_of};
use std::alloc::Global;

/// The partial deck of so many ballots, of which nothing is decided.
pub fn open(alloc: Global, style: &str, rules: &str, ballots: &str) -> Result<Partial> {
    let shape = style_of(alloc, style)?;
    let rules = rules_of(rules)?;
    let k = number(ballots)?;
    ensure!(k <= MOST_BALLOTS, "too many ballots");
    Ok(Partial::open(alloc, &shape, &rules, k)?)
}
