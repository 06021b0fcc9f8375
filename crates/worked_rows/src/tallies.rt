use crate::exchanges::sources_of;
use anyhow::{Result, ensure};
use lat_rules::obeys;
use lat_tabulate::{lost, report, total, total_under};
use row_words::{deck_of, number, rules_of, split_word, style_of};
use std::alloc::{AllocError, Global};

// Totals with commas between them.
fn totals_text(alloc: Global, totals: &[u32]) -> Result<String, AllocError> {
    let mut text = String::new(alloc);
    for votes in totals {
        let mark = if text.is_empty() { "" } else { "," };
        write!(text, "{mark}{votes}")?;
    }
    Ok(text)
}

/// The totals of all targets under a misassignment.
pub fn report_under(alloc: Global, rest: &str) -> Result<String> {
    let (style, rest) = split_word(rest);
    let (deck, sources) = split_word(rest);
    let shape = style_of(alloc, style)?;
    let deck = deck_of(alloc, &shape, deck)?;
    let s = sources_of(alloc, &shape, sources)?;
    Ok(totals_text(alloc, &report(alloc, &shape, &deck, &s)?)?)
}

/// The total of each target.
pub fn totals(alloc: Global, rest: &str) -> Result<String> {
    let (style, deck) = split_word(rest);
    let shape = style_of(alloc, style)?;
    let deck = deck_of(alloc, &shape, deck)?;
    let mut totals = Vec::new(alloc);
    for u in 0..shape.targets() {
        totals.push(total(&shape, &deck, u))?;
    }
    Ok(totals_text(alloc, &totals)?)
}

/// The total of one target under a misassignment.
pub fn under(alloc: Global, rest: &str) -> Result<String> {
    let (style, rest) = split_word(rest);
    let (deck, rest) = split_word(rest);
    let (sources, target) = split_word(rest);
    let shape = style_of(alloc, style)?;
    let deck = deck_of(alloc, &shape, deck)?;
    let s = sources_of(alloc, &shape, sources)?;
    let u = number(target)?;
    ensure!(u < shape.targets(), "no such target");
    Ok(total_under(&shape, &deck, &s, u).to_string(alloc)?)
}

/// The number of marks that give no vote.
pub fn lost_marks(alloc: Global, rest: &str) -> Result<String> {
    let (style, deck) = split_word(rest);
    let shape = style_of(alloc, style)?;
    let deck = deck_of(alloc, &shape, deck)?;
    Ok(lost(&shape, &deck).to_string(alloc)?)
}

/// Whether a deck obeys rules, or the first that it breaks.
pub fn obeyed(alloc: Global, rest: &str) -> Result<String> {
    let (style, rest) = split_word(rest);
    let (rules, deck) = split_word(rest);
    let shape = style_of(alloc, style)?;
    let rules = rules_of(rules)?;
    let deck = deck_of(alloc, &shape, deck)?;
    match obeys(&shape, &rules, &deck) {
        Ok(()) => Ok(String::from_str(alloc, "yes")?),
        Err(broken) => Ok(format!(in alloc; "{broken}")?),
    }
}
