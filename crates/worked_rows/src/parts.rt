use crate::deck::deck_text;
use crate::style::style_text;
use crate::words::numbers_of;
use anyhow::Result;
use projection::{part, restrict};
use row_words::{deck_of, split_word, style_of};
use std::alloc::Global;

/// The style of some contests of another, or the first fault of their list.
pub fn part_of(alloc: Global, rest: &str) -> Result<String> {
    let (style, contests) = split_word(rest);
    let shape = style_of(alloc, style)?;
    let contests = numbers_of(alloc, contests)?;
    match part(alloc, &shape, &contests) {
        Ok(part_shape) => {
            let text = style_text(alloc, &part_shape)?;
            let targets = part_shape.targets();
            Ok(format!(in alloc; "{text} of {targets} targets")?)
        }
        Err(fault) => Ok(format!(in alloc; "{fault}")?),
    }
}

/// A deck cut to the targets of some contests, or the first fault of their list.
pub fn cut(alloc: Global, rest: &str) -> Result<String> {
    let (style, rest) = split_word(rest);
    let (deck, contests) = split_word(rest);
    let shape = style_of(alloc, style)?;
    let deck = deck_of(alloc, &shape, deck)?;
    let contests = numbers_of(alloc, contests)?;
    if let Err(fault) = part(alloc, &shape, &contests) {
        return Ok(format!(in alloc; "{fault}")?);
    }
    Ok(deck_text(alloc, &restrict(alloc, &shape, &deck, &contests)?)?)
}
