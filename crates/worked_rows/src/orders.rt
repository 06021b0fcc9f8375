use crate::deck::deck_text;
use anyhow::Result;
use row_words::{deck_of, split_word, style_of};
use std::alloc::Global;
use symmetry::{canonical, is_canonical};

/// Whether a deck is canonical.
pub fn in_order(alloc: Global, rest: &str) -> Result<String> {
    let (style, deck) = split_word(rest);
    let shape = style_of(alloc, style)?;
    let deck = deck_of(alloc, &shape, deck)?;
    let answer = if is_canonical(&shape, &deck) {
        "yes"
    } else {
        "no"
    };
    Ok(String::from_str(alloc, answer)?)
}

/// The canonical copy of a deck.
pub fn canonical_copy(alloc: Global, rest: &str) -> Result<String> {
    let (style, deck) = split_word(rest);
    let shape = style_of(alloc, style)?;
    let deck = deck_of(alloc, &shape, deck)?;
    let copy = canonical(alloc, &shape, deck)?;
    Ok(deck_text(alloc, &copy)?)
}
