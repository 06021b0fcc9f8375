ghost use Rattle.std.specs.Prelude.{◌<◌, length};

use lat_ballots::Deck;
use std::alloc::{AllocError, Global};

// Adds the digits of ballot j.
fn push_row(text: &mut String, deck: &Deck, j: u16) -> Result<(), AllocError>
    requires { j < length deck.now.ballots }
{
    for t in 0..deck.targets() {
        text.push(if deck.is_marked(j, t) { '1' } else { '0' })?;
    }
    Ok(())
}

/// A deck as a word.
pub fn deck_text(alloc: Global, deck: &Deck) -> Result<String, AllocError> {
    let mut text = String::new(alloc);
    for j in 0..deck.ballots() {
        if j > 0 {
            text.push(',')?;
        }
        push_row(&mut text, deck, j)?;
    }
    if text.is_empty() {
        text.push('-')?;
    }
    Ok(text)
}
