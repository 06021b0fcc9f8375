ghost use Rattle.std.specs.Prelude.{◌≡◌, IfOk};
ghost use Rattle.lat_base.specs.Shape.{target_count};

use anyhow::{Result, ensure};
use lat_ballots::Deck;
use lat_base::{MOST_BALLOTS, Shape};
use std::alloc::Global;

// Marks the targets of ballot j at which a row has a 1.
fn mark_row(deck: &mut Deck, j: u16, row: &str) {
    let mut t: u16 = 0;
    for digit in row.chars() {
        if digit == '1' && j < deck.ballots() && t < deck.targets() {
            deck.set(j, t, true);
        }
        t = t.saturating_add(1);
    }
}

/// The deck of a word over the targets of a style: its ballots with commas between them, each a
/// digit for a target, 1 where it is marked; the targets behind the last digit aren't. No ballot
/// for `-`. The error is too many ballots, or want of memory.
pub fn deck_of(alloc: Global, shape: &Shape, word: &str) -> Result<Deck>
    ensures { IfOk result (λ deck. deck.targets ≡ target_count shape.now) }
{
    let mut count: u16 = 0;
    if word != "-" {
        for _ in word.split(',') {
            count = count.saturating_add(1);
        }
    }
    ensure!(count <= MOST_BALLOTS, "too many ballots");
    let mut deck = Deck::blank(alloc, shape, count)?;
    let mut j: u16 = 0;
    for row in word.split(',') {
        mark_row(&mut deck, j, row);
        j = j.saturating_add(1);
    }
    ensure!(
        deck.targets() == shape.targets(),
        "the deck has other targets"
    );
    Ok(deck)
}
