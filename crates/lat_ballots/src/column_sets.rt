ghost use Rattle.std.specs.Prelude.{◌≡◌, ◌<◌, ◌≤◌, ◌*◌, ◌+◌, ◌^◌, cond, length, map, IfOk};
ghost use Rattle.std.specs.Simd.Lanes.{mask_l};
ghost use Rattle.lat_ballots.specs.Columns.{page, has_mark, IsSet, AreColumns};

use crate::Deck;
use std::alloc::{AllocError, Global};

/// A word with one bit more, in the place of least worth.
pub fn push_bit(word: u64, bit: bool) -> u64
    requires { word < 2 ^ 63 }
    ensures { result ≡ word * 2 + cond bit 1 0 }
{
    if bit { word * 2 + 1 } else { word * 2 }
}

// Word `i` of the set of the ballots that mark target `t`.
#[tactic(auto, using(crate::proofs::Pages::word_small))]
fn column_word(deck: &Deck, t: u16, i: u16) -> u64
    requires word { i < 16 }
    requires target { t < deck.now.targets }
    ensures { result ≡ mask_l (map (has_mark t) (page deck.now.ballots i)) }
{
    let first = i * 64;
    let last = deck.ballots().min(first + 64);
    let mut word: u64 = 0;
    for r in 0..last.saturating_sub(first) {
        word = push_bit(word, deck.is_marked(last - 1 - r, t));
    }
    word
}

// The set of the ballots that mark target `t`.
fn column(deck: &Deck, t: u16) -> [u64; 16]
    requires { t < deck.now.targets }
    ensures { IsSet 16 result (has_mark t) deck.now.ballots }
{
    let mut set = [0; 16];
    for i in 0..16 {
        set[i as usize] = column_word(deck, t, i);
    }
    set
}

/// The columns of a deck: for each target the set of the ballots that mark it, ballot j as bit
/// j % 64 of word j / 64. The only error is want of memory.
#[tactic(auto, using(crate::proofs::AllColumns::columns_more, crate::proofs::AllColumns::no_columns))]
pub fn columns(alloc: Global, deck: &Deck) -> Result<Vec<[u64; 16]>, AllocError>
    ensures { IfOk result (λ columns. AreColumns deck.now.targets columns.items deck.now.ballots) }
{
    let mut columns = Vec::with_capacity(alloc, usize::from(deck.targets()))?;
    for t in 0..deck.targets() {
        columns.push(column(deck, t))?;
    }
    Ok(columns)
}
