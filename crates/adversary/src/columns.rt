ghost use Rattle.std.specs.Prelude.{◌≡◌, ◌<◌, ◌≤◌, length, IfOk};

use lat_ballots::Deck;
use std::alloc::{AllocError, Global};

// Whether ballot `j` marks every target.
fn is_full(deck: &Deck, j: u16) -> bool
    requires { j < length deck.now.ballots }
{
    for t in 0..deck.targets() {
        if !deck.is_marked(j, t) {
            return false;
        }
    }
    true
}

// Counts one more for each target that ballot `j` marks.
fn add_marks(deck: &Deck, j: u16, columns: &mut [u32])
    requires ballot { j < length deck.now.ballots }
    requires long { length columns.old ≡ deck.now.targets }
    ensures { length columns.new ≡ length columns.old }
{
    for t in 0..deck.targets() {
        if deck.is_marked(j, t) {
            columns[t as usize] = columns[t as usize].saturating_add(1);
        }
    }
}

/// For each target, how many ballots mark it and not every target.
pub fn count_columns(alloc: Global, deck: &Deck) -> Result<Vec<u32>, AllocError>
    ensures { IfOk result (λ columns. length columns.items ≡ deck.now.targets) }
{
    let mut columns = vec![in alloc; 0u32; usize::from(deck.targets())]?;
    for j in 0..deck.ballots() {
        if !is_full(deck, j) {
            add_marks(deck, j, &mut columns);
        }
    }
    Ok(columns)
}
