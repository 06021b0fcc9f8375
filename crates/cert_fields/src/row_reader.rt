ghost use Rattle.std.specs.Prelude.{◌≡◌, ◌≤◌, ◌<◌, ◌*◌, ◌/◌, ◌↔◌, ℕ, length, get_or, take, Option};
ghost use Rattle.std.specs.Prelude.{Result, Ok, Err, IfOk, OnErr, IsTrue, MatchResult};
ghost use Rattle.std.specs.Prelude.{slice_set, List, Bool};
ghost use Rattle.lat_base.specs.Shape.{target_count};
ghost use Rattle.lat_base.specs.declared.limits.TheConstants.{MOST_BALLOTS};
ghost use Rattle.lat_ballots.specs.Deck.{Ballots, ballot_at};
ghost use Rattle.cert_fields.specs.Reading.{Gives};
ghost use Rattle.cert_fields.specs.Rows.{row_text, rows_text, row_size, is_bit, marks_of, row_at};
ghost use Rattle.cert_fields.specs.Rows.{rows_at, IsDeckOf, deck_text};
ghost use Rattle.cert_fields.specs.Spelling.{Takes};

use crate::CertFault;
use crate::row_writer::{byte_of, row_size};
use lat_ballots::Deck;
use lat_base::Shape;
use std::alloc::Global;

fn is_bit(bytes: &[u8], t: u16) -> bool
    requires { t / 8 < length bytes.now }
    ensures { result ≡ is_bit bytes.now t }
{
    let byte = bytes[(t / 8) as usize];
    (byte >> (7 - t % 8)) & 1 == 1
}

// Sets the marks of ballot `j` to the bits of these bytes.
fn set_marks(deck: &mut Deck, j: u16, bytes: &[u8])
    requires ballot { j < length deck.old.ballots }
    requires size { length bytes.now ≡ row_size deck.old.targets }
    ensures { deck.new ≡ record deck.old {
      ballots = slice_set deck.old.ballots j (marks_of deck.old.targets bytes.now);
    } }
{
    for t in 0..deck.targets() {
        deck.set(j, t, is_bit(bytes, t));
    }
}

// Whether these bytes are the row of ballot `j`.
fn is_row(deck: &Deck, j: u16, bytes: &[u8]) -> bool
    requires ballot { j < length deck.now.ballots }
    requires size { length bytes.now ≡ row_size deck.now.targets }
    ensures { IsTrue result ↔ (row_text (ballot_at deck.now j) ≡ bytes.now) }
{
    let size = row_size(deck.targets());
    for i in 0..size {
        if byte_of(deck, j, 8 * i) != bytes[i as usize] {
            return false;
        }
    }
    true
}

/// Reads the row of ballot `j`, a bit for each target, into the deck, and gives the bytes behind it.
/// The other ballots stay as they are, also where the bytes are refused. The only error is
/// `NotACertificate`: the bytes end before the row does, or bits past the last target are set.
#[tactic(auto, unfolding(crate::specs::Rows::row_at))]
pub fn row_of<'a>(deck: &mut Deck, j: u16, bytes: &'a [u8]) -> Result<&'a [u8], CertFault>
    requires { j < length deck.old.ballots }
    ensures read { Gives (λ rest. (ballot_at deck.new j, rest.now)) result
        (row_at deck.old.targets bytes.now) }
    ensures deck { deck.new ≡ record deck.old {
      ballots = slice_set deck.old.ballots j (ballot_at deck.new j);
    } }
{
    let size = row_size(deck.targets()) as usize;
    if bytes.len() < size {
        return Err(CertFault::NotACertificate);
    }
    let (row, rest) = bytes.split_at(size);
    set_marks(deck, j, row);
    if !is_row(deck, j, row) {
        return Err(CertFault::NotACertificate);
    }
    Ok(rest)
}

/// The deck of `k` rows at the front, and the bytes behind them.
pub fn rows_of<'a>(
    alloc: Global,
    bytes: &'a [u8],
    shape: &Shape,
    k: u16,
) -> Result<(Deck, &'a [u8]), CertFault>
    requires { k ≤ MOST_BALLOTS }
    ensures read { Gives (λ x. (x.0.ballots, x.1.now)) result
        (rows_at (target_count shape.now) k bytes.now) }
    ensures targets { IfOk result (λ x. x.0.targets ≡ target_count shape.now) }
{
    let mut deck = Deck::blank(alloc, shape, k)?;
    let mut rest = bytes;
    for j in 0..k {
        rest = row_of(&mut deck, j, rest)?;
    }
    Ok((deck, rest))
}

/// The deck whose `k` rows the bytes begin with, and the length of these rows.
pub fn take_rows(
    alloc: Global,
    bytes: &[u8],
    shape: &Shape,
    k: u16,
) -> Result<(Deck, usize), CertFault>
    requires { k ≤ MOST_BALLOTS }
    ensures { Takes (IsDeckOf (target_count shape.now) k) deck_text result bytes.now }
{
    match rows_of(alloc, bytes, shape, k) {
        Ok((deck, rest)) => Ok((deck, bytes.len() - rest.len())),
        Err(fault) => Err(fault),
    }
}
