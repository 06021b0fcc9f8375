ghost use Rattle.std.specs.Prelude.{◌≡◌, ◌≤◌, ◌<◌, ◌+◌, ◌/◌, ◌++◌, OnOk, OnErr, length, take, List};
ghost use Rattle.lat_base.specs.declared.limits.TheConstants.{MOST_TARGETS};
ghost use Rattle.lat_ballots.specs.Deck.{ballot_at};
ghost use Rattle.cert_fields.specs.Rows.{worth, byte_text, row_text, rows_text, row_size};

use lat_ballots::Deck;
use std::alloc::{AllocError, Global};

// What a mark counts in the lowest bit.
fn worth(deck: &Deck, j: u16, t: u16) -> u8
    requires { j < length deck.now.ballots }
    ensures value { result ≡ worth (ballot_at deck.now j) t }
    ensures few { result ≤ 1 }
{
    if t < deck.targets() && deck.is_marked(j, t) {
        1
    } else {
        0
    }
}

/// The byte of eight marks of a ballot from target `t` on.
pub(crate) fn byte_of(deck: &Deck, j: u16, t: u16) -> u8
    requires ballot { j < length deck.now.ballots }
    requires target { t ≤ 1024 }
    ensures { result ≡ byte_text (ballot_at deck.now j) t }
{
    worth(deck, j, t) * 128
        + worth(deck, j, t + 1) * 64
        + worth(deck, j, t + 2) * 32
        + worth(deck, j, t + 3) * 16
        + worth(deck, j, t + 4) * 8
        + worth(deck, j, t + 5) * 4
        + worth(deck, j, t + 6) * 2
        + worth(deck, j, t + 7)
}

/// How many bytes the marks of so many targets take.
pub(crate) fn row_size(targets: u16) -> u16
    requires { targets ≤ MOST_TARGETS }
    ensures { result ≡ row_size targets }
{
    (targets + 7) / 8
}

/// Appends a ballot's row; after want of memory perhaps only its first bytes.
pub fn put_row(out: &mut Vec<u8>, deck: &Deck, j: u16) -> Result<(), AllocError>
    requires { j < length deck.now.ballots }
    ensures ok { OnOk result (out.new.items ≡ out.old.items ++ row_text (ballot_at deck.now j)) }
    ensures kept { take (length out.old.items) out.new.items ≡ out.old.items }
{
    for i in 0..row_size(deck.targets()) {
        out.push(byte_of(deck, j, 8 * i))?;
    }
    Ok(())
}

fn append_rows(out: &mut Vec<u8>, deck: &Deck) -> Result<(), AllocError>
    ensures ok { OnOk result (out.new.items ≡ out.old.items ++ rows_text deck.now.ballots) }
    ensures kept { take (length out.old.items) out.new.items ≡ out.old.items }
{
    for j in 0..deck.ballots() {
        put_row(out, deck, j)?;
    }
    Ok(())
}

/// Appends the rows of a deck. After want of memory nothing is appended.
pub fn put_rows(_alloc: Global, out: &mut Vec<u8>, deck: &Deck) -> Result<(), AllocError>
    ensures ok { OnOk result (out.new.items ≡ out.old.items ++ rows_text deck.now.ballots) }
    ensures err { OnErr result (out.new.items ≡ out.old.items) }
{
    let before = out.len();
    let done = append_rows(out, deck);
    if done.is_err() {
        out.truncate(before);
    }
    done
}
