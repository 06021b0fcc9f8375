ghost use Rattle.std.specs.Prelude.{◌≡◌, ◌≤◌, ◌<◌, ◌+◌, ◌^◌, ◌⊎◌, ℕ, vec_len, IfOk, IsErrOf};
ghost use Rattle.lat_shelf.specs.Shelf.{Rose, IsMissing};
ghost use Rattle.lat_shelf.specs.Read.{IsFile, IsLonger, TookFile};

use crate::{Failed, Pieces, Shelf};
use std::alloc::{AllocError, Global};
use thiserror::Error;

// How many bytes are taken at once.
const PIECE: usize = 4096;

/// Why a file was not read whole.
#[derive(Clone, Copy, Debug, PartialEq, Eq, Error)]
pub enum ReadFail {
    /// The outside failed, or the file isn't there.
    #[error("the file can't be read")]
    Fault,
    /// The file has more bytes than the limit; the number of those that were taken.
    #[error("the file is too long: {0} bytes or more")]
    TooLong(u32),
    #[error("out of memory")]
    Memory,
}

/// Reads a file of at most `limit` bytes to its end, in pieces of at most 4,096 bytes that `pieces`
/// takes in as they come. No file changes.
///
/// `Fault` comes only where a fault rose, or where files are told and the name is missing;
/// `TooLong` where one byte more than the limit was taken. After an error nothing is known of
/// `pieces`.
pub fn read_pieces<H: Shelf, P: Pieces>(
    shelf: &mut H,
    name: &str,
    limit: u32,
    pieces: &mut P,
) -> Result<(), ReadFail>
    requires { limit + 1 < 2 ^ 32 }

    ensures whole { IfOk result (λ _. TookFile (H.files shelf.old) name.now limit
        (P.stands pieces.old) (P.stands pieces.new)) }
    ensures fault { IsErrOf result ReadFail.Fault
        → Rose (H.faults shelf.old) (H.faults shelf.new) ⊎ IsMissing (H.files shelf.old) name.now }
    ensures number { (n : ℕ) → IsErrOf result (ReadFail.TooLong n) → n ≡ limit + 1 }
    ensures longer { (n : ℕ) → IsErrOf result (ReadFail.TooLong n) →
        IsLonger (H.files shelf.old) name.now limit }

    ensures files { H.files shelf.new ≡ H.files shelf.old }
    ensures faults { H.faults shelf.old ≤ H.faults shelf.new }
{
    match shelf.open(name) {
        Ok(()) => {}
        Err(Failed) => return Err(ReadFail::Fault),
    }
    let mut taken: usize = 0;
    let mut buf = [0u8; PIECE];
    // Each turn but the last takes at least one byte, so there are at most `limit + 2`.
    while taken <= limit as usize {
        let wanted = (limit as usize + 1 - taken).min(PIECE);
        match shelf.take(&mut buf[..wanted]) {
            Ok(0) => return Ok(()),
            Ok(n) => match pieces.take_in(&buf[..n]) {
                Ok(()) => taken += n,
                Err(AllocError) => return Err(ReadFail::Memory),
            },
            Err(Failed) => return Err(ReadFail::Fault),
        }
    }
    Err(ReadFail::TooLong(limit + 1))
}

/// Reads a file whole, of at most `limit` bytes. No file changes.
///
/// `Fault` comes only where a fault rose, or where files are told and the name is missing;
/// `TooLong` where one byte more than the limit was taken.
pub fn read_whole<H: Shelf>(
    alloc: Global,
    shelf: &mut H,
    name: &str,
    limit: u32,
) -> Result<Vec<u8>, ReadFail>
    requires { limit + 1 < 2 ^ 32 }

    ensures whole { IfOk result (λ bytes. IsFile (H.files shelf.old) name.now bytes.items) }
    ensures within { IfOk result (λ bytes. vec_len bytes ≤ limit) }
    ensures fault { IsErrOf result ReadFail.Fault
        → Rose (H.faults shelf.old) (H.faults shelf.new) ⊎ IsMissing (H.files shelf.old) name.now }
    ensures number { (n : ℕ) → IsErrOf result (ReadFail.TooLong n) → n ≡ limit + 1 }
    ensures longer { (n : ℕ) → IsErrOf result (ReadFail.TooLong n) →
        IsLonger (H.files shelf.old) name.now limit }

    ensures files { H.files shelf.new ≡ H.files shelf.old }
    ensures faults { H.faults shelf.old ≤ H.faults shelf.new }
{
    let mut bytes = Vec::new(alloc);
    read_pieces(shelf, name, limit, &mut bytes)?;
    Ok(bytes)
}
