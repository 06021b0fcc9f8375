ghost use Rattle.std.specs.Prelude.{◌≡◌, ℕ, List};
ghost use Rattle.lat_top.specs.CertPieces.{EndSays, FedFile, ReadsHead, StandsOrRefused};
ghost use Rattle.lat_top.specs.Script.{moment};

use crate::reading::CERT_LIMIT;
use crate::refusal::Refusal;
use cert_stream::{Head, StreamCheck};
use cert_types::{CertFault, Checked};
use lat_shelf::{Pieces, ReadFail, Shelf, read_pieces};
use std::alloc::{AllocError, Global};

// The check of a file that takes its pieces in. Where they begin no certificate it passes over the
// others: a file is read to its end before it is judged.
#[derive(Drop)]
struct CertPieces {
    check: StreamCheck,
}

impl Pieces for CertPieces {
    ghost stands = { λ pieces bytes. StandsOrRefused pieces.check bytes };

    fn take_in(&mut self, piece: &[u8]) -> Result<(), AllocError> {
        match self.check.feed(piece) {
            Ok(()) => Ok(()),
            Err(CertFault::NotACertificate) => Ok(()),
            Err(CertFault::Memory) => Err(AllocError),
        }
    }
}

// The check of a file's bytes, of which all were taken in.
fn feed_file<H: Shelf>(alloc: Global, shelf: &mut H, name: &str) -> Result<StreamCheck, Refusal>
    ensures { let seen = moment H.files H.faults in
        FedFile name.now (seen shelf.old) (seen shelf.new) result }
{
    let mut pieces = CertPieces {
        check: StreamCheck::new(alloc),
    };
    match read_pieces(shelf, name, CERT_LIMIT, &mut pieces) {
        Ok(()) => Ok(pieces.check),
        Err(ReadFail::Fault) => Err(Refusal::ReadFault),
        Err(ReadFail::TooLong(n)) => Err(Refusal::TooLong(n)),
        Err(ReadFail::Memory) => Err(Refusal::Memory),
    }
}

// What a check comes to where no byte is left.
fn ended(check: StreamCheck) -> Result<Head, Refusal>
    ensures { (bytes : List ℕ) → StandsOrRefused check bytes → EndSays bytes result }
{
    match check.end() {
        Ok((head, Checked::Yes(_))) => Ok(head),
        Ok((_, Checked::No(part, i))) => Err(Refusal::CertFalse(part, i)),
        Err(CertFault::NotACertificate) => Err(Refusal::NotACertificate),
        Err(CertFault::Memory) => Err(Refusal::Memory),
    }
}

/// The head of the certificate that a file spells, where the certificate holds. The file is taken
/// in piece by piece, and neither it nor a tree of it is ever held.
pub fn read_held_head<H: Shelf>(alloc: Global, shelf: &mut H, name: &str) -> Result<Head, Refusal>
    ensures { let seen = moment H.files H.faults in
        ReadsHead name.now (seen shelf.old) (seen shelf.new) result }
{
    let check = feed_file(alloc, shelf, name)?;
    ended(check)
}
