ghost use Rattle.std.specs.Prelude.{◌≡◌};
ghost use Rattle.lat_top.specs.CertFile.{IsCertOf, cert_in_file};
ghost use Rattle.lat_top.specs.Judged.{Found};
ghost use Rattle.lat_top.specs.Script.{Reads, moment};

use crate::reading::{CERT_LIMIT, read_file};
use crate::refusal::Refusal;
use cert_format::read_cert;
use cert_types::{Cert, CertFault};
use lat_shelf::Shelf;
use std::alloc::Global;

// The certificate that bytes spell.
fn find_cert(alloc: Global, bytes: &[u8]) -> Result<Cert, Refusal>
    ensures { Found result (IsCertOf bytes.now) }
{
    match read_cert(alloc, bytes) {
        Ok(cert) => Ok(cert),
        Err(CertFault::NotACertificate) => Err(Refusal::NotACertificate),
        Err(CertFault::Memory) => Err(Refusal::Memory),
    }
}

/// The certificate that a file spells.
pub fn read_cert_file<H: Shelf>(alloc: Global, shelf: &mut H, name: &str) -> Result<Cert, Refusal>
    ensures { let seen = moment H.files H.faults in
        Reads (cert_in_file name.now) (seen shelf.old) (seen shelf.new) result }
{
    let bytes = read_file(alloc, shelf, name, CERT_LIMIT)?;
    find_cert(alloc, &bytes)
}
