ghost use Rattle.std.specs.Prelude.{◌≡◌, ◌++◌, ◌∷◌, [], OnOk, OnErr};
ghost use Rattle.cert_fields.specs.Spelling.{id_text, IsText, Takes};
ghost use Rattle.cert_fields.specs.Reading.{Gives, id_at};

use crate::CertFault;
use crate::numbers::u8_of;
use lat_base::{Id, IdFault};
use std::alloc::{AllocError, Global};

/// The id at the front, and the bytes behind it.
pub fn text_of(alloc: Global, bytes: &[u8]) -> Result<(Id, &[u8]), CertFault>
    ensures { Gives (λ x. (x.0, x.1.now)) result (id_at bytes.now) }
{
    let (len, rest) = u8_of(bytes)?;
    let len = len as usize;
    if rest.len() < len {
        return Err(CertFault::NotACertificate);
    }
    let (text, rest) = rest.split_at(len);
    match Id::new(alloc, text) {
        Ok(id) => Ok((id, rest)),
        Err(IdFault::Bad) => Err(CertFault::NotACertificate),
        Err(IdFault::Memory) => Err(CertFault::Memory),
    }
}

/// The id whose spelling the bytes begin with, and the length of that spelling.
pub fn take_text(alloc: Global, bytes: &[u8]) -> Result<(Id, usize), CertFault>
    ensures { Takes IsText id_text result bytes.now }
{
    match text_of(alloc, bytes) {
        Ok((id, rest)) => Ok((id, bytes.len() - rest.len())),
        Err(fault) => Err(fault),
    }
}

/// Appends an id: its length, and its bytes. After want of memory nothing is appended.
pub fn put_text(out: &mut Vec<u8>, id: &Id) -> Result<(), AllocError>
    ensures ok { OnOk result (out.new.items ≡ out.old.items ++ id_text id.now) }
    ensures err { OnErr result (out.new.items ≡ out.old.items) }
    ensures spelled { IsText id.now }
{
    let text = id.as_bytes();
    out.reserve(text.len() + 1)?;
    out.push(text.len() as u8)?;
    out.extend_from_slice(text)
}
