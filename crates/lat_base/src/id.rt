ghost use Rattle.std.specs.Prelude.{◌≡◌, ◌↔◌, IfOk, OnOk, Err, IsTrue, false};
ghost use Rattle.std.specs.List.{list_all};
ghost use Rattle.lat_base.specs.Id.{is_id, is_id_byte};

use crate::MOST_ID_BYTES;
use std::alloc::{AllocError, Global};
use std::marker::Model;
use thiserror::Error;

/// Why bytes are no id.
#[derive(Clone, Copy, Debug, PartialEq, Eq, Error)]
pub enum IdFault {
    /// The bytes aren't 1 to 64 ASCII letters, digits, dots, underscores and dashes.
    #[error("an id has 1 to 64 ASCII letters, digits, '.', '_' and '-'")]
    Bad,
    #[error("out of memory")]
    Memory,
}

/// The id of a style, a contest or a target: 1 to 64 ASCII letters, digits, dots, underscores and
/// dashes.
#[derive(Debug, Drop)]
pub struct Id {
    bytes: Vec<u8>,
}

impl Model for Id {
    ghost use Rattle.std.specs.Prelude.{ℕ, List, IsTrue};

    ghost Value = { List ℕ };

    ghost use Rattle.lat_base.specs.Id.{is_id};

    ghost view = { λ a. a.bytes.items };

    ghost invariant = { λ a. IsTrue (is_id a.bytes.items) };
}

fn is_id_byte(byte: u8) -> bool
    ensures { result ≡ is_id_byte byte }
{
    byte.is_ascii_alphanumeric() || byte == b'.' || byte == b'_' || byte == b'-'
}

fn are_id_bytes(text: &[u8]) -> bool
    ensures { result ≡ list_all is_id_byte text.now }
{
    text.iter().all(|b| is_id_byte(*b))
}

/// Whether these bytes are an id. It takes no memory.
pub fn is_id(text: &[u8]) -> bool
    ensures { result ≡ is_id text.now }
{
    !text.is_empty() && text.len() <= usize::from(MOST_ID_BYTES) && are_id_bytes(text)
}

impl Id {
    /// The id of these bytes; `Bad` exactly where they are no id.
    pub fn new(alloc: Global, text: &[u8]) -> Result<Id, IdFault>
        ensures ok { IfOk result (λ id. id ≡ text.now) }
        ensures sound { OnOk result (IsTrue (is_id text.now)) }
        ensures bad { (result ≡ Err IdFault.Bad) ↔ (is_id text.now ≡ false) }
    {
        if !is_id(text) {
            return Err(IdFault::Bad);
        }
        match Vec::from_slice(alloc, text) {
            Ok(bytes) => Ok(Id { bytes }),
            Err(_) => Err(IdFault::Memory),
        }
    }

    /// An equal id. The only error is want of memory.
    pub fn copy(&self, alloc: Global) -> Result<Id, AllocError>
        ensures { IfOk result (λ id. id ≡ self.now) }
    {
        let bytes = Vec::from_slice(alloc, self.bytes.as_slice())?;
        Ok(Id { bytes })
    }

    /// The bytes of the id.
    pub fn as_bytes(&self) -> &[u8]
        ensures bytes { result.now ≡ self.now }
        ensures id { IsTrue (is_id self.now) }
    {
        self.bytes.as_slice()
    }
}
