ghost use Rattle.std.specs.Prelude.{◌≡◌, ◌++◌, ℕ, List, Option, OnOk, OnErr};
ghost use Rattle.cert_fields.specs.Reading.{Gives};
ghost use Rattle.cert_fields.specs.Exact.{Exact};

use crate::CertFault;
use std::alloc::{AllocError, Global};

/// A type whose values are spelled as bytes.
pub trait Spelt: Drop + Sized {
    /// The one spelling of a value.
    ghost text: { Self → List ℕ };

    /// Which values are spelled.
    ghost fits: { Self → Type 0 };

    /// How a value is read.
    ghost read_at: { List ℕ → Option (Self × List ℕ) };

    /// The value at the front, and the bytes behind it.
    fn read(alloc: Global, bytes: &[u8]) -> Result<(Self, &[u8]), CertFault>
        ensures { Gives (λ x. (x.0, x.1.now)) result (read_at bytes.now) };

    /// Appends the spelling. After want of memory nothing is appended.
    fn put(&self, out: &mut Vec<u8>) -> Result<(), AllocError>
        ensures ok { OnOk result (out.new.items ≡ out.old.items ++ text self.now) }
        ensures err { OnErr result (out.new.items ≡ out.old.items) }
        ensures spelled { fits self.now };

    /// A law: what is read is spelled so, and what is spelled so is read.
    fn exact()
        ensures { Exact read_at fits text };
}
