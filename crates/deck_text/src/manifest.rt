ghost use Rattle.std.specs.Prelude.{◌≡◌, IfOk};
ghost use Rattle.deck_text.specs.ManifestText.{manifest_line};

use sha2::{Digest, Sha256};
use std::alloc::{AllocError, Global};

/// The line of a file in a manifest: 64 lower case hexadecimal digits of the SHA-256 of its bytes
/// (FIPS 180-4), two spaces, its name and a line feed. `sha256sum -c` reads it so where the name
/// has no backslash, line feed or carriage return.
///
/// The one error is want of memory.
pub fn manifest_line(alloc: Global, name: &str, bytes: &[u8]) -> Result<Vec<u8>, AllocError>
    ensures { IfOk result (λ line. line.items ≡ manifest_line name.now bytes.now) }
{
    let digest = Sha256::digest(bytes);
    let digits = hex::encode(alloc, digest)?;
    let mut line = Vec::from_slice(alloc, digits.as_bytes())?;
    line.extend_from_slice(b"  ")?;
    line.extend_from_slice(name.as_bytes())?;
    line.extend_from_slice(b"\n")?;
    Ok(line)
}
