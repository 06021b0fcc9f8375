ghost use Rattle.std.specs.Prelude.{◌≡◌, ◌≤◌, ◌<◌, ◌+◌, ◌^◌};
ghost use Rattle.lat_top.specs.Script.{Reads, moment, read, viewed};

use crate::refusal::Refusal;
use lat_shelf::{ReadFail, Shelf, read_whole};
use std::alloc::Global;

/// How many bytes a definition or a table may have.
pub const FILE_LIMIT: u32 = 8_388_608;

/// How many bytes a certificate may have.
pub const CERT_LIMIT: u32 = 67_108_864;

/// The bytes of a file, or the status with which the call ends where they can't be read. No file
/// changes.
pub fn read_file<H: Shelf>(
    alloc: Global,
    shelf: &mut H,
    name: &str,
    limit: u32,
) -> Result<Vec<u8>, Refusal>
    requires { limit + 1 < 2 ^ 32 }
    ensures { let seen = moment H.files H.faults in
        Reads (read name.now limit) (seen shelf.old) (seen shelf.new)
        (viewed (λ bytes. bytes.items) result) }
{
    match read_whole(alloc, shelf, name, limit) {
        Ok(bytes) => Ok(bytes),
        Err(ReadFail::Fault) => Err(Refusal::ReadFault),
        Err(ReadFail::TooLong(n)) => Err(Refusal::TooLong(n)),
        Err(ReadFail::Memory) => Err(Refusal::Memory),
    }
}
