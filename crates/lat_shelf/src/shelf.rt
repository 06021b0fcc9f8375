ghost use Rattle.std.specs.Prelude.{◌≡◌, ◌≤◌, ◌⊎◌, ℕ, List, Option, length, option_map, IfOk, OnOk, OnErr, IsErrOf, IsSome};
ghost use Rattle.std.specs.FinMap.{insert};
ghost use Rattle.lat_shelf.specs.Shelf.{Files, Rose, IsMissing, Opens, TakesKnown, NoneOpen, SameBut};

use crate::{Failed, OutFail};

/// Files by name, of which one may be open for reading.
///
/// Contracts speak of the files and of the bytes left of the open file where the shelf tells them,
/// and of the number of its faults, which never falls.
pub trait Shelf {
    /// The files, where they are told.
    ghost files: { Self → Option Files };

    /// The bytes left of the open file, where they are told; where none is open that is told.
    ghost left: { Self → Option (List ℕ) };

    /// How many faults there were.
    ghost faults: { Self → ℕ };

    /// Opens a file at its start. It fails only where a fault rose, or where files are told and the
    /// name is missing. No file changes.
    fn open(&mut self, name: &str) -> Result<(), Failed>
        ensures opens { OnOk result (Opens (files self.old) name.now (left self.new)) }
        ensures closed { OnErr result (NoneOpen (left self.new)) }
        ensures failed { OnErr result (Rose (faults self.old) (faults self.new) ⊎
            IsMissing (files self.old) name.now) }
        ensures files { files self.new ≡ files self.old }
        ensures faults { faults self.old ≤ faults self.new };

    /// Takes the next bytes of the open file, and gives their number: 0 only at its end, where
    /// nothing is open, or where `buf` is empty. It fails only where a fault rose. No file changes.
    fn take(&mut self, buf: &mut [u8]) -> Result<usize, Failed>
        ensures within { IfOk result (λ n. n ≤ length buf.new) }
        ensures takes { IfOk result (λ n. TakesKnown (left self.old) (left self.new) buf.new n) }
        ensures closed { OnErr result (NoneOpen (left self.new)) }
        ensures failed { OnErr result (Rose (faults self.old) (faults self.new)) }
        ensures files { files self.new ≡ files self.old }
        ensures faults { faults self.old ≤ faults self.new };

    /// Puts a file whole. Afterwards nothing is open. `Failed` comes only where a fault rose, and
    /// then nothing is known of the file of that name; after `Memory` the files are as before.
    fn put(&mut self, name: &str, bytes: &[u8]) -> Result<(), OutFail>
        ensures ok { OnOk result (files self.new
            ≡ option_map (λ fs. insert fs name.now bytes.now) (files self.old)) }
        ensures failed { IsErrOf result OutFail.Failed → Rose (faults self.old) (faults self.new) }
        ensures others { IsErrOf result OutFail.Failed →
            SameBut name.now (files self.old) (files self.new) }
        ensures memory { IsErrOf result OutFail.Memory → files self.new ≡ files self.old }
        ensures closed { NoneOpen (left self.new) }
        ensures faults { faults self.old ≤ faults self.new };

    /// A shelf that tells its files tells the bytes left of the open one.
    ghost tells: { (s : Self) → IsSome (files s) → IsSome (left s) };
}
