ghost use Rattle.std.specs.Prelude.{◌≡◌, ◌≤◌, ◌++◌, ℕ, List, Option, option_map, OnOk, IsErrOf};
ghost use Rattle.lat_shelf.specs.Shelf.{Rose};
ghost use Rattle.lat_shelf.specs.Sink.{AddsFront};

use crate::OutFail;

/// A place that takes bytes, as standard output.
///
/// Contracts speak of the bytes so far where the sink tells them, and of the number of its faults,
/// which never falls.
pub trait Sink {
    /// The bytes so far, where they are told.
    ghost given: { Self → Option (List ℕ) };

    /// How many faults there were.
    ghost faults: { Self → ℕ };

    /// Adds a piece at the end. `Failed` comes only where a fault rose, and then a front of the
    /// piece was added; after `Memory` nothing was.
    fn give(&mut self, piece: &[u8]) -> Result<(), OutFail>
        ensures ok { OnOk result (given self.new
            ≡ option_map (λ bytes. bytes ++ piece.now) (given self.old)) }
        ensures failed { IsErrOf result OutFail.Failed → Rose (faults self.old) (faults self.new) }
        ensures front { IsErrOf result OutFail.Failed →
            AddsFront piece.now (given self.old) (given self.new) }
        ensures memory { IsErrOf result OutFail.Memory → given self.new ≡ given self.old }
        ensures faults { faults self.old ≤ faults self.new };
}
