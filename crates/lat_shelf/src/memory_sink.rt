ghost use Rattle.std.specs.Prelude.{◌≡◌, ◌≤◌, ◌++◌, ◌∷◌, [], Some, option_map, OnOk, OnErr, IsErrOf};
ghost use Rattle.lat_shelf.specs.Shelf.{Rose};
ghost use Rattle.lat_shelf.specs.Sink.{AddsFront};
ghost use Rattle.lat_shelf.specs.Memory.{unused, GivesMemory, has_failed};

use crate::schedule::Calls;
use crate::{OutFail, Sink};
use std::alloc::{AllocError, Global};
use std::marker::Model;

/// Bytes in memory, whose calls of `give` fail where they are told to. It tells everything.
#[derive(Drop)]
pub struct MemorySink {
    bytes: Vec<u8>,
    faults: u64,
    gives: Calls,
}

impl Model for MemorySink {
    ghost use Rattle.lat_shelf.specs.Memory.{Given};

    ghost Value = { Given };

    ghost view = { λ a. record { bytes = a.bytes.items; faults = a.faults; gives = a.gives } };
}

impl MemorySink {
    /// No bytes, no faults, and no call that fails.
    pub fn new(alloc: Global) -> MemorySink
        ensures { result ≡ record { bytes = []; faults = 0; gives = unused } }
    {
        MemorySink {
            bytes: Vec::new(alloc),
            faults: 0,
            gives: Calls::new(alloc),
        }
    }

    /// Lets the `n`-th call of `give` fail, counted from 0 since the sink was made.
    pub fn fail(&mut self, n: u64) -> Result<(), AllocError>
        ensures ok { OnOk result (self.new
            ≡ record self.old {
              gives = record self.old.gives {
                failing = self.old.gives.failing
                    ++ n ∷ [];
              };
            }) }
        ensures err { OnErr result (self.new ≡ self.old) }
    {
        self.gives.fail(n)
    }

    /// The bytes so far.
    pub fn bytes(&self) -> &[u8]
        ensures { result.now ≡ self.now.bytes }
    {
        &self.bytes
    }
}

impl Sink for MemorySink {
    ghost given = { λ s. Some s.bytes };

    ghost faults = { λ s. s.faults };

    fn give(&mut self, piece: &[u8]) -> Result<(), OutFail>
        ensures ok { OnOk result (Some self.new.bytes
            ≡ option_map (λ bytes. bytes ++ piece.now) (Some self.old.bytes)) }
        ensures failed { IsErrOf result OutFail.Failed → Rose self.old.faults self.new.faults }
        ensures front { IsErrOf result OutFail.Failed →
            AddsFront piece.now (Some self.old.bytes) (Some self.new.bytes) }
        ensures memory { IsErrOf result OutFail.Memory → Some self.new.bytes ≡ Some self.old.bytes }
        ensures faults { self.old.faults ≤ self.new.faults }
        ensures exact { GivesMemory self.old self.new (has_failed result) }
    {
        if self.gives.count() {
            self.faults = self.faults.saturating_add(1);
            return Err(OutFail::Failed);
        }
        match self.bytes.extend_from_slice(piece) {
            Ok(()) => Ok(()),
            Err(_) => Err(OutFail::Memory),
        }
    }
}
