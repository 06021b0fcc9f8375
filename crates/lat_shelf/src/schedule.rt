ghost use Rattle.std.specs.Prelude.{◌≡◌, ◌++◌, ◌∷◌, [], OnOk, OnErr};
ghost use Rattle.lat_shelf.specs.Memory.{Schedule, unused, fails_next, counted};

use std::alloc::{AllocError, Global};
use std::marker::Model;

/// The calls of one kind: how many were made, and the numbers of those that are to fail.
#[derive(Drop)]
pub struct Calls {
    made: u64,
    failing: Vec<u64>,
}

impl Model for Calls {
    ghost use Rattle.lat_shelf.specs.Memory.{Schedule};

    ghost Value = { Schedule };

    ghost view = { λ a. record { made = a.made; failing = a.failing.items } };
}

impl Calls {
    pub fn new(alloc: Global) -> Calls
        ensures { result ≡ unused }
    {
        Calls {
            made: 0,
            failing: Vec::new(alloc),
        }
    }

    /// Lets call number `n` fail, counted from 0.
    pub fn fail(&mut self, n: u64) -> Result<(), AllocError>
        ensures ok { OnOk result (self.new
            ≡ record self.old { failing = self.old.failing ++ n ∷ [] }) }
        ensures err { OnErr result (self.new ≡ self.old) }
    {
        Ok(self.failing.push(n)?)
    }

    /// Counts a call, and says whether it is to fail.
    pub fn count(&mut self) -> bool
        ensures fails { result ≡ fails_next self.old }
        ensures counted { self.new ≡ counted self.old }
    {
        let fails = self.failing.contains(&self.made);
        self.made = self.made.saturating_add(1);
        fails
    }
}
