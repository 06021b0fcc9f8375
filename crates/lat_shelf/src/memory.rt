ghost use Rattle.std.specs.Prelude.{◌≡◌, ◌≢◌, ◌≤◌, ◌⊎◌, ◌++◌, ◌∷◌, [], Some, length, option_map, is_ok, not, OnOk, OnErr, IfOk, IsErrOf, refl};
ghost use Rattle.std.specs.FinMap.{insert, get};
ghost use Rattle.lat_shelf.specs.Shelf.{Rose, IsMissing, Opens, TakesKnown, NoneOpen, SameBut};
ghost use Rattle.lat_shelf.specs.Stored.{files_of};
ghost use Rattle.lat_shelf.specs.Memory.{calls_of, unused, OpensMemory, TakesMemory, PutsMemory, has_failed};

use crate::schedule::Calls;
use crate::stored::{Stored, place_of, rest_of};
use crate::{Failed, Kind, OutFail, Shelf};
use std::alloc::{AllocError, Global};
use std::marker::Model;

/// Files in memory, whose calls fail where they are told to. It tells everything.
#[derive(Drop)]
pub struct MemoryShelf {
    alloc: Global,
    // the newest first
    stored: Vec<Stored>,
    current: Option<usize>,
    at: usize,
    faults: u64,
    opens: Calls,
    takes: Calls,
    puts: Calls,
}

impl Model for MemoryShelf {
    ghost use Rattle.lat_shelf.specs.Stored.{files_of, left_of};
    ghost use Rattle.lat_shelf.specs.Memory.{Told, told_code};

    ghost Value = { Told };

    ghost coded = { told_code };

    ghost view = { λ a. record {
      files = files_of a.stored.items;
      left = left_of a.stored.items a.current a.at;
      faults = a.faults;
      opens = a.opens;
      takes = a.takes;
      puts = a.puts;
    } };
}

impl MemoryShelf {
    /// No files, no faults, and no call that fails.
    pub fn new(alloc: Global) -> MemoryShelf
        ensures { result ≡ record {
          files = files_of [];
          left = [];
          faults = 0;
          opens = unused;
          takes = unused;
          puts = unused;
        } }
    {
        MemoryShelf {
            alloc,
            stored: Vec::new(alloc),
            current: None,
            at: 0,
            faults: 0,
            opens: Calls::new(alloc),
            takes: Calls::new(alloc),
            puts: Calls::new(alloc),
        }
    }

    /// Sets a file. Afterwards nothing is open. The only error is want of memory; the shelf is then
    /// as before.
    pub fn add(&mut self, name: &str, bytes: &[u8]) -> Result<(), AllocError>
        ensures ok { OnOk result (self.new
            ≡ record self.old { files = insert self.old.files name.now bytes.now; left = [] }) }
        ensures err { OnErr result (self.new ≡ self.old) }
    {
        let name = String::from_str(self.alloc, name)?;
        let bytes = Vec::from_slice(self.alloc, bytes)?;
        self.stored.insert(0, Stored { name, bytes })?;
        // Only now: the files have moved, and until here the open one is still readable.
        self.current = None;
        Ok(())
    }

    /// Lets the `n`-th call of that kind fail, counted from 0 since the shelf was made.
    pub fn fail(&mut self, call: Kind, n: u64) -> Result<(), AllocError>
        ensures ok { OnOk result (calls_of self.new call
            ≡ record (calls_of self.old call) {
              failing = (calls_of self.old call).failing ++ n
                  ∷ [];
            }) }
        ensures others { (other : Kind) → other ≢ call →
            calls_of self.new other ≡ calls_of self.old other }
        ensures files { (self.new.files ≡ self.old.files) × (self.new.left ≡ self.old.left) ×
            (self.new.faults ≡ self.old.faults) }
        ensures err { OnErr result (self.new ≡ self.old) }
    {
        match call {
            Kind::Open => self.opens.fail(n),
            Kind::Take => self.takes.fail(n),
            Kind::Put => self.puts.fail(n),
        }
    }

    /// The bytes of a file, or `None` where no file has that name.
    pub fn file(&self, name: &str) -> Option<&[u8]>
        ensures { option_map (λ bytes. bytes.now) result ≡ get self.now.files name.now }
    {
        match place_of(&self.stored, name) {
            None => None,
            Some(place) => Some(self.stored[place].bytes.as_slice()),
        }
    }
}

impl Shelf for MemoryShelf {
    ghost files = { λ s. Some s.files };

    ghost left = { λ s. Some s.left };

    ghost faults = { λ s. s.faults };

    ghost tells = { λ s h. refl };

    fn open(&mut self, name: &str) -> Result<(), Failed>
        ensures opens { OnOk result (Opens (Some self.old.files) name.now (Some self.new.left)) }
        ensures closed { OnErr result (NoneOpen (Some self.new.left)) }
        ensures failed { OnErr result (Rose self.old.faults self.new.faults ⊎
            IsMissing (Some self.old.files) name.now) }
        ensures files { Some self.new.files ≡ Some self.old.files }
        ensures faults { self.old.faults ≤ self.new.faults }
        ensures exact { OpensMemory self.old self.new name.now (not (is_ok result)) }
    {
        self.current = None;
        self.at = 0;
        if self.opens.count() {
            self.faults = self.faults.saturating_add(1);
            return Err(Failed);
        }
        match place_of(&self.stored, name) {
            None => Err(Failed),
            Some(place) => {
                self.current = Some(place);
                Ok(())
            }
        }
    }

    fn take(&mut self, buf: &mut [u8]) -> Result<usize, Failed>
        ensures within { IfOk result (λ n. n ≤ length buf.new) }
        ensures takes { IfOk result
            (λ n. TakesKnown (Some self.old.left) (Some self.new.left) buf.new n) }
        ensures closed { OnErr result (NoneOpen (Some self.new.left)) }
        ensures failed { OnErr result (Rose self.old.faults self.new.faults) }
        ensures files { Some self.new.files ≡ Some self.old.files }
        ensures faults { self.old.faults ≤ self.new.faults }
        ensures exact { TakesMemory self.old self.new (not (is_ok result)) }
    {
        if self.takes.count() {
            self.faults = self.faults.saturating_add(1);
            self.current = None;
            return Err(Failed);
        }
        let rest = rest_of(&self.stored, self.current, self.at);
        let count = rest.len().min(buf.len());
        buf[..count].copy_from_slice(&rest[..count]);
        self.at = self.at.saturating_add(count);
        Ok(count)
    }

    fn put(&mut self, name: &str, bytes: &[u8]) -> Result<(), OutFail>
        ensures ok { OnOk result (Some self.new.files
            ≡ option_map (λ fs. insert fs name.now bytes.now) (Some self.old.files)) }
        ensures failed { IsErrOf result OutFail.Failed → Rose self.old.faults self.new.faults }
        ensures others { IsErrOf result OutFail.Failed →
            SameBut name.now (Some self.old.files) (Some self.new.files) }
        ensures memory { IsErrOf result OutFail.Memory → Some self.new.files ≡ Some self.old.files }
        ensures closed { NoneOpen (Some self.new.left) }
        ensures faults { self.old.faults ≤ self.new.faults }
        ensures exact { PutsMemory self.old self.new (has_failed result) }
    {
        self.current = None;
        if self.puts.count() {
            self.faults = self.faults.saturating_add(1);
            return Err(OutFail::Failed);
        }
        match self.add(name, bytes) {
            Ok(()) => Ok(()),
            Err(_) => Err(OutFail::Memory),
        }
    }
}
