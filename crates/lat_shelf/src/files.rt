ghost use Rattle.std.specs.Prelude.{◌≡◌, None, Some, [], is_none, cond};

use crate::{Failed, OutFail, Shelf};
use std::fs;
use std::io::{Read, Write};
use std::rt::Files;

/// The files of the system. It tells neither its files nor the bytes left of an open one, and
/// counts a missing name as a fault. It takes no memory.
#[derive(Drop)]
pub struct FileShelf<'a, R: Files> {
    rt: &'a R,
    file: Option<R::File>,
    faults: u64,
}

impl<'a, R: Files> FileShelf<'a, R> {
    /// No file is open, and there were no faults.
    pub fn new(rt: &'a R) -> FileShelf<'a, R>
        ensures { result.faults ≡ 0 }
    {
        FileShelf {
            rt,
            file: None,
            faults: 0,
        }
    }
}

// Writes all bytes, and says whether that went well.
fn write_whole<W: Write>(file: &mut W, bytes: &[u8]) -> bool {
    let mut rest = bytes;
    while !rest.is_empty() {
        match file.write(rest) {
            Ok(0) => return false,
            Ok(n) => rest = &rest[n..],
            Err(_) => return false,
        }
    }
    file.flush().is_ok()
}

impl<'a, R: Files> Shelf for FileShelf<'a, R> {
    ghost files = { λ s. None };

    ghost left = { λ s. cond (is_none s.file) (Some []) None };

    ghost faults = { λ s. s.faults };

    ghost use Rattle.std.proofs.Common.{rules};

    ghost tells = { Prim.search rules };

    fn open(&mut self, name: &str) -> Result<(), Failed> {
        self.file = None;
        match fs::open(self.rt, name) {
            Ok(file) => {
                self.file = Some(file);
                Ok(())
            }
            Err(_) => {
                self.faults = self.faults.saturating_add(1);
                Err(Failed)
            }
        }
    }

    fn take(&mut self, buf: &mut [u8]) -> Result<usize, Failed> {
        match &mut self.file {
            None => return Ok(0),
            Some(file) => {
                if let Ok(n) = file.read(buf) {
                    return Ok(n);
                }
            }
        }
        self.file = None;
        self.faults = self.faults.saturating_add(1);
        Err(Failed)
    }

    fn put(&mut self, name: &str, bytes: &[u8]) -> Result<(), OutFail> {
        self.file = None;
        let mut wrote = false;
        if let Ok(mut file) = fs::create(self.rt, name) {
            wrote = write_whole(&mut file, bytes);
        }
        if wrote {
            return Ok(());
        }
        self.faults = self.faults.saturating_add(1);
        Err(OutFail::Failed)
    }
}
