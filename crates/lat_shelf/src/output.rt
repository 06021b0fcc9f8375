ghost use Rattle.std.specs.Prelude.{◌≡◌, None};

use crate::{OutFail, Sink};

/// Standard output. It doesn't tell its bytes. It takes no memory.
#[derive(Drop)]
pub struct OutSink<'a, R: Print> {
    rt: &'a R,
    faults: u64,
}

impl<'a, R: Print> OutSink<'a, R> {
    /// There were no faults.
    pub fn new(rt: &'a R) -> OutSink<'a, R>
        ensures { result.faults ≡ 0 }
    {
        OutSink { rt, faults: 0 }
    }
}

// Writes all bytes, and says whether that went well.
fn print_whole<R: Print>(rt: &R, bytes: &[u8]) -> bool {
    let mut rest = bytes;
    while !rest.is_empty() {
        match rt.write_some(rest) {
            Ok(0) => return false,
            Ok(n) => rest = &rest[n..],
            Err(_) => return false,
        }
    }
    true
}

impl<'a, R: Print> Sink for OutSink<'a, R> {
    ghost given = { λ s. None };

    ghost faults = { λ s. s.faults };

    fn give(&mut self, piece: &[u8]) -> Result<(), OutFail> {
        if print_whole(self.rt, piece) {
            return Ok(());
        }
        self.faults = self.faults.saturating_add(1);
        Err(OutFail::Failed)
    }
}
