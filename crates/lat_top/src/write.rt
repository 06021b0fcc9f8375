ghost use Rattle.std.specs.Prelude.{◌≤◌, ◌≡◌, OnOk, IsErrOf};
ghost use Rattle.lat_top.specs.Outside.{Outside, outside};
ghost use Rattle.lat_top.specs.Written.{WritesAs, texts_of};
ghost use Rattle.lat_shelf.specs.Shelf.{Rose};
ghost use Rattle.lat_top.specs.Writing.{entries, files_after, FailedAt, StoppedAt, Wrote, WriteFails, WriteStops};

use crate::Status;
use crate::output::Output;
use crate::put::Put;
use lat_shelf::{OutFail, Shelf, Sink};

/// Puts files in order, up to the first that can't be put.
pub fn put_all<H: Shelf>(shelf: &mut H, puts: &[Put]) -> Result<(), OutFail>
    ensures ok { OnOk result
        (H.files shelf.new ≡ files_after (entries puts.now) (H.files shelf.old)) }
    ensures failed { IsErrOf result OutFail.Failed →
        FailedAt (entries puts.now) (H.files shelf.old) (H.files shelf.new) }
    ensures rose { IsErrOf result OutFail.Failed → Rose (H.faults shelf.old) (H.faults shelf.new) }
    ensures faults { H.faults shelf.old ≤ H.faults shelf.new }
    ensures memory { IsErrOf result OutFail.Memory →
        StoppedAt (entries puts.now) (H.files shelf.old) (H.files shelf.new) }
{
    for put in puts {
        match shelf.put(put.name.as_str(), &put.bytes) {
            Ok(()) => {}
            Err(fail) => return Err(fail),
        }
    }
    Ok(())
}

// Puts files in order and then gives a summary, up to the first call that fails.
fn write_all<H: Shelf, K: Sink>(
    shelf: &mut H,
    out: &mut K,
    puts: &[Put],
    summary: &[u8],
) -> Result<(), OutFail>
    ensures ok { let seen = outside H.files H.faults K.given K.faults in
        OnOk result (Wrote (entries puts.now) summary.now
        (seen shelf.old out.old) (seen shelf.new out.new)) }
    ensures failed { let seen = outside H.files H.faults K.given K.faults in
        IsErrOf result OutFail.Failed → WriteFails (entries puts.now) summary.now
        (seen shelf.old out.old) (seen shelf.new out.new) }
    ensures memory { let seen = outside H.files H.faults K.given K.faults in
        IsErrOf result OutFail.Memory → WriteStops (entries puts.now) summary.now
        (seen shelf.old out.old) (seen shelf.new out.new) }
{
    match put_all(shelf, puts) {
        Ok(()) => out.give(summary),
        Err(fail) => Err(fail),
    }
}

/// Writes what a command answered: puts its files in order and then gives its summary, up to the
/// first call that fails. The status is the answer's where all was written.
pub fn write_output<H: Shelf, K: Sink>(shelf: &mut H, out: &mut K, output: &Output) -> Status
    ensures { let seen = outside H.files H.faults K.given K.faults in
        WritesAs output.now.status (texts_of output.now)
        (seen shelf.old out.old) (seen shelf.new out.new) result }
{
    match write_all(shelf, out, &output.puts, &output.summary) {
        Ok(()) => output.status,
        Err(OutFail::Failed) => Status::WriteFault,
        Err(OutFail::Memory) => Status::Memory,
    }
}
