ghost use Rattle.std.specs.Prelude.{◌≡◌, ◌≤◌, ◌<◌, ◌+◌, ◌++◌, ◌∷◌, [], length, Option, IfOk, IsErrOf, OnOk};
ghost use Rattle.deck_text.specs.CountyText.{count_line};
ghost use Rattle.lat_shelf.specs.Shelf.{Files, Rose};
ghost use Rattle.lat_top.specs.Asked.{kept_all};
ghost use Rattle.lat_top.specs.AllJob.{all_job};
ghost use Rattle.lat_top.specs.Counted.{BreaksAt, HoldsFirst, StopsAt};
ghost use Rattle.lat_top.specs.Job.{Ends};
ghost use Rattle.lat_top.specs.Manifest.{manifest_name};
ghost use Rattle.lat_top.specs.Outside.{outside};
ghost use Rattle.lat_top.specs.Writing.{entries};
ghost use Rattle.lat_top.specs.Written.{WritesAs};

use crate::Status;
use crate::all_style::planned_style;
use crate::all_words::AllWords;
use crate::county::County;
use crate::finding::read_definition_file;
use crate::output::Output;
use crate::put::Put;
use crate::refusal::status_of;
use crate::write::{put_all, write_output};
use election_json::Definition;
use lat_shelf::{OutFail, Shelf, Sink};
use std::alloc::{AllocError, Global};

// The file that lists all others.
const MANIFEST_NAME: &str = "manifest.txt";

// Plans style number i and puts its files.
fn plan_style<H: Shelf>(
    alloc: Global,
    asked: &AllWords<'_>,
    shelf: &mut H,
    definition: &Definition,
    i: u32,
    county: &mut County,
) -> Result<(), OutFail>
    requires within { i < length definition.now.styles }
    requires counted { county.old.counts.styles ≡ i }
    ensures ok { (begin : Option Files) →
        HoldsFirst (kept_all asked.now) definition.now i county.old begin (H.files shelf.old) →
        OnOk result (HoldsFirst (kept_all asked.now) definition.now (i + 1) county.new begin
        (H.files shelf.new)) }
    ensures failed { (begin : Option Files) →
        HoldsFirst (kept_all asked.now) definition.now i county.old begin (H.files shelf.old) →
        IsErrOf result OutFail.Failed →
        BreaksAt (kept_all asked.now) definition.now begin (H.files shelf.new) }
    ensures memory { (begin : Option Files) →
        HoldsFirst (kept_all asked.now) definition.now i county.old begin (H.files shelf.old) →
        IsErrOf result OutFail.Memory →
        StopsAt (kept_all asked.now) definition.now begin (H.files shelf.new) }
    ensures rose { IsErrOf result OutFail.Failed → Rose (H.faults shelf.old) (H.faults shelf.new) }
    ensures faults { H.faults shelf.old ≤ H.faults shelf.new }
    ensures counted { OnOk result (county.new.counts.styles ≡ i + 1) }
{
    let _styles = definition.styles();
    match planned_style(alloc, asked, definition, i, county) {
        Ok(puts) => put_all(shelf, &puts),
        Err(_) => Err(OutFail::Memory),
    }
}

// Plans each style and puts its files, up to the first put that fails.
fn plan_styles<H: Shelf>(
    alloc: Global,
    asked: &AllWords<'_>,
    shelf: &mut H,
    definition: &Definition,
) -> Result<County, OutFail>
    ensures ok { IfOk result (λ county. HoldsFirst (kept_all asked.now) definition.now
        (length definition.now.styles) county (H.files shelf.old) (H.files shelf.new)) }
    ensures failed { IsErrOf result OutFail.Failed →
        BreaksAt (kept_all asked.now) definition.now (H.files shelf.old) (H.files shelf.new) }
    ensures memory { IsErrOf result OutFail.Memory →
        StopsAt (kept_all asked.now) definition.now (H.files shelf.old) (H.files shelf.new) }
    ensures rose { IsErrOf result OutFail.Failed → Rose (H.faults shelf.old) (H.faults shelf.new) }
    ensures faults { H.faults shelf.old ≤ H.faults shelf.new }
{
    let mut county = County::new(alloc);
    for i in 0..definition.styles() {
        match plan_style(alloc, asked, shelf, definition, i, &mut county) {
            Ok(()) => {}
            Err(fail) => return Err(fail),
        }
    }
    Ok(county)
}

// What is written behind the files of all styles: the manifest, and the lines.
fn last_output(alloc: Global, county: County) -> Result<Output, AllocError>
    ensures status { IfOk result (λ output. output.status ≡ county.status) }
    ensures puts { IfOk result (λ output. entries output.puts.items
        ≡ (manifest_name, county.manifest.items) ∷ []) }
    ensures summary { IfOk result (λ output. output.summary.items
        ≡ county.lines.items ++ count_line county.counts) }
{
    let summary = county.summary(alloc)?;
    let name = String::from_str(alloc, MANIFEST_NAME)?;
    let status = county.status;
    let mut puts = Vec::new(alloc);
    puts.push(Put {
        name,
        bytes: county.manifest,
    })?;
    Ok(Output {
        status,
        puts,
        summary,
    })
}

/// Plans every style of the definition that the words name, puts the files of each as it is
/// planned, then the manifest, and gives the lines.
pub fn plan_all<H: Shelf, K: Sink>(
    alloc: Global,
    asked: &AllWords<'_>,
    shelf: &mut H,
    out: &mut K,
) -> Status
    ensures { let seen = outside H.files H.faults K.given K.faults in
        Ends (all_job (kept_all asked.now)) result (seen shelf.old out.old)
        (seen shelf.new out.new) }
{
    let definition = match read_definition_file(alloc, shelf, asked.definition) {
        Ok(definition) => definition,
        Err(refusal) => return status_of(refusal),
    };
    let county = match plan_styles(alloc, asked, shelf, &definition) {
        Ok(county) => county,
        Err(OutFail::Failed) => return Status::WriteFault,
        Err(OutFail::Memory) => return Status::Memory,
    };
    match last_output(alloc, county) {
        Ok(output) => write_output(shelf, out, &output),
        Err(_) => Status::Memory,
    }
}
