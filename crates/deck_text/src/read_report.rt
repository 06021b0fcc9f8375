ghost use Rattle.std.specs.Prelude.{◌≡◌, ◌<◌, ◌≤◌, ◌+◌, length, replicate, None, Ok, Err, IfErr, IfOk, IfSome, OnOk, unwrap_or, is_none, position, map};
ghost use Rattle.csv.specs.Records.{fields_of};
ghost use Rattle.lat_base.specs.Names.{NamesFit};
ghost use Rattle.lat_base.specs.Shape.{target_count};
ghost use Rattle.lat_base.specs.declared.limits.TheConstants.{MOST_TARGETS};
ghost use Rattle.deck_text.specs.Faults.{Gives};
ghost use Rattle.deck_text.specs.ReportRead.{report_row, report_from, whole_report, report_read};
ghost use Rattle.deck_text.specs.RowCount.{total_rows};
ghost use Rattle.deck_text.specs.Rows.{file_records};
ghost use Rattle.deck_text.specs.TargetNames.{target_names};

use crate::find::find_target;
use crate::records::{Records, field};
use crate::{CsvFail, CsvFault};
use csv::ByteRecord;
use lat_base::{Names, Shape};
use numerals::number_of;
use std::alloc::{AllocError, Global};

// No total for any target of the style.
fn no_totals(alloc: Global, shape: &Shape) -> Result<Vec<Option<u32>>, AllocError>
    ensures { IfOk result (λ totals. totals.items ≡ replicate (target_count shape.now) None) }
{
    let mut totals = Vec::with_capacity(alloc, usize::from(shape.targets()))?;
    for _ in 0..shape.targets() {
        totals.push(None)?;
    }
    Ok(totals)
}

// Adds the total of row `row`.
#[tactic(auto, using(crate::proofs::RowCounts::total_more))]
fn add_row(
    totals: &mut [Option<u32>],
    shape: &Shape,
    names: &Names,
    row: u32,
    fields: &ByteRecord,
) -> Result<(), CsvFault>
    requires fit { NamesFit names.now.contests shape.now }
    requires targets { length totals.old ≡ target_count shape.now }
    ensures ok { OnOk result (report_row (target_names names.now.contests) row totals.old
        (fields_of fields.now) ≡ Ok totals.new) }
    ensures fault { IfErr result
        (λ fault. report_row (target_names names.now.contests) row totals.old (fields_of fields.now)
        ≡ Err fault) }
    ensures rows { OnOk result (total_rows totals.new ≡ total_rows totals.old + 1) }
{
    let Some(total) = number_of(field(fields, 2), 0, u64::from(u32::MAX)) else {
        return Err(CsvFault::BadNumber(row));
    };
    let Some(t) = find_target(shape, names, field(fields, 0), field(fields, 1)) else {
        return Err(CsvFault::UnknownTarget(row));
    };
    if totals[usize::from(t)].is_some() {
        return Err(CsvFault::Repeated(row));
    }
    totals[usize::from(t)] = Some(total as u32);
    Ok(())
}

// The totals with the rows that are left, the first of which is row 2. There are no more rows than
// targets.
#[tactic(auto, using(crate::proofs::RowCounts::totals_few))]
fn read_rows(
    alloc: Global,
    mut totals: Vec<Option<u32>>,
    shape: &Shape,
    names: &Names,
    mut rows: Records<'_>,
) -> Result<Vec<Option<u32>>, CsvFail>
    requires fit { NamesFit names.now.contests shape.now }
    requires targets { length totals.items ≡ target_count shape.now }
    ensures totals { Gives (λ totals. totals.items) result
        (report_from (target_names names.now.contests) 2 totals.items rows.entry) }
    ensures targets { IfOk result (λ totals. length totals.items ≡ target_count shape.now) }
{
    let _targets = shape.targets();
    let mut row: u32 = 2;
    let mut fields = ByteRecord::new(alloc);
    while let Some(rest) = rows.next(row, &mut fields)? {
        rows = rest;
        if let Err(fault) = add_row(&mut totals, shape, names, row, &fields) {
            return Err(CsvFail::Fault(fault));
        }
        row += 1;
    }
    Ok(totals)
}

fn all_totals(alloc: Global, totals: &[Option<u32>]) -> Result<Vec<u32>, AllocError>
    ensures { IfOk result (λ all. all.items ≡ map (λ total. unwrap_or total 0) totals.now) }
{
    let mut all = Vec::with_capacity(alloc, totals.len())?;
    for total in totals {
        all.push(total.unwrap_or(0))?;
    }
    Ok(all)
}

// The first target with no total.
fn first_missing(totals: &[Option<u32>]) -> Option<usize>
    ensures missing { result ≡ position is_none totals.now }
    ensures within { IfSome result (λ t. t < length totals.now) }
{
    totals.iter().position(|total| total.is_none())
}

// The totals where each target has one, or the first target with none.
fn whole_report(alloc: Global, totals: &[Option<u32>]) -> Result<Vec<u32>, CsvFail>
    requires { length totals.now ≤ MOST_TARGETS }
    ensures totals { Gives (λ totals. totals.items) result (whole_report totals.now) }
    ensures long { IfOk result (λ all. length all.items ≡ length totals.now) }
{
    if let Some(t) = first_missing(totals) {
        return Err(CsvFail::Fault(CsvFault::Missing(t as u16)));
    }
    match all_totals(alloc, totals) {
        Ok(all) => Ok(all),
        Err(_) => Err(CsvFail::Memory),
    }
}

/// The totals that a report tells, in target order, read as `csv` reads records (RFC 4180) with its
/// default settings, but that no row is taken as headers. Row 1 is the header
/// `contest,target,total`; then each target of the style has one row, in any order.
///
/// Where rows have faults, the first such row answers, and in a row the first of these:
/// - `NotCsv`: it isn't a record of three fields, or row 1 isn't the header or isn't there.
/// - `BadNumber`: the total isn't decimal digits without a leading zero, or is above
///   4,294,967,295.
/// - `UnknownTarget`: contest and target name no target of the style.
/// - `Repeated`: the target stood before.
///
/// Where no row has one, `Missing` says the first target without a row. `Memory` where memory runs
/// out.
pub fn read_report_csv(
    alloc: Global,
    shape: &Shape,
    names: &Names,
    bytes: &[u8],
) -> Result<Vec<u32>, CsvFail>
    requires { NamesFit names.now.contests shape.now }
    ensures totals { Gives (λ totals. totals.items) result
        (report_read shape.now names.now.contests (file_records bytes.now)) }

    // There is one for each target.
    ensures long { IfOk result (λ totals. length totals.items ≡ target_count shape.now) }
{
    let _targets = shape.targets();
    let rows = Records::open(alloc, bytes, b"contest", b"target", b"total")?;
    let Ok(totals) = no_totals(alloc, shape) else {
        return Err(CsvFail::Memory);
    };
    let totals = read_rows(alloc, totals, shape, names, rows)?;
    whole_report(alloc, &totals)
}
