ghost use Rattle.std.specs.Prelude.{◌≡◌, ◌<◌, ◌≤◌, ◌+◌, ◌⊎◌, length, Ok, Err, IfErr, IfSome, OnOk, IfOk};
ghost use Rattle.csv.specs.Records.{fields_of};
ghost use Rattle.lat_base.specs.Names.{NamesFit};
ghost use Rattle.lat_base.specs.Shape.{target_count};
ghost use Rattle.lat_base.specs.declared.limits.TheConstants.{MOST_BALLOTS};
ghost use Rattle.deck_text.specs.DeckRead.{ballot_number, mark_called, IsMarkOf, deck_row, deck_from, deck_read};
ghost use Rattle.deck_text.specs.Faults.{Gives};
ghost use Rattle.deck_text.specs.RowCount.{deck_rows};
ghost use Rattle.deck_text.specs.Rows.{file_records};
ghost use Rattle.deck_text.specs.TargetNames.{target_names};

use crate::draft::Draft;
use crate::find::find_target;
use crate::mark::Mark;
use crate::records::{Records, field};
use crate::{CsvFail, CsvFault};
use csv::ByteRecord;
use lat_ballots::Deck;
use lat_base::{Names, Shape};
use numerals::number_of;
use std::alloc::Global;

// The number of a row's ballot, where it is that of the last ballot or one more.
fn ballot_number(ballots: u16, field: &[u8]) -> Option<u16>
    requires { ballots ≤ MOST_BALLOTS }
    ensures number { result ≡ ballot_number ballots field.now }
    ensures next { IfSome result (λ n. (n ≡ ballots + 1) ⊎ (n ≡ ballots)) }
    ensures range { IfSome result (λ n. (0 < n) × (n ≤ MOST_BALLOTS)) }
{
    let number = number_of(field, 0, 1024)? as u16;
    if number == ballots + 1 || (ballots > 0 && number == ballots) {
        Some(number)
    } else {
        None
    }
}

// What a row with these ids marks.
fn mark_called(shape: &Shape, names: &Names, contest: &[u8], target: &[u8]) -> Option<Mark>
    requires { NamesFit names.now.contests shape.now }
    ensures mark { result ≡ mark_called (target_names names.now.contests) contest.now target.now }
    ensures range { IfSome result (IsMarkOf (target_count shape.now)) }
{
    if contest.is_empty() && target.is_empty() {
        return Some(Mark::Blank);
    }
    match find_target(shape, names, contest, target) {
        Some(t) => Some(Mark::Target(t)),
        None => None,
    }
}

// Adds row `row` to the deck.
fn add_row(
    draft: &mut Draft,
    shape: &Shape,
    names: &Names,
    row: u32,
    fields: &ByteRecord,
) -> Result<(), CsvFault>
    requires fit { NamesFit names.now.contests shape.now }
    requires targets { draft.old.targets ≡ target_count shape.now }
    ensures ok { OnOk result (deck_row (target_names names.now.contests) row draft.old
        (fields_of fields.now) ≡ Ok draft.new) }
    ensures fault { IfErr result
        (λ fault. deck_row (target_names names.now.contests) row draft.old (fields_of fields.now)
        ≡ Err fault) }
    ensures targets { OnOk result (draft.new.targets ≡ draft.old.targets) }
    ensures rows { OnOk result (deck_rows draft.new.ballots ≡ deck_rows draft.old.ballots + 1) }
{
    let Some(number) = ballot_number(draft.ballots(), field(fields, 0)) else {
        return Err(CsvFault::BadNumber(row));
    };
    let Some(mark) = mark_called(shape, names, field(fields, 1), field(fields, 2)) else {
        return Err(CsvFault::UnknownTarget(row));
    };
    if !draft.add(number, mark) {
        return Err(CsvFault::Repeated(row));
    }
    Ok(())
}

// The deck with the rows that are left, the first of which is row 2. No deck has more than 262,144.
#[tactic(auto, using(crate::proofs::RowCounts::rows_few))]
fn read_rows(
    alloc: Global,
    mut draft: Draft,
    shape: &Shape,
    names: &Names,
    mut rows: Records<'_>,
) -> Result<Draft, CsvFail>
    requires fit { NamesFit names.now.contests shape.now }
    requires targets { draft.targets ≡ target_count shape.now }
    ensures deck { Gives
        (λ deck. deck) result (deck_from (target_names names.now.contests) 2 draft rows.entry) }
    ensures targets { IfOk result (λ deck. deck.targets ≡ target_count shape.now) }
{
    let mut row: u32 = 2;
    let mut fields = ByteRecord::new(alloc);
    while let Some(rest) = rows.next(row, &mut fields)? {
        rows = rest;
        if let Err(fault) = add_row(&mut draft, shape, names, row, &fields) {
            return Err(CsvFail::Fault(fault));
        }
        let _ballots = draft.ballots();
        row += 1;
    }
    Ok(draft)
}

/// The deck that a deck's file tells, read as `csv` reads records (RFC 4180) with its default
/// settings, but that no row is taken as headers. Row 1 is the header `ballot,contest,target`.
/// Ballots are numbered from 1, in order, up to 1,024; the marks of one ballot may stand in any
/// order, and a ballot with no mark has one row whose contest and target are empty.
///
/// Where rows have faults, the first such row answers, and in a row the first of these:
/// - `NotCsv`: it isn't a record of three fields, or row 1 isn't the header or isn't there.
/// - `BadNumber`: the ballot's number isn't decimal digits without a leading zero, is above 1,024,
///   or is neither that of the row before nor one more.
/// - `UnknownTarget`: contest and target aren't both empty and name no target of the style.
/// - `Repeated`: the ballot has this mark already, or a blank row stands in a ballot with another.
///
/// `Memory` where memory runs out.
pub fn read_deck_csv(
    alloc: Global,
    shape: &Shape,
    names: &Names,
    bytes: &[u8],
) -> Result<Deck, CsvFail>
    requires { NamesFit names.now.contests shape.now }
    ensures deck { Gives
        (λ deck. deck) result (deck_read shape.now names.now.contests (file_records bytes.now)) }
    ensures targets { IfOk result (λ deck. deck.targets ≡ target_count shape.now) }
{
    let rows = Records::open(alloc, bytes, b"ballot", b"contest", b"target")?;
    let Ok(draft) = Draft::new(alloc, shape) else {
        return Err(CsvFail::Memory);
    };
    let draft = read_rows(alloc, draft, shape, names, rows)?;
    match draft.into_deck(alloc, shape) {
        Ok(deck) => Ok(deck),
        Err(_) => Err(CsvFail::Memory),
    }
}
