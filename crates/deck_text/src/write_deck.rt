ghost use Rattle.std.specs.Prelude.{◌≡◌, ◌<◌, ◌≤◌, ◌+◌, ◌++◌, [], length, drop, if◌then◌else◌, IfOk, IsTrue};
ghost use Rattle.std.specs.List.{flat_map, range_with_len, list_all};
ghost use Rattle.lat_base.specs.Id.{is_id_byte};
ghost use Rattle.lat_ballots.specs.Deck.{ballot_at, mark_at};
ghost use Rattle.deck_text.specs.Line.{line};
ghost use Rattle.deck_text.specs.TargetNames.{names_in, target_names};
ghost use Rattle.deck_text.specs.DeckText.{mark_line, numbered_lines, deck_text};

use crate::blank::is_blank;
use crate::table::Table;
use lat_ballots::Deck;
use lat_base::{ContestNames, Id, Names};
use std::alloc::{AllocError, Global};

// The table with the row of ballot j's mark at target t, which has these ids, where there is one.
fn write_mark(
    table: Table,
    contest: &Id,
    target: &Id,
    deck: &Deck,
    number: &[u8],
    j: u16,
    t: u16,
) -> Result<Table, AllocError>
    requires number { IsTrue (list_all is_id_byte number.now) }
    requires ballot { j < length deck.now.ballots }
    requires target { t < deck.now.targets }
    ensures { IfOk result
        (λ after. after
        ≡ table ++ (if mark_at deck.now j t then line number.now contest.now target.now else [])) }
{
    if !deck.is_marked(j, t) {
        return Ok(table);
    }
    table.row(number, contest.as_bytes(), target.as_bytes())
}

// The table with the rows of ballot j's marks in a contest whose targets are numbered from `first`.
fn write_contest(
    mut table: Table,
    contest: &ContestNames,
    deck: &Deck,
    number: &[u8],
    j: u16,
    first: u16,
) -> Result<Table, AllocError>
    requires number { IsTrue (list_all is_id_byte number.now) }
    requires ballot { j < length deck.now.ballots }
    requires targets { first + length contest.now.targets ≤ deck.now.targets }
    ensures { IfOk result (λ after. after ≡ table
        ++ flat_map (mark_line (names_in contest.now) number.now
        (drop first (ballot_at deck.now j))) (range_with_len 0 (length contest.now.targets))) }
{
    let _targets = deck.targets();
    for (i, target) in contest.targets.as_slice().iter().enumerate() {
        let t = first + i as u16;
        table = write_mark(table, &contest.id, target, deck, number, j, t)?;
    }
    Ok(table)
}

// The table with the rows of ballot j's marks.
#[tactic(auto, using(crate::proofs::ContestLines::names_more, crate::proofs::ContestLines::names_within, crate::proofs::ContestLines::contest_more))]
fn write_marks(
    mut table: Table,
    names: &Names,
    deck: &Deck,
    number: &[u8],
    j: u16,
) -> Result<Table, AllocError>
    requires targets { length (target_names names.now.contests) ≡ deck.now.targets }
    requires number { IsTrue (list_all is_id_byte number.now) }
    requires ballot { j < length deck.now.ballots }
    ensures { IfOk result (λ after. after ≡ table
        ++ flat_map (mark_line (target_names names.now.contests) number.now (ballot_at deck.now j))
        (range_with_len 0 (length (target_names names.now.contests)))) }
{
    let _targets = deck.targets();
    let mut first = 0;
    for contest in names.contests() {
        table = write_contest(table, contest, deck, number, j, first)?;
        first += contest.targets.as_slice().len() as u16;
    }
    Ok(table)
}

// The table with the rows of ballot j.
#[tactic(auto, using(crate::proofs::Decimals::number_ids))]
fn write_ballot(
    alloc: Global,
    table: Table,
    names: &Names,
    deck: &Deck,
    j: u16,
) -> Result<Table, AllocError>
    requires targets { length (target_names names.now.contests) ≡ deck.now.targets }
    requires ballot { j < length deck.now.ballots }
    ensures { IfOk result
        (λ after. after
        ≡ table ++ numbered_lines (target_names names.now.contests) deck.now.ballots j) }
{
    let _ballots = deck.ballots();
    let number = (j + 1).to_string(alloc)?;
    if is_blank(deck, j) {
        return table.row(number.as_bytes(), b"", b"");
    }
    write_marks(table, names, deck, number.as_bytes(), j)
}

/// The text of a deck's file: the header `ballot,contest,target`, and for each ballot, numbered
/// from 1, a row with the ids of contest and target for each marked target, in target order. A
/// ballot with no mark has one row whose contest and target are empty. Fields are separated by
/// commas, each row ends with one line feed, and no field has quotes (RFC 4180).
///
/// The one error is want of memory.
pub fn deck_csv(alloc: Global, names: &Names, deck: &Deck) -> Result<Vec<u8>, AllocError>
    requires { length (target_names names.now.contests) ≡ deck.now.targets }
    ensures { IfOk result (λ bytes. bytes.items ≡ deck_text names.now.contests deck.now.ballots) }
{
    let mut table = Table::new(alloc).row(b"ballot", b"contest", b"target")?;
    for j in 0..deck.ballots() {
        table = write_ballot(alloc, table, names, deck, j)?;
    }
    table.into_bytes()
}
