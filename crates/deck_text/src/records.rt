ghost use Rattle.std.specs.Cmp.Lexicographic.{pointwise};
ghost use Rattle.std.specs.Prelude.{◌≡◌, ◌≢◌, ◌∷◌, [], false, length, List, ℕ, Some, None, IfOk, IfErr, MatchOption};
ghost use Rattle.std.specs.Borrow.{Bor};
ghost use Rattle.std.specs.Str.{bytes_eq};
ghost use Rattle.csv.specs.Reading.{default_config, source_of, strip_bom, reader_config, reader_trim, is_flexible, names_headers, reader_headers, reader_state};
ghost use Rattle.csv.specs.Records.{fields_of};
ghost use Rattle.csv.specs.declared.parser.State.TheVariants as st;
ghost use Rattle.csv.specs.declared.reader.Trim.TheVariants as trim;
ghost use Rattle.deck_text.specs.Faults.{Gives};
ghost use Rattle.deck_text.specs.Rows.{file_records, after_header, field_of};

use crate::{CsvFail, CsvFault};
use csv::{ByteRecord, ErrorKind, Reader, ReaderBuilder};
use std::alloc::Global;
use std::marker::Model;

/// The records of a table after its header, seen as the list of those that are left.
#[derive(Drop)]
pub struct Records<'a> {
    // A reader holds 8 KiB: from row to row only the pointer to it is moved.
    reader: Box<Reader<&'a [u8]>>,
}

impl<'a> Model for Records<'a> {
    ghost use Rattle.std.specs.Prelude.{List, ℕ};
    ghost use Rattle.deck_text.specs.Left.{IsOpen, left_in};

    ghost Value = { List (List (List ℕ)) };

    ghost view = { λ a. left_in a.reader.value };

    ghost invariant = { λ a. IsOpen a.reader.value };
}

/// Field `i` of a record, or nothing past its end.
pub fn field(fields: &ByteRecord, i: usize) -> &[u8]
    ensures { result.now ≡ field_of (fields_of fields.now) i }
{
    match fields.get(i) {
        Some(field) => field,
        None => &[],
    }
}

fn is_header(fields: &ByteRecord, first: &[u8], second: &[u8], third: &[u8]) -> bool
    ensures { result
        ≡ pointwise bytes_eq (fields_of fields.now) (first.now ∷ second.now ∷ third.now ∷ []) }
{
    fields.len() == 3
        && field(fields, 0) == first
        && field(fields, 1) == second
        && field(fields, 2) == third
}

// A reader of these bytes with csv's default settings, but that no row is taken as headers.
fn table_reader(alloc: Global, bytes: &[u8]) -> Reader<&[u8]>
    ensures config { reader_config result ≡ default_config }
    ensures trim { reader_trim result ≡ trim.None }
    ensures flexible { is_flexible result ≡ false }
    ensures headers { (names_headers result ≡ false) × (reader_headers result ≡ None) }
    ensures state { reader_state result ≡ st.StartRecord }
    ensures source { source_of (λ (s : Bor (List ℕ)). Some s.now) result
        ≡ Some (strip_bom bytes.now) }
{
    ReaderBuilder::new()
        .has_headers(false)
        .from_reader(alloc, bytes)
}

impl<'a> Records<'a> {
    /// The records after the header of these bytes, read with csv's default settings, but that no
    /// row is taken as headers. `NotCsv(1)` where row 1 isn't this header or isn't there.
    pub fn open(
        alloc: Global,
        bytes: &'a [u8],
        first: &[u8],
        second: &[u8],
        third: &[u8],
    ) -> Result<Records<'a>, CsvFail>
        ensures { Gives
            (λ records. records) result (after_header (first.now ∷ second.now ∷ third.now
            ∷ []) (file_records bytes.now)) }
    {
        let mut reader = table_reader(alloc, bytes);
        let mut fields = ByteRecord::new(alloc);
        match reader.read_byte_record(&mut fields) {
            Ok(true) => {
                if is_header(&fields, first, second, third) {
                    match Box::new(alloc, reader) {
                        Ok(reader) => Ok(Records { reader }),
                        Err(_) => Err(CsvFail::Memory),
                    }
                } else {
                    Err(CsvFail::Fault(CsvFault::NotCsv(1)))
                }
            }
            Ok(false) => Err(CsvFail::Fault(CsvFault::NotCsv(1))),
            // no other record was read, and bytes in memory never fail
            Err(_) => Err(CsvFail::Memory),
        }
    }

    /// Reads the next record, which is row `row`: the records after it, or nothing where none is
    /// left. `NotCsv` where it hasn't three fields.
    pub fn next(mut self, row: u32, fields: &mut ByteRecord) -> Result<Option<Records<'a>>, CsvFail>
        ensures found { IfOk result
            (λ o. MatchOption o (self.entry ≡ [])
            (λ rest. (self.entry ≡ fields_of fields.new ∷ rest) ×
            (length (fields_of fields.new) ≡ 3))) }
        ensures other { IfErr result
            (λ e. e ≢ CsvFail.Memory → (e ≡ CsvFail.Fault (CsvFault.NotCsv row))
            × (fields : List (List ℕ)) × (rest : List (List (List ℕ)))
            × (self.entry ≡ fields ∷ rest) × (length fields ≢ 3)) }
    {
        match self.reader.read_byte_record(fields) {
            Ok(true) => Ok(Some(self)),
            Ok(false) => Ok(None),
            Err(e) => match e.kind() {
                ErrorKind::UnequalLengths { .. } => Err(CsvFail::Fault(CsvFault::NotCsv(row))),
                _ => Err(CsvFail::Memory),
            },
        }
    }
}
