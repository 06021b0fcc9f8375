ghost use Rattle.std.specs.Prelude.{◌≡◌, ◌++◌, [], IfOk, IsTrue};
ghost use Rattle.std.specs.List.{list_all};
ghost use Rattle.lat_base.specs.Id.{is_id_byte};
ghost use Rattle.deck_text.specs.Line.{line};

use csv::{Writer, WriterBuilder};
use std::alloc::{AllocError, Global};
use std::marker::Model;

/// A table that is being written, seen as its text so far.
#[derive(Drop)]
pub struct Table {
    writer: Writer<Vec<u8>>,
}

impl Model for Table {
    ghost use Rattle.std.specs.Prelude.{◌≡◌, ℕ, List, [], Some, false, unwrap_or, Vec};
    ghost use Rattle.std.specs.declared.alloc.Global.{Global};
    ghost use Rattle.csv.specs.Writing.{default_writer, writer_setup, fields_written, has_written, text_written};

    ghost Value = { List ℕ };

    ghost view = { λ a. unwrap_or (text_written (λ (v : Vec ℕ Global). Some v.items) a.writer) [] };

    ghost invariant = { λ a. (writer_setup a.writer ≡ default_writer) ×
        (fields_written a.writer ≡ 0) × (has_written a.writer ≡ false) };
}

impl Table {
    /// A table with no row.
    pub fn new(alloc: Global) -> Table
        ensures { result ≡ [] }
    {
        Table {
            writer: WriterBuilder::new().from_writer(Vec::new(alloc)),
        }
    }

    /// The table with one row more. No byte of the fields calls for quotes.
    pub fn row(self, first: &[u8], second: &[u8], third: &[u8]) -> Result<Table, AllocError>
        requires first { IsTrue (list_all is_id_byte first.now) }
        requires second { IsTrue (list_all is_id_byte second.now) }
        requires third { IsTrue (list_all is_id_byte third.now) }
        ensures { IfOk result (λ table. table ≡ self ++ line first.now second.now third.now) }
    {
        let mut writer = self.writer;
        let fields = [first, second, third];
        match writer.write_fields(&fields) {
            Ok(()) => Ok(Table { writer }),
            Err(_) => Err(AllocError),
        }
    }

    /// The table's text.
    pub fn into_bytes(self) -> Result<Vec<u8>, AllocError>
        ensures { IfOk result (λ bytes. bytes.items ≡ self) }
    {
        match self.writer.into_inner() {
            Ok(bytes) => Ok(bytes),
            Err(_) => Err(AllocError),
        }
    }
}
