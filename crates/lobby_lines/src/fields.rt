//! Fields of a line as rows.

ghost use Rattle.std.specs.Prelude.{◌≡◌, ◌++◌, IfOk, [], ◌∷◌, length};
ghost use Rattle.lobby_lines.specs.Layout.{place};
ghost use Rattle.lobby_lines.specs.Fields.{Laid, laid, Absent, Text, Number, Adds, row};

use crate::table::{Place, Table, put_text};
use std::alloc::{AllocError, Global};
use std::marker::Model;

/// A field holds nothing: its argument was left out.
pub const ABSENT: u32 = 0;
/// A field holds a text.
pub const TEXT: u32 = 1;
/// A field holds a number.
pub const NUMBER: u32 = 2;

/// A field of a line.
#[repr(C)]
#[derive(Clone, Copy)]
pub struct FieldRow {
    /// Of a text its place; else of no length.
    pub text: Place,
    /// Of a number; else 0.
    pub number: i64,
    /// `ABSENT`, `TEXT` or `NUMBER`.
    pub holds: u32,
    /// 0: it fills the row, so that no byte of lent memory stays as it was.
    pub unused: u32,
}

/// The head of a line.
#[repr(C)]
#[derive(Clone, Copy)]
pub struct HeadRow {
    /// Which reply or request it is, by its place in the table, from 1 on.
    pub kind: u32,
    /// 1 if the line has a message id, 0 if not.
    pub numbered: u32,
    /// The message id, 0 to 2147483647; 0 if there is none.
    pub id: u32,
}

/// Fields that stand one behind the other, as a table that is not finished.
#[derive(Drop)]
pub(crate) struct Fields {
    rows: Vec<FieldRow>,
    text: Vec<u8>,
}

impl Model for Fields {
    ghost Value = { Laid };

    ghost view = { λ f. laid f.rows.items f.text.items };
}

impl Fields {
    /// No field yet.
    pub(crate) fn new(alloc: Global) -> Fields
        ensures { result ≡ laid [] [] }
    {
        Fields {
            rows: Vec::new(alloc),
            text: Vec::new(alloc),
        }
    }

    /// Adds a field. Fails only where memory is refused, as each that adds one.
    fn put(&mut self, bytes: &[u8], number: i64, holds: u32) -> Result<(), AllocError>
        ensures { IfOk result (λ _. self.new
            ≡ laid (self.old.rows ++ row (place (length self.old.text) bytes.now) number holds
            ∷ []) (self.old.text ++ bytes.now)) }
    {
        let text = put_text(&mut self.text, bytes)?;
        self.rows.push(FieldRow {
            text,
            number,
            holds,
            unused: 0,
        })?;
        Ok(())
    }

    /// Adds a field that holds nothing.
    pub(crate) fn put_absent(&mut self) -> Result<(), AllocError>
        ensures { IfOk result (λ _. Adds (Absent ∷ []) self.old self.new) }
    {
        self.put(b"", 0, ABSENT)
    }

    /// Adds a text.
    pub(crate) fn put_text(&mut self, bytes: &[u8]) -> Result<(), AllocError>
        ensures { IfOk result (λ _. Adds (Text bytes.now ∷ []) self.old self.new) }
    {
        self.put(bytes, 0, TEXT)
    }

    /// Adds a number.
    pub(crate) fn put_number(&mut self, number: i64) -> Result<(), AllocError>
        ensures { IfOk result (λ _. Adds (Number number ∷ []) self.old self.new) }
    {
        self.put(b"", number, NUMBER)
    }

    /// The finished table.
    pub(crate) fn finish(self) -> Table<FieldRow>
        ensures { laid result.rows.items result.text.items ≡ self }
    {
        let Fields { rows, text } = self;
        Table { rows, text }
    }
}
