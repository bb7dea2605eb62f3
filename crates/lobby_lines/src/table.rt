//! A table: its rows and its text.

ghost use Rattle.std.specs.Prelude.{◌≡◌, ◌++◌, ℕ, List, IfOk, OnOk, length, true, false, if◌then◌else◌};
ghost use Rattle.lobby_lines.specs.Answers.{lent, size_of, fits, filled};
ghost use Rattle.lobby_lines.specs.Layout.{place, IsTable};

use std::alloc::{AllocError, Global};

/// A place in the text of a table.
#[repr(C)]
#[derive(Clone, Copy)]
pub struct Place {
    pub start: usize,
    pub length: usize,
}

/// How many rows a table has, and how many bytes of text.
#[repr(C)]
#[derive(Clone, Copy)]
pub struct Size {
    pub rows: usize,
    pub text: usize,
}

/// What stands in a table as a row `R`.
pub trait Listed<R: Copy> {
    ghost row_at: { ℕ → Self → R };

    ghost shown: { Self → List ℕ };

    /// The row, once its texts stand at the end of the table's text. Fails only where memory is refused.
    fn put(&self, text: &mut Vec<u8>) -> Result<R, AllocError>
        ensures made { IfOk result (λ made. made ≡ row_at (length text.old.items) self.now) }
        ensures text { OnOk result (text.new.items ≡ text.old.items ++ shown self.now) };
}

/// The rows and the text of a table.
#[derive(Drop)]
pub struct Table<R: Copy> {
    pub rows: Vec<R>,
    pub text: Vec<u8>,
}

/// Puts bytes at the end of a table's text. Fails only where memory is refused.
pub fn put_text(text: &mut Vec<u8>, bytes: &[u8]) -> Result<Place, AllocError>
    ensures place { IfOk result (λ at. at ≡ place (length text.old.items) bytes.now) }
    ensures text { OnOk result (text.new.items ≡ text.old.items ++ bytes.now) }
{
    let start = text.len();
    text.extend_from_slice(bytes)?;
    Ok(Place {
        start,
        length: bytes.len(),
    })
}

impl<R: Copy> Table<R> {
    /// The table of these items, in their order. Fails only where memory is refused.
    #[tactic(auto, using(crate::proofs::Laying::none))]
    pub fn of<T: Listed<R>>(alloc: Global, items: &[T]) -> Result<Table<R>, AllocError>
        ensures { IfOk result (λ table. IsTable T.row_at T.shown items.now table.rows.items table.text.items) }
    {
        let mut rows = Vec::new(alloc);
        let mut text = Vec::new(alloc);
        for item in items {
            let row = item.put(&mut text)?;
            rows.push(row)?;
        }
        Ok(Table { rows, text })
    }

    /// Writes the table into lent memory, if that has room for it, and tells whether it has. Tells the size in any
    /// case.
    pub fn give(&self, rows: &mut [R], text: &mut [u8], size: &mut Size) -> bool
        ensures fits { result ≡ fits self.now.rows.items self.now.text.items (lent rows.old text.old size.old) }
        ensures given { result ≡ true → lent rows.new text.new size.new
            ≡ filled self.now.rows.items self.now.text.items (lent rows.old text.old size.old) }
        ensures kept { result ≡ false → lent rows.new text.new size.new
            ≡ lent rows.old text.old (size_of self.now.rows.items self.now.text.items) }
    {
        *size = Size {
            rows: self.rows.len(),
            text: self.text.len(),
        };
        let is_fit = size.rows <= rows.len() && size.text <= text.len();
        if is_fit {
            rows[..size.rows].copy_from_slice(&self.rows);
            text[..size.text].copy_from_slice(&self.text);
        }
        is_fit
    }
}
