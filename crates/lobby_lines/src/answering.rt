//! What a call that gives a table answers.

ghost use Rattle.std.specs.Prelude.{◌≡◌, ℕ, List, IfOk};
ghost use Rattle.lobby_lines.specs.Answers.{Answers, lent};

use crate::status::{NO_MEMORY, NO_ROOM, OK};
use crate::table::{Size, Table};
use std::alloc::AllocError;

/// Gives a table, if memory was not refused to it and the lent memory has room for it: `OK`, `NO_MEMORY` or `NO_ROOM`.
pub fn answer<R: Copy>(
    table: Result<Table<R>, AllocError>,
    rows: &mut [R],
    text: &mut [u8],
    size: &mut Size,
) -> u32
    ensures { (all : List R) (bytes : List ℕ) → IfOk table (λ t. (t.rows.items ≡ all) × (t.text.items ≡ bytes))
        → Answers all bytes result (lent rows.old text.old size.old) (lent rows.new text.new size.new) }
{
    match table {
        Ok(table) => {
            if table.give(rows, text, size) {
                OK
            } else {
                NO_ROOM
            }
        }
        Err(AllocError) => NO_MEMORY,
    }
}
