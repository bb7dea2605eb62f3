//! A line of the server, read as the fields of its reply.

ghost use Rattle.std.specs.Prelude.{◌≡◌, ℕ, List, IfNone, IfOk, IfSome};
ghost use Rattle.lobby_lines.specs.Layout.{IsTable};
ghost use Rattle.reply_kinds.specs.Replies.{Line, ReadsAs};
ghost use Rattle.lobby_lines.specs.Fields.{field_row, field_shown};
ghost use Rattle.lobby_lines.specs.Replies.{fields_of, HeadOf, IdIs};

use crate::fields::{FieldRow, Fields, HeadRow};
use crate::reply_arguments::put_arguments;
use crate::reply_table::{kinds_of, number_of};
use crate::table::Table;
use reply_grammar::{ReadError, read_head};
use std::alloc::{AllocError, Global};

/// The reply that a line prints as.
#[derive(Drop)]
pub struct ReplyRead {
    pub head: HeadRow,
    /// Its fields, in the order of docs/PROTOCOL.md, section 4.
    pub fields: Table<FieldRow>,
}

/// The head and the fields of the reply that a line, without its LF, reads as, as `read_reply` of `reply_grammar`: it
/// keeps its kinds and prints as the line. None where there is no such reply. Fails only where memory is refused.
pub fn read_reply(alloc: Global, line: &[u8]) -> Result<Option<ReplyRead>, AllocError>
    ensures some { IfOk result (λ found. IfSome found (λ read.
        (pair : Line) × ReadsAs line.now pair × HeadOf read.head pair
        × IsTable field_row field_shown (fields_of pair.1) read.fields.rows.items read.fields.text.items)) }
    ensures none { IfOk result (λ found. IfNone found ((pair : Line) → ReadsAs line.now pair → ⊥)) }
{
    let Some(head) = read_head(line) else {
        return Ok(None);
    };
    let mut fields = Fields::new(alloc);
    match put_arguments(alloc, kinds_of(head.command), head.arguments, &mut fields) {
        Ok(()) => Ok(Some(ReplyRead {
            head: head_row(number_of(head.command), head.id),
            fields: fields.finish(),
        })),
        Err(ReadError::Memory) => Err(AllocError),
        Err(ReadError::Unread) => Ok(None),
    }
}

/// The head of a line of this kind and id.
fn head_row(kind: u32, id: Option<u32>) -> HeadRow
    ensures kind { result.kind ≡ kind }
    ensures id { IdIs result id }
{
    match id {
        Some(id) => HeadRow {
            kind,
            numbered: 1,
            id,
        },
        None => HeadRow {
            kind,
            numbered: 0,
            id: 0,
        },
    }
}
