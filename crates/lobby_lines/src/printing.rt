//! A request as its line.

ghost use Rattle.std.specs.Prelude.{◌≡◌, IfErr, IfOk};
ghost use Rattle.lobby_lines.specs.Requests.{id_of, request_of};
ghost use Rattle.lobby_lines.specs.Writing.{IsLine, IsRefused};

use crate::error::RequestError;
use crate::fields::{FieldRow, HeadRow};
use crate::request_arguments::put_arguments;
use crate::request_table::row_of;
use command_grammar::LINE_LIMIT;
use reply_printer::pieces::{put_end, put_id};
use std::alloc::Global;

/// The line, with its LF, of the request of this kind, message id and fields, as `print_request` of `request_printer`
/// prints it. The fields stand in the order of docs/PROTOCOL.md, section 3, and their texts are places in `text`. Fails
/// where there is no such request, where it has no line, or where memory is refused.
pub fn print_request(
    alloc: Global,
    head: &HeadRow,
    fields: &[FieldRow],
    text: &[u8],
) -> Result<Vec<u8>, RequestError>
    ensures printed { IfOk result (λ line. IsLine (request_of head.now fields.now text.now) line.items) }
    ensures refused { IfErr result (λ e. IsRefused e (request_of head.now fields.now text.now)) }
{
    let Some(row) = row_of(head.kind) else {
        return Err(RequestError::NoCommand);
    };
    let id = id_of(head)?;
    let mut line = Vec::new(alloc);
    put_id(&mut line, id)?;
    line.extend_from_slice(row.word)?;
    put_arguments(row.kinds, fields, text, &mut line)?;
    if LINE_LIMIT < line.len() {
        return Err(RequestError::TooLong);
    }
    put_end(&mut line)?;
    Ok(line)
}

/// The message id, 0 to 2147483647, if there is one.
fn id_of(head: &HeadRow) -> Result<Option<u32>, RequestError>
    ensures { result ≡ id_of head.now }
{
    if head.numbered == 0 {
        return Ok(None);
    }
    if 2147483647 < head.id {
        return Err(RequestError::OutOfRange);
    }
    Ok(Some(head.id))
}
