//! Lines of the server taken apart, and lines of a client made.

ghost use Rattle.std.specs.Prelude.{◌≡◌, ◌∷◌, [], IsTrue, nat_eq};
ghost use Rattle.std.specs.List.{list_any};
ghost use Rattle.lobby_lines.specs.Answers.{lent, no_memory, no_reply, ok, Shows};
ghost use Rattle.reply_kinds.specs.Replies.{Line, ReadsAs};
ghost use Rattle.lobby_lines.specs.Fields.{field_row, field_shown};
ghost use Rattle.lobby_lines.specs.Replies.{fields_of, HeadOf};
ghost use Rattle.lobby_lines.specs.Requests.{request_of};
ghost use Rattle.lobby_c.specs.Lines.{Gave, Told, status_of};

use lobby_lines::{
    BAD_FIELDS, FieldRow, HeadRow, NO_COMMAND, NO_MEMORY, NO_REPLY, NO_ROOM, NOTHING_LISTED, OK,
    OUT_OF_RANGE, REQUEST_TOO_LONG, ReplyRead, RequestError, Size, WORD_SKIPPED, answer,
    print_request, read_reply,
};
use std::alloc::Global;

/// The head and the fields of the reply that a line, without its LF, reads as: `OK`, `NO_ROOM` or `NO_MEMORY`, as for a
/// table. `NO_REPLY` where it reads as none. `head` is written with the table alone.
#[unsafe(no_mangle)]
pub extern "C" fn lobby_read_reply(
    alloc: Global,
    line: &[u8],
    head: &mut HeadRow,
    rows: &mut [FieldRow],
    text: &mut [u8],
    size: &mut Size,
) -> u32
    ensures shown { (pair : Line) → ReadsAs line.now pair
        → Shows field_row field_shown (fields_of pair.1) result (lent rows.old text.old size.old)
        (lent rows.new text.new size.new) }
    ensures head { (pair : Line) → ReadsAs line.now pair → result ≡ ok → HeadOf head.new pair }
    ensures other { ((pair : Line) → ReadsAs line.now pair → ⊥)
        → IsTrue (list_any (nat_eq result) (no_reply ∷ no_memory ∷ [])) }
    ensures kept { (result ≡ ok → ⊥) → head.new ≡ head.old }
    ensures none { result ≡ no_reply → lent rows.new text.new size.new ≡ lent rows.old text.old size.old }
    ensures refused { result ≡ no_memory → lent rows.new text.new size.new ≡ lent rows.old text.old size.old }
{
    match read_reply(alloc, line) {
        Ok(
            Some(
                ReplyRead {
                    head: found,
                    fields,
                },
            ),
        ) => {
            let status = answer(Ok(fields), rows, text, size);
            if status == OK {
                *head = found;
            }
            status
        }
        Ok(None) => NO_REPLY,
        Err(_) => NO_MEMORY,
    }
}

/// Prints the request of this kind, message id and fields into the front of `line`: `OK`, and `size` is the length of
/// its line. `NO_ROOM`, and `size` alone changes. Where there is no such request, or memory is refused, the answer says
/// why, and nothing changes.
#[unsafe(no_mangle)]
pub extern "C" fn lobby_print_request(
    alloc: Global,
    head: &HeadRow,
    fields: &[FieldRow],
    text: &[u8],
    line: &mut [u8],
    size: &mut usize,
) -> u32
    ensures { Told (request_of head.now fields.now text.now) result line.old size.old line.new size.new }
{
    match print_request(alloc, head, fields, text) {
        Ok(made) => give(&made, line, size),
        Err(error) => status_of(error),
    }
}

/// Writes a line into lent memory, if there is room for it. Tells its length in any case.
fn give(made: &[u8], line: &mut [u8], size: &mut usize) -> u32
    ensures { Gave made.now result line.old line.new size.new }
{
    *size = made.len();
    if line.len() < made.len() {
        return NO_ROOM;
    }
    line[..made.len()].copy_from_slice(made);
    OK
}

/// Why a request is not printed, as a number for C.
fn status_of(error: RequestError) -> u32
    ensures { result ≡ status_of error }
{
    match error {
        RequestError::NoCommand => NO_COMMAND,
        RequestError::BadFields => BAD_FIELDS,
        RequestError::OutOfRange => OUT_OF_RANGE,
        RequestError::NothingListed => NOTHING_LISTED,
        RequestError::Skipped => WORD_SKIPPED,
        RequestError::TooLong => REQUEST_TOO_LONG,
        RequestError::Memory => NO_MEMORY,
    }
}
