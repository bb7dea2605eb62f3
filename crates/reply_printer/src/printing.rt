//! A reply as its line.
#![tactic(auto, using(crate::proofs::Kept::front_more, crate::proofs::Kept::front_all))]

ghost use Rattle.std.specs.Prelude.{◌≡◌, ◌++◌, ◌≤◌, IfOk, OnErr, is_ok, if◌then◌else◌, vec_capacity};
ghost use Rattle.reply_printer.specs.Fronts.{Keeps, LacksRoom};
ghost use Rattle.reply_kinds.specs.Kinds.{all_printed};
ghost use Rattle.reply_kinds.specs.Replies.{id_text, line_with, printed_line};

use crate::pieces::{put_command, put_end, put_id, whole};
use crate::rows::PrintedRow;
use crate::table::print_by_row;
use crate::{row, with_replies};
use reply_kinds::{CommandWord, Reply};
use std::alloc::AllocError;

/// Appends what a line begins with under the id of a request: `#id `, or nothing where there is none. A
/// line printed behind it with no id is the line under that id. Where memory is refused nothing is
/// appended, and it is refused only where the Vec lacks room.
pub fn print_id(id: Option<u32>, out: &mut Vec<u8>) -> Result<(), AllocError>
    ensures items { out.new.items ≡ (if is_ok result then out.old.items ++ id_text id else out.old.items) }
    ensures wanted { OnErr result (LacksRoom out.old (id_text id)) }
    ensures room { vec_capacity out.old ≤ vec_capacity out.new }
{
    let start = out.len();
    let done = put_id(out, id);
    whole(out, start, done)
}

/// Appends the line of a reply with its LF, behind `#id ` where there is an id. Where memory is
/// refused nothing is appended, and it is refused only where the Vec lacks room for the line.
pub fn print(reply: &Reply<'_>, id: Option<u32>, out: &mut Vec<u8>) -> Result<(), AllocError>
    ensures items { out.new.items
        ≡ (if is_ok result then out.old.items ++ printed_line id reply.now else out.old.items) }
    ensures wanted { OnErr result (LacksRoom out.old (printed_line id reply.now)) }
    ensures room { vec_capacity out.old ≤ vec_capacity out.new }
{
    let start = out.len();
    let done = put_reply(out, id, reply);
    whole(out, start, done)
}

fn put_reply(out: &mut Vec<u8>, id: Option<u32>, reply: &Reply<'_>) -> Result<(), AllocError>
    ensures ok { IfOk result (λ _. out.new.items ≡ out.old.items ++ printed_line id reply.now) }
    ensures wanted { OnErr result (LacksRoom out.old (printed_line id reply.now)) }
    ensures kept { Keeps out.old.items out.new.items }
    ensures room { vec_capacity out.old ≤ vec_capacity out.new }
{
    with_replies!(print_by_row(out, id, reply))
}

/// A whole line: the id, the command word, the arguments and LF.
#[inline(always)]
fn put_line<R: PrintedRow + Drop>(
    out: &mut Vec<u8>,
    id: Option<u32>,
    command: CommandWord,
    row: R,
) -> Result<(), AllocError>
    ensures ok { IfOk result (λ _. out.new.items ≡ out.old.items ++ line_with id command R.kinds (R.values row)) }
    ensures wanted { OnErr result (LacksRoom out.old (line_with id command R.kinds (R.values row))) }
    ensures kept { Keeps out.old.items out.new.items }
    ensures room { vec_capacity out.old ≤ vec_capacity out.new }
{
    put_command(out, id, command)?;
    put_row(out, &row)?;
    put_end(out)
}

/// The arguments of a line: one function for each shape of row, so that the match of all replies stays small.
#[inline(never)]
fn put_row<R: PrintedRow>(out: &mut Vec<u8>, row: &R) -> Result<(), AllocError>
    ensures ok { IfOk result (λ _. out.new.items ≡ out.old.items ++ all_printed R.kinds (R.values row.now)) }
    ensures wanted { OnErr result (LacksRoom out.old (all_printed R.kinds (R.values row.now))) }
    ensures kept { Keeps out.old.items out.new.items }
    ensures room { vec_capacity out.old ≤ vec_capacity out.new }
{
    row.put(out)
}
