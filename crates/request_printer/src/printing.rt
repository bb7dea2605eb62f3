//! A request as its line.
#![tactic(auto, using(reply_printer::proofs::Kept::front_more, reply_printer::proofs::Kept::front_all))]

ghost use Rattle.std.specs.Prelude.{◌≡◌, ◌≤◌, ◌++◌, [], ◌∷◌, length, Err, IfErr, IfOk, OnErr, OnOk, vec_capacity};
ghost use Rattle.command_grammar.specs.Table.{arguments_of, given};
ghost use Rattle.reply_printer.specs.Fronts.{Keeps, LacksRoom};
ghost use Rattle.request_printer.specs.Faults.{LineRefused, Printed, Refuses, WantsRoom, line_limit};
ghost use Rattle.request_printer.specs.Writing.{HasWord, argument_text, asked, line_under};

use crate::argument_rows::WrittenRow;
use crate::arguments::{LoginFlags, Natural};
use crate::error::PrintError;
use crate::faults::fault_of;
use crate::table::{argument, print_by_row, row};
use command_grammar::{Command, LINE_LIMIT, Request, with_commands};
use reply_printer::pieces::{put_end, put_id, whole};
use std::alloc::AllocError;

/// Appends the line of a request with its LF: `#id ` where there is an id, the command word, and the
/// arguments as the table of commands has them, each behind one space, sentences behind the first and
/// pairs behind tabs. `read_request` of the line without its LF gives this request and no other. No line
/// that reads so is shorter.
///
/// Where a request has no such line, or memory is refused, nothing is appended, and the error says why. Memory is
/// refused only where the Vec lacks room for the line.
pub fn print_request(request: &Request, out: &mut Vec<u8>) -> Result<(), PrintError>
    ensures printed { OnOk result (Printed request.now out.old.items out.new.items) }
    ensures refused { IfErr result (λ e. Refuses e request.now) }
    ensures wanted { result ≡ Err PrintError.Memory → WantsRoom request.now out.old }
    ensures kept { OnErr result (out.new.items ≡ out.old.items) }
{
    print_command(out, request.id, &request.command)
}

#[tactic(auto, using(crate::proofs::Named::named))]
fn print_command(out: &mut Vec<u8>, id: Option<u32>, command: &Command) -> Result<(), PrintError>
    ensures printed { OnOk result (Printed (asked id command.now) out.old.items out.new.items) }
    ensures refused { IfErr result (λ e. Refuses e (asked id command.now)) }
    ensures wanted { result ≡ Err PrintError.Memory → WantsRoom (asked id command.now) out.old }
    ensures kept { OnErr result (out.new.items ≡ out.old.items) }
{
    with_commands!(print_by_row(out, id, command))
}

/// Prints a command under this word with the arguments of this row, which are its own.
fn print_row<R: WrittenRow + Drop>(
    out: &mut Vec<u8>,
    id: Option<u32>,
    command: &Command,
    word: &[u8],
    row: R,
) -> Result<(), PrintError>
    requires word { HasWord command.now word.now }
    requires row { arguments_of command.now ≡ given R.kinds (R.values row) }
    ensures printed { OnOk result (Printed (asked id command.now) out.old.items out.new.items) }
    ensures refused { IfErr result (λ e. Refuses e (asked id command.now)) }
    ensures wanted { result ≡ Err PrintError.Memory → WantsRoom (asked id command.now) out.old }
    ensures kept { OnErr result (out.new.items ≡ out.old.items) }
{
    match fault_of(id, command, &row) {
        Some(fault) => Err(fault),
        None => print_line(out, id, command, word, &row),
    }
}

/// The line under this word, if it is short enough.
fn print_line<R: WrittenRow>(
    out: &mut Vec<u8>,
    id: Option<u32>,
    command: &Command,
    word: &[u8],
    row: &R,
) -> Result<(), PrintError>
    requires row { arguments_of command.now ≡ given R.kinds (R.values row.now) }
    ensures line { OnOk result (out.new.items ≡ out.old.items
        ++ (line_under (asked id command.now) word.now ++ 10 ∷ [])) }
    ensures fits { OnOk result (length (line_under (asked id command.now) word.now) ≤ line_limit) }
    ensures refused { IfErr result (λ e. LineRefused e (line_under (asked id command.now) word.now)) }
    ensures wanted { result ≡ Err PrintError.Memory
        → LacksRoom out.old (line_under (asked id command.now) word.now ++ 10 ∷ []) }
    ensures kept { OnErr result (out.new.items ≡ out.old.items) }
{
    let start = out.len();
    let done = put_request(out, id, command, word, row);
    whole(out, start, done)?;
    if LINE_LIMIT < out.len() - start - 1 {
        out.truncate(start);
        return Err(PrintError::TooLong);
    }
    Ok(())
}

/// The same, however long.
fn put_request<R: WrittenRow>(
    out: &mut Vec<u8>,
    id: Option<u32>,
    command: &Command,
    word: &[u8],
    row: &R,
) -> Result<(), AllocError>
    requires row { arguments_of command.now ≡ given R.kinds (R.values row.now) }
    ensures ok { OnOk result (out.new.items ≡ out.old.items
        ++ (line_under (asked id command.now) word.now ++ 10 ∷ [])) }
    ensures wanted { OnErr result (LacksRoom out.old (line_under (asked id command.now) word.now ++ 10 ∷ [])) }
    ensures kept { Keeps out.old.items out.new.items }
    ensures room { vec_capacity out.old ≤ vec_capacity out.new }
{
    put_id(out, id)?;
    out.extend_from_slice(word)?;
    put_row(out, command, row)?;
    put_end(out)?;
    Ok(())
}

/// The arguments of a command.
fn put_row<R: WrittenRow>(out: &mut Vec<u8>, command: &Command, row: &R) -> Result<(), AllocError>
    requires row { arguments_of command.now ≡ given R.kinds (R.values row.now) }
    ensures ok { IfOk result (λ _. out.new.items ≡ out.old.items ++ argument_text command.now) }
    ensures wanted { OnErr result (LacksRoom out.old (argument_text command.now)) }
    ensures kept { Keeps out.old.items out.new.items }
    ensures room { vec_capacity out.old ≤ vec_capacity out.new }
{
    row.put(out, b' ')
}
