//! What keeps a request from being printed.

ghost use Rattle.std.specs.Prelude.{◌≡◌};
ghost use Rattle.command_grammar.specs.Table.{arguments_of, given};
ghost use Rattle.request_printer.specs.Faults.{argument_fault, fault_in, fault_of, is_id};
ghost use Rattle.request_printer.specs.Writing.{asked};

use crate::argument_rows::WrittenRow;
use crate::error::PrintError;
use command_grammar::Command;

/// The largest message id.
const ID_LIMIT: u32 = 2147483647;

/// What keeps the request of this command, with the arguments of this row, which are its own, from being printed,
/// however long its line is.
pub(crate) fn fault_of<R: WrittenRow>(
    id: Option<u32>,
    command: &Command,
    row: &R,
) -> Option<PrintError>
    requires row { arguments_of command.now ≡ given R.kinds (R.values row.now) }
    ensures { result ≡ fault_of (asked id command.now) }
{
    if is_id(id) {
        argument_fault(command, row)
    } else {
        Some(PrintError::OutOfRange)
    }
}

fn is_id(id: Option<u32>) -> bool
    ensures { result ≡ is_id id }
{
    match id {
        None => true,
        Some(id) => id <= ID_LIMIT,
    }
}

fn argument_fault<R: WrittenRow>(command: &Command, row: &R) -> Option<PrintError>
    requires row { arguments_of command.now ≡ given R.kinds (R.values row.now) }
    ensures { result ≡ argument_fault command.now }
{
    fault_in(row)
}

fn fault_in<R: WrittenRow>(row: &R) -> Option<PrintError>
    ensures { result ≡ fault_in R.kinds (R.values row.now) }
{
    if !row.is_in_range() {
        Some(PrintError::OutOfRange)
    } else if !row.is_listed() {
        Some(PrintError::NothingListed)
    } else if row.has_gap() {
        Some(PrintError::Skipped)
    } else {
        None
    }
}
