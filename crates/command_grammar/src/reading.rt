//! Reading a line.

ghost use Rattle.std.specs.Prelude.{◌≡◌, IfOk, OnErr, IsTrue};
ghost use Rattle.command_grammar.specs.declared.command.Request.{Request};
ghost use Rattle.command_grammar.specs.Owning.{owns_bytes};
ghost use Rattle.command_grammar.specs.Readers.{Gives, without_spaces, needs_memory, command_of};
ghost use Rattle.command_grammar.specs.Reading.{text_of, id_of, with_id, numbered};
ghost use Rattle.command_grammar.specs.Reads.{Reads};

use crate::table::read_arguments;
use crate::{Command, ReadError, ReadFault, Request};
use line_words::{Words, is_text, read_number, split_at_byte};
use std::alloc::{AllocError, Global};

/// The largest message id: clients keep it as a number of 32 bits with a sign, and would not know a
/// larger one again.
const ID_LIMIT: i64 = 2147483647;

/// The most bytes of a client's line before its LF, a CR that is dropped counted. Without a limit one
/// client could fill the memory by a line that never ends.
pub const LINE_LIMIT: usize = 8_192;

/// What the line asks for: the one request that it reads as. `line` is a client's line without its
/// end, whatever its bytes and its length. A line that is no command is a request too: its command
/// says which fault comes first.
///
/// Memory is taken for the bytes that a command owns, and only once the whole line was found to be
/// that command. `AllocError` comes where that memory is refused, and nothing is kept then.
pub fn read_request(alloc: Global, line: &[u8]) -> Result<Request, AllocError>
    ensures reads { IfOk result (λ request. Reads line.now request) }
    ensures only { IfOk result (λ request. (other : Request) → Reads line.now other
        → other ≡ request) }
    ensures refused { OnErr result ((request : Request) → Reads line.now request
        → IsTrue (owns_bytes request.command)) }
{
    let (id, text) = read_id(without_spaces(line));
    let command = read_text(alloc, text)?;
    Ok(Request { id, command })
}

/// The line without the spaces at its front.
fn without_spaces(line: &[u8]) -> &[u8]
    ensures { result.now ≡ without_spaces line.now }
{
    let mut words = Words::new(line);
    words.skip_spaces();
    words.rest()
}

/// The id, if there is one, and the text behind it.
#[tactic(auto, unfolding(crate::specs::Reading::numbered))]
fn read_id(line: &[u8]) -> (Option<u32>, &[u8])
    ensures { (result.0, result.1.now) ≡ numbered line.now }
{
    match line {
        [] => (None, line),
        [first, rest @ ..] => {
            if *first != b'#' {
                return (None, line);
            }
            let (digits, behind) = split_at_byte(rest, b' ');
            with_id(line, id_of(digits), behind)
        }
    }
}

/// An id counts where at least one space is behind it.
fn with_id<'a>(line: &'a [u8], id: Option<u32>, behind: &'a [u8]) -> (Option<u32>, &'a [u8])
    ensures { (result.0, result.1.now) ≡ with_id line.entry.now id behind.entry.now }
{
    match id {
        None => (None, line),
        Some(id) => match behind {
            [] => (None, line),
            [_, ..] => (Some(id), without_spaces(behind)),
        },
    }
}

/// The id that these digits are.
fn id_of(digits: &[u8]) -> Option<u32>
    ensures { result ≡ id_of digits.now }
{
    match digits {
        [b'-', ..] => None,
        _ => match read_number(digits, 0, ID_LIMIT) {
            Some(id) => Some(id as u32),
            None => None,
        },
    }
}

/// A fault is a request too.
fn read_text(alloc: Global, text: &[u8]) -> Result<Command, AllocError>
    ensures ok { IfOk result (λ c. c ≡ command_of (text_of text.now)) }
    ensures err { OnErr result (IsTrue (needs_memory (text_of text.now))) }
{
    match read_command(alloc, text) {
        Ok(command) => Ok(command),
        Err(ReadError::Fault(fault)) => Ok(Command::Unread(fault)),
        Err(ReadError::Memory(error)) => Err(error),
    }
}

/// The command word, and its arguments behind it.
#[tactic(auto, unfolding(crate::specs::Reading::text_of))]
fn read_command(alloc: Global, text: &[u8]) -> Result<Command, ReadError>
    ensures { Gives result (text_of text.now) }
{
    if text.is_empty() {
        return Ok(Command::Blank);
    }
    if !is_text(text) {
        return Err(ReadError::Fault(ReadFault::BadByte));
    }
    let (word, rest) = split_at_byte(text, b' ');
    read_arguments(alloc, word, rest)
}
