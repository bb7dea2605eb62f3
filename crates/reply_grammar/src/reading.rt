//! A line read back as its reply.

ghost use Rattle.std.specs.Prelude.{IfNone, IfOk, IfSome};
ghost use Rattle.reply_grammar.specs.Lines.{read_arguments};
ghost use Rattle.reply_fields.specs.Fields.{Gives};
ghost use Rattle.reply_kinds.specs.Replies.{Line, ReadsAs};

use crate::ReadError;
use crate::heads::read_head;
use crate::rows::read_all;
use crate::table::read_by_row;
use reply_kinds::{CommandWord, Reply};
use reply_printer::{row, with_replies};
use std::alloc::{AllocError, Global};

/// The pair of a message id and a reply that a line, without its LF, reads as: it keeps its kinds
/// and prints as the line. Its fields are owned. None where there is no such pair. Fails only where memory is refused.
pub fn read_reply(
    alloc: Global,
    line: &[u8],
) -> Result<Option<(Option<u32>, Reply<'static>)>, AllocError>
    ensures some { IfOk result (λ found. IfSome found (ReadsAs line.now)) }
    ensures none { IfOk result (λ found. IfNone found ((pair : Line) → ReadsAs line.now pair → ⊥)) }
{
    match read_head(line) {
        Some(head) => match arguments(alloc, head.command, head.arguments) {
            Ok(reply) => Ok(Some((head.id, reply))),
            Err(ReadError::Memory) => Err(AllocError),
            Err(ReadError::Unread) => Ok(None),
        },
        None => Ok(None),
    }
}

/// The reply of the arguments behind a command.
pub(crate) fn arguments(
    alloc: Global,
    command: CommandWord,
    bytes: &[u8],
) -> Result<Reply<'static>, ReadError>
    ensures { Gives (λ r. r) result (read_arguments command bytes.now) }
{
    with_replies!(read_by_row(alloc, bytes, command))
}
