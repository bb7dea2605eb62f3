//! A line taken apart before its arguments are read.

ghost use Rattle.std.specs.Prelude.{◌≡◌, IfNone, IfOk, IfSome, None, Some};
ghost use Rattle.reply_kinds.specs.declared.Reply.TheVariants as reply;
ghost use Rattle.reply_kinds.specs.declared.command_word.CommandWord.TheVariants as command;
ghost use Rattle.reply_grammar.specs.Heads.{with_id};
ghost use Rattle.reply_grammar.specs.Lines.{read_arguments, read_body, read_line, read_numbered};

use crate::command_words::named;
use crate::reading::arguments;
use crate::shapes::{name_and_status, two_names_and_text};
use crate::{ReadError, id_of};
use line_words::{NameBuf, TextBuf, split_at_byte};
use reply_kinds::{CommandWord, Reply};
use std::alloc::{AllocError, Global};

/// A line whose command is known and whose arguments are not read yet. Who has a use for one kind of
/// line alone reads the arguments of that kind, and makes no reply of the others.
#[derive(Clone, Copy)]
pub struct Head<'a> {
    /// The message id in front of the line, 0 to 2147483647, if there is one.
    pub id: Option<u32>,
    /// The command.
    pub command: CommandWord,
    /// The bytes behind the command word.
    pub arguments: &'a [u8],
}

/// The head of a line without its LF. None where no id and command word stand in front, and then the
/// line reads as no pair of an id and a reply.
#[tactic(auto, unfolding(crate::specs::Lines::read_line))]
pub fn read_head(line: &[u8]) -> Option<Head<'_>>
    ensures some { IfSome result (λ head.
        read_line line.now ≡ with_id head.id (read_arguments head.command head.arguments.now)) }
    ensures none { IfNone result (read_line line.now ≡ None) }
{
    match line {
        [] => None,
        [first, rest @ ..] => {
            if *first == b'#' {
                numbered_head(rest)
            } else {
                body_head(None, line)
            }
        }
    }
}

#[tactic(auto, unfolding(crate::specs::Lines::read_numbered))]
fn numbered_head(bytes: &[u8]) -> Option<Head<'_>>
    ensures some { IfSome result (λ head.
        read_numbered bytes.now ≡ with_id head.id (read_arguments head.command head.arguments.now)) }
    ensures none { IfNone result (read_numbered bytes.now ≡ None) }
{
    let (digits, rest) = split_at_byte(bytes, b' ');
    match id_of(digits) {
        Some(id) => match rest {
            [] => None,
            [_, text @ ..] => body_head(Some(id), text),
        },
        None => None,
    }
}

#[tactic(auto, unfolding(crate::specs::Lines::read_body))]
fn body_head(id: Option<u32>, bytes: &[u8]) -> Option<Head<'_>>
    ensures some { IfSome result (λ head.
        with_id id (read_body bytes.now) ≡ with_id head.id (read_arguments head.command head.arguments.now)) }
    ensures none { IfNone result (read_body bytes.now ≡ None) }
{
    let (word, arguments) = split_at_byte(bytes, b' ');
    match named(word) {
        Some(command) => Some(Head {
            id,
            command,
            arguments,
        }),
        None => None,
    }
}

impl<'a> Head<'a> {
    /// The reply of the arguments behind this command, or None where they are not of its kinds. Fails
    /// only where memory is refused.
    pub fn reply(self, alloc: Global) -> Result<Option<Reply<'static>>, AllocError>
        ensures { IfOk result (λ found. found ≡ read_arguments self.entry.command self.entry.arguments.now) }
    {
        match arguments(alloc, self.command, self.arguments) {
            Ok(reply) => Ok(Some(reply)),
            Err(ReadError::Memory) => Err(AllocError),
            Err(ReadError::Unread) => Ok(None),
        }
    }
}

/// The arguments of `CLIENTSTATUS`, a user and its status word, or None where these are none. Fails
/// only where memory is refused.
pub fn read_client_status(
    alloc: Global,
    arguments: &[u8],
) -> Result<Option<(NameBuf, u32)>, AllocError>
    ensures some { IfOk result (λ found. IfSome found (λ x.
        read_arguments command.ClientStatus arguments.now ≡ Some (reply.ClientStatus x.0 x.1))) }
    ensures none { IfOk result (λ found. IfNone found (read_arguments command.ClientStatus arguments.now ≡ None)) }
{
    match name_and_status(alloc, arguments) {
        Ok(found) => Ok(Some(found)),
        Err(ReadError::Memory) => Err(AllocError),
        Err(ReadError::Unread) => Ok(None),
    }
}

/// The arguments of `SAID`, a channel, a user and a text, or None where these are none. Fails only
/// where memory is refused.
pub fn read_said(
    alloc: Global,
    arguments: &[u8],
) -> Result<Option<(NameBuf, NameBuf, TextBuf)>, AllocError>
    ensures some { IfOk result (λ found. IfSome found (λ x.
        read_arguments command.Said arguments.now ≡ Some (reply.Said x.0 x.1 x.2))) }
    ensures none { IfOk result (λ found. IfNone found (read_arguments command.Said arguments.now ≡ None)) }
{
    match two_names_and_text(alloc, arguments) {
        Ok(found) => Ok(Some(found)),
        Err(ReadError::Memory) => Err(AllocError),
        Err(ReadError::Unread) => Ok(None),
    }
}
