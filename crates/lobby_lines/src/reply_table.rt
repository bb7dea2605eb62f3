//! The table of replies: of each its number and the kinds of its arguments.

ghost use Rattle.std.specs.Prelude.{◌≡◌, Some, map};
ghost use Rattle.reply_kinds.specs.Replies.{kinds_of};
ghost use Rattle.lobby_lines.specs.Replies.{kind_of, numbered};

use crate::reply_table::ReplyKind::{
    Battle, Flag, Name, Names, NextSentence, OptionalWord, Pairs, Port, Sentence, Small, Status,
    Text, Wide, Word, Words,
};
use reply_kinds::CommandWord;

/// The kind of an argument of a reply, as docs/PROTOCOL.md has them.
#[derive(Clone, Copy)]
pub(crate) enum ReplyKind {
    Word,
    Name,
    /// The number of a battle, 1 to 2147483647.
    Battle,
    /// 0 to 4294967295: a status word, a count, the number of an account.
    Status,
    /// 0 to 65535.
    Port,
    /// 0 to this number.
    Small(u8),
    /// -2147483648 to 4294967295.
    Wide,
    /// 0 or 1.
    Flag,
    OptionalWord,
    Words,
    Names,
    /// The first sentence, behind a space.
    Sentence,
    /// A further one, behind a tab.
    NextSentence,
    Text,
    Pairs,
}

/// The number of a reply's command word, from 1 on, in the order of `CommandWord`.
pub(crate) fn number_of(command: CommandWord) -> u32
    ensures { numbered result ≡ Some command }
{
    command as u32 + 1
}

/// The kinds of the arguments behind a command word, in their order: a line for each row.
#[rattlefmt::skip]
pub(crate) fn kinds_of(command: CommandWord) -> &'static [ReplyKind]
    ensures { map kind_of result.now ≡ kinds_of command }
{
    match command {
        // Written by tools/protocol.py of protocol/replies.toml: kinds.
        CommandWord::TasServer => &[Word, Word, Port, Small(1)],
        CommandWord::AddUser => &[Name, Word, Wide, Status],
        CommandWord::ClientStatus | CommandWord::Channel => &[Name, Status],
        CommandWord::Denied | CommandWord::Motd | CommandWord::ServerMsg | CommandWord::OpenBattleFailed
        | CommandWord::JoinBattleFailed => &[Text],
        CommandWord::Accepted | CommandWord::RemoveUser | CommandWord::Join | CommandWord::Ring => &[Name],
        CommandWord::Clients => &[Name, Names],
        CommandWord::Joined | CommandWord::Left => &[Name, Name],
        CommandWord::Said | CommandWord::SaidEx => &[Name, Name, Text],
        CommandWord::JoinFailed | CommandWord::SayPrivate | CommandWord::SaidPrivate | CommandWord::SaidBattle
        | CommandWord::SaidBattleEx => &[Name, Text],
        CommandWord::BattleOpened => &[
            Battle, Small(1), Small(2), Name, Word, Port, Port, Flag, Wide, Wide,
            Sentence, NextSentence, NextSentence, NextSentence, NextSentence,
        ],
        CommandWord::OpenBattle | CommandWord::BattleClosed => &[Battle],
        CommandWord::JoinBattle => &[Battle, Wide],
        CommandWord::JoinBattleRequest => &[Name, Word],
        CommandWord::JoinedBattle => &[Battle, Name, OptionalWord],
        CommandWord::LeftBattle => &[Battle, Name],
        CommandWord::UpdateBattleInfo => &[Battle, Port, Flag, Wide, Sentence],
        CommandWord::ClientBattleStatus => &[Name, Status, Wide],
        CommandWord::AddBot => &[Battle, Word, Name, Status, Wide, Sentence],
        CommandWord::UpdateBot => &[Battle, Word, Status, Wide],
        CommandWord::RemoveBot => &[Battle, Word],
        CommandWord::AddStartRect => &[Small(15), Small(200), Small(200), Small(200), Small(200)],
        CommandWord::RemoveStartRect => &[Small(15)],
        CommandWord::SetScriptTags => &[Pairs],
        CommandWord::RemoveScriptTags | CommandWord::DisableUnits | CommandWord::EnableUnits => &[Words],
        CommandWord::LoginInfoEnd | CommandWord::Pong | CommandWord::EndOfChannels | CommandWord::RequestBattleStatus
        | CommandWord::ForceQuitBattle | CommandWord::EnableAllUnits => &[],
        // End of what is written: kinds.
    }
}
