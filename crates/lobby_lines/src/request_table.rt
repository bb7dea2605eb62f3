//! The table of requests, by that of commands: of each its command word and the kinds of its arguments.

ghost use Rattle.std.specs.Prelude.{◌≡◌, IfNone, IfSome, None};
ghost use Rattle.command_grammar.specs.Table.{entries};
ghost use Rattle.lobby_lines.specs.Requests.{entry_at};
ghost use Rattle.lobby_lines.specs.RequestTable.{AreRows, IsRowOf};

use crate::request_table::RequestKind::{
    Flag, LoginFlags, Name, Natural, OptionalText, OptionalWord, Pairs, Sentence, Text, Wide, Word,
    Words,
};
use command_grammar::with_commands;

/// The kind of an argument of a request, as docs/PROTOCOL.md has them.
#[derive(Clone, Copy)]
pub(crate) enum RequestKind {
    Word,
    OptionalWord,
    Name,
    /// 0 to this number.
    Natural(u32),
    /// -2147483648 to 4294967295.
    Wide,
    /// 0 or 1.
    Flag,
    Sentence,
    Text,
    OptionalText,
    /// 1 where who joins a battle of the user asks it first, else 0.
    LoginFlags,
    Pairs,
    Words,
}

/// A line of the table.
pub(crate) struct RequestRow {
    pub(crate) word: &'static [u8],
    /// The kinds of the arguments, in their order.
    pub(crate) kinds: &'static [RequestKind],
}

/// The rows of all commands.
macro_rules! rows_of_commands {
    (()
        $($part:ident {
            $($name:ident $word:literal { $($field:ident: $kind:ident $(($high:literal))?),* } $(=> $form:ident)?)*
        })*
    ) => {
        [$($(RequestRow { word: $word, kinds: &[$($kind $(($high))?),*] }),*),*]
    };
}

// Written by tools/protocol.py of protocol/commands.toml: count.
/// The requests in the order of their numbers, from 1 on.
static REQUESTS: [RequestRow; 36] = with_commands!(rows_of_commands());
// End of what is written: count.

/// The request of this number.
pub(crate) fn row_of(kind: u32) -> Option<&'static RequestRow>
    ensures some { IfSome result (λ row. IsRowOf (entry_at kind) row.now) }
    ensures none { IfNone result (entry_at kind ≡ None) }
{
    match kind.checked_sub(1) {
        Some(index) => requests().get(index as usize),
        None => None,
    }
}

/// The whole table.
#[tactic(auto, unfolding(command_grammar::specs::Table::entries, command_grammar::specs::Table::battle_entries, command_grammar::specs::Table::room_entries, command_grammar::specs::Table::host_entries))]
fn requests() -> &'static [RequestRow]
    ensures { AreRows entries result.now }
{
    &REQUESTS
}
