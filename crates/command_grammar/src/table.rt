//! Reading by the table of commands.
//!
//! A word is looked for in one part of the table after another, as `specs/Table.antt` has
//! them. Each part is a function, since one over all rows is proved slower.

ghost use Rattle.std.specs.Prelude.{◌≡◌, IsTrue};
ghost use Rattle.line_words.specs.Bytes.{is_text};
ghost use Rattle.command_grammar.specs.Forms.{entry_named, is_same};
ghost use Rattle.command_grammar.specs.Readers.{Gives, known_at};
ghost use Rattle.command_grammar.specs.Table.{entries, battle_entries, room_entries, host_entries};

use crate::rows::{name_and_number, name_and_text, one_name, one_text, some_words};
use crate::{Command, ReadError, ReadFault, forms, with_commands};
use std::alloc::Global;

/// Reads by the rows of one part, and what stands in none of them by the next part.
macro_rules! read_part {
    ((users, $($given:ident),*) users $rows:tt $($others:tt)*) => { read_rows!(($($given),*) $rows) };
    ((battles, $($given:ident),*) users $users:tt battles $rows:tt $($others:tt)*) => {
        read_rows!(($($given),*) $rows)
    };
    ((rooms, $($given:ident),*) users $users:tt battles $battles:tt rooms $rows:tt $($others:tt)*) => {
        read_rows!(($($given),*) $rows)
    };
    ((hosts, $($given:ident),*) users $users:tt battles $battles:tt rooms $rooms:tt hosts $rows:tt) => {
        read_rows!(($($given),*) $rows)
    };
}

macro_rules! read_rows {
    (($alloc:ident, $word:ident, $rest:ident $(, $next:ident)?)
        { $($name:ident $text:literal $row:tt $(=> $form:ident)?)* }
    ) => {
        match $word {
            $(_ if is($word, $text) => read_row!($alloc, $rest, $name $row $(=> $form)?),)*
            _ => read_next!($alloc, $word, $rest $(, $next)?),
        }
    };
}

macro_rules! read_next {
    ($alloc:ident, $word:ident, $rest:ident, $next:ident) => { $next($alloc, $word, $rest) };
    ($alloc:ident, $word:ident, $rest:ident) => { Err(ReadError::Fault(ReadFault::UnknownCommand)) };
}

/// Reads one row: by its form, or by what reads all rows of these kinds.
macro_rules! read_row {
    ($alloc:ident, $rest:ident, $name:ident $row:tt => $form:ident) => { forms::$form($alloc, $rest) };
    ($alloc:ident, $rest:ident, $name:ident {}) => { Ok(Command::$name) };
    ($alloc:ident, $rest:ident, $name:ident { $field:ident: Name }) => {
        Ok(Command::$name { $field: one_name($alloc, $rest)? })
    };
    ($alloc:ident, $rest:ident, $name:ident { $field:ident: Text }) => {
        Ok(Command::$name { $field: one_text($alloc, $rest)? })
    };
    ($alloc:ident, $rest:ident, $name:ident { $field:ident: Words }) => {
        Ok(Command::$name { $field: some_words($alloc, $rest)? })
    };
    ($alloc:ident, $rest:ident, $name:ident { $first:ident: Name, $second:ident: Text }) => {{
        let ($first, $second) = name_and_text($alloc, $rest)?;
        Ok(Command::$name { $first, $second })
    }};
    ($alloc:ident, $rest:ident, $name:ident { $first:ident: Name, $second:ident: Natural($high:literal) }) => {{
        let ($first, $second) = name_and_number($alloc, $rest, $high)?;
        Ok(Command::$name { $first, $second })
    }};
}

/// The command of a word, byte for byte, and of the arguments behind it. Users and channels, the
/// frequent ones first, since they are tried in this order.
#[tactic(auto, unfolding(crate::specs::Table::entries))]
pub(crate) fn read_arguments(alloc: Global, word: &[u8], rest: &[u8]) -> Result<Command, ReadError>
    requires { IsTrue (is_text rest.now) }
    ensures { Gives result (known_at (entry_named entries word.now) rest.now) }
{
    with_commands!(read_part(users, alloc, word, rest, of_battle))
}

/// Battles.
#[tactic(auto, unfolding(crate::specs::Table::battle_entries))]
fn of_battle(alloc: Global, word: &[u8], rest: &[u8]) -> Result<Command, ReadError>
    requires { IsTrue (is_text rest.now) }
    ensures { Gives result (known_at (entry_named battle_entries word.now) rest.now) }
{
    with_commands!(read_part(battles, alloc, word, rest, of_room))
}

/// Bots, start rectangles, script tags and units.
#[tactic(auto, unfolding(crate::specs::Table::room_entries))]
fn of_room(alloc: Global, word: &[u8], rest: &[u8]) -> Result<Command, ReadError>
    requires { IsTrue (is_text rest.now) }
    ensures { Gives result (known_at (entry_named room_entries word.now) rest.now) }
{
    with_commands!(read_part(rooms, alloc, word, rest, of_host))
}

/// What a founder does to players.
#[tactic(auto, unfolding(crate::specs::Table::host_entries))]
fn of_host(alloc: Global, word: &[u8], rest: &[u8]) -> Result<Command, ReadError>
    requires { IsTrue (is_text rest.now) }
    ensures { Gives result (known_at (entry_named host_entries word.now) rest.now) }
{
    with_commands!(read_part(hosts, alloc, word, rest))
}

fn is(word: &[u8], name: &[u8]) -> bool
    ensures { result ≡ is_same word.now name.now }
{
    word == name
}
