//! How much operators are told.

ghost use Rattle.std.specs.Prelude.{◌≡◌};
ghost use Rattle.toml.specs.View.{table_view};
ghost use Rattle.lobby_setup.specs.At.{field};
ghost use Rattle.lobby_setup.specs.Levels.{level, level_named};

use crate::error::Refusal;
use crate::key::Key;
use server_log::LogLevel;
use toml::Table;
use toml_fields::{FieldFault, text_or};

/// The level of a word.
fn level_named(word: &[u8]) -> Result<LogLevel, FieldFault>
    ensures { result ≡ level_named word.now }
{
    match word {
        _ if word == b"none".as_slice() => Ok(LogLevel::None),
        _ if word == b"important".as_slice() => Ok(LogLevel::Important),
        _ if word == b"all".as_slice() => Ok(LogLevel::All),
        _ => Err(FieldFault::NotAllowed),
    }
}

/// How much operators are told: what the word at its key says, or what is important where it is missing.
pub fn log_field(table: &Table) -> Result<LogLevel, Refusal>
    ensures { result ≡ field Key.Log level LogLevel.Important (table_view table.now) }
{
    let key = Key::Log;
    let named = match text_or(table, key.name(), "important") {
        Ok(word) => level_named(word.as_bytes()),
        Err(fault) => Err(fault),
    };
    match named {
        Ok(level) => Ok(level),
        Err(fault) => Err(Refusal::Field { key, fault }),
    }
}
