//! What is said of a file of settings.

use crate::lines::{Lines, Part};
use crate::text::{Unread, bytes_at, table_of, tell_unread, text_of};
use lobby_setup::{Key, Refusal, Setup, settings_faults};
use std::alloc::Global;
use std::rt::Files;
use toml::Table;

/// What came of a file.
#[derive(Drop)]
pub enum Found<T> {
    /// It is good.
    Good(T),
    /// It cannot be read.
    Unreadable,
    /// It is refused, or memory was.
    Refused,
}

/// The key at which something is wrong.
fn key_of(refusal: Refusal) -> &'static str {
    match refusal {
        Refusal::Field { key, .. } => key.name(),
        Refusal::MotdLine { .. } => Key::Motd.name(),
        Refusal::Proxy { .. } => Key::Proxies.name(),
        Refusal::NotToml { .. } => "",
    }
}

/// Says each fault of a table with its line; whether there is none.
fn tell_faults<R: Print>(rt: &R, path: &str, lines: &Lines<'_>, faults: &[Refusal]) -> bool {
    for fault in faults {
        let line = lines.line_of_key(Part::Head, key_of(*fault));
        let _ = println!(rt; "settings: {path}:{line}: {fault}");
    }
    faults.is_empty()
}

/// Whether a word is a key of settings.
fn is_known(word: &str) -> bool {
    Key::ALL.iter().any(|key| key.name() == word)
}

/// Warns of each key that is not known.
fn warn_unknown<R: Print>(rt: &R, path: &str, lines: &Lines<'_>, table: &Table) {
    for (key, _) in table {
        if !is_known(key.as_str()) {
            let line = lines.line_of_name(key.as_str());
            let _ = println!(rt;
                "warning: {path}:{line}: the key {key:?} is not known, and is passed over"
            );
        }
    }
}

/// Says all that is wrong in the text of a file of settings, and what is odd; whether nothing is wrong.
fn tell_text<R: Print>(rt: &R, alloc: Global, path: &str, text: &str) -> Result<bool, Unread> {
    let table = table_of(alloc, text)?;
    let is_good = match (Lines::of(alloc, text), settings_faults(alloc, &table)) {
        (Ok(lines), Ok(faults)) => {
            warn_unknown(rt, path, &lines, &table);
            Ok(tell_faults(rt, path, &lines, &faults))
        }
        _ => Err(Unread::Memory),
    };
    drop(table);
    is_good
}

/// What a file of settings sets a server up to; says all that is wrong in it, and what is odd.
pub fn settings_of<R: Files + Print + AllocGlobal>(rt: &R, path: &str) -> Found<Setup> {
    const WHAT: &str = "settings";
    let bytes = match bytes_at(rt, path) {
        Ok(bytes) => bytes,
        Err(unread) => {
            tell_unread(rt, WHAT, path, unread);
            return Found::Unreadable;
        }
    };
    let told = match text_of(&bytes) {
        Ok(text) => tell_text(rt, rt.alloc(), path, text),
        Err(unread) => Err(unread),
    };
    match told {
        Ok(true) => match Setup::read(rt.alloc(), &bytes) {
            Ok(setup) => Found::Good(setup),
            Err(fault) => {
                let _ = println!(rt; "{WHAT}: {path}: {fault}");
                Found::Refused
            }
        },
        Ok(false) => Found::Refused,
        Err(unread) => {
            tell_unread(rt, WHAT, path, unread);
            Found::Refused
        }
    }
}
