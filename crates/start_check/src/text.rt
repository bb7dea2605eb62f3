//! The text of a file, and its table.

use lobby_setup::{FileError, read_file};
use std::alloc::Global;
use std::io::ErrorKind;
use std::rt::Files;
use toml::Table;

/// Why a file has no table.
pub enum Unread {
    /// It cannot be read, for this cause.
    Unreadable(ErrorKind),
    /// It is no TOML, as this line, from 1, shows.
    NotToml(usize, toml::de::Error),
    /// It is not UTF-8, as this line, from 1, shows.
    NotUtf8(usize),
    /// Memory was refused.
    Memory,
}

/// The bytes of a file.
pub fn bytes_at<R: Files + AllocGlobal>(rt: &R, path: &str) -> Result<Vec<u8>, Unread> {
    match read_file(rt, path) {
        Ok(bytes) => Ok(bytes),
        Err(FileError::Unreadable(kind)) => Err(Unread::Unreadable(kind)),
        Err(_) => Err(Unread::Memory),
    }
}

/// The line, from 1, that stands behind so many bytes of a file.
fn line_behind(bytes: &[u8], place: usize) -> usize {
    let mut line: usize = 1;
    for byte in bytes.iter().take(place) {
        if *byte == b'\n' {
            line = line.saturating_add(1);
        }
    }
    line
}

/// The text of a file.
pub fn text_of(bytes: &[u8]) -> Result<&str, Unread> {
    match str::from_utf8(bytes) {
        Ok(text) => Ok(text),
        Err(error) => Err(Unread::NotUtf8(line_behind(bytes, error.valid_up_to()))),
    }
}

/// The table of a file.
pub fn table_of(alloc: Global, text: &str) -> Result<Table, Unread> {
    match toml::table_from_str(alloc, text) {
        Ok(table) => Ok(table),
        Err(error) => match error.span() {
            Some(span) => Err(Unread::NotToml(line_behind(text.as_bytes(), span.start), error)),
            None => Err(Unread::Memory),
        },
    }
}

/// Says why a file has no table.
pub fn tell_unread<R: Print>(rt: &R, what: &str, path: &str, unread: Unread) {
    let _ = match unread {
        Unread::Unreadable(kind) => println!(rt; "{what}: {path}: the file cannot be read: {kind}"),
        Unread::NotToml(line, error) => {
            println!(rt; "{what}: {path}:{line}: not TOML: {}", error.message())
        }
        Unread::NotUtf8(line) => println!(rt; "{what}: {path}:{line}: not TOML: not UTF-8"),
        Unread::Memory => println!(rt; "{what}: {path}: no memory"),
    };
}
