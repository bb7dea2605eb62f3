//! A file of TOML, and where one that is none goes wrong.

ghost use Rattle.std.specs.Prelude.{◌≡◌, ◌+◌, IfOk, IfErr, Some};
ghost use Rattle.std.specs.List.{count_by};
ghost use Rattle.toml.specs.View.{table_view};
ghost use Rattle.toml_fields.specs.Document.{document, is_line_feed, IsRefused};

use std::alloc::Global;
use thiserror::Error;
use toml::Table;

/// Why a file is not read.
#[derive(Clone, Copy, PartialEq, Eq, Debug, Error)]
pub enum DocumentError {
    /// It is not TOML, or not UTF-8. The line, counted from 1, is the one where the reading stopped; promised
    /// of it is that it is a line of the file.
    #[error("line {line} is not TOML")]
    NotToml { line: usize },
    /// Memory was refused.
    #[error("no memory")]
    Memory,
}

/// The table of a file.
///
/// `NotToml` where the file is not TOML or not UTF-8, `Memory` where there is none for the table.
pub fn read_document(alloc: Global, bytes: &[u8]) -> Result<Table, DocumentError>
    ensures ok { IfOk result (λ table. document bytes.now ≡ Some (table_view table)) }
    ensures err { IfErr result (IsRefused bytes.now) }
{
    match toml::table_from_slice(alloc, bytes) {
        Ok(table) => Ok(table),
        Err(e) => match e.span() {
            Some(span) => Err(DocumentError::NotToml {
                line: line_behind(&bytes[..span.start]),
            }),
            None => Err(DocumentError::Memory),
        },
    }
}

/// The line, counted from 1, that stands behind the front of a file.
fn line_behind(front: &[u8]) -> usize
    ensures { result ≡ count_by is_line_feed front.now + 1 }
{
    let mut line = 1;
    for byte in front {
        if *byte == b'\n' {
            line += 1;
        }
    }
    line
}
