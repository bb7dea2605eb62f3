//! Fields of a table of each kind, missing ones, and ones that are refused.

use crate::lists::{Is, are};
use crate::verdict::{fail, same_for};
use std::alloc::Global;
use std::process::Abort;
use toml::{Table, Value};
use toml_fields::{
    DocumentError, FieldFault, flag_or, list_or_empty, number_at, number_or, read_document,
    text_at, text_of, text_or,
};

const FILE: &[u8] = b"
word = 'a text'
count = 7
low = -1
set = true
half = 0.5
list = ['one', 2]
";

type Told<T> = Result<T, FieldFault>;

/// What is asked of a key, and what is told.
#[derive(Clone, Copy)]
enum Row {
    /// A text.
    TextAt(&'static str, Told<&'static str>),
    /// A text, or else this one.
    TextOr(&'static str, &'static str, Told<&'static str>),
    /// A number that is not less than the first of these and not more than the second.
    NumberAt(&'static str, (u32, u32), Told<u32>),
    /// Such a number, or else this one.
    NumberOr(&'static str, (u32, u32), u32, Told<u32>),
    /// A flag, or else this one.
    FlagOr(&'static str, bool, Told<bool>),
    /// A list, and each of its values as a text.
    List(&'static str, Told<&'static [Told<&'static str>]>),
}

/// As a text.
impl Is<Told<&str>> for Value {
    fn is(&self, wanted: &Told<&str>) -> bool {
        text_of(self) == *wanted
    }
}

fn is_list(table: &Table, key: &str, wanted: Told<&[Told<&str>]>) -> bool {
    match (list_or_empty(table, key), wanted) {
        (Ok(values), Ok(wanted)) => are(values, wanted),
        (Err(told), Err(wanted)) => told == wanted,
        _ => false,
    }
}

/// Whether this is told of a key.
fn tells(table: &Table, row: &Row) -> bool {
    match row {
        Row::TextAt(key, wanted) => text_at(table, key) == *wanted,
        Row::TextOr(key, other, wanted) => text_or(table, key, other) == *wanted,
        Row::NumberAt(key, (low, high), wanted) => number_at(table, key, *low, *high) == *wanted,
        Row::NumberOr(key, (low, high), other, wanted) => number_or(table, key, *low, *high, *other)
            == *wanted,
        Row::FlagOr(key, other, wanted) => flag_or(table, key, *other) == *wanted,
        Row::List(key, wanted) => is_list(table, key, *wanted),
    }
}

fn compare_all(rt: &impl Abort, table: &Table, rows: &[Row]) {
    for (k, row) in rows.iter().enumerate() {
        same_for(rt, &k, tells(table, row), true);
    }
}

/// Reads the file, and compares what these rows ask of it.
fn ask(rt: &impl Abort, alloc: Global, rows: &[Row]) {
    match read_document(alloc, FILE) {
        Ok(table) => {
            compare_all(rt, &table, rows);
            drop(table);
        }
        Err(_) => fail(rt, "the file is good"),
    }
}

static THERE: [Row; 6] = [
    Row::TextAt("word", Ok("a text")),
    Row::TextOr("word", "another", Ok("a text")),
    Row::NumberAt("count", (7, 7), Ok(7)),
    Row::NumberOr("count", (0, 8), 1, Ok(7)),
    Row::FlagOr("set", false, Ok(true)),
    Row::List("list", Ok(&[Ok("one"), Err(FieldFault::OtherKind)])),
];

#[test]
fn what_is_there_is_read(rt: HostRuntime) {
    ask(&rt, rt.alloc(), &THERE);
}

static MISSING: [Row; 6] = [
    Row::TextAt("none", Err(FieldFault::Missing)),
    Row::NumberAt("none", (0, 9), Err(FieldFault::Missing)),
    Row::TextOr("none", "another", Ok("another")),
    Row::NumberOr("none", (0, 9), 4, Ok(4)),
    Row::FlagOr("none", true, Ok(true)),
    Row::List("none", Ok(&[])),
];

#[test]
fn what_is_missing_has_its_default(rt: HostRuntime) {
    ask(&rt, rt.alloc(), &MISSING);
}

static REFUSED: [Row; 9] = [
    Row::TextAt("count", Err(FieldFault::OtherKind)),
    Row::TextOr("set", "", Err(FieldFault::OtherKind)),
    Row::NumberAt("half", (0, 9), Err(FieldFault::OtherKind)),
    Row::NumberOr("word", (0, 9), 0, Err(FieldFault::OtherKind)),
    Row::FlagOr("count", false, Err(FieldFault::OtherKind)),
    Row::List("word", Err(FieldFault::OtherKind)),
    Row::NumberAt("count", (0, 6), Err(FieldFault::NotAllowed)),
    Row::NumberAt("count", (8, 9), Err(FieldFault::NotAllowed)),
    Row::NumberOr("low", (0, 9), 0, Err(FieldFault::NotAllowed)),
];

#[test]
fn other_kinds_and_numbers_out_of_bounds_are_refused(rt: HostRuntime) {
    ask(&rt, rt.alloc(), &REFUSED);
}

static NO_FILES: [(&[u8], usize); 4] = [
    (b"[[account", 1),
    (b"a = 1\nb = \n", 2),
    (b"a = 1\n\na = 2\n", 3),
    (b"a = 'b'\nc = '\xff'\n", 2),
];

fn refusal(alloc: Global, file: &[u8]) -> Option<DocumentError> {
    read_document(alloc, file).err()
}

#[test]
fn a_file_that_is_none_shows_its_line(rt: HostRuntime) {
    for (file, line) in &NO_FILES {
        let wanted = Some(DocumentError::NotToml { line: *line });
        same_for(&rt, file, refusal(rt.alloc(), file), wanted);
    }
}
