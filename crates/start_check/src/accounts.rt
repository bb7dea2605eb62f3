//! What is said of a file of accounts.

use crate::lines::{Lines, Part};
use crate::odd::warn_odd;
use crate::settings::Found;
use crate::text::{Unread, bytes_at, table_of, tell_unread, text_of};
use account_book::AccountBook;
use account_faults::{Fault, Holder, account_faults};
use line_words::is_name;
use std::alloc::Global;
use std::rt::Files;
use toml::{Table, Value};

/// The accounts of a file that a table lists, none where it has no list.
pub fn entries_of(table: &Table) -> &[Value] {
    match table.get("account") {
        Some(entries) => entries.as_array().map_or(&[], |entries| entries),
        None => &[],
    }
}

/// The name of an account; empty where it has no good one.
pub fn named(entry: Option<&Value>) -> &str {
    let Some(table) = entry.and_then(Value::as_table) else {
        return "";
    };
    match table.get("name").and_then(Value::as_str) {
        Some(name) if is_name(name.as_bytes()) => name,
        _ => "",
    }
}

/// The account with this number.
pub fn entry_of(entries: &[Value], number: usize) -> Option<&Value> {
    entries.get(number.checked_sub(1)?)
}

/// Where something of an account stands, and which account that is, as each line about it begins.
pub fn tell_account<R: Print>(
    rt: &R,
    front: &str,
    path: &str,
    line: usize,
    number: usize,
    name: &str,
) {
    let _ = match name {
        "" => print!(rt; "{front}: {path}:{line}: account {number}"),
        name => print!(rt; "{front}: {path}:{line}: account {number} ({name})"),
    };
}

/// Says what is wrong at a key.
fn tell_fault<R: Print>(rt: &R, path: &str, lines: &Lines<'_>, entries: &[Value], fault: Fault) {
    const WHAT: &str = "accounts";
    match fault {
        Fault::Field { holder, key, cause } => {
            let (name, expected) = (key.name(), key.expected());
            let (part, number) = match holder {
                Holder::WholeFile => (Part::Head, 0),
                Holder::DefaultTable => (Part::Default, 0),
                Holder::Account(number) => (Part::Account(number), number),
            };
            let line = lines.line_of_key(part, name);
            match holder {
                Holder::WholeFile => {
                    let _ = print!(rt; "{WHAT}: {path}:{line}");
                }
                Holder::DefaultTable => {
                    let _ = print!(rt; "{WHAT}: {path}:{line}: default");
                }
                Holder::Account(_) => {
                    tell_account(
                        rt,
                        WHAT,
                        path,
                        line,
                        number,
                        named(entry_of(entries, number)),
                    );
                }
            }
            let _ = println!(rt; ": `{name}` {cause}: expected {expected}");
        }
        Fault::NoTable { account } => {
            let line = lines.line_of(Part::Account(account));
            tell_account(rt, WHAT, path, line, account, "");
            let _ = println!(rt; ": is no table: expected each account as [[account]]");
        }
        Fault::SameName { account, first } => {
            let line = lines.line_of_key(Part::Account(account), "name");
            let other = lines.line_of_key(Part::Account(first), "name");
            tell_account(
                rt,
                WHAT,
                path,
                line,
                account,
                named(entry_of(entries, account)),
            );
            let _ = println!(rt;
                ": `name` is that of account {first}, line {other}: expected a name of its own for each, disabled ones too"
            );
        }
    }
}

/// Says all that is wrong in the text of a file of accounts, and what is odd; whether nothing is wrong.
fn tell_text<R: Print>(rt: &R, alloc: Global, path: &str, text: &str) -> Result<bool, Unread> {
    let table = table_of(alloc, text)?;
    let entries = entries_of(&table);
    let told = match (Lines::of(alloc, text), account_faults(alloc, &table)) {
        (Ok(lines), Ok(faults)) => {
            for fault in &faults {
                tell_fault(rt, path, &lines, entries, *fault);
            }
            match warn_odd(rt, alloc, path, &lines, &table) {
                Ok(()) => Ok(faults.is_empty()),
                Err(_) => Err(Unread::Memory),
            }
        }
        _ => Err(Unread::Memory),
    };
    drop(table);
    told
}

/// The accounts of a file; says all that is wrong in it, and what is odd.
pub fn accounts_of<R: Files + Print + AllocGlobal>(rt: &R, path: &str) -> Found<AccountBook> {
    const WHAT: &str = "accounts";
    let bytes = match bytes_at(rt, path) {
        Ok(bytes) => bytes,
        Err(unread) => {
            tell_unread(rt, WHAT, path, unread);
            return Found::Unreadable;
        }
    };
    let told = match text_of(&bytes) {
        Ok(text) => tell_text(rt, rt.alloc(), path, text),
        Err(unread) => Err(unread),
    };
    match told {
        Ok(true) => match lobby_setup::accounts_of(rt.alloc(), &bytes) {
            Ok(accounts) => Found::Good(accounts),
            Err(error) => {
                let _ = println!(rt; "{WHAT}: {path}: {error}");
                Found::Refused
            }
        },
        Ok(false) => Found::Refused,
        Err(unread) => {
            tell_unread(rt, WHAT, path, unread);
            Found::Refused
        }
    }
}
