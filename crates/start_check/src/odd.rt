//! What is odd in a file of accounts, and refuses it not.

use crate::accounts::{entries_of, entry_of, named, tell_account};
use crate::lines::{Lines, Part};
use account_faults::Names;
use indexmap::IndexMap;
use std::alloc::{AllocError, Global};
use toml::{Table, Value};

/// The keys of a file.
const FILE_KEYS: [&str; 3] = ["format", "default", "account"];

/// The keys of the table `default`.
const DEFAULT_KEYS: [&str; 4] = ["rank", "access", "bot", "country"];

/// The keys of an account.
const ACCOUNT_KEYS: [&str; 8] = [
    "name", "password", "id", "rank", "access", "bot", "country", "disabled",
];

/// What is said of a key that is passed over.
const PASSED: &str = "is not known, and is passed over";

/// Whether a file is of the second format, or means to be of a newer one.
fn has_defaults(table: &Table) -> bool {
    match table.get("format") {
        Some(format) => format.as_integer() != Some(1),
        None => false,
    }
}

/// Warns of the keys of a file that are not known, and of `default` where it is passed over.
fn warn_head<R: Print>(rt: &R, path: &str, lines: &Lines<'_>, table: &Table) {
    for (key, _) in table {
        let key = key.as_str();
        let line = lines.line_of_name(key);
        if !FILE_KEYS.contains(&key) {
            let _ = println!(rt; "warning: {path}:{line}: the key {key:?} {PASSED}");
        } else if key == "default" && !has_defaults(table) {
            let _ = println!(rt;
                "warning: {path}:{line}: `default` is passed over without `format = 2`"
            );
        }
    }
}

/// Warns of the keys of `default` that are not known.
fn warn_default<R: Print>(rt: &R, path: &str, lines: &Lines<'_>, table: &Table) {
    let Some(default) = table.get("default").and_then(Value::as_table) else {
        return;
    };
    for (key, _) in default {
        let key = key.as_str();
        if !DEFAULT_KEYS.contains(&key) {
            let line = lines.line_of_key(Part::Default, key);
            let _ = println!(rt; "warning: {path}:{line}: default: the key {key:?} {PASSED}");
        }
    }
}

/// What the entry with a number is, where it stands, and whether its file is of the second format.
#[derive(Drop)]
struct Entry<'a, 't> {
    path: &'a str,
    lines: &'a Lines<'t>,
    number: usize,
    value: &'a Value,
    has_disabled: bool,
}

impl Entry<'_, '_> {
    /// Begins a line of a warning of the account, at a key.
    fn tell<R: Print>(&self, rt: &R, key: &str) {
        let line = self.lines.line_of_key(Part::Account(self.number), key);
        tell_account(
            rt,
            "warning",
            self.path,
            line,
            self.number,
            named(Some(self.value)),
        );
    }

    /// Warns of the keys that are not known, and of `disabled` where it is passed over.
    fn warn_keys<R: Print>(&self, rt: &R) {
        let Some(table) = self.value.as_table() else {
            return;
        };
        for (key, _) in table {
            let key = key.as_str();
            if !ACCOUNT_KEYS.contains(&key) {
                self.tell(rt, key);
                let _ = println!(rt; ": the key {key:?} {PASSED}");
            } else if key == "disabled" && !self.has_disabled {
                self.tell(rt, key);
                let _ = println!(rt; ": `disabled` is passed over without `format = 2`");
            }
        }
    }
}

/// What stood in earlier accounts.
struct Earlier {
    ids: IndexMap<i64, usize>,
    names: Names,
}

impl Earlier {
    /// Warns where an earlier account has the number of this one.
    fn warn_id<R: Print>(&mut self, rt: &R, entry: &Entry<'_, '_>) -> Result<(), AllocError> {
        let Some(id) = entry.value.as_table().and_then(|table| table.get("id")) else {
            return Ok(());
        };
        let Some(id) = id.as_integer() else {
            return Ok(());
        };
        if let Some(first) = self.ids.get(&id) {
            let first = *first;
            entry.tell(rt, "id");
            let _ = println!(rt; ": `id` is that of account {first} too");
            return Ok(());
        }
        match self.ids.insert(id, entry.number) {
            Ok(_) => Ok(()),
            Err(_) => Err(AllocError),
        }
    }

    /// Warns where the name of an earlier account differs from that of this one in case alone.
    fn warn_name<R: Print>(
        &mut self,
        rt: &R,
        alloc: Global,
        entry: &Entry<'_, '_>,
        entries: &[Value],
    ) -> Result<(), AllocError> {
        let name = named(Some(entry.value));
        if name.is_empty() {
            return Ok(());
        }
        let mut small = Vec::new(alloc);
        for byte in name.as_bytes() {
            small.push(byte.to_ascii_lowercase())?;
        }
        if let Some(first) = self.names.place_of(&small) {
            let other = named(entry_of(entries, first));
            if other != name {
                entry.tell(rt, "name");
                let _ = println!(rt;
                    ": `name` differs from that of account {first} ({other}) in case alone"
                );
            }
            return Ok(());
        }
        self.names.note(&small, entry.number)
    }
}

/// Warns of what is odd in each account.
fn warn_accounts<'a, 't, R: Print>(
    rt: &R,
    alloc: Global,
    path: &'a str,
    lines: &'a Lines<'t>,
    table: &'a Table,
    earlier: &mut Earlier,
) -> Result<(), AllocError> {
    let entries = entries_of(table);
    let has_disabled = has_defaults(table);
    for (k, value) in entries.iter().enumerate() {
        let entry = Entry {
            path,
            lines,
            number: k.saturating_add(1),
            value,
            has_disabled,
        };
        entry.warn_keys(rt);
        earlier.warn_id(rt, &entry)?;
        earlier.warn_name(rt, alloc, &entry, entries)?;
    }
    Ok(())
}

/// Warns of all that is odd in a table of accounts: keys that are not known, what wants another format, one number
/// twice, and names that differ in case alone.
pub fn warn_odd<R: Print>(
    rt: &R,
    alloc: Global,
    path: &str,
    lines: &Lines<'_>,
    table: &Table,
) -> Result<(), AllocError> {
    warn_head(rt, path, lines, table);
    warn_default(rt, path, lines, table);
    let mut earlier = Earlier {
        ids: IndexMap::new(alloc),
        names: Names::new(alloc),
    };
    let warned = warn_accounts(rt, alloc, path, lines, table, &mut earlier);
    let Earlier { ids, names } = earlier;
    drop(ids);
    drop(names);
    warned
}
