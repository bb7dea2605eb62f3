//! All that is wrong in a file of accounts.

ghost use Rattle.std.specs.Prelude.{◌≡◌, ◌++◌, [], ◌∷◌, codes, option_copied, IfOk, OnOk};
ghost use Rattle.std.specs.Option.{option_to_list};
ghost use Rattle.std.specs.Result.{result_err};
ghost use Rattle.toml.specs.Data.{no_items};
ghost use Rattle.toml.specs.View.{items_view, table_view, view};
ghost use Rattle.toml_fields.specs.Fields.{list, optional};
ghost use Rattle.account_book.specs.Entries.{disabled_of};
ghost use Rattle.account_book.specs.File.{table_accounts};
ghost use Rattle.account_faults.specs.Faults.{default_faults, entries_faults, entry_faults, file_faults, found_at};
ghost use Rattle.account_faults.specs.Faults.{list_faults, name_in, profile_faults, refusal};
ghost use Rattle.account_faults.specs.Faults.{table_faults, twin_faults, with_name};

use crate::fault::{Fault, Holder, Key};
use crate::keys::{country_cause, name_at, password_cause};
use crate::names::Names;
use std::alloc::{AllocError, Global};
use toml::{Table, Value};
use toml_fields::{FieldFault, flag_or, list_or_empty, number_at, number_or, table_or_none};

/// The format whose files may have `default`, and whose accounts may have `disabled`.
const SECOND_FORMAT: u32 = 2;

/// Puts what is wrong at a key behind the other faults, if anything is.
fn keep(
    faults: &mut Vec<Fault>,
    holder: Holder,
    key: Key,
    cause: Option<FieldFault>,
) -> Result<(), AllocError>
    ensures { OnOk result (faults.new.items ≡ faults.old.items ++ found_at holder key cause) }
{
    if let Some(cause) = cause {
        faults.push(Fault::Field { holder, key, cause })?;
    }
    Ok(())
}

/// What is wrong in what an account may leave out.
fn profile_faults(alloc: Global, holder: Holder, table: &Table) -> Result<Vec<Fault>, AllocError>
    ensures { IfOk result (λ faults. faults.items ≡ profile_faults holder (table_view table.now)) }
{
    let mut faults = Vec::new(alloc);
    keep(
        &mut faults,
        holder,
        Key::Rank,
        number_or(table, "rank", 0, 7, 0).err(),
    )?;
    keep(
        &mut faults,
        holder,
        Key::Access,
        flag_or(table, "access", false).err(),
    )?;
    keep(
        &mut faults,
        holder,
        Key::Bot,
        flag_or(table, "bot", false).err(),
    )?;
    keep(&mut faults, holder, Key::Country, country_cause(table))?;
    Ok(faults)
}

/// Why `disabled` is refused, if the file may have it and it is.
fn disabled_cause(table: &Table, format: u32) -> Option<FieldFault>
    ensures { result ≡ result_err (disabled_of format (table_view table.now)) }
{
    if format == SECOND_FORMAT {
        flag_or(table, "disabled", false).err()
    } else {
        None
    }
}

/// What is wrong in the table of the account with this number.
fn table_faults(
    alloc: Global,
    format: u32,
    number: usize,
    table: &Table,
) -> Result<Vec<Fault>, AllocError>
    ensures { IfOk result (λ faults. faults.items ≡ table_faults format number (table_view table.now)) }
{
    let holder = Holder::Account(number);
    let mut faults = Vec::new(alloc);
    keep(&mut faults, holder, Key::Name, name_at(table).err())?;
    keep(&mut faults, holder, Key::Password, password_cause(table))?;
    keep(
        &mut faults,
        holder,
        Key::Id,
        number_at(table, "id", 0, u32::MAX).err(),
    )?;
    let profile = profile_faults(alloc, holder, table)?;
    faults.extend_from_slice(&profile)?;
    keep(
        &mut faults,
        holder,
        Key::Disabled,
        disabled_cause(table, format),
    )?;
    Ok(faults)
}

/// What is wrong in the entry with this number, which has to be a table.
fn entry_faults(
    alloc: Global,
    format: u32,
    number: usize,
    entry: &Value,
) -> Result<Vec<Fault>, AllocError>
    ensures { IfOk result (λ faults. faults.items ≡ entry_faults format number (view entry.now)) }
{
    if let Some(table) = entry.as_table() {
        return table_faults(alloc, format, number, table);
    }
    let mut faults = Vec::new(alloc);
    faults.push(Fault::NoTable { account: number })?;
    Ok(faults)
}

/// The name of an entry, if it has a good one.
fn name_in(entry: &Value) -> Option<&str>
    ensures { option_copied result ≡ name_in (view entry.now) }
{
    match entry.as_table() {
        Some(table) => name_at(table).ok(),
        None => None,
    }
}

/// That an earlier account has the name of the account with this number, where one has.
fn twin(names: &Names, number: usize, name: Option<&str>) -> Option<Fault>
    ensures { option_to_list result ≡ twin_faults number names.now (option_copied name.entry) }
{
    let first = names.place_of(name?.as_bytes())?;
    Some(Fault::SameName {
        account: number,
        first,
    })
}

/// Notes the name of an account.
fn note(names: &mut Names, number: usize, name: Option<&str>) -> Result<(), AllocError>
    ensures { OnOk result (names.new ≡ with_name number names.old (option_copied name.entry)) }
{
    match name {
        Some(name) => names.note(name.as_bytes(), number),
        None => Ok(()),
    }
}

/// What is wrong in the entry with this number, behind those with these names; its name is noted.
fn next_faults(
    alloc: Global,
    format: u32,
    number: usize,
    names: &mut Names,
    entry: &Value,
) -> Result<Vec<Fault>, AllocError>
    ensures faults { IfOk result (λ faults. faults.items ≡ entry_faults format number (view entry.now)
        ++ twin_faults number names.old (name_in (view entry.now))) }
    ensures names { OnOk result (names.new ≡ with_name number names.old (name_in (view entry.now))) }
{
    let mut faults = entry_faults(alloc, format, number, entry)?;
    let name = name_in(entry);
    if let Some(fault) = twin(names, number, name) {
        faults.push(fault)?;
    }
    note(names, number, name)?;
    Ok(faults)
}

/// What is wrong in the entries of a list.
fn entries_faults(alloc: Global, format: u32, entries: &[Value]) -> Result<Vec<Fault>, AllocError>
    ensures { IfOk result (λ faults. faults.items ≡ entries_faults format 1 [] (items_view entries.now)) }
{
    let mut names = Names::new(alloc);
    let mut faults = Vec::new(alloc);
    for (k, entry) in entries.iter().enumerate() {
        let more = next_faults(alloc, format, k + 1, &mut names, entry)?;
        faults.extend_from_slice(&more)?;
    }
    Ok(faults)
}

/// What is wrong in the list of accounts.
fn list_faults(alloc: Global, format: u32, table: &Table) -> Result<Vec<Fault>, AllocError>
    ensures { IfOk result (λ faults. faults.items
        ≡ list_faults format (optional list no_items (codes "account") (table_view table.now))) }
{
    match list_or_empty(table, "account") {
        Ok(entries) => entries_faults(alloc, format, entries),
        Err(cause) => of_file(alloc, Key::Accounts, cause),
    }
}

/// That a key of the file is refused.
fn of_file(alloc: Global, key: Key, cause: FieldFault) -> Result<Vec<Fault>, AllocError>
    ensures { IfOk result (λ faults. faults.items ≡ Fault.Field Holder.WholeFile key cause ∷ []) }
{
    let holder = Holder::WholeFile;
    let mut faults = Vec::new(alloc);
    faults.push(Fault::Field { holder, key, cause })?;
    Ok(faults)
}

/// What is wrong at `default`, if a file of this format may have it.
fn default_faults(alloc: Global, format: u32, table: &Table) -> Result<Vec<Fault>, AllocError>
    ensures { IfOk result (λ faults. faults.items ≡ default_faults format (table_view table.now)) }
{
    if format != SECOND_FORMAT {
        return Ok(Vec::new(alloc));
    }
    match table_or_none(table, "default") {
        Ok(Some(default)) => profile_faults(alloc, Holder::DefaultTable, default),
        Ok(None) => Ok(Vec::new(alloc)),
        Err(cause) => of_file(alloc, Key::Default, cause),
    }
}

/// All that is wrong in a table: at its own keys, and then account by account.
fn all_faults(alloc: Global, table: &Table) -> Result<Vec<Fault>, AllocError>
    ensures { IfOk result (λ faults. faults.items ≡ file_faults (table_view table.now)) }
{
    let said = number_or(table, "format", 1, SECOND_FORMAT, 1);
    let format = said.unwrap_or(SECOND_FORMAT);
    let mut faults = Vec::new(alloc);
    keep(&mut faults, Holder::WholeFile, Key::Format, said.err())?;
    let default = default_faults(alloc, format, table)?;
    faults.extend_from_slice(&default)?;
    let accounts = list_faults(alloc, format, table)?;
    faults.extend_from_slice(&accounts)?;
    Ok(faults)
}

/// All that is wrong in the table of a file of accounts: at its own keys, and then account by account, key by key.
/// Where its format is refused, the rest is read as in the second. There is nothing exactly where
/// [`AccountBook::read`](account_book::AccountBook::read) accepts the file, and else its first is what that refuses the
/// file for.
pub fn account_faults(alloc: Global, table: &Table) -> Result<Vec<Fault>, AllocError>
    ensures all { IfOk result (λ faults. faults.items ≡ file_faults (table_view table.now)) }
    ensures first { IfOk result (λ faults. refusal faults.items ≡ result_err (table_accounts (table_view table.now))) }
{
    let faults = all_faults(alloc, table)?;
    Ok(faults)
}
