//! The head of a record: settings and accounts by which its events are played, as files have them.

ghost use Rattle.std.specs.Prelude.{◌≡◌, ◌∷◌, ◌++◌, [], List, IsTrue, IfOk, OnOk, Ok, false, map, pos, string_bytes};
ghost use Rattle.std.specs.Prelude.{if◌then◌else◌};
ghost use Rattle.std.specs.List.{list_all};
ghost use Rattle.std.specs.Str.{is_utf8};
ghost use Rattle.std.specs.Str.Lossy.{utf8_lossy};
ghost use Rattle.toml.specs.Data.{array, boolean, integer, string};
ghost use Rattle.toml.specs.Text.{IsDocumentText};
ghost use Rattle.toml.specs.View.{table_view, view};
ghost use Rattle.account_book.specs.Account.{Account as Listed};
ghost use Rattle.account_book.specs.Fields.{shown_contents};
ghost use Rattle.account_book.specs.File.{entries_in, file_accounts, listed_accounts};
ghost use Rattle.record_lines.specs.Head.{account_members, settings_members, spelled, spelled_account, with_member};
ghost use Rattle.record_lines.specs.Head.{text_items, gap_behind, is_printed, IsAccountsText, SetsUp};
ghost use Rattle.record_lines.specs.Masks.{hidden};

use crate::masks::PASSES;
use account_book::{Account, AccountsError, Contents, Listing, contents_of, described};
use line_words::TextBuf;
use lobby_model::Settings;
use std::alloc::{AllocError, Global};
use toml::{Table, Value, table_to_string};
use toml_fields::{DocumentError, read_document};

/// A file of settings that sets a lobby up to these and listens nowhere. Its first line says which version wrote it,
/// which is ASCII. The texts of a file are UTF-8: U+FFFD stands for what is none in the message of the day.
pub fn settings_file(
    alloc: Global,
    version: &str,
    settings: &Settings,
) -> Result<Vec<u8>, AllocError>
    ensures { IfOk result (λ file. IsTrue (list_all is_printed version.now)
        → IsTrue (list_all is_utf8 settings.now.motd) → SetsUp settings.now file.items) }
{
    settings.keep_their_bounds();
    let table = settings_table(alloc, settings)?;
    let text = printed(alloc, &table)?;
    let mut file = Vec::new(alloc);
    file.extend_from_slice(b"# record 1 of version ")?;
    file.extend_from_slice(version.as_bytes())?;
    file.push(b'\n')?;
    file.extend_from_slice(text.as_str().as_bytes())?;
    Ok(file)
}

/// A file of the accounts that another lists and that are not disabled, each with the word that each account of a
/// record has.
///
/// `NotToml` where that is not TOML, `BadField(0)` where a key of the whole or of an account is bad, and `Memory` where
/// it was refused. Whether two have one name is not asked.
pub fn accounts_file(alloc: Global, file: &[u8]) -> Result<Vec<u8>, AccountsError>
    ensures { IfOk result (λ made. (accounts : List Listed) → file_accounts file.now ≡ Ok accounts
        → IsAccountsText accounts made.items) }
{
    let table = match read_document(alloc, file) {
        Ok(table) => table,
        Err(DocumentError::NotToml { .. }) => return Err(AccountsError::NotToml),
        Err(DocumentError::Memory) => return Err(AccountsError::Memory),
    };
    match contents_of(&table) {
        Ok(contents) => listed_file(alloc, &contents),
        Err(_) => Err(AccountsError::BadField(0)),
    }
}

/// A file of the accounts of the entries of another that are not disabled.
fn listed_file(alloc: Global, contents: &Contents<'_>) -> Result<Vec<u8>, AccountsError>
    ensures { IfOk result (λ made. (accounts : List Listed)
        → listed_accounts (entries_in (shown_contents contents.now)) ≡ Ok accounts
        → IsAccountsText accounts made.items) }
{
    let mut made = Vec::new(alloc);
    for entry in contents.entries {
        let Ok(listing) = described(alloc, contents.format, contents.default, entry) else {
            return Err(AccountsError::Memory);
        };
        let Some(listing) = listing else {
            return Err(AccountsError::BadField(0));
        };
        if put_listing(alloc, &mut made, &listing).is_err() {
            return Err(AccountsError::Memory);
        }
    }
    Ok(made)
}

/// Appends an account that is not disabled to a file of accounts.
fn put_listing(alloc: Global, out: &mut Vec<u8>, listing: &Listing) -> Result<(), AllocError>
    ensures { OnOk result ((accounts : List Listed) → IsAccountsText accounts out.old.items
        → IsAccountsText (if listing.now.disabled then accounts else accounts ++ listing.now.account ∷ [])
        out.new.items) }
{
    if listing.disabled {
        return Ok(());
    }
    put_account(alloc, out, &listing.account)
}

/// Appends an account, with the word that each account of a record has, to a file of accounts.
pub fn put_account(alloc: Global, out: &mut Vec<u8>, account: &Account) -> Result<(), AllocError>
    ensures { OnOk result ((accounts : List Listed) → IsAccountsText accounts out.old.items
        → IsAccountsText (accounts ++ account.now ∷ []) out.new.items) }
{
    let text = account_text(alloc, account)?;
    put_gap(out)?;
    out.extend_from_slice(text.as_str().as_bytes())?;
    Ok(())
}

/// A file of the account alone.
fn account_text(alloc: Global, account: &Account) -> Result<String, AllocError>
    ensures { IfOk result (λ text. IsAccountsText (account.now ∷ []) (string_bytes text)) }
{
    account.keeps_its_rules();
    let mut accounts = Vec::with_capacity(alloc, 1)?;
    accounts.push(Value::Table(account_table(alloc, account)?))?;
    let mut table = Table::new(alloc);
    put_value(alloc, &mut table, "account", Value::Array(accounts))?;
    let text = printed(alloc, &table)?;
    Ok(text)
}

/// Appends an empty line, where something stands before it.
fn put_gap(out: &mut Vec<u8>) -> Result<(), AllocError>
    ensures { OnOk result (out.new.items ≡ out.old.items ++ gap_behind out.old.items) }
{
    if !out.is_empty() {
        out.push(b'\n')?;
    }
    Ok(())
}

fn settings_table(alloc: Global, settings: &Settings) -> Result<Table, AllocError>
    ensures { IfOk result (λ table. table_view table ≡ settings_members (spelled settings.now)) }
{
    settings.keep_their_bounds();
    let motd = texts_value(alloc, settings.motd().as_slice())?;
    let limit = settings.outbox_limit() as u32;
    let protocol = settings.protocol_version().as_slice();
    let spring = settings.spring_version().as_slice();
    let mut table = Table::new(alloc);
    put_text(alloc, &mut table, "address", b"0.0.0.0:0")?;
    put_value(alloc, &mut table, "motd", motd)?;
    put_number(alloc, &mut table, "outbox_limit", limit)?;
    put_text(alloc, &mut table, "protocol_version", protocol)?;
    put_number(
        alloc,
        &mut table,
        "server_mode",
        u32::from(settings.server_mode()),
    )?;
    put_text(alloc, &mut table, "spring_version", spring)?;
    put_number(
        alloc,
        &mut table,
        "udp_port",
        u32::from(settings.udp_port()),
    )?;
    Ok(table)
}

fn account_table(alloc: Global, account: &Account) -> Result<Table, AllocError>
    ensures { IfOk result (λ table. table_view table ≡ account_members (spelled_account (hidden account.now))) }
{
    let mut table = Table::new(alloc);
    put_value(
        alloc,
        &mut table,
        "access",
        Value::Boolean(account.access()),
    )?;
    put_value(alloc, &mut table, "bot", Value::Boolean(account.bot()))?;
    put_text(alloc, &mut table, "country", account.country().as_slice())?;
    put_number(alloc, &mut table, "id", account.id())?;
    put_text(alloc, &mut table, "name", account.name())?;
    put_text(alloc, &mut table, "password", PASSES)?;
    put_number(alloc, &mut table, "rank", u32::from(account.rank()))?;
    Ok(table)
}

fn put_value(alloc: Global, table: &mut Table, key: &str, value: Value) -> Result<(), AllocError>
    ensures { OnOk result (table_view table.new ≡ with_member key.now (view value) (table_view table.old)) }
{
    let key = String::from_str(alloc, key)?;
    match table.insert(key, value) {
        Ok(_) => Ok(()),
        Err(_) => Err(AllocError),
    }
}

fn put_number(alloc: Global, table: &mut Table, key: &str, n: u32) -> Result<(), AllocError>
    ensures { OnOk result (table_view table.new ≡ with_member key.now (integer (pos n)) (table_view table.old)) }
{
    put_value(alloc, table, key, Value::from(n))
}

fn put_text(alloc: Global, table: &mut Table, key: &str, text: &[u8]) -> Result<(), AllocError>
    ensures { OnOk result (table_view table.new
        ≡ with_member key.now (string (utf8_lossy text.now)) (table_view table.old)) }
{
    let value = text_value(alloc, text)?;
    put_value(alloc, table, key, value)
}

fn text_value(alloc: Global, text: &[u8]) -> Result<Value, AllocError>
    ensures { IfOk result (λ value. view value ≡ string (utf8_lossy text.now)) }
{
    Ok(Value::String(String::from_utf8_lossy(alloc, text)?))
}

fn texts_value(alloc: Global, texts: &[TextBuf]) -> Result<Value, AllocError>
    ensures { IfOk result (λ value. view value ≡ array (text_items (map utf8_lossy texts.now))) }
{
    let mut values = Vec::with_capacity(alloc, texts.len())?;
    for text in texts {
        values.push(text_value(alloc, text.as_slice())?)?;
    }
    Ok(Value::Array(values))
}

/// The text of a table, which has no date that none can be: so only memory may be refused.
fn printed(alloc: Global, table: &Table) -> Result<String, AllocError>
    ensures { IfOk result (λ text. IsDocumentText false (table_view table.now) (string_bytes text)) }
{
    match table_to_string(alloc, table) {
        Ok(text) => Ok(text),
        Err(_) => Err(AllocError),
    }
}
