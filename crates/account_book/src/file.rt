//! The file of accounts.
//!
//! It is TOML. `format` is 1 or 2, and 1 where it is missing; `account` is a list of tables and may
//! be missing; keys that are not known are passed over. Each table has the keys `name`, `password`
//! and `id`, and may have `rank` (else 0), `access` and `bot` (else false) and `country` (else
//! `??`). What each may be stands at [`Account::new`](crate::Account::new).
//!
//! In format 2 there may be a table `default`, which gives rank, access, bot and country for the
//! accounts that leave them out, and an account may have `disabled` (else false). A disabled
//! account is read as any other, and its name counts among the names; then it is left out. In
//! format 1 these two keys are not known.

ghost use Rattle.std.specs.Prelude.{◌≡◌, ℕ, ◌≢◌, ◌↔◌, ◌++◌, [], ◌∷◌, ◌||◌, IsTrue, is_some, IfOk, IfErr, OnOk, OnErr};
ghost use Rattle.std.specs.Prelude.{Some, None, Result, Ok, Err, if◌then◌else◌};
ghost use Rattle.toml.specs.View.{table_view};
ghost use Rattle.toml_fields.specs.Document.{document};
ghost use Rattle.account_book.specs.Fields.{shown_contents};
ghost use Rattle.account_book.specs.Book.{account_of};
ghost use Rattle.account_book.specs.File.{entries_in, listed_accounts, IsTwin, Lists, file_accounts, file_entries};
ghost use Rattle.account_book.specs.File.{table_accounts, table_entries};

use crate::book::AccountBook;
use crate::error::AccountsError;
use crate::fields::{Contents, contents_of, described};
use crate::listing::Listing;
use std::alloc::Global;
use toml::Table;
use toml_fields::{DocumentError, read_document};

/// Why a file of accounts is refused, and at which account.
#[derive(Clone, Copy, PartialEq, Eq, Debug)]
pub struct FileRefusal {
    /// With `BadField` its place, with `DuplicateName` the number of the account that has the name again, counted
    /// from 1. Else it says nothing.
    pub account: usize,
    /// What is wrong.
    pub error: AccountsError,
}

impl AccountBook {
    /// Not run by the server, which uses `read`: the accounts of a file that are not disabled, in its order.
    ///
    /// `NotToml` where it is not TOML or not UTF-8, then `BadField(0)` where `format` is not 1 or 2,
    /// `account` is no list, or `default`, in format 2, is no table or has a bad value. Then comes
    /// the first account, counted from 1, that is refused: `BadField` with its place where it is no
    /// table, or a field is missing or bad, else `DuplicateName` where an earlier one, disabled or
    /// not, has its name. `Memory` may come at any time.
    pub fn from_toml(alloc: Global, bytes: &[u8]) -> Result<AccountBook, AccountsError>
        ensures answer { result ≢ Err AccountsError.Memory → result ≡ file_accounts bytes.now }
        ensures listed { IfOk result (Lists (file_entries bytes.now)) }
    {
        match AccountBook::read(alloc, bytes) {
            Ok(book) => Ok(book),
            Err(refusal) => Err(refusal.error),
        }
    }

    /// The accounts of a file that are not disabled, in its order. It is refused as by `from_toml`, and of a name that
    /// an earlier account has it is known whose it is.
    pub fn read(alloc: Global, bytes: &[u8]) -> Result<AccountBook, FileRefusal>
        ensures ok { IfOk result (λ book. file_accounts bytes.now ≡ Ok book) }
        ensures listed { IfOk result (Lists (file_entries bytes.now)) }
        ensures err { IfErr result (λ refusal. refusal.error ≢ AccountsError.Memory
            → file_accounts bytes.now ≡ Err refusal.error) }
        ensures twin { IfErr result (λ refusal. refusal.error ≡ AccountsError.DuplicateName
            → IsTwin (file_entries bytes.now) refusal.account) }
        ensures place { IfErr result (λ refusal. (place : ℕ) → refusal.error ≡ AccountsError.BadField place
            → refusal.account ≡ place) }
    {
        let table = match read_table(alloc, bytes) {
            Ok(table) => table,
            Err(error) => return Err(FileRefusal { account: 0, error }),
        };
        let book = book_of(alloc, &table);
        drop(table);
        book
    }
}

/// The accounts of a table that are not disabled.
fn book_of(alloc: Global, table: &Table) -> Result<AccountBook, FileRefusal>
    ensures ok { IfOk result (λ book. table_accounts (table_view table.now) ≡ Ok book) }
    ensures listed { IfOk result (Lists (table_entries (table_view table.now))) }
    ensures err { IfErr result (λ refusal. refusal.error ≢ AccountsError.Memory
        → table_accounts (table_view table.now) ≡ Err refusal.error) }
    ensures twin { IfErr result (λ refusal. refusal.error ≡ AccountsError.DuplicateName
        → IsTwin (table_entries (table_view table.now)) refusal.account) }
    ensures place { IfErr result (λ refusal. (place : ℕ) → refusal.error ≡ AccountsError.BadField place
        → refusal.account ≡ place) }
{
    let Ok(contents) = contents_of(table) else {
        return Err(FileRefusal {
            account: 0,
            error: AccountsError::BadField(0),
        });
    };
    let mut book = AccountBook::new(alloc);
    match add_all(alloc, &mut book, &contents) {
        Ok(()) => Ok(book),
        Err(refused) => {
            drop(book);
            Err(refused)
        }
    }
}

/// Adds the accounts of a file that are not disabled to an empty book, up to the first entry that is refused.
fn add_all(
    alloc: Global,
    book: &mut AccountBook,
    contents: &Contents<'_>,
) -> Result<(), FileRefusal>
    requires { book.old ≡ [] }
    ensures ok { OnOk result (listed_accounts (entries_in (shown_contents contents.now)) ≡ Ok book.new) }
    ensures listed { OnOk result (Lists (entries_in (shown_contents contents.now)) book.new) }
    ensures err { IfErr result (λ refusal. refusal.error ≢ AccountsError.Memory
        → listed_accounts (entries_in (shown_contents contents.now)) ≡ Err refusal.error) }
    ensures twin { IfErr result (λ refusal. refusal.error ≡ AccountsError.DuplicateName
        → IsTwin (entries_in (shown_contents contents.now)) refusal.account) }
    ensures place { IfErr result (λ refusal. (place : ℕ) → refusal.error ≡ AccountsError.BadField place
        → refusal.account ≡ place) }
{
    let mut disabled = AccountBook::new(alloc);
    let added = add_entries(alloc, book, &mut disabled, contents);
    drop(disabled);
    added
}

/// The table of a file.
fn read_table(alloc: Global, bytes: &[u8]) -> Result<Table, AccountsError>
    ensures ok { IfOk result (λ table. document bytes.now ≡ Some (table_view table)) }
    ensures err { IfErr result (λ e. e ≢ AccountsError.Memory →
        (e ≡ AccountsError.NotToml) × (document bytes.now ≡ None)) }
{
    match read_document(alloc, bytes) {
        Ok(table) => Ok(table),
        Err(DocumentError::NotToml { .. }) => Err(AccountsError::NotToml),
        Err(DocumentError::Memory) => Err(AccountsError::Memory),
    }
}

/// Adds an account of a file to the book, or to the disabled ones.
///
/// `DuplicateName` where one of either has its name, else `Memory` where there is none to keep one
/// more. Nothing has changed then.
fn add_listing(
    book: &mut AccountBook,
    disabled: &mut AccountBook,
    listing: Listing,
) -> Result<(), AccountsError>
    ensures book { OnOk result (book.new
        ≡ (if listing.disabled then book.old else book.old ++ listing.account ∷ [])) }
    ensures disabled { OnOk result (disabled.new
        ≡ (if listing.disabled then disabled.old ++ listing.account ∷ [] else disabled.old)) }
    ensures duplicate { (result ≡ Err AccountsError.DuplicateName)
        ↔ IsTrue (is_some (account_of listing.account.name book.old)
        || is_some (account_of listing.account.name disabled.old)) }
    ensures errors { IfErr result (λ e.
        e ≢ AccountsError.Memory → e ≡ AccountsError.DuplicateName) }
    ensures err { OnErr result ((book.new ≡ book.old) × (disabled.new ≡ disabled.old)) }
{
    let name = listing.account.name();
    if book.get(name).is_some() || disabled.get(name).is_some() {
        return Err(AccountsError::DuplicateName);
    }
    if listing.disabled {
        disabled.add(listing.account)
    } else {
        book.add(listing.account)
    }
}

/// Adds the accounts of a file to two empty books, the disabled ones to the second, up to the first
/// entry that is refused.
fn add_entries(
    alloc: Global,
    book: &mut AccountBook,
    disabled: &mut AccountBook,
    contents: &Contents<'_>,
) -> Result<(), FileRefusal>
    requires book { book.old ≡ [] }
    requires disabled { disabled.old ≡ [] }
    ensures ok { OnOk result (listed_accounts (entries_in (shown_contents contents.now)) ≡ Ok book.new) }
    ensures listed { OnOk result (Lists (entries_in (shown_contents contents.now)) book.new) }
    ensures err { IfErr result (λ refusal. refusal.error ≢ AccountsError.Memory
        → listed_accounts (entries_in (shown_contents contents.now)) ≡ Err refusal.error) }
    ensures twin { IfErr result (λ refusal. refusal.error ≡ AccountsError.DuplicateName
        → IsTwin (entries_in (shown_contents contents.now)) refusal.account) }
    ensures place { IfErr result (λ refusal. (place : ℕ) → refusal.error ≡ AccountsError.BadField place
        → refusal.account ≡ place) }
{
    for (k, entry) in contents.entries.iter().enumerate() {
        let account = k + 1;
        let Ok(listing) = described(alloc, contents.format, contents.default, entry) else {
            let error = AccountsError::Memory;
            return Err(FileRefusal { account, error });
        };
        let Some(listing) = listing else {
            let error = AccountsError::BadField(account);
            return Err(FileRefusal { account, error });
        };
        if let Err(error) = add_listing(book, disabled, listing) {
            return Err(FileRefusal { account, error });
        }
    }
    Ok(())
}
