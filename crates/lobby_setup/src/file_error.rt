//! Why a file cannot be used, for people.

ghost use Rattle.std.specs.Prelude.{◌≡◌, ◌↔◌};

use crate::error::Refusal;
use account_book::{AccountsError, FileRefusal};
use std::io::ErrorKind;
use thiserror::Error;

/// What is wrong in a file of accounts, and what would be right.
#[derive(Clone, Copy, PartialEq, Eq, Debug, Error)]
pub enum AccountsFault {
    /// It is not TOML, or not UTF-8.
    #[error("the file is not TOML: expected UTF-8 and TOML, as in examples/accounts.toml")]
    NotToml,
    /// A key of the whole file is bad.
    #[error("a key of the file is not allowed: expected `format` 1 or 2, each account as [[account]], and for `format` 2, if there is \
         a `default`, a table with `rank`, `access`, `bot` and `country` as an account has them")]
    Whole,
    /// A key of this account, counted from 1, is missing or bad.
    #[error("a key of account {0} is missing or not allowed: expected `name` 1 to 20 letters, digits, `_`, `[` and `]`, `password` \
         a word as `make hash` prints it, `id` a whole number from 0 to 4294967295, and, if they are there, `rank` a whole \
         number from 0 to 7, `access`, `bot` and for `format` 2 `disabled` true or false, `country` two upper-case letters or `??`")]
    Account(usize),
    /// This account, counted from 1, has the name of an earlier one.
    #[error("account {0} has the name of an earlier one: expected a name of its own for each, disabled ones too")]
    SameName(usize),
}

/// Why a file of settings or of accounts cannot be used.
#[derive(Clone, Copy, PartialEq, Eq, Debug, Error)]
pub enum FileError {
    /// It cannot be read, for this cause.
    #[error("the file cannot be read: {0}")]
    Unreadable(ErrorKind),
    /// It is no good file of settings: its first fault.
    #[error("{0}")]
    Settings(Refusal),
    /// It is no good file of accounts: its first fault.
    #[error("{0}")]
    Accounts(AccountsFault),
    /// Memory was refused. The file may be good.
    #[error("no memory")]
    Memory,
}

/// Why a file whose accounts are refused cannot be used.
pub(crate) fn refused(refusal: FileRefusal) -> FileError
    ensures { (result ≡ FileError.Memory) ↔ (refusal.error ≡ AccountsError.Memory) }
{
    let fault = match refusal.error {
        AccountsError::NotToml => AccountsFault::NotToml,
        AccountsError::BadField(0) => AccountsFault::Whole,
        AccountsError::BadField(place) => AccountsFault::Account(place),
        AccountsError::DuplicateName => AccountsFault::SameName(refusal.account),
        AccountsError::Memory => return FileError::Memory,
    };
    FileError::Accounts(fault)
}
