//! Why accounts and logins are refused.

use thiserror::Error;

/// Why an account, or a file of accounts, is refused.
#[derive(Clone, Copy, PartialEq, Eq, Debug, Error)]
pub enum AccountsError {
    /// The file is not TOML, or not UTF-8.
    #[error("not TOML")]
    NotToml,
    /// A field is missing or bad: of the account at this place of the list, counted from 1, or with
    /// place 0 of the file as a whole, or of an account that stands in no list.
    #[error("bad field in account {0}")]
    BadField(usize),
    /// An earlier account has the same name.
    #[error("two accounts of one name")]
    DuplicateName,
    /// Memory was asked for and refused. Nothing has changed.
    #[error("no memory")]
    Memory,
}

/// Why a login is refused.
#[derive(Clone, Copy, PartialEq, Eq, Debug, Error)]
pub enum LoginFault {
    /// No account has the name.
    #[error("no such account")]
    NoAccount,
    /// The account of that name has another password word.
    #[error("wrong password")]
    BadPassword,
}
