//! What can be wrong in a file of accounts.

use toml_fields::FieldFault;

/// Where a key stands.
#[derive(Clone, Copy, PartialEq, Eq, Debug)]
pub enum Holder {
    /// In the file itself, above its accounts.
    WholeFile,
    /// In its table `default`.
    DefaultTable,
    /// In this account, counted from 1.
    Account(usize),
}

/// A key of a file of accounts.
#[derive(Clone, Copy, PartialEq, Eq, Debug)]
pub enum Key {
    /// `format`, of the file.
    Format,
    /// `default`, of the file.
    Default,
    /// `account`, of the file: the list of its accounts.
    Accounts,
    /// `name`.
    Name,
    /// `password`.
    Password,
    /// `id`.
    Id,
    /// `rank`.
    Rank,
    /// `access`.
    Access,
    /// `bot`.
    Bot,
    /// `country`.
    Country,
    /// `disabled`.
    Disabled,
}

impl Key {
    /// How it is written in the file.
    pub fn name(self) -> &'static str {
        match self {
            Key::Format => "format",
            Key::Default => "default",
            Key::Accounts => "account",
            Key::Name => "name",
            Key::Password => "password",
            Key::Id => "id",
            Key::Rank => "rank",
            Key::Access => "access",
            Key::Bot => "bot",
            Key::Country => "country",
            Key::Disabled => "disabled",
        }
    }

    /// What its value has to be, for people.
    pub fn expected(self) -> &'static str {
        match self {
            Key::Format => "1 or 2",
            Key::Default => "a table, as [default]",
            Key::Accounts => "each account as [[account]]",
            Key::Name => "a text of 1 to 20 letters, digits, `_`, `[` and `]`",
            Key::Password => "a word as `make hash` prints it",
            Key::Id => "a whole number from 0 to 4294967295",
            Key::Rank => "a whole number from 0 to 7",
            Key::Access | Key::Bot | Key::Disabled => "true or false",
            Key::Country => "two upper-case letters or `??`",
        }
    }
}

/// What is wrong in a file of accounts.
#[derive(Clone, Copy, PartialEq, Eq, Debug)]
pub enum Fault {
    /// A key is missing, or its value is of another kind or not allowed.
    Field {
        holder: Holder,
        key: Key,
        cause: FieldFault,
    },
    /// What stands as this account, counted from 1, is no table.
    NoTable {
        account: usize,
    },
    /// This account, counted from 1, has the name of an earlier one, of which `first` is the first.
    SameName {
        account: usize,
        first: usize,
    },
}
