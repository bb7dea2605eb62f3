//! The accounts of a lobby by their names.

ghost use Rattle.std.specs.Prelude.{◌≡◌, ◌≢◌, ◌↔◌, ◌++◌, [], ◌∷◌, length, IsTrue, IsSome, option_copied, OnOk, OnErr};
ghost use Rattle.std.specs.Prelude.{IfErr, Result, Ok, Err};
ghost use Rattle.std.specs.List.{AllByRecursion};
ghost use Rattle.account_book.specs.Account.{IsHeld};
ghost use Rattle.account_book.specs.Book.{account_of, login, seen, HasDistinctNames};

use crate::account::Account;
use crate::error::{AccountsError, LoginFault};
use indexmap::IndexMap;
use std::alloc::Global;
use std::marker::Model;

/// The accounts of a lobby, in the order in which they were added, with no name twice.
///
/// A look-up by name takes the same time however many accounts there are.
pub struct AccountBook {
    alloc: Global,
    accounts: IndexMap<Vec<u8>, Account>,
}

impl Drop for AccountBook {
    /// Who lets a book go calls this, and need not know what it is made of.
    fn drop(self) {
        let AccountBook { alloc: _, accounts } = self;
        drop(accounts);
    }
}

impl Model for AccountBook {
    ghost use Rattle.std.specs.Prelude.{List, map};
    ghost use Rattle.std.specs.List.{AllByRecursion};
    ghost use Rattle.account_book.specs.Account.{Account as Seen};
    ghost use Rattle.account_book.specs.Book.{HasDistinctNames, IsEntry};

    ghost Value = { List Seen };

    ghost view = { λ b. map (λ entry. entry.1) b.accounts.entries };

    ghost invariant = { λ b.
        AllByRecursion (λ entry. IsEntry entry.0.items entry.1) b.accounts.entries
        × HasDistinctNames (map (λ entry. entry.1) b.accounts.entries) };
}

impl AccountBook {
    /// A book without accounts. It takes no memory yet.
    pub fn new(alloc: Global) -> AccountBook
        ensures { result ≡ [] }
    {
        AccountBook {
            alloc,
            accounts: IndexMap::new(alloc),
        }
    }

    /// What every book keeps: each of its accounts keeps the rules of its fields and has a number of
    /// 32 bits, and no two have one name. Does nothing.
    pub fn keeps_its_rules(&self)
        ensures accounts { AllByRecursion IsHeld self.now }
        ensures names { HasDistinctNames self.now }
    {
        let _ = &self.accounts;
    }

    /// How many accounts there are. No two of them have one name.
    pub fn len(&self) -> usize
        ensures count { result ≡ length self.now }
        ensures distinct { HasDistinctNames self.now }
    {
        self.accounts.len()
    }

    /// Whether there is no account.
    pub fn is_empty(&self) -> bool
        ensures { IsTrue result ↔ (self.now ≡ []) }
    {
        self.accounts.is_empty()
    }

    /// The account of this name; None where there is none.
    pub fn get(&self, name: &[u8]) -> Option<&Account>
        ensures { option_copied result ≡ account_of name.now self.now }
    {
        self.accounts.get(name)
    }

    /// Adds an account behind the others.
    ///
    /// `DuplicateName` where an account of that name is there, else `Memory` where memory for one more
    /// is refused. A refused account is let go, and the book stays as it was.
    pub fn add(&mut self, account: Account) -> Result<(), AccountsError>
        ensures ok { OnOk result (self.new ≡ self.old ++ account ∷ []) }
        ensures duplicate { (result ≡ Err AccountsError.DuplicateName)
            ↔ IsSome (account_of account.name self.old) }
        ensures errors { IfErr result (λ e.
            e ≢ AccountsError.Memory → e ≡ AccountsError.DuplicateName) }
        ensures err { OnErr result (self.new ≡ self.old) }
    {
        if self.get(account.name()).is_some() {
            return Err(AccountsError::DuplicateName);
        }
        account.keeps_its_rules();
        let Ok(name) = Vec::from_slice(self.alloc, account.name()) else {
            return Err(AccountsError::Memory);
        };
        if self.accounts.insert(name, account).is_err() {
            return Err(AccountsError::Memory);
        }
        Ok(())
    }

    /// The account that a login with this name and password word is for.
    ///
    /// `NoAccount` where no account has the name, `BadPassword` where its word is another.
    pub fn check(&self, name: &[u8], password: &[u8]) -> Result<&Account, LoginFault>
        ensures { seen result ≡ login self.now name.now password.now }
    {
        match self.get(name) {
            Some(account) if account.password() == password => Ok(account),
            Some(_) => Err(LoginFault::BadPassword),
            None => Err(LoginFault::NoAccount),
        }
    }
}
