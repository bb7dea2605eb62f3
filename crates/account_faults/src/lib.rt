//! All that is wrong in a file of accounts, account by account and key by key.
//!
//! [`account_faults`] takes the file's TOML table and gives a [`Fault`] for each thing that is wrong in it.
//!
//! For example (`checks/setup_faults.py`):
//!
//! ```text
//! (ANNA + account("Bert", 2, "rank = 8"), [(9, "account 2 (Bert)", "rank", BAD)]),
//! (account("Anna", 1, 'access = "yes"'), [(5, "account 1 (Anna)", "access", KIND)]),
//! (account("Anna", 1, "bot = 1"), [(5, "account 1 (Anna)", "bot", KIND)]),
//! (account("Anna", 1, 'country = "D"'), [(5, "account 1 (Anna)", "country", BAD)]),
//! ```
//!
//! Each row there has the text of a file, and of each fault its line, whose it is, the key, and the cause: the value is
//! not allowed (`BAD`) or of another kind (`KIND`). The program `lobby_check` prints them so. The crate `account_book`
//! says what each key may be, and refuses a file for the first of these faults.
#![tactic(auto)]

mod fault;
mod faults;
mod keys;
mod names;

pub use fault::{Fault, Holder, Key};
pub use faults::account_faults;
pub use names::Names;
