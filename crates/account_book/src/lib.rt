//! The accounts of a lobby by their names, read from a file, and the check of a login.
//!
//! [`AccountBook::read`] makes an [`AccountBook`] of a file, and its `check` gives the account of a name and a
//! password word, or says why a login is refused.
//!
//! The test has added an account of the number `u32::MAX`, and the book has refused a second one of that name.
//!
//! For example (`leaf_tests/src/accounts.rt`):
//!
//! ```rust
//! match book.check(b"[AI]_1", WORD) {
//!     Ok(first) => same(rt, first.id(), u32::MAX),
//!     Err(_) => fail(rt, "the first is there"),
//! }
//! ```
//!
//! An [`Account`] keeps the rules of its fields, and [`password_word`] makes the word of a password.
#![tactic(auto)]

mod account;
mod book;
mod country;
mod error;
mod fields;
mod file;
mod listing;
mod password;
mod profile;

pub use account::Account;
pub use book::AccountBook;
pub use country::Country;
pub use error::{AccountsError, LoginFault};
pub use fields::{Contents, contents_of, described};
pub use file::FileRefusal;
pub use listing::Listing;
pub use password::password_word;
pub use profile::Profile;
