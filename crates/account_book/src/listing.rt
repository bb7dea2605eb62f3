//! An account as a file lists it.

use crate::account::Account;

/// An account of a file, and whether it is disabled: a disabled one is in the file and not in the
/// book.
#[derive(Drop)]
pub struct Listing {
    /// The account, disabled or not.
    pub account: Account,
    /// Whether it is disabled.
    pub disabled: bool,
}
