//! The fields of a TOML table: what a key says, or why its value is refused.
//!
//! [`read_document`] makes a table of a file, and one asks it for a key by [`text_at`], [`number_at`] or another
//! call for the kind of value.
//!
//! The test asks a table for a key that it does not have: a call with a default gives it, and any other says that
//! the key is missing.
//!
//! For example (`leaf_tests/src/setup/fields.rt`):
//!
//! ```rust
//! Row::TextAt("none", Err(FieldFault::Missing)),
//! Row::NumberAt("none", (0, 9), Err(FieldFault::Missing)),
//! Row::TextOr("none", "another", Ok("another")),
//! Row::NumberOr("none", (0, 9), 4, Ok(4)),
//! Row::FlagOr("none", true, Ok(true)),
//! Row::List("none", Ok(&[])),
//! ```
#![tactic(auto)]

mod document;
mod fault;
mod fields;

pub use document::{DocumentError, read_document};
pub use fault::FieldFault;
pub use fields::{
    flag_or, list_or_empty, number_at, number_or, table_or_none, text_at, text_of, text_or,
};
