//! The fields of a server's line, read one by one from left to right.
//!
//! A call such as [`u32_at`] for a number or [`name_at`] for a name takes the bytes that are left of a line, and
//! gives the field with the bytes behind it.
//!
//! The lines of the test are refused, since their last word is no number as the server prints it in a status.
//!
//! For example (`leaf_tests/src/replies.rt`):
//!
//! ```rust
//! b"CLIENTSTATUS Bert 012",
//! b"CLIENTSTATUS Bert -0",
//! b"CLIENTSTATUS Bert -1",
//! b"CLIENTSTATUS Bert 4294967296",
//! b"CLIENTSTATUS Bert 99999999999",
//! b"CLIENTSTATUS Bert 1x",
//! ```
//!
//! A call reads just what `reply_printer` prints for the field, and answers `Unread` at all else. Those that take
//! an `alloc` copy the field, and answer `Memory` where memory for that is refused.
//!
//! It stands apart from `reply_grammar`, so that the wrong bodies that its contracts refuse are tried over it
//! alone.
#![tactic(auto)]

mod error;
mod fields;
mod lists;
mod numbers;

pub use error::ReadError;
pub use fields::{ended, name_at, optional_at, sentence_at, text_at, word_at};
pub use lists::{names_at, pairs_at, words_at};
pub use numbers::{battle_at, flag_at, id_of, small_at, u16_at, u32_at, wide_at};
