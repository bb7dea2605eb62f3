//! The channels of a lobby, and who is in each, in order of joining.
//!
//! A [`ChannelBook`] lets users join and leave channels by name, and lists the members of each.
//!
//! For example (`leaf_tests/src/channels.rt`):
//!
//! ```rust
//! Step::Joins(b"main", b"Bert", Ok(())),
//! Step::Joins(b"main", b"Anna", Ok(())),
//! Step::Joins(b"main", b"Cleo", Ok(())),
//! Step::Joins(b"main", b"Anna", Err(ChannelError::AlreadyIn)),
//! Step::Members(b"main", &[b"Bert", b"Anna", b"Cleo"]),
//! ```
//!
//! There `Joins` is a call of [`ChannelBook::join`] with its answer, and `Members` lists who is in the channel then.
//!
//! The book knows names alone. Its caller has to ask whether somebody of a name is logged in, and who may say what in a
//! channel. `specs/` defines what joining and leaving make of the channels.
#![tactic(auto)]

mod book;
mod error;
mod lists;
mod lone;
mod many;
mod members;
mod places;

pub use book::ChannelBook;
pub use error::ChannelError;
pub use members::Members;
