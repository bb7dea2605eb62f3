//! What a client knows of the lobby from its own bytes, and what it cannot know.
//!
//! [`view_law`] says that a client who is logged in, not cut, and folds its bytes holds exactly what the lobby shows
//! it.
//!
//! For example (`leaf_tests/src/views.rt`):
//!
//! ```rust
//! Step::Feeds(SENT, Ok(24)),
//! Step::Counts(2, 1, 1),
//! Step::Channel(b"main", 2, b"Anna"),
//! Step::Feeds(b"LEFT main Anna\n", Ok(1)),
//! Step::Counts(2, 0, 1),
//! ```
//!
//! The 24 lines `SENT` tell Anna of 2 users, 1 channel and 1 battle there. When she has left the channel `main`, her
//! view has no channel any more.
//!
//! `specs/` defines the view, what the lobby shows, and how lines and bytes change what a client knows. The other laws
//! say that no line is too long ([`line_length_law`]), that each reads as one reply ([`line_kinds_law`]), that it does
//! not matter how bytes are cut ([`pieces_law`]), and that private talk puts no byte to others ([`private_law`]).
#![tactic(auto)]

pub mod laws;

pub use laws::{line_kinds_law, line_length_law, pieces_law, private_law, view_law};
