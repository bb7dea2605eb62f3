//! A server's record played again: its workers' files joined by place, and what each client was sent and knew.
//!
//! One makes a [`Replay`] of the files, and [`answer`] plays it and writes what a list of questions asks for.
//!
//! For example (`lobby_tests/src/records.rt`):
//!
//! ```rust
//! // What the other worker made behind the end is left out.
//! Asked {
//!     files: &[b"0 open 1 10.0.0.1\n", b"1 open 2 10.0.0.2\n3 shut 2\n"],
//!     questions: b"show 1\n",
//!     told: Ok(2),
//!     output: GREETED,
//! },
//! ```
//!
//! Each line begins with the place of its event. No file has place 2, so the record ends there: `told` is what
//! `Replay::missing` says. Client 1 was sent its greeting, and nothing else.
#![tactic(auto)]

mod fault;
mod file;
mod joining;
mod order;
mod playing;
mod questions;
mod replay;

pub use fault::RecordFault;
pub use file::RecordLine;
pub use joining::{Joined, join};
pub use order::whole_events;
pub use questions::{QuestionFault, answer};
pub use replay::Replay;
