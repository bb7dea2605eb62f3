//! Scripts of what clients do at a lobby, played without a network, with the lines that each client is sent.
//!
//! A program calls [`play`], which reads a script, plays it against a lobby of its own, and writes what it shows.
//!
//! For example (`lobby_tests/src/scripts.rt`):
//!
//! ```rust
//! let mut reader = script;
//! let mut writer = Vec::new(alloc);
//! play(alloc, &mut reader, &mut writer) == told && writer.as_slice() == output
//! ```
//!
//! For a script that begins with the lines `open 1 10.0.0.1`, `show 1` and `x`, `told` is `Err(PlayFault::BadStep(3))`,
//! and `output` is the greeting that line 2 shows: `1> TASSERVER 0.38 * 8201 0`.
//!
//! A step is a line: a client connects, sends bytes, reads or disconnects, or its lines are taken or shown. The crate
//! stands on the hall (`lobby_hall`). Of the world outside it knows a reader and a writer alone: standard streams and
//! arguments are the program's, and it knows nothing of sockets.
#![tactic(auto)]

mod accounts;
mod action;
mod escapes;
mod fault;
mod input;
mod label;
pub mod laws;
mod lines;
mod orders;
mod player;
mod script;
mod setup;
pub mod show;

pub use action::{Action, Order, Setting, read_action};
pub use fault::{LineFault, PlayFault};
pub use input::{MOST_READS, SCRIPT_LIMIT};
pub use script::play;
