//! A client's connection over any link, and what a worker does for it while it holds the shared lobby.
//!
//! A worker makes a [`Conn`] for each client, has [`holds::say`] tell the lobby the client's lines, and has
//! [`holds::drain`] fetch what waits for the client.
//!
//! For example (`lobby_tests/src/turns/serving.rt`):
//!
//! ```rust
//! let mut held = desk.take(rt, pass);
//! let client = held.open([10, 0, 0, 1], home).unwrap_or(0);
//! let pass = held.give(rt, desk);
//! let mut conn = Conn::new(alloc, client);
//! let (pass, state) = take_turns(rt, desk, pass, &mut conn, link, gate, 1, None);
//! ```
//!
//! The test opens a client in a hold and makes its connection. Its turns then make further holds, each past a [`Gate`].
//!
//! A connection keeps a client's session and the bytes that are on their way between it and its link, which may be any
//! [`Link`]. In a hold ([`holds`]) the lobby is taken from its desk, told up to 32 of the client's lines or drained of
//! up to four pieces, and given back. No link is read or written meanwhile.
//!
//! The crate stands apart from `lobby_turns`, so that the wrong bodies of turns are tried over turns alone.
#![tactic(auto)]

mod buffer;
mod conn;
mod gate;
mod gated_desk;
pub mod holds;
mod link;
mod login_log;
mod turn;

pub use buffer::{Buffers, PIECE};
pub use conn::{Ahead, Conn};
pub use gate::Gate;
pub use gated_desk::GatedDesk;
pub use link::{Got, Link, Sent};
pub use turn::{Turn, TurnState};
