//! Tests of the lobby, of its scripts and records, and of the server over sockets, by public calls alone.
//!
//! A test hands what calls told and what they are to tell to [`verdict::same`], or plays a table of steps that does so.
//!
//! For example (`lobby_tests/src/sockets/server.rt`):
//!
//! ```rust
//! Connects(0),
//! Sends(0, PING),
//! Finishes(0),
//! Reads(0, b"TASSERVER 0.38 * 8201 0\nPONG\n"),
//! Ends(0),
//! ```
//!
//! Client 0 connects to a server that runs in a thread of its own, sends `PING` and then no more, reads its greeting
//! and the answer, and finds its connection closed.
//!
//! The tests try the lobby machine, halls, scripts and records, workers at one desk and the turns of connections, the
//! server over sockets, and the command `hash`. They stand in a crate of their own, since a crate with tests is proved
//! twice. It is one crate, since each crate of tests is linked with all that it stands on.
#![tactic(auto)]

#[cfg(test)]
mod hall;
#[cfg(test)]
mod hash;
#[cfg(test)]
mod machine;
#[cfg(test)]
mod records;
#[cfg(test)]
mod scripts;
#[cfg(test)]
mod sockets;
#[cfg(test)]
mod turns;
#[cfg(test)]
mod verdict;
