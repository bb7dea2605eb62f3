//! Tests of the crates below the lobby, of the file of settings and of a client's view, by their public calls.
//!
//! A test hands what a call told and what it is to tell to [`verdict::same`], which fails the test where the two
//! differ.
//!
//! For example (`leaf_tests/src/keys.rt`):
//!
//! ```rust
//! /// Anna's room under 1 is joined by Bert under 2, and Cleo is let in under 3.
//! fn key_members(rt: &impl Abort, room: &mut Room<u8>) {
//!     same(rt, join(room, b"Bert", 2), true);
//!     same(rt, let_in(room, b"Cleo", 3), true);
//!     same(rt, are(room.members(), &[1, 2, 3]), true);
//!     same(rt, drops(room, b"Bert"), true);
//!     same(rt, are(room.members(), &[1, 3]), true);
//! }
//! ```
//!
//! The tests try values of the protocol, vectors of standards, and with memory at hand each call that may be refused
//! memory. They stand in a crate of their own, since a crate with tests is proved twice.
#![tactic(auto)]

#[cfg(test)]
mod accounts;
#[cfg(test)]
mod askers;
#[cfg(test)]
mod channels;
#[cfg(test)]
mod frames;
#[cfg(test)]
mod keys;
#[cfg(test)]
mod lists;
#[cfg(test)]
mod looks;
#[cfg(test)]
mod outboxes;
#[cfg(test)]
mod records;
#[cfg(test)]
mod replies;
#[cfg(test)]
mod requests;
#[cfg(test)]
mod rooms;
#[cfg(test)]
mod settings;
#[cfg(test)]
mod setup;
#[cfg(test)]
mod status_words;
#[cfg(test)]
mod units;
#[cfg(test)]
mod verdict;
#[cfg(test)]
mod views;
#[cfg(test)]
mod words;
