//! A worker of the server: it waits for news of its clients, gives them turns, and stops in order when told.
//!
//! Each worker's thread calls [`run_worker`], which serves clients until the workers are told to stop.
//!
//! For example (`lobby_tests/src/sockets/workers.rt`):
//!
//! ```rust
//! Enters(ANNA),
//! Enters(BERT),
//! Sends(ANNA, PING),
//! IsKept,
//! Sends(BERT, PING),
//! Reads(BERT, PONG),
//! GoesOn,
//! Reads(ANNA, PONG),
//! ```
//!
//! Two workers serve one client each. From `IsKept` to `GoesOn` Anna's worker stands still behind a write, and Bert's
//! answers him meanwhile.
//!
//! The crate also has the places where connections wait for their workers ([`Inboxes`]), and what wakes these
//! ([`Wakers`]). A worker that waits without end has forgotten nobody: each connection that was to get a turn had it,
//! or has gone (`lobby_connections`). Nothing is proved of sockets, polls and wakes but that their use is safe. It is
//! not proved that a poll tells or a wake arrives.
#![tactic(auto)]

mod acceptor;
mod error;
mod inboxes;
mod leaving;
mod reserve;
mod step_queue;
mod stopping;
mod turns;
mod worker;

pub use error::ListenError;
pub use inboxes::{Arrival, Inboxes};
pub use lobby_connections::Wakers;
pub use lobby_turns::{Conn, Gate, Got, Link, Sent, Turn, TurnState, serve};
pub use reserve::{BLOCK, BLOCKS, Reserve};
pub use step_queue::StepQueue;
pub use turns::Shared;
pub use worker::{WorkerListener, run_worker};
