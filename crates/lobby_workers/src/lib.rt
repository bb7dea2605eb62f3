//! The server over sockets: one lobby, worker threads that share it, and threads for its log and its record.
//!
//! A program calls [`run_server`], or [`run_server_recorded`] for a server with a log and a record, and gets its exit
//! status.
//!
//! For example (`lobby_tests/src/sockets/workers.rt`):
//!
//! ```rust
//! Sends(ANNA, ANNA_LOGS_IN),
//! Reads(ANNA, ANNA_IS_IN),
//! Sends(BERT, BERT_LOGS_IN),
//! Reads(ANNA, BERT_COMES),
//! InputEnds,
//! ServerEnds,
//! IsClosed(ANNA),
//! ```
//!
//! Anna and Bert have a worker each, and she is told that he comes. The server stops where its input ends, and closes
//! their connections.
//!
//! The crate makes what the workers need before they start, each in a thread of its own with its own connections. What
//! operators are told and what is recorded goes to threads that write it, and [`ServerError`] says why a server ends.
//! `worker_loop` has what a worker does.
#![tactic(auto)]

mod error;
mod gate;
mod log_lines;
mod log_queue;
mod record;
mod recorded;
mod server;
mod sleep;
mod workers;
mod writer;

pub use error::ServerError;
pub use lobby_lock::{Made, Pass};
pub use lobby_machine::HashSeed;
pub use log_queue::Log;
pub use record::{Record, RecordFiles};
pub use record_lines::Masks;
pub use recorded::run_server_recorded;
pub use server::{Service, run_server, run_service};
pub use worker_loop::{
    Arrival, Conn, Gate, Got, Inboxes, Link, ListenError, Sent, Turn, TurnState, Wakers,
    WorkerListener, run_worker, serve,
};
pub use workers::{Handles, NewWorker, new_workers, open_desk};
