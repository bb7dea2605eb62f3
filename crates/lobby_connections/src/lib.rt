//! The connections of one worker over sockets that never wait, and the order in which they get their turns.
//!
//! A worker keeps its clients in one [`Connections`], asks it who is to get the next turn, and has it give that turn.
//!
//! For example (`lobby_tests/src/sockets/server.rt`):
//!
//! ```rust
//! Enters(THIRD),
//! Sends(THIRD, PING),
//! IsKept,
//! SendsOften(ANNA, PING, 200),
//! Sends(BERT, b"SAYPRIVATE Anna on\n"),
//! GoesOn,
//! ReadsAmong(ANNA, PONG, 200, b"SAIDPRIVATE Bert on\n"),
//! ```
//!
//! One worker serves all three, and stands still from `IsKept` to `GoesOn`. A turn hears 64 lines, so Anna is left over
//! for further turns, and Bert's line has her named as changed. She gets every answer, with Bert's line once among
//! them.
//!
//! Connections of which one poll told take their turns together ([`Together`]): their lines are said in as few holds of
//! the lobby as can be.
//!
//! The crate also holds each client's link, the connections whose client is still to come, and those that linger.
//! Whoever is to get a turn is noted, and a worker that waits without end has forgotten nobody (`specs/Attended.antt`).
//! That a poll tells and a waker wakes is the system's word: `Lookout::wait` keeps what the poll told, and [`Wakers`]
//! note whom they woke. A worker takes the lobby itself, and makes the rounds (`worker_loop`).
#![tactic(auto)]

mod connection;
mod connections;
mod lingering;
mod lookout;
mod names;
mod newcomers;
mod poll_timeout;
mod seat;
mod serving;
mod sharing;
mod together;
mod waiting;
mod wakers;
mod wire_link;

pub use connection::Connection;
pub use connections::{Connections, TURN_MOST};
pub use lookout::Lookout;
pub use names::IN_HOLD as NAMES_IN_HOLD;
pub use newcomers::{Fronted, Newcomers};
pub use poll_timeout::PollTimeout;
pub use seat::Claim;
pub use serving::Served;
pub use together::{TOGETHER, Together};
pub use waiting::Waited;
pub use wakers::{Rung, Wakers};
pub use wire_link::WireLink;
