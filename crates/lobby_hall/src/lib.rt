//! Schedules played in a lobby without a network, with a record of the bytes put for each client.
//!
//! A [`Hall`] takes the steps of a schedule one by one, and [`run`] plays a whole schedule and gives its [`Record`].
//!
//! For example (`lobby_tests/src/hall.rt`):
//!
//! ```rust
//! let step = Step::Read {
//!     client: 1,
//!     count: 5,
//! };
//! same(rt, hall.step(&step), Ok(()));
//! same(rt, hall.last_client(), 1);
//! same(rt, hall.record()?.put(1), GREETING_AND_PONG);
//! ```
//!
//! Client 1 has connected and said `PING`, and now reads 5 bytes. The record has all that was put for it: the greeting
//! and `PONG`.
//!
//! A session makes requests of a client's bytes, and a request is an event of the lobby.
#![tactic(auto)]

mod hall;
mod index;
mod record;
mod sessions;

pub use client_session::{Next, Session};
pub use hall::{Hall, HallError, run};
pub use lobby_model::Step;
pub use lobby_model::schedule::Piece;
pub use lobby_view::{line_length_law, private_law, view_law};
pub use record::Record;
