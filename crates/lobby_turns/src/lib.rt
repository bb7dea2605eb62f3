//! A turn of a client's connection: it reads what came, says the lines to the lobby, and writes what waits.
//!
//! A worker calls [`serve`] for a turn, or [`serve_within`], which also bounds how much the turn's lines may tell.
//!
//! For example (`lobby_tests/src/turns/serving.rt`):
//!
//! ```rust
//! let (next, Turn { state, wakes: _ }, _) = serve_within(
//!     rt, conn, link, desk, pass, gate, allowance,
//! );
//! pass = next;
//! last = Some(state);
//! if state == TurnState::Closed {
//!     return (pass, last);
//! }
//! ```
//!
//! The state says how the connection stands then: `Closed` is that of a client that was shut, which gets no more turns.
//!
//! A turn receives from the client (`receiving`), and then sends to it (`sending`). It holds the lobby by `lobby_holds`
//! alone, and reads or writes no link meanwhile. Its contract (`specs/Turned.antt`) speaks of all bytes that the link
//! tells: none is lost, doubled or out of its order, whatever the link does.
#![tactic(auto)]

mod receiving;
mod sending;
mod serving;

pub use lobby_holds::holds::give_up_unread;
pub use lobby_holds::{Buffers, Conn, Gate, GatedDesk, Got, Link, PIECE, Sent, Turn, TurnState};
pub use sending::SendState;
pub use serving::{Progress, close, finish, gather, send_rest, serve, serve_within, share_hold};
