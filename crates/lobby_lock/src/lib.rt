//! One lobby for all workers, on a desk where each takes it and gives it back.
//!
//! `Desk::open` lays a lobby on a new [`Desk`] and gives a [`Pass`], with which a worker takes the lobby.
//!
//! For example (`lobby_tests/src/turns/desk.rt`):
//!
//! ```rust
//! let mut held = desk.take(rt, pass);
//! same(rt, held.open([10, 0, 0, 1], 63), Ok(1));
//! drop(held.give(rt, desk));
//! ```
//!
//! The worker takes the lobby, makes one event, by which client 1 connects, and gives the lobby back. Another worker
//! waits until then.
//!
//! There is one history of all events, each with the number of the worker that made it, and the lobby is always the
//! plain lobby after it. A pass tells its worker a beginning of that history: all of it up to the worker's last hold,
//! with exactly the worker's own events under its number.
//!
//! Each step that touches the place of the lobby keeps the rule (`specs/Rule.antt`):
//!
//! - the place is made, and the lobby is put in (`Desk::open`)
//! - a pass is handed out (`Desk::hand_out`), or taken back (`Desk::take_back`)
//! - a worker looks for the lobby, and finds it or not (`Desk::take`)
//! - a hold ends, after events or after none (`Held::lay_down`)
//! - worker 0 takes the lobby for good (`Desk::close`), once the passes of all others came back
//!
//! A worker may keep the events of its holds for a record (`Pass::keep_events`). A hold that is over then shows them,
//! each with its place in the history (`Made`).
#![tactic(auto)]

mod closing;
mod desk;
mod event_count;
mod event_log;
mod events;
mod held;
mod kept;
mod laid;
mod made;
mod pass;
mod place;
mod rule;
mod view;

pub use closing::{CloseError, Closing, Count};
pub use desk::{Desk, DeskError, HANDED_OVER, MOST_EVENTS, MOST_HANDED_OUT};
pub use held::{Held, SaidLine};
pub use made::Made;
pub use pass::Pass;
