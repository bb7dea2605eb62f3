//! One mutable lobby that applies events one after another.
//!
//! `Lobby::new` makes a [`Lobby`], and its calls `open`, `say`, `drain` and `shut` apply the events.
//!
//! For example (`lobby_tests/src/machine/clients.rt`):
//!
//! ```rust
//! same(rt, wakes_alone(lobby, alloc, client, ANNA_SAYS, 1), true);
//! same(rt, wakes_nobody(lobby, alloc, client, b"#5 EXIT bye"), true);
//! same(rt, wakes_nobody(lobby, alloc, client, b"PING"), true);
//! let got = b"ACCEPTED Anna\nMOTD Welcome\nADDUSER Anna DE 0 1\nLOGININFOEND\n";
//! same(rt, drains(lobby, client, &mut [0; 256], got, true), true);
//! ```
//!
//! `wakes_alone` and `wakes_nobody` call `say` and look whom it wakes: the workers with clients that gained bytes or
//! were cut. Anna logs in and exits, and then says `PING` in vain. `drain` still gives her what was put before.
//!
//! A command is one function of `rules` or of `battle_rules`, which reads like its equation in the plain lobby. What it
//! tells waits in the post until the change is committed. Memory is asked for before the first change alone, so that
//! nothing has changed where it is refused.
#![tactic(auto)]

mod lobby;
mod login_answer;
mod rules;

pub use battle_room::HashSeed;
pub use lobby::{Lobby, OpenError};
pub use lobby_post::{Drained, Wakes};
pub use login_answer::LoginAnswer;
