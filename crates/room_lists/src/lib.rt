//! The bots, script tags and disabled units of a battle's room, as a server and a client both keep them.
//!
//! [`Units`] holds disabled units, [`Tags`] script tags and [`Bots`] bots, each in the order in which they came.
//!
//! For example (`leaf_tests/src/views.rt`):
//!
//! ```rust
//! Step::Feeds(b"DISABLEUNITS corcom armpw armpw\n", Ok(1)),
//! Step::Units(&[b"armcom", b"corcom", b"armflash", b"armpw"]),
//! Step::Feeds(b"ENABLEUNITS armcom armpw x\n", Ok(1)),
//! Step::Units(&[b"corcom", b"armflash"]),
//! Step::Feeds(b"DISABLEUNITS armcom\n", Ok(1)),
//! Step::Units(&[b"corcom", b"armflash", b"armcom"]),
//! ```
//!
//! There a client's view is fed lines of the server, and keeps the disabled units in [`Units`]. Three of them were
//! disabled before.
//!
//! The lists know no rules. Who keeps a room decides who may change a list and how long it may get: `battle_room` for a
//! server, the view for a client. The crate has the limits and says whether there is room, but no call refuses what is
//! past them. It also says what a start rectangle is, and `specs/` defines what the members of a battle share.
#![tactic(auto)]

mod bots;
mod hash_seed;
mod keyed;
mod names;
mod rects;
mod status_word;
mod tags;
mod units;

pub use bots::{BOT_LIMIT, Bot, Bots};
pub use hash_seed::HashSeed;
pub use keyed::{Keyed, KeyedList};
pub use rects::Rect;
pub use status_word::StatusWord;
pub use tags::{TAG_LIMIT, Tags};
pub use units::{UNIT_LIMIT, Units};
