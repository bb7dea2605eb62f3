//! A client's own copy of its battle's room, with a call for each change that the server tells.
//!
//! A client's view keeps one [`UndoableRoom`], makes each change by such a call, and shows the [`OwnRoom`] in it.
//!
//! For example (`leaf_tests/src/views.rt`):
//!
//! ```rust
//! Step::Feeds(b"DISABLEUNITS armcom corcom\n", Ok(1)),
//! Step::Units(&[b"armcom", b"corcom"]),
//! Step::Feeds(b"#7 DISABLEUNITS armflash\n", Ok(1)),
//! Step::Units(&[b"armcom", b"corcom", b"armflash"]),
//! ```
//!
//! A view is fed each line here, and `Units` has what `OwnRoom::units` gives then.
//!
//! The room is lists of members, bots, start rectangles, script tags and disabled units. The crate knows no line and no
//! rule: `client_view` reads the lines and picks the call.
//!
//! Changes that are noted can be taken back, and that takes no memory. Each list is kept as it was at its first change.
//! A room that is left, or that another one replaces, is kept whole.
//!
//! It stands apart from `client_view`, so that the wrong bodies that its contracts refuse are tried over it alone.
#![tactic(auto)]

mod before;
mod members;
mod own_room;
mod rects;
mod undoable_room;

pub use members::Member;
pub use own_room::{Bot, OwnRoom};
pub use undoable_room::UndoableRoom;
