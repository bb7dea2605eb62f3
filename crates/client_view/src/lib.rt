//! What a client of the lobby knows, folded from the bytes that it was sent.
//!
//! A client makes a [`View`] when it connects, feeds it each piece of bytes that it reads, and looks there for users,
//! battles, channels and its own room.
//!
//! For example (`leaf_tests/src/views.rt`):
//!
//! ```rust
//! Step::Feeds(SENT, Ok(24)),
//! Step::Counts(2, 1, 1),
//! Step::Channel(b"main", 2, b"Anna"),
//! Step::Feeds(b"LEFT main Anna\n", Ok(1)),
//! Step::Counts(2, 0, 1),
//! ```
//!
//! `Feeds` has the bytes, and how many lines `feed` says that it folded. `SENT` is what Anna was sent from her login
//! on, and `Counts` says how many users, channels and battles the view has then. Anna leaves `main`, so the view has no
//! channel.
//!
//! The view is for authors of clients, and of bots that host battles. A piece may cut a line anywhere. Behind a login,
//! and for as long as the server does not cut the client, the view has exactly what the server's lobby shows this user
//! once all lines of an event are folded (`view_law`). So an author need not follow 26 kinds of line by hand.
//!
//! A line that no reply prints is skipped, so a later server may send kinds of line that this crate does not know.
//! Where memory is refused, `feed` changes nothing, and the piece may be fed again. A view takes no byte from the
//! network and sends none.
//!
//! A view keeps nothing of who asks to join a battle. The crate's README says how a bot that hosts battles is asked and
//! answers, and what its view shows of disabled units.
#![tactic(auto)]

mod error;
mod folding;
mod known;
mod lists;
mod pieces;
mod reading;
mod undoable_known;
mod view;

pub use error::ViewError;
pub use lists::{
    Battle, Battles, Channels, UndoableBattles, UndoableChannels, UndoableUsers, User, Users,
};
pub use lobby_view::{line_kinds_law, line_length_law, pieces_law, private_law, view_law};
pub use view::View;
pub use view_room::{Bot, Member, OwnRoom, UndoableRoom};
