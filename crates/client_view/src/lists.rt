//! What a client knows outside its own room, as lists: the users who are logged in, the battles as all see them,
//! and the client's channels. Each list has a call for each change that the server may tell of, and changes can be
//! taken back. They know no line and no rule: which change is made is for `folding`.

mod battles;
mod channels;
mod names;
mod users;

pub use battles::{Battle, Battles, UndoableBattles};
pub use channels::{Channels, UndoableChannels};
pub use users::{UndoableUsers, User, Users};
