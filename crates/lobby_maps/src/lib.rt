//! The maps of all that the server keeps, and the one call that commits a change to them.
//!
//! A rule of a command looks things up in [`Maps`], tells its audiences, and names a [`Change`], which `commit` makes.
//!
//! For example (`rows/rooms/kick.row`):
//!
//! ```text
//! send 1 KICKFROMBATTLE Bert\n
//! all 1
//! show 1
//! 1> LEFTBATTLE 1 Bert
//! show 2
//! 2> FORCEQUITBATTLE
//! 2> LEFTBATTLE 1 Bert
//! show 3
//! 3> LEFTBATTLE 1 Bert
//! ```
//!
//! Client 1 puts Bert, who is client 2, out of its battle. All are told that he leaves, and he alone that he was put
//! out.
//!
//! The maps are those of clients, users, channels and battles. The rules stand in crates above.
//!
//! What a rule tells waits in the post. `commit` makes room for all that is told, then changes the maps, and then
//! delivers the post. Memory is asked for before the first change alone, so that nothing has changed where it is
//! refused.
#![tactic(auto)]

mod audiences;
mod burst;
mod change;
mod greeting;
mod lookups;
mod maps;

pub use change::Change;
pub use greeting::greeting_of;
pub use lobby_battles::{Battle, BattleChange, LAST_NUMBER, NO_PASSWORD, OnlineUser, RoomChange};
pub use maps::{Admission, Maps};
