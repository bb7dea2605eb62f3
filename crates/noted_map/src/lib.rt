//! An ordered map whose changes can be taken back without asking for memory.
//!
//! A [`NotedMap`] notes changes from [`NotedMap::begin`] on, and [`NotedMap::take_back`] undoes them all.
//!
//! For example (`memory_trials/src/refusing/deeds.rt`):
//!
//! ```rust
//! refuser.begin(step);
//! let is_done = self.tried.act(alloc, client, deed);
//! refuser.end();
//! if is_done {
//!     refuser.release();
//!     return self.other.act(alloc, client, deed);
//! }
//! notes.refuse(self.tried.is_as(&mut self.other));
//! ```
//!
//! There `tried` may be a client's view, which keeps its users, channels and battles in such maps, and `act` feeds it
//! lines. Where memory is refused on the way, it takes its changes back, and is as the `other` view, which was not fed
//! those lines.
//!
//! While the map notes changes, each keeps what undoes it, in memory that is asked for before anything changes.
#![tactic(auto)]

mod entries;
mod key;
mod live;
mod map;
mod note;
mod places;
mod slots;

pub use entries::Entries;
pub use key::Key;
pub use live::Live;
pub use map::NotedMap;
pub use note::{Edit, Undo};
