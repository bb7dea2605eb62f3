//! What a client knows, as lines of text for people.
//!
//! [`show`] writes all that a view has: the client's name, then the users, battles and channels, and its own room.
//!
//! For example (`rows/units/seen_by_a_member.2.view`):
//!
//! ```text
//! room 1
//!   member Anna 0 0
//!   member Bert 0 0
//!   unit armcom
//!   unit armflash
//!   unit corcom
//! ```
//!
//! Bert is in the room of battle 1 with Anna, who has disabled three units.
#![tactic(auto)]

mod text;

pub use text::show;
