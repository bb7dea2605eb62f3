//! The lobby's battles and online users, and what one who logs in or joins a battle is told of them.
//!
//! A change is a value, a [`BattleChange`], and [`Battles`] makes it in one call, `apply`.
//!
//! For example (`rows/battles/joins.row`):
//!
//! ```text
//! send 1 #4 JOINBATTLE 1\n
//! all 1
//! show 1
//! 1> #4 JOINBATTLE 1 -1
//! 1> #4 JOINEDBATTLE 1 Anna
//! 1> #4 CLIENTBATTLESTATUS Cleo 1024 255
//! 1> #4 CLIENTBATTLESTATUS Bert 1030 -1
//! 1> #4 REQUESTBATTLESTATUS
//! ```
//!
//! Client 1 is Anna. She joins the battle of Cleo and Bert, and is told the status and colour of both.
//!
//! [`OnlineUsers`] has who is logged in at which client, and in which battle each is, or asks to be.
//!
//! `apply` first does what may be refused memory, so that nothing has changed where it is refused. A log out makes its
//! changes one by one, since they take no memory.
#![tactic(auto)]

mod battle;
mod battles;
mod burst_parts;
mod online_users;
mod room_lines;

pub use battle::{Battle, NO_PASSWORD};
pub use battles::{BattleChange, Battles, LAST_NUMBER, RoomChange};
pub use burst_parts::{Part, write_battles, write_motd, write_parts};
pub use online_users::{OnlineUser, OnlineUsers};
pub use room_lines::{Recipient, write_line, write_room};
