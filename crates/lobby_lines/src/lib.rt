//! Lobby lines and views as tables for C and Python, in memory that the caller lends.
//!
//! [`read_reply`] takes a line of the server apart into its fields, [`print_request`] makes a client's line from its
//! fields, and calls such as [`user_table`] give what a view shows.
//!
//! For example (`checks/lines_wanted.py`):
//!
//! ```text
//! ("JOINEDBATTLE 1 Bert", [1, "Bert", None]),
//! ("JOINEDBATTLE 1 Bert pw9", [1, "Bert", "pw9"]),
//! ("LEFTBATTLE 1 Bert", [1, "Bert"]),
//! ("UPDATEBATTLEINFO 1 0 1 123 Comet Catcher", [1, 0, 1, 123, "Comet Catcher"]),
//! ```
//!
//! Each line of the server stands here with the fields that it is read as. `None` is an argument that the line leaves
//! out.
//!
//! A table is rows of numbers and of places in one text. The crate knows nothing of what C keeps.
//!
//! One table in code says which kinds of argument each reply has (`reply_table`). Another gives each request its word
//! and its kinds of argument (`request_table`). All else goes by kinds of argument.
#![tactic(auto)]

mod answering;
mod error;
mod fields;
mod given;
mod printing;
mod reading;
mod reply_arguments;
mod reply_table;
mod request_arguments;
mod request_table;
mod rows;
mod status;
mod table;
mod views;
mod words;

pub use answering::answer;
pub use error::RequestError;
pub use fields::{ABSENT, FieldRow, HeadRow, NUMBER, TEXT};
pub use printing::print_request;
pub use reading::{ReplyRead, read_reply};
pub use rows::{BattleRow, BotRow, MemberRow, RectRow, TagRow, UserRow};
pub use status::{
    BAD_FIELDS, LINE_TOO_LONG, NO_COMMAND, NO_MEMORY, NO_REPLY, NO_ROOM, NOT_THERE, NOTHING_LISTED,
    OK, OUT_OF_RANGE, REQUEST_TOO_LONG, WORD_SKIPPED,
};
pub use table::{Listed, Place, Size, Table, put_text};
pub use views::{battle_table, channel_table, text_table, user_table};
