//! The lines of a server's record, by which its events can be played again.
//!
//! [`put_entry`] appends the lines of an event: the steps of a script, each behind the place of the event.
//!
//! For example (`leaf_tests/src/records.rt`):
//!
//! ```rust
//! (
//!     b"#4 LOGIN Anna X03MO1qnZdYdgyfeuILPmQ== 0 * TestLobby 1.0\t7\tb",
//!     true,
//!     b"9 send 3 #4 LOGIN Anna AAAAAAAAAAAAAAAAAAAAAA== 0 * \\t\\tb\\n\n9 take 3\n",
//! ),
//! ```
//!
//! There client 3 logs in at place 9, private talk is recorded (`true`), and the last bytes are what the record has.
//!
//! The word of a password is never written. A login with its account's word gets the one that each account of the head
//! has, and any other login gets one that no account has, so both are answered again as they were. The record also
//! leaves out what may be a password in another place: the address and the lobby of a login, its name if that is no
//! name, and the key of a JOIN.
//!
//! The head of a record is its settings and accounts, by [`settings_file`] and [`accounts_file`]. What a step says is
//! defined here (`specs/Steps.antt`), and the crate `lobby_script` reads by the same definitions.
#![tactic(auto)]

mod entry;
mod escapes;
mod fault;
mod head;
mod laws;
mod lines;
mod masks;
mod said;

pub use entry::put_entry;
pub use fault::RecordFault;
pub use head::{accounts_file, put_account, settings_file};
pub use laws::{
    a_head_is_read_as_it_was, a_record_is_played_as_it_was, a_record_puts_the_same_bytes,
    each_login_is_answered_as_it_was, what_stands_for_unread_lines_is_unread,
};
pub use masks::{FAILS, Masks, PASSES};
