//! The lobby's replies printed as the lines that clients are sent.
//!
//! [`print`] appends the line of a reply to a `Vec`, behind a message id where there is one.
//!
//! For example (`leaf_tests/src/replies.rt`):
//!
//! ```rust
//! let mut out = Vec::new(rt.alloc());
//! same(&rt, print(&Reply::Pong, None, &mut out), Ok(()));
//! same(&rt, print(&Reply::Pong, Some(7), &mut out), Ok(()));
//! same(&rt, out.as_slice(), b"PONG\n#7 PONG\n".as_slice());
//! ```
//!
//! [`print_id`] prints a message id alone, as the front of a line. The replies are values of the crate
//! `reply_kinds`. The crate `reply_grammar` gives clients and bots this together with the reading of lines, since
//! the server only prints.
#![tactic(auto)]

mod arguments;
mod opened;
pub mod pieces;
mod printing;
mod reply_table;
mod rows;
mod table;

pub use printing::{print, print_id};
