//! The server's log for its operators: what is told, at which level, and as which line.
//!
//! [`print`] appends the line of a [`Happening`] to bytes, and [`LogLevel`] says whether it is told.
//!
//! For example (`checks/log.py`):
//!
//! ```text
//! anna = logged_in(server, ANNA, [])
//! wanted += ["login name=Anna client=1 ip=127.0.0.1"]
//! ```
//!
//! A line has a fixed word and then `key=value`, each behind a space. What clients send is written as harmless bytes,
//! so nobody forges a line or a field. A line has no time: who keeps the lines stamps them.
#![tactic(auto)]

mod happening;
mod level;
mod line;
mod text;

pub use happening::{Cause, Denial, Happening, RecordEnd, Refusal, ReserveState, Started};
pub use level::LogLevel;
pub use line::print;
pub use text::ShortText;
