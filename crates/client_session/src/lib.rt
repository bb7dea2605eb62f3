//! One client's bytes, read line by line as requests.
//!
//! A [`Session`] is fed bytes as they come, from a connection or a schedule, and [`Session::next_request`] gives what
//! the client asks next.
//!
//! For example (`rows/scripts/taken_before_served.row`):
//!
//! ```text
//! send 1 PING\nPING\nPING\n
//! show 1
//! 1> TASSERVER 0.38 * 8201 0
//! take 1
//! show 1
//! 1> PONG
//! ```
//!
//! Three lines come at once there, and each `take` accepts one. A line that is too long ends the session's lines, and
//! those before it are still read.
#![tactic(auto)]

mod session;

pub use session::{Next, Session};
