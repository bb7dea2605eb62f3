//! A client's request printed as the line that the lobby reads as this request.
//!
//! [`print_request`] appends the line of a [`Request`] to a `Vec`, or answers with a [`PrintError`] and appends
//! nothing.
//!
//! The test reads each line on the left, and its request prints as the line on the right.
//!
//! For example (`leaf_tests/src/requests.rt`):
//!
//! ```rust
//! (b"MYSTATUS -0", b"MYSTATUS 0"),
//! (b"MYSTATUS 4294967295", b"MYSTATUS 4294967295"),
//! (b"JOIN  main  ", b"JOIN main"),
//! (b"#8 JOIN main key", b"#8 JOIN main key"),
//! ```
//!
//! `specs/Writing.antt` says what the line of a request is, by the table of commands that it is read by, and
//! `specs/Faults.antt` which requests have none. With the reading of `command_grammar` this is the grammar of
//! requests both ways, for clients and bots, since the server only reads.
#![tactic(auto)]

mod argument_rows;
mod arguments;
mod error;
mod faults;
mod laws;
mod printing;
mod table;

pub use command_grammar::{Command, ReadFault, Request, read_request};
pub use error::PrintError;
pub use laws::{each_request_reads_back, no_line_is_shorter, what_reads_is_printed};
pub use printing::print_request;
