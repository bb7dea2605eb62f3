//! A client's line read as a request: perhaps a message id, and a command with its arguments.
//!
//! [`read_request`] makes a [`Request`] of any line, and where the line is no command, its [`Command`] says why.
//!
//! The test has each line beside what it must be read as.
//!
//! For example (`leaf_tests/src/requests.rt`):
//!
//! ```rust
//! (
//!     b"SAYPRIVATE Bert  hi",
//!     Expected::SayPrivate {
//!         user: b"Bert",
//!         text: b" hi",
//!     },
//! ),
//! (b"MYSTATUS -0", Expected::MyStatus { status: 0 }),
//! ```
//!
//! A line is spaces, perhaps a message id (`#7 `), a command word and its arguments. `specs/Reads.antt` says what a
//! line reads as, and `specs/Reading.antt` the same as a function, by which the readers are proved.
//!
//! A command has a row of arguments: `specs/Table.antt` has the table of commands, and `specs/Arguments.antt` says
//! how a line has an argument of each kind. `specs/Forms.antt` says by both what the arguments of a command make,
//! and `specs/Readers.antt` the same as a function. The command word is looked for in the table, and the readers of
//! arguments are given all that stands behind it.
#![tactic(auto)]

mod arguments;
mod command;
mod fault;
mod forms;
mod laws;
mod lists;
mod reading;
mod rows;
mod table;

pub use command::{Command, ReadFault, Request};
pub use fault::ReadError;
pub use laws::{fits_into_its_line, keeps_kinds, reads_as_one_request};
pub use reading::{LINE_LIMIT, read_request};
