//! The files that an operator starts a server by, settings and accounts, read and checked.
//!
//! [`read_setup`] reads a file of settings, and gives the [`Setup`] of the server or says why the file is refused.
//!
//! For example (`leaf_tests/src/setup/settings.rt`):
//!
//! ```rust
//! file: b"address = '127.0.0.1:0'",
//! address: ([127, 0, 0, 1], 0),
//! workers: 4,
//! stop_at_input_end: false,
//! protocol_version: b"0.38",
//! spring_version: b"*",
//! udp_port: 8201,
//! server_mode: 0,
//! outbox_limit: 4_194_304,
//! ```
//!
//! `file` there is a whole file of settings, and the other lines are the setup that comes of it. Such a file is TOML,
//! and only `address` has to be in it. Keys that are not known are passed over. What each key may be, and what holds if
//! it is left out, stands at [`Key`], and in docs/OPERATING.md, "Settings".
//!
//! [`settings_at`] and [`accounts_at`] read the two files from their paths. [`settings_faults`] finds all that is wrong
//! in the settings, and [`FileError`] has the words that people are told.
#![tactic(auto)]

mod error;
mod faults;
mod fields;
mod file_error;
mod files;
mod key;
mod level;
mod motd;
mod proxies;
mod setup;

pub use error::{Refusal, SetupError, SetupFault};
pub use faults::settings_faults;
pub use file_error::{AccountsFault, FileError};
pub use files::{accounts_at, accounts_of, read_file, settings_at};
pub use key::Key;
pub use lobby_model::CLIENT_LIMIT;
pub use setup::{Setup, read_setup};
