//! What `lobby_check` says of a server's files, and of the folder and the address that they name.
//!
//! [`check`] looks at both files of the program's arguments, prints what it finds, and gives the exit status.
//!
//! For example (`checks/files.sh`):
//!
//! ```text
//! expect 2 "settings: $room/none: the file cannot be read: entity not found
//! accounts: 0 can log in
//! $user" "$room/none" "$room/empty"
//! ```
//!
//! `expect` has the exit status there, what is printed, and the two files: one that does not exist and an empty one.
//! The line `$user` says as whom the program ran.
//!
//! The crate tells all that is wrong, each with its file, line and key, and warns of what is odd. If both files are
//! good, it tries whether the folder and the address can be used. That nothing is missed is promised where the faults
//! are found: [`lobby_setup::settings_faults`] and [`account_faults::account_faults`].
#![tactic(auto)]

mod accounts;
mod address;
mod burst;
mod folder;
mod lines;
mod odd;
mod report;
mod settings;
mod text;
mod user;

pub use report::check;
