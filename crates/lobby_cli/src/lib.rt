//! The commands of the server program: `serve` runs the server by its files, and `hash` makes a password word.
//!
//! The program calls [`run`], which reads its arguments, does what they ask for, and gives its exit status.
//!
//! For example (`checks/programs.sh`):
//!
//! ```console
//! expect 0 'X03MO1qnZdYdgyfeuILPmQ==\n' '' 'password\n' "$main" hash
//! expect 0 'X03MO1qnZdYdgyfeuILPmQ==\n' '' 'password\r\nanother\n' "$main" hash
//! expect 0 '1B2M2Y8AsgTpgAmY7PhCfg==\n' '' '' "$main" hash
//! expect 1 '' "$usage\n" '' "$main"
//! ```
//!
//! `expect` names the exit status, standard output, standard error and standard input of a command, and then the
//! command.
//!
//! Each way in which the program ends has its exit status, and what it tells on standard error.
#![tactic(auto)]

mod arguments;
mod error;
mod hash;
mod output;
mod record;
mod serve;

pub use arguments::run;
pub use hash::hash_line;
