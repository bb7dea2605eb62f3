//! The program that operators run: the lobby server over TCP, and a maker of password words.
//!
//! It answers `--help` and `--version`, and calls [`lobby_cli::run`] for its commands `serve` and `hash`.
//!
//! For example (`README.md`):
//!
//! ```console
//! $ nc 127.0.0.1 8200
//! TASSERVER 0.38 * 8201 0
//! > LOGIN Anna X03MO1qnZdYdgyfeuILPmQ== 0 * nc
//! ACCEPTED Anna
//! ADDUSER Anna DE 0 1
//! LOGININFOEND
//! ```
//!
//! There `serve` runs by `examples/lobby.toml` and `examples/accounts.toml`. One types what follows `$` or `>`.
#![tactic(auto)]

use std::fs::{File, OpenOptions};
use std::io::IsTerminal;
use std::os::fd::AsRawFd;
use std::process::ExitCode;

const HELP: &str = "\
usage: lobby_main serve SETTINGS ACCOUNTS
       lobby_main hash

A lobby server for games on the Spring engine.

serve      runs it by a file of settings and a file of accounts, and prints `listening` when it listens
hash       reads a password, a line on standard input, and prints the word that an account has for it; not from
           a terminal, which would show it: lobby_account hash asks there
--help     prints this
--version  prints the version

Exit status: 0 done, 1 wrong arguments, 2 a file or the input cannot be used, 3 it cannot listen, 4 no memory";

/// The last of the standard descriptors: standard error.
const LAST_STANDARD: i32 = 2;

/// The null device in place of the first standard descriptor with which the program was started closed. None where none
/// is, or the system opens no file.
fn null_device(rt: &HostRuntime) -> Option<File> {
    let mut how = OpenOptions::new();
    how.read(true).write(true);
    let device = how.open(rt, "/dev/null").ok()?;
    if device.as_raw_fd() > LAST_STANDARD {
        drop(device);
        return None;
    }
    Some(device)
}

fn main(rt: HostRuntime) -> ExitCode {
    // A record's file that got the number of one of them would get what is printed there.
    let devices = [null_device(&rt), null_device(&rt), null_device(&rt)];
    let status = match program_help::answers(&rt, "lobby_main", HELP) {
        Ok(true) => 0,
        Ok(false) => lobby_cli::run(&rt, rt.stdin().is_terminal()),
        Err(_) => {
            let _ = rt.eprintln("no memory");
            4
        }
    };
    drop(devices);
    ExitCode::from(status)
}
