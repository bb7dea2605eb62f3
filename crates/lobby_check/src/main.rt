//! The program that checks a server's settings and accounts before a start.
//!
//! It calls [`start_check::check`], which prints what the files come to, or all that is wrong in them.
//!
//! For example (`docs/OPERATING.md`):
//!
//! ```console
//! $ lobby_check examples/lobby.toml examples/accounts.toml
//! settings: address 127.0.0.1:8200, workers 1
//! memory: some 2863 bytes a client, and some 4194304 more for one that does not read
//! memory: some 41971 MB if 10000 clients read nothing, and more where buffers have room to spare
//! accounts: 3 can log in
//! login: up to 49694 bytes, if each other user has opened a battle with the longest texts
//! address: 127.0.0.1:8200 is free
//! user: tried as rudderraisin, number 998
//! ```
#![tactic(auto)]

use std::process::ExitCode;

const HELP: &str = "\
usage: lobby_check SETTINGS ACCOUNTS

Looks at a server's file of settings and its file of accounts, and says of each what it comes to, or
all that is wrong in it, with its line, and what would be right. Then it tries what they name, so run it
as the server's user: the folder of a record, and the address. It starts nothing.

--help     prints this
--version  prints the version

Exit status: 0 a server can be started by the files, 2 it cannot, or wrong arguments, 3 it cannot listen
at its address";

fn main(rt: HostRuntime) -> ExitCode {
    match program_help::answers(&rt, "lobby_check", HELP) {
        Ok(true) => ExitCode::SUCCESS,
        Ok(false) => ExitCode::from(start_check::check(&rt)),
        Err(_) => {
            let _ = rt.eprintln("no memory");
            ExitCode::from(2)
        }
    }
}
