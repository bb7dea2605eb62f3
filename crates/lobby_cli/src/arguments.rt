//! The arguments of the program, and how it ends.

ghost use Rattle.std.specs.Prelude.{◌≡◌, ◌≤◌};

use crate::error::ProgramError;
use crate::hash::hash_line;
use crate::serve::serve;
use lobby_workers::ServerError;
use std::fmt::Display;
use std::net::Net;
use std::random::RandomSource;
use std::rt::{Env, Files};
use std::sync::Wait;
use std::thread::Threads;
use std::{env, io};

const USAGE: &str = "usage: lobby_main serve SETTINGS ACCOUNTS or lobby_main hash";

/// Tells why the program ends, and gives its exit status. A line that cannot be printed is lost.
fn fail<R: Eprint, D: Display + Drop>(rt: &R, reason: D, status: u8) -> u8
    ensures { result ≡ status }
{
    let _ = rt.eprintln(reason);
    status
}

/// Tells by which error the program ends, and gives its exit status.
fn fail_by<R: Eprint>(rt: &R, error: ProgramError) -> u8
    ensures { result ≤ 4 }
{
    fail(rt, error, error.status())
}

/// Prints the password word of standard input's first line, but reads none from a terminal.
fn print_word<R: Input + Print + Eprint>(rt: &R, at_terminal: bool) -> u8
    ensures { result ≤ 4 }
{
    if at_terminal {
        return fail_by(rt, ProgramError::Terminal);
    }
    let mut reader = rt.reader();
    let mut writer = io::writer(rt);
    match hash_line(&mut reader, &mut writer) {
        0 => 0,
        1 => fail(rt, USAGE, 1),
        _ => fail_by(rt, ServerError::Input.into()),
    }
}

/// Runs the server until its input ends, or until the program is killed.
fn run_server<R>(rt: &R, settings: &str, accounts: &str) -> u8
where
    R: Files + Input + Print + Eprint + AllocGlobal + Threads + Wait + Net + RandomSource,
    R: Clone + Drop + Sync,
    R::File: Send,
    ensures { result ≤ 4 }
{
    match serve(rt, settings, accounts) {
        Ok(()) => 0,
        Err(error) => fail_by(rt, error),
    }
}

/// Does what the arguments ask for, and gives the exit status: 0 where it was done, 1 for wrong arguments or a line
/// that is too long, 2 where a file or the input cannot be used, 3 where the server cannot listen, 4 without memory
/// while it starts. Every status but 0 has one line on standard error. No password is read where standard input is a
/// terminal, which would show it.
pub fn run<R>(rt: &R, at_terminal: bool) -> u8
where
    R: Files + Env + Input + Print + Eprint + AllocGlobal + Threads + Wait + Net + RandomSource,
    R: Clone + Drop + Sync,
    R::File: Send,
    ensures { result ≤ 4 }
{
    let mut words = match env::args(rt) {
        Ok(words) => words,
        Err(e) if e.kind() == io::ErrorKind::OutOfMemory => return fail_by(
            rt,
            ServerError::Memory.into(),
        ),
        Err(_) => return fail(rt, USAGE, 1),
    };
    words.next();
    let (command, settings, accounts) = (words.next(), words.next(), words.next());
    let Some(command) = command else {
        return fail(rt, USAGE, 1);
    };
    if words.next().is_some() {
        return fail(rt, USAGE, 1);
    }
    match (command.as_str(), &settings, &accounts) {
        ("hash", None, None) => print_word(rt, at_terminal),
        ("serve", Some(settings), Some(accounts)) => {
            run_server(rt, settings.as_str(), accounts.as_str())
        }
        _ => fail(rt, USAGE, 1),
    }
}
