//! What every program answers to `--help` and `--version`.
//!
//! A program calls [`answers`] first, with its name and its help, and ends if that says that it has answered.
//!
//! For example (`checks/programs.sh`):
//!
//! ```text
//! tells lobby_main 'lobby_main serve SETTINGS ACCOUNTS'
//! tells lobby_play 'lobby_play < SCRIPT'
//! tells lobby_check 'lobby_check SETTINGS ACCOUNTS'
//! tells view_show 'view_show [whole|BYTES] < RECEIVED'
//! ```
//!
//! Each `tells` there asks a program for its version, and for its help, which begins with this usage.
#![tactic(auto)]

use std::alloc::AllocError;
use std::fs::File;
use std::io::{ErrorKind, Read, Seek, SeekFrom};
use std::rt::{Env, Files};
use std::{env, str};

/// The version of all programs: the newest numbered one in CHANGELOG.
pub const VERSION: &str = "0.2.0";

/// How many bytes a build that is no release appends to a program, and how they begin. Its version is behind that, and
/// then spaces. So a proof need not be made anew for each commit.
const TAIL: usize = 96;

const TAIL_BEGINS: &str = "\nrudderraisin version ";

/// The version that stands behind the program itself. None for a release, or where the system does not let it read
/// itself.
fn appended_version<'a, R: Files>(rt: &R, tail: &'a mut [u8; TAIL]) -> Option<&'a str> {
    let mut program = File::open(rt, "/proc/self/exe").ok()?;
    let read = match program.seek(SeekFrom::End(-(TAIL as i64))) {
        Ok(_) => program.read_exact(tail),
        Err(error) => Err(error),
    };
    drop(program);
    read.ok()?;
    let text = str::from_utf8(tail).ok()?;
    Some(text.strip_prefix(TAIL_BEGINS)?.trim_end())
}

/// What a program is asked of itself.
#[derive(Clone, Copy, PartialEq, Eq, Debug)]
enum Question {
    /// `--help`: what it does, and by which arguments.
    Help,
    /// `--version`: its name and version.
    Version,
}

impl Question {
    /// What a word asks.
    fn of(word: &str) -> Option<Question> {
        match word {
            "--help" => Some(Question::Help),
            "--version" => Some(Question::Version),
            _ => None,
        }
    }
}

/// Answers on standard output where the program's only argument is `--help` or `--version`, and says whether it was. A
/// print that fails is ignored. Fails only where memory for the arguments is refused.
pub fn answers<R: Files + Env + Print + AllocGlobal>(
    rt: &R,
    name: &str,
    help: &str,
) -> Result<bool, AllocError> {
    let mut words = match env::args(rt) {
        Ok(words) => words,
        Err(error) if error.kind() == ErrorKind::OutOfMemory => return Err(AllocError),
        Err(_) => return Ok(false),
    };
    words.next();
    let (Some(word), None) = (words.next(), words.next()) else {
        return Ok(false);
    };
    let Some(question) = Question::of(word.as_str()) else {
        return Ok(false);
    };
    let _ = match question {
        Question::Help => println!(rt; "{help}"),
        Question::Version => {
            let mut tail = [0; TAIL];
            let version = appended_version(rt, &mut tail).unwrap_or(VERSION);
            println!(rt; "{name} {version}")
        }
    };
    Ok(true)
}
