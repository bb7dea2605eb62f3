//! The program that plays a script or a server's record against a lobby, and shows what each client was sent.
//!
//! It calls [`lobby_script::play`] for a script, and makes a [`record_play::Replay`] for the record in a folder.
//!
//! For example (`rows/session/greeting_and_ping.row`):
//!
//! ```text
//! open 1 10.0.0.1
//! send 1 PING\n
//! all 1
//! show 1
//! 1> TASSERVER 0.38 * 8201 0
//! 1> PONG
//! ```
//!
//! The first four lines are a script, which the program reads on standard input, and the last two what it shows on
//! standard output. With `--record FOLDER` it reads questions about the record there instead.
#![tactic(auto)]

mod record;

use lobby_script::{PlayFault, play};
use std::io;
use std::io::BufWriter;
use std::process::ExitCode;
use std::rt::{Env, Files};

const HELP: &str = "\
usage: lobby_play < SCRIPT
       lobby_play --record FOLDER < QUESTIONS

Plays a script of connects, bytes and disconnects against a lobby, and shows what each client
is sent. The script comes on standard input, a step a line:

  account NAME WORD ID RANK [COUNTRY]   who may log in; WORD as `lobby_main hash` prints it
  motd TEXT, limit N                    a line of the message of the day; the limit of an outbox
  open N IP                             a client connects, and is called N from here on
  send N TEXT                           bytes arrive of it; \\n, \\t, \\r, \\\\ and \\xHH are escapes
  take N, all N                         its next line is taken; all that are whole
  read N K                              it reads up to K bytes
  shut N                                it disconnects
  show N                                shows the lines put for it since it was last shown

With --record it plays what a server recorded in FOLDER, whose clients have the numbers that it
gave them. The questions come on standard input, one a line:

  until PLACE                           plays the events before this place, and no more
  show N                                shows the lines put for client N since it was last shown
  view N                                shows what client N knows by all that was put for it

--help     prints this
--version  prints the version

Exit status: 0 played, 1 a bad step, record or question, 2 an input failed or is too long, 4 no memory";

fn play_streams<R: Input + Print + AllocGlobal>(rt: &R) -> Result<(), PlayFault> {
    let mut writer = BufWriter::new(rt.alloc(), io::writer(rt)).map_err(|_| PlayFault::Memory)?;
    play(rt.alloc(), &mut rt.reader(), &mut writer)
}

/// Plays the script of standard input, where the arguments do not ask what the program is.
fn play_script<R: Env + Files + Input + Print + AllocGlobal>(rt: &R) -> Result<(), PlayFault> {
    match program_help::answers(rt, "lobby_play", HELP) {
        Ok(true) => Ok(()),
        Ok(false) => play_streams(rt),
        Err(_) => Err(PlayFault::Memory),
    }
}

/// The status: 0, or that of the fault, which is told on standard error.
fn run<R: Env + Files + Input + Print + Eprint + AllocGlobal>(rt: &R) -> u8 {
    let played = match record::folder_asked(rt) {
        Ok(Some(folder)) => return record::play_folder(rt, folder.as_str()),
        Ok(None) => play_script(rt),
        Err(_) => Err(PlayFault::Memory),
    };
    match played {
        Ok(()) => 0,
        Err(fault) => {
            let _ = rt.eprintln(fault);
            fault.status()
        }
    }
}

fn main(rt: HostRuntime) -> ExitCode {
    ExitCode::from(run(&rt))
}
