//! A script, which is begun again where memory was refused.

use crate::refusing::notes::Notes;
use crate::refusing::refuser::Refuser;
use lobby_script::{PlayFault, play};
use std::alloc::Global;
use std::io;
use std::io::Write;

const SCRIPT: &[u8] = b"open 1 10.0.0.1\nshow 1\nsend 1 PING\\n\nall 1\nshow 1\n";

const SHOWN: &[u8] = b"1> TASSERVER 0.38 * 8201 0\n1> PONG\n";

/// Plays the script, step by step until no memory is refused, and says whether it was played. What is shown where
/// memory did not suffice is the front of what is shown else.
fn try_script(
    alloc: Global,
    shown: &mut Vec<u8>,
    refuser: &mut Refuser,
    notes: &mut Notes,
) -> bool {
    for step in 0..=refuser.last_step() {
        let mut reader = SCRIPT;
        shown.clear();
        refuser.begin(step);
        let played = play(alloc, &mut reader, shown);
        let is_refused = refuser.end();
        if played == Err(PlayFault::Memory) {
            notes.refuse(SHOWN.starts_with(shown));
        } else if is_refused {
            notes.refuse(played.is_ok() && shown.as_slice() == SHOWN);
        } else {
            return played.is_ok();
        }
    }
    false
}

pub fn try_out<R: Print + AllocGlobal>(
    rt: &R,
    refuser: &mut Refuser,
    notes: &mut Notes,
) -> io::Result<()> {
    // so that what is shown takes no memory then
    let Ok(mut shown) = Vec::with_capacity(rt.alloc(), SHOWN.len()) else {
        notes.give_up();
        return Ok(());
    };
    if !try_script(rt.alloc(), &mut shown, refuser, notes) {
        notes.give_up();
    }
    println!(rt; "a script shows {} bytes", shown.len())?;
    io::writer(rt).write_all(&shown)
}
