//! What is done in a lobby while its memory is counted.

use crate::bounds::parts::{LONG, SHORT};
use lobby_machine::Lobby;
use std::alloc::{AllocError, Global};
use test_lobby::{PIECE, read_some, say};

/// So many bytes less has the line that asks for it.
const LESS: usize = b"SAID main u01 \n".len() - b"SAY main ".len();

/// A worker that none of the crowd has.
const AWAY: u8 = 1;

/// What is done.
#[derive(Clone, Copy)]
pub enum Act {
    /// The first user says a short line in the channel.
    Short,
    /// It says a long one.
    Long,
    /// Each in the channel reads up to so many bytes, and at most 4,096.
    Read(usize),
    /// One connects at a worker of its own, which takes it from its list, reads its greeting, and goes.
    Come,
    /// One connects at that worker and goes before anything else is done.
    Vanish,
    /// The first user joins so many channels in which nobody else is, and reads what it is told of each.
    Join(u32),
}

/// The lines that are said.
#[derive(Drop)]
pub struct Lines {
    short: Vec<u8>,
    long: Vec<u8>,
}

/// The line that asks for one of so many bytes.
fn line_of(alloc: Global, told: usize) -> Result<Vec<u8>, AllocError> {
    let mut line = Vec::from_slice(alloc, b"SAY main ")?;
    line.resize(told.saturating_sub(LESS), b'x')?;
    Ok(line)
}

impl Lines {
    pub fn new(alloc: Global) -> Result<Lines, AllocError> {
        let short = line_of(alloc, SHORT)?;
        let long = line_of(alloc, LONG)?;
        Ok(Lines { short, long })
    }
}

/// One connects, and goes at once, or after its worker took it from its list and it read its greeting. Says whether
/// memory sufficed.
fn come(lobby: &mut Lobby, is_served: bool) -> bool {
    let Ok(client) = lobby.open([10, 0, 0, 2], AWAY) else {
        return false;
    };
    if is_served {
        let _ = lobby.next_dirty(AWAY);
        read_some(lobby, client, PIECE);
    }
    lobby.shut(client).is_ok()
}

/// The first user joins the channel of this number, and reads. Says whether memory sufficed.
fn join(lobby: &mut Lobby, alloc: Global, channel: u32) -> bool {
    let Ok(line) = format!(in alloc; "JOIN c{channel:05}") else {
        return false;
    };
    let is_done = say(lobby, alloc, 1, line.as_bytes());
    read_some(lobby, 1, PIECE);
    is_done
}

/// Does it, and says whether memory sufficed.
fn act_once(lobby: &mut Lobby, alloc: Global, lines: &Lines, members: u32, act: Act) -> bool {
    match act {
        Act::Short => say(lobby, alloc, 1, &lines.short),
        Act::Long => say(lobby, alloc, 1, &lines.long),
        Act::Read(count) => {
            for client in 1..=u64::from(members) {
                read_some(lobby, client, count);
            }
            true
        }
        Act::Come => come(lobby, true),
        Act::Vanish => come(lobby, false),
        Act::Join(count) => (0..count).all(|channel| join(lobby, alloc, channel)),
    }
}

/// Does each so many times, and all of it so many times over. Says whether memory sufficed.
pub fn act_all(
    lobby: &mut Lobby,
    alloc: Global,
    lines: &Lines,
    members: u32,
    acts: &[(u32, Act)],
    times: u32,
) -> bool {
    for _ in 0..times {
        for (count, act) in acts {
            if !(0..*count).all(|_| act_once(lobby, alloc, lines, members, *act)) {
                return false;
            }
        }
    }
    true
}
