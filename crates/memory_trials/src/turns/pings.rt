//! Two clients that each send PING, whom one worker serves over links in memory. After each refusal all that a link
//! was told and all that waits is compared, to the byte.

use crate::refusing::notes::Notes;
use crate::refusing::refuser::Refuser;
use crate::turns::calls::{CONNECTS, Play, try_anew};
use crate::turns::sides::Caller;
use std::io;
use std::sync::Wait;
use test_lobby::GREETING;

const CALLER: Caller = Caller {
    sends: &[(b"PING\n", 1)],
    piece: 9,
    told: &[(GREETING, 1), (b"PONG\n", 1)],
    room: 100,
};

/// They connect, one after the other, and then get a turn each.
const CALLS: usize = CONNECTS + 2;

const PLAY: Play = Play {
    callers: [CALLER, CALLER],
    calls: CALLS,
    is_exact: true,
};

pub fn try_out<R: Wait + Print + AllocGlobal>(
    rt: &R,
    refuser: &mut Refuser,
    notes: &mut Notes,
) -> io::Result<()> {
    try_anew(rt, &PLAY, refuser, notes);
    println!(rt; "{CALLS} calls for two clients that send PING")
}
