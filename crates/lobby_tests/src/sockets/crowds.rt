//! How long who is quiet waits where many speak: not by a clock, but by what turns tell meanwhile.

use crate::sockets::gates::Hold;
use crate::sockets::plays::Step::*;
use crate::sockets::plays::{Act, play};
use crate::sockets::running::{PING, PONG};
use test_lobby::CROWD;

/// Who asks while the crowd speaks.
const ASKER: usize = 0;

/// Who has the worker kept until all of the crowd have sent their lines.
const KEEPER: usize = 1;

/// What a round tells at most: 512,000 bytes, and one turn's more.
const ROUND: u64 = 512_000 + 128_000;

static CROWD_SPEAKS: [Act; 2] = [
    Act {
        times: CROWD as u32,
        steps: &[JoinsCrowd],
    },
    Act {
        times: 1,
        steps: &[
            CrowdIsGreeted,
            CrowdComesIn,
            Enters(ASKER),
            Enters(KEEPER),
            Sends(KEEPER, PING),
            IsKept,
            CrowdSends(b"SAY main on\n", 100),
            GoesOn,
            TurnIsKept,
            Sends(ASKER, PING),
            TurnGoesOn,
            Reads(ASKER, PONG),
            ToldAtMost(ROUND),
        ],
    },
];

/// Forty speak to forty, a hundred lines each, which all wait when the first of them gets its turn: 2.4 MB in
/// all. Behind that turn the worker stands still until one more has asked. So its turn comes behind what is left of
/// this round, and before all who are left over then.
#[test]
fn who_asks_waits_for_one_round_of_a_crowd(rt: HostRuntime) {
    drop(play(&rt, rt, 1, Hold::Crowd, &CROWD_SPEAKS));
}

/// So many words make a line more than a turn may tell, and three of these more than a round.
const WORDS: usize = 2_700;

const LOG_IN_FIRST: &[u8] = b"SERVERMSG Log in first\n";

static LISTERS_SEND: [Act; 4] = [
    Act {
        times: 1,
        steps: &[
            Enters(0),
            Enters(1),
            Enters(2),
            Enters(3),
            Enters(4),
            Sends(4, PING),
            IsKept,
        ],
    },
    Act {
        times: 3,
        steps: &[
            Sends(0, b"DISABLEUNITS"),
            SendsOften(0, b" a", WORDS),
            Sends(0, b"\n"),
            Sends(1, b"DISABLEUNITS"),
            SendsOften(1, b" a", WORDS),
            Sends(1, b"\n"),
            Sends(2, b"DISABLEUNITS"),
            SendsOften(2, b" a", WORDS),
            Sends(2, b"\n"),
        ],
    },
    Act {
        times: 1,
        steps: &[
            Sends(3, b"DISABLEUNITS"),
            SendsOften(3, b" a", WORDS),
            Sends(3, b"\n"),
        ],
    },
    Act {
        times: 1,
        steps: &[
            GoesOn,
            TurnIsKept,
            TurnGoesOn,
            ReadsOften(0, LOG_IN_FIRST, 3),
            ReadsOften(1, LOG_IN_FIRST, 3),
            ReadsOften(2, LOG_IN_FIRST, 3),
            Reads(3, LOG_IN_FIRST),
        ],
    },
];

/// Each of four sends lines that fill a turn, three a round. So those who are left over take two rounds, and the last
/// of them has nothing left then, while the others were left over in the round before: they are not forgotten.
#[test]
fn who_is_left_over_by_an_earlier_round_is_served(rt: HostRuntime) {
    drop(play(&rt, rt, 1, Hold::Crowd, &LISTERS_SEND));
}
