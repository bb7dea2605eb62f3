//! One worker and its client over a link in memory.

use crate::turns::plays::Step::{Enters, Keeps, Reads, Takes, TurnWithin, Turns};
use crate::turns::plays::{Caller, End, Step, play};
use lobby_turns::TurnState;
use std::alloc::Global;
use std::process::Abort;
use std::sync::Wait;
use test_lobby::{ANNA_IS_IN, ANNA_LOGS_IN, GREETING, Text};

const GREETED: Text = &[(GREETING, 1)];

/// What a client reads that sends `PING` alone.
pub const GREETING_AND_PONG: &[u8] = b"TASSERVER 0.38 * 8201 0\nPONG\n";

const PONGED: Text = &[(GREETING_AND_PONG, 1)];

const PING: Text = &[(b"PING\n", 1)];

/// More than a turn reads of a link that gives a byte at a time.
const LATE_PING: Text = &[(b"                    PING\n", 1)];

/// What a client sends; how many bytes its link gives and takes at a time, and how the link ends; for so many turns,
/// what the last one comes to; what the client reads; and how many events there are.
type Case = (Text, usize, usize, End, u64, TurnState, Text, u64);

fn check<R: Wait + Abort>(rt: &R, alloc: Global, cases: &[Case]) {
    for (sends, piece, room, end, turns, state, output, events) in cases {
        let caller = Caller {
            sends: *sends,
            piece: *piece,
            room: *room,
            end: *end,
        };
        let steps = [Enters(caller), Turns(0, *turns, *state), Reads(0, *output)];
        play(rt, alloc, &steps, *events);
    }
}

static LINES: [Case; 3] = [
    // nothing came yet
    (&[], 9, 100, End::Open, 1, TurnState::Idle, GREETED, 3),
    // byte by byte, more than a turn reads
    (
        LATE_PING,
        1,
        100,
        End::Open,
        1,
        TurnState::Again,
        GREETED,
        3,
    ),
    (LATE_PING, 1, 100, End::Open, 2, TurnState::Idle, PONGED, 6),
];

#[test]
fn a_turn_ends_as_its_lines_say(rt: HostRuntime) {
    check(&rt, rt.alloc(), &LINES);
}

const SIXTEEN_BYTES: Text = &[(b"TASSERVER 0.38 *", 1)];

static LINKS: [Case; 5] = [
    // a link that takes nothing, and one that takes little
    (PING, 9, 0, End::Open, 1, TurnState::Idle, &[], 4),
    (PING, 9, 1, End::Open, 1, TurnState::Again, SIXTEEN_BYTES, 4),
    // the other side sends no more
    (PING, 9, 100, End::Ended, 1, TurnState::Closed, PONGED, 5),
    // a device that fails at its first read, and at its first write
    (
        PING,
        9,
        100,
        End::FailsAt(1),
        1,
        TurnState::Closed,
        GREETED,
        4,
    ),
    (PING, 9, 100, End::FailsAt(3), 1, TurnState::Closed, &[], 5),
];

#[test]
fn a_turn_ends_as_its_link_says(rt: HostRuntime) {
    check(&rt, rt.alloc(), &LINKS);
}

const SIXTY_FOUR_PONGS: Text = &[(GREETING, 1), (b"PONG\n", 64)];

/// A line that does not end within its limit, behind PING and alone; met by the last read of a turn; and behind the
/// last line of a turn, which has read only its front.
static LONG: [Case; 4] = [
    (
        &[(b"PING\n", 1), (b"A", 8_193)],
        4_096,
        100,
        End::Open,
        1,
        TurnState::Closed,
        PONGED,
        5,
    ),
    (
        &[(b"A", 8_193)],
        4_096,
        100,
        End::Open,
        1,
        TurnState::Closed,
        GREETED,
        4,
    ),
    (
        &[(b"A", 8_193)],
        513,
        100,
        End::Open,
        1,
        TurnState::Closed,
        GREETED,
        4,
    ),
    (
        &[(b"PING\n", 64), (b"A", 8_193)],
        4_096,
        4_096,
        End::Open,
        2,
        TurnState::Closed,
        SIXTY_FOUR_PONGS,
        69,
    ),
];

#[test]
fn a_line_that_is_too_long_shuts_its_client(rt: HostRuntime) {
    check(&rt, rt.alloc(), &LONG);
}

const EXIT: Text = &[(b"EXIT\n", 1)];

/// What a client sends at once, how many bytes its link takes at a time, how many turns it gets and what the last one
/// comes to, how often these take the lobby, and how many events there are. 64 lines take two holds. The greeting alone
/// is drained in a hold that also sees that nothing is left. Who exits is shut in a hold of its own, and where bytes
/// wait to be written, a hold asks whether the client is finished.
static TAKES: [(Text, usize, u64, TurnState, u64, u64); 7] = [
    (&[], 4_096, 1, TurnState::Idle, 1, 3),
    (PING, 4_096, 1, TurnState::Idle, 2, 4),
    (&[(b"PING\n", 32)], 4_096, 1, TurnState::Idle, 2, 35),
    (&[(b"PING\n", 33)], 4_096, 1, TurnState::Idle, 3, 36),
    (&[(b"PING\n", 64)], 4_096, 1, TurnState::Again, 3, 67),
    (EXIT, 4_096, 1, TurnState::Closed, 3, 4),
    (PING, 0, 2, TurnState::Idle, 3, 5),
];

#[test]
fn each_take_passes_the_gate_and_a_hold_says_up_to_32_lines(rt: HostRuntime) {
    for (sends, room, turns, state, takes, events) in &TAKES {
        let caller = Caller {
            sends: *sends,
            piece: 4_096,
            room: *room,
            end: End::Open,
        };
        let steps = [Enters(caller), Turns(0, *turns, *state), Takes(*takes)];
        play(&rt, rt.alloc(), &steps, *events);
    }
}

/// A client whose link takes nothing.
const DEAF: Caller = Caller {
    sends: PING,
    piece: 4_096,
    room: 0,
    end: End::Open,
};

const HEARING: Caller = Caller {
    sends: PING,
    piece: 4_096,
    room: 4_096,
    end: End::Open,
};

/// The one who reads all gives back both buffers, the other keeps the one in which bytes wait for it.
static LENT: [Step; 9] = [
    Keeps(0),
    Enters(HEARING),
    Turns(0, 1, TurnState::Idle),
    Keeps(8_192),
    Enters(DEAF),
    Turns(1, 1, TurnState::Idle),
    Keeps(4_096),
    Turns(0, 1, TurnState::Idle),
    Keeps(8_192),
];

#[test]
fn a_quiet_client_holds_no_buffer(rt: HostRuntime) {
    play(&rt, rt.alloc(), &LENT, 9);
}

/// 65,536 bytes in lines that say nothing, and a line behind them.
const BURST: Text = &[
    (b" ", 8_191),
    (b"\n", 1),
    (b" ", 8_191),
    (b"\n", 1),
    (b" ", 8_191),
    (b"\n", 1),
    (b" ", 8_191),
    (b"\n", 1),
    (b" ", 8_191),
    (b"\n", 1),
    (b" ", 8_191),
    (b"\n", 1),
    (b" ", 8_191),
    (b"\n", 1),
    (b" ", 8_191),
    (b"\n", 1),
    (b"PING\n", 1),
];

/// Clients whose links have all of it at once. The devices of two fail behind five reads and a write, and behind four
/// and a write.
const IN_FIVE: Caller = Caller {
    sends: BURST,
    piece: 100_000,
    room: 4_096,
    end: End::FailsAt(7),
};

const IN_FOUR: Caller = Caller {
    sends: BURST,
    piece: 100_000,
    room: 4_096,
    end: End::FailsAt(6),
};

const AT_ONCE: Caller = Caller {
    sends: BURST,
    piece: 100_000,
    room: 4_096,
    end: End::Open,
};

/// A turn reads 65,536 bytes and no more: in five reads, and in four once its worker keeps a buffer of 16,384 bytes. So
/// the devices of the first two fail at the first read of their second turn.
static BURSTS: [Step; 14] = [
    Enters(IN_FIVE),
    Turns(0, 1, TurnState::Again),
    Keeps(20_480),
    Turns(0, 1, TurnState::Closed),
    Reads(0, GREETED),
    Enters(IN_FOUR),
    Turns(1, 1, TurnState::Again),
    Turns(1, 1, TurnState::Closed),
    Reads(1, GREETED),
    Enters(AT_ONCE),
    Turns(2, 1, TurnState::Again),
    Reads(2, GREETED),
    Turns(2, 1, TurnState::Idle),
    Reads(2, PONGED),
];

/// Each opens and says eight lines. The first two are drained for three times, and are shut; the last one says one line
/// more, and is drained for four times.
#[test]
fn a_burst_comes_in_few_reads(rt: HostRuntime) {
    play(&rt, rt.alloc(), &BURSTS, 13 + 13 + 14);
}

const LATE_EXIT: Text = &[(b"                EXIT\n", 1)];

const PING_AND_EXIT: Text = &[(b"PING\nEXIT\n", 1)];

/// What is drained in the turn that hears EXIT is written in it too, also where the link takes little at a time, and
/// what an earlier turn drained and did not write.
static EXITS: [Case; 3] = [
    (
        PING_AND_EXIT,
        99,
        2,
        End::Open,
        1,
        TurnState::Closed,
        PONGED,
        5,
    ),
    // a first turn reads 16 blanks and writes 16 bytes
    (LATE_EXIT, 1, 1, End::Open, 2, TurnState::Closed, GREETED, 6),
    // a link that takes a byte a write is given 16 of them in its last turn
    (
        EXIT,
        99,
        1,
        End::Open,
        1,
        TurnState::Closed,
        SIXTEEN_BYTES,
        4,
    ),
];

#[test]
fn who_exits_is_told_what_its_link_takes(rt: HostRuntime) {
    check(&rt, rt.alloc(), &EXITS);
}

/// One who speaks in a channel, and asks in between.
const SPEAKER: Caller = Caller {
    sends: &[
        (ANNA_LOGS_IN, 1),
        (b"JOIN main\n", 1),
        (b"SAY main a\nSAY main b\nPING\nSAY main c\n#7 PING\n", 1),
    ],
    piece: 1_000,
    room: 1_000,
    end: End::Open,
};

const IN_MAIN: &[u8] = b"JOIN main\nCLIENTS main Anna\n";

static TOLD_ENOUGH: [Step; 14] = [
    Enters(SPEAKER),
    TurnWithin(0, 0, TurnState::Again),
    Reads(0, GREETED),
    TurnWithin(0, 1, TurnState::Again),
    Reads(0, &[(GREETING, 1), (ANNA_IS_IN, 1)]),
    TurnWithin(0, 1, TurnState::Again),
    Reads(0, &[(GREETING, 1), (ANNA_IS_IN, 1), (IN_MAIN, 1)]),
    TurnWithin(0, 1, TurnState::Again),
    TurnWithin(0, 0, TurnState::Again),
    Reads(
        0,
        &[
            (GREETING, 1),
            (ANNA_IS_IN, 1),
            (IN_MAIN, 1),
            (b"SAID main Anna a\n", 1),
        ],
    ),
    TurnWithin(0, 1, TurnState::Again),
    Reads(
        0,
        &[
            (GREETING, 1),
            (ANNA_IS_IN, 1),
            (IN_MAIN, 1),
            (b"SAID main Anna a\nSAID main Anna b\nPONG\n", 1),
        ],
    ),
    TurnWithin(0, 2, TurnState::Idle),
    Reads(
        0,
        &[
            (GREETING, 1),
            (ANNA_IS_IN, 1),
            (IN_MAIN, 1),
            (
                b"SAID main Anna a\nSAID main Anna b\nPONG\nSAID main Anna c\n#7 PONG\n",
                1,
            ),
        ],
    ),
];

/// Only a line that tells nobody else is said behind what a turn may tell; the others stay for later turns. The events
/// are an open, seven lines, and two drains a turn, the second of which sees that nothing is left: but one in the
/// fifth, which has nothing to send.
#[test]
fn a_turn_that_told_enough_puts_lines_off(rt: HostRuntime) {
    play(&rt, rt.alloc(), &TOLD_ENOUGH, 1 + 7 + 13);
}

/// One who is in no battle, and sends two lines of 64 words that are refused for it.
const LISTER: Caller = Caller {
    sends: &[
        (ANNA_LOGS_IN, 1),
        (b"DISABLEUNITS", 1),
        (b" a b c d e f g h", 8),
        (b"\nENABLEUNITS", 1),
        (b" a b c d e f g h", 8),
        (b"\nPING\n", 1),
    ],
    piece: 1_000,
    room: 1_000,
    end: End::Open,
};

const REFUSED: &[u8] = b"SERVERMSG You are not in a battle\n";

static LISTED_ENOUGH: [Step; 7] = [
    Enters(LISTER),
    TurnWithin(0, 0, TurnState::Again),
    Reads(0, GREETED),
    TurnWithin(0, 4_096, TurnState::Again),
    Reads(0, &[(GREETING, 1), (ANNA_IS_IN, 1), (REFUSED, 1)]),
    TurnWithin(0, 4_096, TurnState::Idle),
    Reads(
        0,
        &[(GREETING, 1), (ANNA_IS_IN, 1), (REFUSED, 2), (b"PONG\n", 1)],
    ),
];

/// A line that is refused tells little, and each word that it lists counts as 64 bytes. The events are an open, four
/// lines, and two drains a turn.
#[test]
fn a_turn_that_listed_enough_puts_lines_off(rt: HostRuntime) {
    play(&rt, rt.alloc(), &LISTED_ENOUGH, 1 + 4 + 6);
}
