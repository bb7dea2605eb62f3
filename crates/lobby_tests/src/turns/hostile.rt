//! Clients whose device fails, and one that reads nothing, with others logged in beside them.

use crate::turns::plays::Step::{Enters, Reads, Turns};
use crate::turns::plays::{Caller, End, Step, play};
use lobby_turns::TurnState;
use test_lobby::{
    ANNA_IS_IN, ANNA_LOGS_IN, BERT_COMES, BERT_IS_IN, BERT_LOGS_IN, CLEO_LOGS_IN, GREETING, Text,
};

/// What Anna is told where Bert was shut before he logged in, where he was shut then, and where he was not shut.
const NOTHING: Text = &[(GREETING, 1), (ANNA_IS_IN, 1)];

const HE_CAME_AND_WENT: Text = &[
    (GREETING, 1),
    (ANNA_IS_IN, 1),
    (BERT_COMES, 1),
    (b"REMOVEUSER Bert\n", 1),
];

const HE_CAME: Text = &[(GREETING, 1), (ANNA_IS_IN, 1), (BERT_COMES, 1)];

/// What Bert is told of his login, where Anna is there, and what of it his link takes in no write, one and two.
const NO_WRITE: Text = &[];

const GREETED: Text = &[(GREETING, 1)];

const ONE_WRITE: Text = &[(b"TASSERVER 0.38 * 8201 0\nACCEPTED Bert\nMOTD Welcome", 1)];

const TWO_WRITES: Text = &[(
    b"TASSERVER 0.38 * 8201 0
ACCEPTED Bert
MOTD Welcome
ADDUSER Anna DE 0 1
ADDUSER Bert ?? 0 2
CLIENTSTA",
    1,
)];

const ALL: Text = &[(GREETING, 1), (BERT_IS_IN, 1)];

/// When Bert's device fails, what his turn comes to, what is written to him, what Anna is told, and how many events
/// there are. His session reads twice, once more in vain, and then writes three times. He is shut once, and no event of
/// his comes after that: Anna's are five, and six where she is told of him; his are an open, two drains, his login
/// where it was read, one drain more where all three writes are over, and one shut.
static FAILURES: [(End, TurnState, Text, Text, u64); 14] = [
    (End::FailsAt(1), TurnState::Closed, GREETED, NOTHING, 9),
    (End::FailsAt(2), TurnState::Closed, GREETED, NOTHING, 9),
    (
        End::FailsAt(3),
        TurnState::Closed,
        ALL,
        HE_CAME_AND_WENT,
        12,
    ),
    (
        End::FailsAt(4),
        TurnState::Closed,
        NO_WRITE,
        HE_CAME_AND_WENT,
        11,
    ),
    (
        End::FailsAt(5),
        TurnState::Closed,
        ONE_WRITE,
        HE_CAME_AND_WENT,
        11,
    ),
    (
        End::FailsAt(6),
        TurnState::Closed,
        TWO_WRITES,
        HE_CAME_AND_WENT,
        11,
    ),
    (End::FailsAt(7), TurnState::Idle, ALL, HE_CAME, 11),
    (End::FailsFrom(1), TurnState::Closed, NO_WRITE, NOTHING, 9),
    (End::FailsFrom(2), TurnState::Closed, NO_WRITE, NOTHING, 9),
    (
        End::FailsFrom(3),
        TurnState::Closed,
        NO_WRITE,
        HE_CAME_AND_WENT,
        11,
    ),
    (
        End::FailsFrom(4),
        TurnState::Closed,
        NO_WRITE,
        HE_CAME_AND_WENT,
        11,
    ),
    (
        End::FailsFrom(5),
        TurnState::Closed,
        ONE_WRITE,
        HE_CAME_AND_WENT,
        11,
    ),
    (
        End::FailsFrom(6),
        TurnState::Closed,
        TWO_WRITES,
        HE_CAME_AND_WENT,
        11,
    ),
    (End::FailsFrom(7), TurnState::Idle, ALL, HE_CAME, 11),
];

/// Anna, over a link that does as it should.
const ANNA: Caller = Caller {
    sends: &[(ANNA_LOGS_IN, 1)],
    piece: 4_096,
    room: 4_096,
    end: End::Open,
};

#[test]
fn a_device_that_fails_at_any_call_shuts_its_client_once(rt: HostRuntime) {
    for (end, state, told, seen, events) in &FAILURES {
        let bert = Caller {
            sends: &[(BERT_LOGS_IN, 1)],
            piece: 32,
            room: 50,
            end: *end,
        };
        let steps = [
            Enters(ANNA),
            Turns(0, 1, TurnState::Idle),
            Enters(bert),
            Turns(1, 1, *state),
            Reads(1, *told),
            Turns(0, 1, TurnState::Idle),
            Reads(0, *seen),
        ];
        play(&rt, rt.alloc(), &steps, *events);
    }
}

/// Anna's number where she reads nothing, Cleo's, who listens, and Bert's, who talks.
const READS_NOTHING: usize = 0;

const LISTENS: usize = 1;

const TALKS: usize = 2;

/// Bert says this so many times.
const TIMES: usize = 600;

/// A line of 110 bytes.
const SAYS: &[u8] =
    b"SAY main 0123456789012345678901234567890123456789012345678901234567890123456789012345678901234567890123456789\n";

/// What comes of it, in 116 bytes. 65,536 bytes have place for 564 such lines.
const SAID: &[u8] =
    b"SAID main Bert 0123456789012345678901234567890123456789012345678901234567890123456789012345678901234567890123456789\n";

const ANNA_GOES: &[u8] = b"LEFT main Anna\nREMOVEUSER Anna\n";

const SLOW_ANNA: Caller = Caller {
    sends: &[(ANNA_LOGS_IN, 1), (b"JOIN main\n", 1)],
    piece: 4_096,
    room: 0,
    end: End::Open,
};

const CLEO: Caller = Caller {
    sends: &[(CLEO_LOGS_IN, 1), (b"JOIN main\n", 1)],
    piece: 4_096,
    room: 16_384,
    end: End::Open,
};

const BERT: Caller = Caller {
    sends: &[(BERT_LOGS_IN, 1), (b"JOIN main\n", 1), (SAYS, TIMES)],
    piece: 4_096,
    room: 16_384,
    end: End::Open,
};

/// A turn says 64 lines of Bert's. Behind five turns of his Anna has place for what she did not read, behind ten she
/// has not.
static SLOW: [Step; 16] = [
    Enters(SLOW_ANNA),
    Turns(READS_NOTHING, 1, TurnState::Idle),
    Enters(CLEO),
    Turns(LISTENS, 1, TurnState::Idle),
    Enters(BERT),
    Turns(TALKS, 5, TurnState::Again),
    Turns(LISTENS, 1, TurnState::Idle),
    Turns(READS_NOTHING, 1, TurnState::Idle),
    Turns(TALKS, 5, TurnState::Idle),
    Turns(LISTENS, 1, TurnState::Idle),
    Turns(READS_NOTHING, 1, TurnState::Closed),
    Turns(TALKS, 1, TurnState::Idle),
    Turns(LISTENS, 1, TurnState::Idle),
    Reads(READS_NOTHING, &[]),
    Reads(
        LISTENS,
        &[
            (
                b"TASSERVER 0.38 * 8201 0
ACCEPTED Cleo
MOTD Welcome
ADDUSER Anna DE 0 1
ADDUSER Cleo FR 0 3
LOGININFOEND
JOIN main
CLIENTS main Anna Cleo
",
                1,
            ),
            (BERT_COMES, 1),
            (b"JOINED main Bert\n", 1),
            (SAID, TIMES),
            (ANNA_GOES, 1),
        ],
    ),
    Reads(
        TALKS,
        &[
            (
                b"TASSERVER 0.38 * 8201 0
ACCEPTED Bert
MOTD Welcome
ADDUSER Anna DE 0 1
ADDUSER Bert ?? 0 2
ADDUSER Cleo FR 0 3
CLIENTSTATUS Bert 12
LOGININFOEND
JOIN main
CLIENTS main Anna Cleo Bert
",
                1,
            ),
            (SAID, TIMES),
            (ANNA_GOES, 1),
        ],
    ),
];

#[test]
fn who_reads_nothing_is_cut_and_shut_once(rt: HostRuntime) {
    play(&rt, rt.alloc(), &SLOW, 669);
}
