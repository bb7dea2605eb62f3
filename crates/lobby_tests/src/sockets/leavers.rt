//! What a client gets that is logged out, or whose server stops, while more of what it sent is on its way, and how long
//! its connection lingers.

use crate::sockets::gates::Hold;
use crate::sockets::plays::Step::*;
use crate::sockets::plays::{Act, BOTH_LOG_IN, play};
use crate::sockets::running::{ANNA, BERT, PING, PONG, TEXT, THIRD};

/// So often Bert says something to Anna.
const LINES: u32 = 64;

/// Behind the answer to his PING the line is written to Anna's link in the same round, if it was not before.
const BERT_SAYS: Act = Act {
    times: LINES,
    steps: &[
        Sends(BERT, b"SAYPRIVATE Anna "),
        SendsOften(BERT, TEXT, 250),
        Sends(BERT, b"\n"),
        Reads(BERT, b"SAYPRIVATE Anna "),
        ReadsOften(BERT, TEXT, 250),
        Reads(BERT, b"\n"),
        Sends(BERT, PING),
        Reads(BERT, PONG),
    ],
};

const ANNA_IS_OUT: Act = Act {
    times: 1,
    steps: &[Reads(BERT, b"REMOVEUSER Anna\n")],
};

const ANNA_READS: Act = Act {
    times: LINES,
    steps: &[
        Reads(ANNA, b"SAIDPRIVATE Bert "),
        ReadsOften(ANNA, TEXT, 250),
        Reads(ANNA, b"\n"),
    ],
};

const BERT_GOES_ON: Act = Act {
    times: 1,
    steps: &[Ends(ANNA), Sends(BERT, PING), Reads(BERT, PONG)],
};

static EXITS: [Act; 6] = [
    BOTH_LOG_IN,
    BERT_SAYS,
    Act {
        times: 1,
        steps: &[Sends(ANNA, b"EXIT\n"), SendsOften(ANNA, TEXT, 12_500)],
    },
    ANNA_IS_OUT,
    ANNA_READS,
    BERT_GOES_ON,
];

/// Anna reads nothing of what Bert says until she is out, and that is more than most systems keep for a client that
/// does not read. Behind her EXIT she sends more than her last turn reads.
#[test]
fn who_exits_with_more_behind_it_gets_its_last_lines(rt: HostRuntime) {
    drop(play(&rt, rt, 1, Hold::Open, &EXITS));
}

static SPOILS: [Act; 6] = [
    BOTH_LOG_IN,
    BERT_SAYS,
    Act {
        times: 1,
        steps: &[SendsOften(ANNA, TEXT, 12_500)],
    },
    ANNA_IS_OUT,
    ANNA_READS,
    BERT_GOES_ON,
];

/// The same behind a line that is too long.
#[test]
fn whose_line_is_too_long_gets_its_last_lines(rt: HostRuntime) {
    drop(play(&rt, rt, 1, Hold::Open, &SPOILS));
}

static SENDS_ON: [Act; 1] = [Act {
    times: 1,
    steps: &[
        Enters(0),
        Enters(1),
        Sends(0, b"EXIT\n"),
        Ends(0),
        IsBrokenOff(0, TEXT, 4_096),
        Sends(1, PING),
        Reads(1, PONG),
    ],
}];

/// What is sent behind an EXIT is read, but not without end.
#[test]
fn who_sends_on_behind_an_exit_is_broken_off(rt: HostRuntime) {
    drop(play(&rt, rt, 1, Hold::Open, &SENDS_ON));
}

static OTHERS_LEAVE: [Act; 3] = [
    Act {
        times: 1,
        steps: &[Enters(0), Sends(0, b"EXIT\n"), Ends(0)],
    },
    Act {
        times: 64,
        steps: &[Enters(1), Sends(1, b"EXIT\n"), Ends(1)],
    },
    Act {
        times: 1,
        steps: &[IsBrokenOff(0, TEXT, 1)],
    },
];

/// Who keeps its connection behind an EXIT is closed once so many others have left. What it sends until then is far
/// less than what is read of one client.
#[test]
fn who_keeps_its_connection_gives_way_to_others(rt: HostRuntime) {
    drop(play(&rt, rt, 1, Hold::Open, &OTHERS_LEAVE));
}

/// More than the system keeps for a client that does not read, and less than the limit of an outbox.
const MANY_LINES: u32 = 1_500;

const BERT_SAYS_MUCH: Act = Act {
    times: MANY_LINES,
    steps: &[
        Sends(BERT, b"SAYPRIVATE Anna "),
        SendsOften(BERT, TEXT, 250),
        Sends(BERT, b"\n"),
    ],
};

const BERT_IS_ANSWERED: Act = Act {
    times: MANY_LINES,
    steps: &[
        Reads(BERT, b"SAYPRIVATE Anna "),
        ReadsOften(BERT, TEXT, 250),
        Reads(BERT, b"\n"),
    ],
};

const ANNA_READS_MUCH: Act = Act {
    times: MANY_LINES,
    steps: &[
        Reads(ANNA, b"SAIDPRIVATE Bert "),
        ReadsOften(ANNA, TEXT, 250),
        Reads(ANNA, b"\n"),
    ],
};

static STOPS: [Act; 6] = [
    BOTH_LOG_IN,
    BERT_SAYS_MUCH,
    BERT_IS_ANSWERED,
    Act {
        times: 1,
        steps: &[
            Enters(THIRD),
            Sends(THIRD, PING),
            IsKept,
            SendsOften(ANNA, PING, 20_000),
            InputEnds,
            GoesOn,
        ],
    },
    ANNA_READS_MUCH,
    Act {
        times: 1,
        steps: &[IsClosed(ANNA), Ends(BERT)],
    },
];

/// Anna reads nothing of what Bert says until the server stops, and sends more than her worker reads.
#[test]
fn who_talks_at_a_stop_gets_all_that_waits(rt: HostRuntime) {
    drop(play(&rt, rt, 1, Hold::Write, &STOPS));
}

static STOPS_ALL_THE_SAME: [Act; 4] = [
    BOTH_LOG_IN,
    BERT_SAYS_MUCH,
    BERT_IS_ANSWERED,
    Act {
        times: 1,
        steps: &[InputEnds, ServerEnds],
    },
];

/// Anna reads nothing, and Bert does not end his connection.
#[test]
fn who_does_not_read_or_end_holds_no_stop_up(rt: HostRuntime) {
    drop(play(&rt, rt, 1, Hold::Open, &STOPS_ALL_THE_SAME));
}
