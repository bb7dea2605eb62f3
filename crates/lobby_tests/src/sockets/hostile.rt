//! What comes to the edge of a server: many connections at once, full inboxes, clients that keep a worker busy, and
//! homes.

use crate::sockets::gates::Hold;
use crate::sockets::plays::Step::*;
use crate::sockets::plays::{Act, BOTH_LOG_IN, play};
use crate::sockets::running::{ANNA, BERT, PING, PONG, THIRD};
use test_lobby::{BERT_COMES, BERT_IS_IN, BERT_LOGS_IN};

static BURST: [Act; 2] = [
    Act {
        times: 100,
        steps: &[JoinsCrowd],
    },
    Act {
        times: 1,
        steps: &[GoesOn, CrowdIsGreeted],
    },
];

/// More connections than a round accepts, all of which wait before the server starts. No further one comes to recall
/// them.
#[test]
fn a_burst_of_connections_is_accepted_whole(rt: HostRuntime) {
    drop(play(&rt, rt, 1, Hold::Start, &BURST));
}

/// Who passes through.
const PASSER: usize = 0;

/// Who meets a full inbox.
const REFUSED: usize = 1;

static FULL_INBOX: [Act; 3] = [
    Act {
        times: 1,
        steps: &[GateShuts],
    },
    Act {
        times: 256,
        steps: &[Enters(PASSER), JoinsCrowd],
    },
    Act {
        times: 1,
        steps: &[
            Enters(PASSER),
            Connects(REFUSED),
            Ends(REFUSED),
            Enters(PASSER),
            GoesOn,
            CrowdIsGreeted,
        ],
    },
];

/// Worker 1 stands still while connections come, of which each second one is its own. Its inbox takes 256; one more is
/// closed, and counted all the same. Who was greeted at worker 0 shows that the one before it was handed over.
#[test]
fn who_meets_a_full_inbox_is_closed_and_counted(rt: HostRuntime) {
    drop(play(&rt, rt, 2, Hold::Wake, &FULL_INBOX));
}

static LEFT_OVER: [Act; 1] = [Act {
    times: 1,
    steps: &[
        Enters(0),
        Enters(1),
        Enters(2),
        Sends(0, PING),
        IsKept,
        SendsOften(0, b"\n", 14_000),
        SendsOften(2, b"\n", 14_000),
        SendsOften(1, b"\n", 14_000),
        Sends(1, PING),
        GoesOn,
        Reads(1, PONG),
    ],
}];

/// Three clients send far more lines than a turn takes, of which nobody is told anything: so nothing but the list of
/// those left over gives them turns. Only the one in the middle ends with a line that is answered.
#[test]
fn all_who_are_left_over_get_their_turns(rt: HostRuntime) {
    drop(play(&rt, rt, 1, Hold::Write, &LEFT_OVER));
}

static SAME_ROUND: [Act; 2] = [
    BOTH_LOG_IN,
    Act {
        times: 1,
        steps: &[
            Enters(THIRD),
            Sends(THIRD, PING),
            IsKept,
            Sends(ANNA, PING),
            Sends(BERT, b"SAYPRIVATE Anna on\n"),
            GoesOn,
            ReadsAmong(ANNA, PONG, 1, b"SAIDPRIVATE Bert on\n"),
        ],
    },
];

/// Anna and Bert send while their worker stands still, so both get their turns in one round, mostly Anna first. What
/// Bert's turn then has for her comes without another byte from anyone, before her answer or behind it.
#[test]
fn who_had_a_turn_is_told_what_a_later_turn_brings(rt: HostRuntime) {
    drop(play(&rt, rt, 1, Hold::Write, &SAME_ROUND));
}

static CROWDED: [Act; 4] = [
    Act {
        times: 200,
        steps: &[JoinsCrowd],
    },
    Act {
        times: 1,
        steps: &[CrowdIsGreeted],
    },
    BOTH_LOG_IN,
    Act {
        times: 1,
        steps: &[
            Sends(ANNA, b"SAYPRIVATE Bert on\n"),
            Reads(BERT, b"SAIDPRIVATE Anna on\n"),
        ],
    },
];

/// Each worker has a hundred clients that say nothing, and one for which there is a line.
#[test]
fn a_line_reaches_its_client_among_many_quiet_ones(rt: HostRuntime) {
    drop(play(&rt, rt, 2, Hold::Open, &CROWDED));
}

static HOMES: [Act; 2] = [
    BOTH_LOG_IN,
    Act {
        times: 1,
        steps: &[
            Sends(BERT, b"EXIT\n"),
            Reads(ANNA, b"REMOVEUSER Bert\n"),
            Enters(THIRD),
            Enters(BERT),
            Sends(BERT, BERT_LOGS_IN),
            Reads(BERT, BERT_IS_IN),
            Reads(ANNA, BERT_COMES),
            Sends(ANNA, b"EXIT\n"),
            Reads(BERT, b"REMOVEUSER Anna\n"),
        ],
    },
];

/// A log out is told to the others alone. So who is told of one was woken for it, by the home of its own client.
#[test]
fn each_client_is_at_home_at_its_worker(rt: HostRuntime) {
    drop(play(&rt, rt, 2, Hold::Open, &HOMES));
}

static BYTES: [Act; 2] = [
    BOTH_LOG_IN,
    Act {
        times: 1,
        steps: &[
            Sends(ANNA, b"JOIN main\n"),
            Reads(ANNA, b"JOIN main\nCLIENTS main Anna\n"),
            Sends(BERT, b"JOIN main\n"),
            Reads(BERT, b"JOIN main\nCLIENTS main Anna Bert\n"),
            Reads(ANNA, b"JOINED main Bert\n"),
            Sends(ANNA, b"#7 SAY main a\rADDUSER Eve DE 0 9\n"),
            Reads(ANNA, b"#7 SERVERMSG Bad byte in line\n"),
            Sends(ANNA, b"SAY main \xC3\xA4\xFF\x00\n"),
            Reads(ANNA, b"SAID main Anna \xC3\xA4\xFF\x00\n"),
            Reads(BERT, b"SAID main Anna \xC3\xA4\xFF\x00\n"),
        ],
    },
];

/// A line with a CR in it is answered to its client alone, as the next line for the other shows. All other bytes of a
/// text are told as they came.
#[test]
fn a_text_is_told_byte_for_byte_and_has_no_line_ends(rt: HostRuntime) {
    drop(play(&rt, rt, 2, Hold::Open, &BYTES));
}
