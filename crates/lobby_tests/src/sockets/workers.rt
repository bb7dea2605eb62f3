//! What two workers do side by side.

use crate::sockets::gates::Hold;
use crate::sockets::plays::Step::*;
use crate::sockets::plays::{Act, BOTH_LOG_IN, play, play_users};
use crate::sockets::running::{ANNA, BERT, PING, PONG};
use test_lobby::{ANNA_IS_IN, ANNA_LOGS_IN, BERT_COMES, BERT_LOGS_IN};

static TWO_CLIENTS: [Act; 1] = [Act {
    times: 1,
    steps: &[
        Enters(ANNA),
        Enters(BERT),
        SecondWasWoken,
        GateShuts,
        Sends(ANNA, PING),
        Sends(BERT, PING),
        Reads(ANNA, PONG),
        Reads(BERT, PONG),
        WorkersMet,
        Sends(ANNA, ANNA_LOGS_IN),
        Reads(ANNA, ANNA_IS_IN),
        Sends(BERT, BERT_LOGS_IN),
        Reads(ANNA, BERT_COMES),
        InputEnds,
        ServerEnds,
        IsClosed(ANNA),
    ],
}];

#[test]
fn two_workers_serve_two_clients(rt: HostRuntime) {
    drop(play_users(&rt, rt, 2, Hold::Takes, &TWO_CLIENTS));
}

static WRITING: [Act; 1] = [Act {
    times: 1,
    steps: &[
        Enters(ANNA),
        Enters(BERT),
        Sends(ANNA, PING),
        IsKept,
        Sends(BERT, PING),
        Reads(BERT, PONG),
        GoesOn,
        Reads(ANNA, PONG),
    ],
}];

#[test]
fn a_worker_that_writes_keeps_no_other_waiting(rt: HostRuntime) {
    drop(play(&rt, rt, 2, Hold::Write, &WRITING));
}

static IN_TURN: [Act; 1] = [Act {
    times: 1,
    steps: &[
        Enters(0),
        Greeted(1, 0),
        Enters(1),
        Greeted(2, 1),
        Enters(2),
        Greeted(3, 0),
        Enters(3),
        Greeted(4, 1),
        Enters(4),
        Greeted(5, 0),
        InputEnds,
        ServerEnds,
        Ends(0),
        Ends(1),
        Ends(2),
        Ends(3),
        Ends(4),
    ],
}];

#[test]
fn connections_go_to_the_workers_in_turn(rt: HostRuntime) {
    drop(play(&rt, rt, 2, Hold::Open, &IN_TURN));
}

/// Bert's connections go to both workers in turn.
static RESETS: [Act; 3] = [
    Act {
        times: 1,
        steps: &[
            Enters(ANNA),
            Sends(ANNA, ANNA_LOGS_IN),
            Reads(ANNA, ANNA_IS_IN),
        ],
    },
    Act {
        times: 4,
        steps: &[
            Enters(BERT),
            Sends(BERT, BERT_LOGS_IN),
            Reads(BERT, b"ACCEPTED Bert\n"),
            Reads(ANNA, BERT_COMES),
            Sends(BERT, b"SAYPRIVATE Anna hal"),
            BreaksOff(BERT),
            Reads(ANNA, b"REMOVEUSER Bert\n"),
            Sends(ANNA, b"#7 PING\n"),
            Reads(ANNA, b"#7 PONG\n"),
        ],
    },
    Act {
        times: 1,
        steps: &[InputEnds, ServerEnds, Ends(ANNA)],
    },
];

#[test]
fn a_reset_in_mid_line_logs_out_its_own_user_alone(rt: HostRuntime) {
    drop(play(&rt, rt, 2, Hold::Open, &RESETS));
}

static STOP: [Act; 2] = [
    BOTH_LOG_IN,
    Act {
        times: 1,
        steps: &[
            GateShuts,
            Sends(ANNA, b"SAYPRIVATE Bert on\n"),
            Reads(ANNA, b"SAYPRIVATE Bert on\n"),
            IsKept,
            InputEnds,
            Ends(ANNA),
            GoesOn,
            Reads(BERT, b"SAIDPRIVATE Anna on\nREMOVEUSER Anna\n"),
        ],
    },
];

/// Worker 1 stands still while worker 0 ends. Whose connection is closed by then was logged out, and worker 1's client
/// is told.
#[test]
fn who_is_connected_at_a_stop_is_logged_out(rt: HostRuntime) {
    drop(play(&rt, rt, 2, Hold::Wake, &STOP));
}
