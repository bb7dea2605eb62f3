//! How a server starts and ends, and what one client gets that sends much, reads late or stops sending.

ghost use Rattle.std.specs.Prelude.{◌≡◌, ◌≤◌};

use crate::sockets::gates::Hold;
use crate::sockets::plays::Step::*;
use crate::sockets::plays::{Act, BOTH_LOG_IN, Ending, play, play_to};
use crate::sockets::running::{ANNA, BERT, PING, PONG, TEXT, THIRD};
use crate::verdict::same;
use std::alloc::Global;
use std::io::Write;
use std::net::{self, Net};
use std::process::Abort;
use std::str;
use std::sync::Wait;
use std::thread::Threads;

/// What a server prints whose so many workers had no client.
fn idle_output(alloc: Global, workers: u32) -> Option<Vec<u8>> {
    let mut output = Vec::from_slice(alloc, b"listening\n").ok()?;
    for worker in 0..workers {
        if writeln!(output, "worker {worker}: 0 events").is_err() {
            return None;
        }
    }
    Some(output)
}

static AT_ONCE: [Act; 1] = [Act {
    times: 1,
    steps: &[InputEnds, IsKept, GoesOn, ServerEnds],
}];

/// The input of a server ends before the server starts, or with no patience fails at once. The server ends with this
/// status, and what it prints is compared.
fn start_and_end<
    R: Threads + Wait + Net<Listener = net::TcpListener, Stream = net::TcpStream> + Abort + Sync,
>(rt: &R, clock: HostRuntime, workers: u32, looks: u32, status: u8)
    requires { (1 ≤ workers) × (workers ≤ 64) }
{
    let ending = Ending { looks, status };
    let output = play_to(rt, clock, workers, Hold::Start, &AT_ONCE, ending);
    same(rt, Some(output), idle_output(clock.alloc(), workers));
}

#[test]
fn an_input_that_is_empty_ends_the_server(rt: HostRuntime) {
    for workers in [1u32, 2, 64] {
        start_and_end(&rt, rt, workers, 1, 0);
    }
}

#[test]
fn an_input_that_fails_ends_the_server_too(rt: HostRuntime) {
    start_and_end(&rt, rt, 2, 0, 2);
}

/// The number before a word of events. None where the text has no such form.
fn events_in(text: &str) -> Option<u64> {
    text.strip_suffix(" events")?.parse().ok()
}

/// The number of events that is printed of a worker. None where no line has this form.
fn events_of(output: &str, worker: &str) -> Option<u64> {
    for line in output.lines() {
        if let Some(rest) = line.strip_prefix(worker) {
            return events_in(rest);
        }
    }
    None
}

fn compare_events(rt: &impl Abort, output: &str) {
    let anna = events_of(output, "worker 0: ").unwrap_or(0);
    let bert = events_of(output, "worker 1: ").unwrap_or(0);
    let nobody = events_of(output, "worker 2: ").unwrap_or(1);
    let are_so = anna >= 1 + 1 + 100 + 100 + 1 && 3 <= bert && bert < 100 && nobody == 0;
    assert!(rt; are_so, "{output}");
}

static EVENTS: [Act; 2] = [
    Act {
        times: 1,
        steps: &[Enters(ANNA), Enters(BERT)],
    },
    Act {
        times: 100,
        steps: &[Sends(ANNA, PING), Reads(ANNA, PONG)],
    },
];

/// Anna's worker opens her, answers a hundred lines and shuts her; Bert's opens and shuts him. Drains are events too, a
/// few a turn.
#[test]
fn each_worker_is_told_with_its_own_events(rt: HostRuntime) {
    let output = play(&rt, rt, 3, Hold::Open, &EVENTS);
    compare_events(&rt, str::from_utf8(&output).unwrap_or(""));
    drop(output);
}

static BURST: [Act; 1] = [Act {
    times: 1,
    steps: &[
        Enters(ANNA),
        SendsOften(ANNA, PING, 14_000),
        ReadsOften(ANNA, PONG, 14_000),
        Sends(ANNA, b"EXIT\n"),
        Ends(ANNA),
    ],
}];

/// Far more lines than a turn takes, which the client sends before it reads.
#[test]
fn a_burst_is_answered_whole(rt: HostRuntime) {
    for workers in [1u32, 3] {
        drop(play(&rt, rt, workers, Hold::Open, &BURST));
    }
}

const ANNA_SAYS: Act = Act {
    times: 100,
    steps: &[
        Sends(ANNA, b"SAYPRIVATE Anna "),
        SendsOften(ANNA, TEXT, 250),
        Sends(ANNA, b"\n"),
    ],
};

const ANNA_HEARS: Act = Act {
    times: 100,
    steps: &[
        Reads(ANNA, b"SAYPRIVATE Anna "),
        ReadsOften(ANNA, TEXT, 250),
        Reads(ANNA, b"\nSAIDPRIVATE Anna "),
        ReadsOften(ANNA, TEXT, 250),
        Reads(ANNA, b"\n"),
    ],
};

const BERT_IS_TOLD: Act = Act {
    times: 1,
    steps: &[Sends(ANNA, b"SAYPRIVATE Bert on\n")],
};

const BERT_HEARS: Act = Act {
    times: 7,
    steps: &[Reads(BERT, b"SAIDPRIVATE Anna on\n")],
};

const ANNA_HEARS_ON: Act = Act {
    times: 1,
    steps: &[Reads(ANNA, b"SAYPRIVATE Bert on\n")],
};

static LATE: [Act; 30] = [
    BOTH_LOG_IN,
    ANNA_SAYS,
    BERT_IS_TOLD,
    ANNA_SAYS,
    BERT_IS_TOLD,
    ANNA_SAYS,
    BERT_IS_TOLD,
    ANNA_SAYS,
    BERT_IS_TOLD,
    ANNA_SAYS,
    BERT_IS_TOLD,
    ANNA_SAYS,
    BERT_IS_TOLD,
    ANNA_SAYS,
    BERT_IS_TOLD,
    BERT_HEARS,
    ANNA_HEARS,
    ANNA_HEARS_ON,
    ANNA_HEARS,
    ANNA_HEARS_ON,
    ANNA_HEARS,
    ANNA_HEARS_ON,
    ANNA_HEARS,
    ANNA_HEARS_ON,
    ANNA_HEARS,
    ANNA_HEARS_ON,
    ANNA_HEARS,
    ANNA_HEARS_ON,
    ANNA_HEARS,
    ANNA_HEARS_ON,
];

/// Many more lines than a turn reads, and more answers than most systems keep for a client that does not read, so that
/// her link takes no more for a while: Anna reads once Bert was told all.
#[test]
fn a_client_that_reads_late_gets_all(rt: HostRuntime) {
    drop(play(&rt, rt, 1, Hold::Open, &LATE));
}

static NAMED_AND_LEFT_OVER: [Act; 2] = [
    BOTH_LOG_IN,
    Act {
        times: 1,
        steps: &[
            Enters(THIRD),
            Sends(THIRD, PING),
            IsKept,
            SendsOften(ANNA, PING, 200),
            Sends(BERT, b"SAYPRIVATE Anna on\n"),
            GoesOn,
            ReadsAmong(ANNA, PONG, 200, b"SAIDPRIVATE Bert on\n"),
        ],
    },
];

/// Anna sends 200 lines while their worker stands still, of which a turn hears 64, and Bert says something to her. So
/// her first turn stops at its limit, and she gets the second both since that left her over and since Bert's turn had
/// her named as changed. It stops at its limit too, and she gets the third for nothing but that: her lines are so short
/// that all have come before the first, so the poll tells no more of her.
#[test]
fn who_is_named_and_left_over_gets_both_turns(rt: HostRuntime) {
    drop(play(&rt, rt, 1, Hold::Write, &NAMED_AND_LEFT_OVER));
}

static NAMED: [Act; 2] = [
    BOTH_LOG_IN,
    Act {
        times: 1,
        steps: &[
            Sends(BERT, b"PING\nEXIT\n"),
            IsKept,
            SendsOften(ANNA, PING, 200),
            GoesOn,
            Reads(ANNA, b"REMOVEUSER Bert\n"),
            ReadsOften(ANNA, PONG, 200),
        ],
    },
];

/// Bert is logged out in the turn in which he got his last answer, while more lines of Anna's lie there than a turn
/// hears. So the poll tells of her while she is named, her turn stops at its limit, and no byte comes any more to have
/// the poll tell of her again.
#[test]
fn who_is_named_and_stops_at_a_limit_gets_the_next_turn(rt: HostRuntime) {
    drop(play(&rt, rt, 1, Hold::Write, &NAMED));
}

static NO_MORE: [Act; 1] = [Act {
    times: 1,
    steps: &[
        Connects(0),
        Sends(0, PING),
        Finishes(0),
        Reads(0, b"TASSERVER 0.38 * 8201 0\nPONG\n"),
        Ends(0),
        Connects(1),
        Sends(1, b"PING\nPING"),
        Finishes(1),
        Reads(1, b"TASSERVER 0.38 * 8201 0\nPONG\n"),
        Ends(1),
        Connects(2),
        Sends(2, b"PING\nEXIT\nPING\n"),
        Finishes(2),
        Reads(2, b"TASSERVER 0.38 * 8201 0\nPONG\n"),
        Ends(2),
    ],
}];

#[test]
fn who_sends_no_more_gets_all_answers(rt: HostRuntime) {
    drop(play(&rt, rt, 2, Hold::Open, &NO_MORE));
}

static ENDS_AT_ONCE: [Act; 1] = [Act {
    times: 1,
    steps: &[
        Enters(0),
        Enters(1),
        Sends(0, PING),
        IsKept,
        Sends(1, PING),
        Finishes(1),
        GoesOn,
        Reads(1, PONG),
        Ends(1),
    ],
}];

/// A client sends its last line and ends while its worker stands still, so the poll tells of both at once, and of the
/// end never again.
#[test]
fn whose_line_and_end_come_at_once_is_answered_and_closed(rt: HostRuntime) {
    drop(play(&rt, rt, 1, Hold::Write, &ENDS_AT_ONCE));
}
