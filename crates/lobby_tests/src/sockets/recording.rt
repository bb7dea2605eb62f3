//! The record of a server, where the disk is slow or full: it ends there and says why, and clients notice nothing.

use crate::sockets::disks::Room;
use crate::sockets::plays::Step::*;
use crate::sockets::plays::{Act, play_recorded};
use crate::sockets::running::{ANNA, PING, PONG};
use test_lobby::{ANNA_IS_IN, ANNA_LOGS_IN};

static PINGS: [Act; 2] = [
    Act {
        times: 1,
        steps: &[
            Enters(ANNA),
            Sends(ANNA, ANNA_LOGS_IN),
            Reads(ANNA, ANNA_IS_IN),
        ],
    },
    Act {
        times: 100,
        steps: &[Sends(ANNA, PING), Reads(ANNA, PONG)],
    },
];

#[test]
fn a_record_ends_with_its_server(rt: HostRuntime) {
    play_recorded(&rt, rt, Room::All, &PINGS, b"end stop\n");
}

/// The disk takes 300 bytes, which end in mid-line, and fails. The spare file leaves room for the last line.
#[test]
fn a_record_ends_where_the_disk_is_full(rt: HostRuntime) {
    play_recorded(&rt, rt, Room::AllBut(300), &PINGS, b"end disk\n");
}

static MANY_PINGS: [Act; 3] = [
    Act {
        times: 1,
        steps: &[Enters(ANNA)],
    },
    Act {
        times: 20,
        steps: &[
            SendsOften(ANNA, PING, 10_000),
            ReadsOften(ANNA, PONG, 10_000),
        ],
    },
    Act {
        times: 1,
        steps: &[DiskGoesOn],
    },
];

/// More events than may wait come while the disk takes nothing, and each line is answered meanwhile.
#[test]
fn no_worker_waits_for_the_disk(rt: HostRuntime) {
    play_recorded(&rt, rt, Room::AllLater, &MANY_PINGS, b"end full\n");
}
