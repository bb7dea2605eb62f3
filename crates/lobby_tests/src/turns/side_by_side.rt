//! Two workers in threads of their own, each with a client of its own over a link in memory. Neither
//! holds the other up, be it before the desk or in a read or a write of its link.

ghost use Rattle.std.specs.Prelude.{◌≡◌};

use crate::turns::alone::GREETING_AND_PONG;
use crate::turns::desks::open_for_two;
use crate::turns::serving::serve_client;
use crate::verdict::same;
use lobby_lock::{Desk, Made, Pass};
use lobby_turns::{Gate, Got, Link, Sent, TurnState};
use std::alloc::{AllocError, Global};
use std::process::Abort;
use std::sync::Wait;
use std::sync::atomic::{AtomicBool, Ordering};
use std::thread::{self, Threads};
use std::time::Duration;
use test_lobby::MemoryLink;

/// So often a worker looks for the other, with a sleep of a millisecond after each look.
const LOOKS: u32 = 10_000;

/// Where the first worker stops.
#[derive(Clone, Copy)]
enum Stop {
    // before it first takes the lobby, until the second worker comes there too
    Desk,
    // in its link's first read, until the second client's answer was written
    Read,
    // in its link's first write, until then
    Write,
}

/// The gate of two workers. The second stops before it first takes the lobby, until the first stands
/// at its own stop.
#[derive(Drop)]
struct Meeting {
    clock: HostRuntime,
    stop: Stop,
    first_came: AtomicBool,
    second_came: AtomicBool,
    is_answered: AtomicBool,
    // somebody looked in vain
    is_missed: AtomicBool,
}

impl Meeting {
    fn new(clock: HostRuntime, stop: Stop) -> Meeting {
        Meeting {
            clock,
            stop,
            first_came: AtomicBool::new(false),
            second_came: AtomicBool::new(false),
            is_answered: AtomicBool::new(false),
            is_missed: AtomicBool::new(false),
        }
    }

    /// At its first call, says that a worker came, and looks for what it waits for.
    fn come(&self, own: &AtomicBool, other: &AtomicBool) {
        if own.swap(true, Ordering::SeqCst) {
            return;
        }
        for _ in 0..LOOKS {
            if other.load(Ordering::SeqCst) {
                return;
            }
            thread::sleep(&self.clock, Duration::from_millis(1));
        }
        self.is_missed.store(true, Ordering::SeqCst);
    }

    fn did_meet(&self) -> bool {
        self.first_came.load(Ordering::SeqCst)
            && self.second_came.load(Ordering::SeqCst)
            && self.is_answered.load(Ordering::SeqCst)
            && !self.is_missed.load(Ordering::SeqCst)
    }
}

impl Gate for Meeting {
    ghost use Rattle.std.specs.Prelude.{false, ⊤};

    ghost wants = { λ gate. false };

    ghost handed = { λ gate made. ⊤ };

    fn before_take(&self, worker: u8) {
        if worker != 0 {
            self.come(&self.second_came, &self.first_came);
        } else if matches!(self.stop, Stop::Desk) {
            self.come(&self.first_came, &self.second_came);
        }
    }

    fn wants_events(&self) -> bool {
        false
    }

    fn made(&self, made: Made) -> Pass {
        made.pass()
    }

    fn after_write(&self, worker: u8, bytes: &[u8]) {
        if worker != 0 && bytes.ends_with(b"PONG\n") {
            self.is_answered.store(true, Ordering::SeqCst);
        }
    }

    fn woken(&self, worker: u8) {
        let _ = worker;
    }
}

/// The first worker's link.
#[derive(Drop)]
struct StoppingLink<'a> {
    inner: MemoryLink,
    meeting: &'a Meeting,
}

impl StoppingLink<'_> {
    /// The first worker's stop is here.
    fn stop(&self) {
        self.meeting
            .come(&self.meeting.first_came, &self.meeting.is_answered);
    }
}

impl Link for StoppingLink<'_> {
    ghost wire = { λ l. ⟦<MemoryLink as Link>⟧.wire l.inner };

    fn read(&mut self, into: &mut [u8]) -> Got {
        if matches!(self.meeting.stop, Stop::Read) {
            self.stop();
        }
        self.inner.read(into)
    }

    fn write(&mut self, from: &[u8]) -> Sent {
        if matches!(self.meeting.stop, Stop::Write) {
            self.stop();
        }
        self.inner.write(from)
    }

    fn last_got(&self) -> Option<Got> {
        self.inner.last_got()
    }

    fn last_sent(&self) -> Option<Sent> {
        self.inner.last_sent()
    }

    fn fresh(&self) -> bool {
        self.inner.fresh()
    }
}

/// The link of a client that sends `PING`.
fn pinging(alloc: Global) -> Result<MemoryLink, AllocError> {
    let input = Vec::from_slice(alloc, b"PING\n")?;
    Ok(MemoryLink::new(alloc, input, 9, 100))
}

/// Serves a client over each of these links, each at its own worker in a thread of its own: what their turns came to.
fn serve_both<R: Threads + Wait + Sync>(
    rt: &R,
    alloc: Global,
    desk: &Desk,
    pass: Pass,
    other: Pass,
    first: &mut StoppingLink<'_>,
    second: &mut MemoryLink,
) -> (Option<TurnState>, Option<TurnState>)
    requires { (pass.desk ≡ desk.now) × (other.desk ≡ desk.now) }
{
    let gate = first.meeting;
    thread::join(
        rt,
        move || -> Option<TurnState>
            requires { pass.desk ≡ desk.now }
        { serve_client(rt, alloc, desk, pass, 0, first, gate) },
        move || -> Option<TurnState>
            requires { other.desk ≡ desk.now }
        { serve_client(rt, alloc, desk, other, 1, second, gate) },
    )
}

/// Serves two clients that each send `PING`, each in a thread of its own, and compares what they read.
fn check<R: Threads + Wait + Abort + Sync>(
    rt: &R,
    alloc: Global,
    first: &mut StoppingLink<'_>,
    second: &mut MemoryLink,
) {
    match open_for_two(rt, alloc) {
        Some((desk, pass, other)) => {
            let states = serve_both(rt, alloc, &desk, pass, other, first, second);
            drop(desk);
            same(rt, states, (Some(TurnState::Idle), Some(TurnState::Idle)));
        }
        None => assert!(rt; false, "no desk"),
    }
    assert!(rt;
        first.meeting.did_meet(),
        "each worker saw what it looked for"
    );
    same(rt, first.inner.output(), GREETING_AND_PONG);
    same(rt, second.output(), GREETING_AND_PONG);
}

/// As `check`, over the first worker's link and one that does not stop.
fn check_first<R: Threads + Wait + Abort + Sync>(
    rt: &R,
    alloc: Global,
    first: &mut StoppingLink<'_>,
) {
    match pinging(alloc) {
        Ok(second) => {
            let mut second = second;
            check(rt, alloc, first, &mut second);
            drop(second);
        }
        Err(AllocError) => assert!(rt; false, "no memory"),
    }
}

/// As `check`, where the first worker stops there.
fn check_stop<R: Threads + Wait + Abort + Sync>(rt: &R, clock: HostRuntime, stop: Stop) {
    let meeting = Meeting::new(clock, stop);
    match pinging(clock.alloc()) {
        Ok(inner) => {
            let mut first = StoppingLink {
                inner,
                meeting: &meeting,
            };
            check_first(rt, clock.alloc(), &mut first);
            drop(first);
        }
        Err(AllocError) => assert!(rt; false, "no memory"),
    }
    drop(meeting);
}

#[test]
fn two_workers_come_to_the_desk_at_once(rt: HostRuntime) {
    check_stop(&rt, rt, Stop::Desk);
}

#[test]
fn a_link_that_stops_in_a_read_holds_up_no_other_worker(rt: HostRuntime) {
    check_stop(&rt, rt, Stop::Read);
}

#[test]
fn a_link_that_stops_in_a_write_holds_up_no_other_worker(rt: HostRuntime) {
    check_stop(&rt, rt, Stop::Write);
}
