//! A gate at which tests look at the workers of a server, and hold them up.

use crate::sockets::clients::LOOKS;
use crate::sockets::running::PONG;
use lobby_workers::{Gate, Made, Pass};
use std::sync::atomic::{AtomicBool, AtomicU8, AtomicU64, Ordering};
use std::thread;
use std::time::{Clock, Duration};
use test_lobby::GREETING;

/// Whether a flag is set, within so many looks.
pub fn is_set_soon<C: Clock>(clock: &C, flag: &AtomicBool) -> bool {
    for _ in 0..LOOKS {
        if flag.load(Ordering::SeqCst) {
            return true;
        }
        thread::sleep(clock, Duration::from_millis(1));
    }
    false
}

/// Where a gate keeps workers, or the server.
#[derive(Clone, Copy)]
pub enum Hold {
    /// Nowhere.
    Open,
    /// The server before it starts, until it may go on.
    Start,
    /// Each of two workers, once the gate is shut, at its next take, until the other comes there too.
    Takes,
    /// Worker 0 where it has written an answer to PING, until it may go on.
    Write,
    /// Worker 0 where it has written an answer to PING, until it may go on, and then behind the first turn that told
    /// much, until it may go on again.
    Crowd,
    /// Worker 1, once the gate is shut, where it was woken and before it looks into its inbox, until it may go on.
    Wake,
}

/// So many bytes are much: more than any turn tells of which a play does not say that it does.
const MUCH: u64 = 20_000;

/// A gate that keeps workers, and sees who greets, who is woken and what is told.
#[derive(Drop)]
pub struct Watch {
    clock: HostRuntime,
    hold: Hold,
    is_shut: AtomicBool,
    // who is kept came, or worker 0 did
    is_there: AtomicBool,
    // it may go on, or worker 1 came
    may_go: AtomicBool,
    is_missed: AtomicBool,
    // worker 1 was woken
    is_woken: AtomicBool,
    greetings: AtomicU64,
    last_greeter: AtomicU8,
    // a turn that told much is kept, or was
    is_turn_there: AtomicBool,
    // it may go on
    may_turn_go: AtomicBool,
    // how many bytes turns told behind it
    told: AtomicU64,
    // the same when the last PING was answered behind it; 2^64 - 1 before
    told_before: AtomicU64,
}

impl Watch {
    pub fn new(clock: HostRuntime, hold: Hold) -> Watch {
        Watch {
            clock,
            hold,
            is_shut: AtomicBool::new(false),
            is_there: AtomicBool::new(false),
            may_go: AtomicBool::new(false),
            is_missed: AtomicBool::new(false),
            is_woken: AtomicBool::new(false),
            greetings: AtomicU64::new(0),
            last_greeter: AtomicU8::new(0),
            is_turn_there: AtomicBool::new(false),
            may_turn_go: AtomicBool::new(false),
            told: AtomicU64::new(0),
            told_before: AtomicU64::new(u64::MAX),
        }
    }

    /// A server is about to start.
    pub fn before_start(&self) {
        if matches!(self.hold, Hold::Start) {
            self.keep(&self.is_there, &self.may_go);
        }
    }

    /// Keeps workers from now on, and answers that it does.
    pub fn shut(&self) -> bool {
        self.is_shut.store(true, Ordering::SeqCst);
        true
    }

    /// Whether who is kept comes there, within so many looks.
    pub fn is_reached(&self) -> bool {
        is_set_soon(&self.clock, &self.is_there)
    }

    /// Lets who is kept go on. Whether it was kept until now.
    pub fn lets_go(&self) -> bool {
        self.may_go.store(true, Ordering::SeqCst);
        !self.is_missed.load(Ordering::SeqCst)
    }

    /// Whether a turn told much and is kept, within so many looks.
    pub fn is_turn_kept(&self) -> bool {
        is_set_soon(&self.clock, &self.is_turn_there)
    }

    /// Lets the worker go on that was kept behind its turn. Whether it was kept until now.
    pub fn lets_turn_go(&self) -> bool {
        self.may_turn_go.store(true, Ordering::SeqCst);
        !self.is_missed.load(Ordering::SeqCst)
    }

    /// Whether a PING was answered behind the turn that was kept, and turns told so many bytes at most before.
    pub fn has_told_at_most(&self, most: u64) -> bool {
        self.told_before.load(Ordering::SeqCst) <= most
    }

    /// Whether each worker found the other there.
    pub fn did_meet(&self) -> bool {
        self.is_there.load(Ordering::SeqCst)
            && self.may_go.load(Ordering::SeqCst)
            && !self.is_missed.load(Ordering::SeqCst)
    }

    /// Whether worker 1 was ever woken.
    pub fn was_woken(&self) -> bool {
        self.is_woken.load(Ordering::SeqCst)
    }

    /// Whether the last greeting is this worker's, once there were so many. False where there are not, within so many
    /// looks.
    pub fn is_greeter(&self, greetings: u64, worker: u8) -> bool {
        for _ in 0..LOOKS {
            if self.greetings.load(Ordering::SeqCst) == greetings {
                return self.last_greeter.load(Ordering::SeqCst) == worker;
            }
            thread::sleep(&self.clock, Duration::from_millis(1));
        }
        false
    }

    /// At its first call, says that someone came, and looks for what it waits for.
    fn keep(&self, own: &AtomicBool, other: &AtomicBool) {
        if !own.swap(true, Ordering::SeqCst) && !is_set_soon(&self.clock, other) {
            self.is_missed.store(true, Ordering::SeqCst);
        }
    }
}

impl Gate for Watch {
    ghost use Rattle.std.specs.Prelude.{false, ⊤};

    ghost wants = { λ gate. false };

    ghost handed = { λ gate made. ⊤ };

    fn before_take(&self, worker: u8) {
        if !matches!(self.hold, Hold::Takes) || !self.is_shut.load(Ordering::SeqCst) {
            return;
        }
        if worker == 0 {
            self.keep(&self.is_there, &self.may_go);
        } else {
            self.keep(&self.may_go, &self.is_there);
        }
    }

    fn wants_events(&self) -> bool {
        false
    }

    fn made(&self, made: Made) -> Pass {
        made.pass()
    }

    fn after_write(&self, worker: u8, bytes: &[u8]) {
        if bytes == GREETING {
            self.last_greeter.store(worker, Ordering::SeqCst);
            self.greetings.fetch_add(1, Ordering::SeqCst);
        }
        if bytes != PONG || worker != 0 {
            return;
        }
        if matches!(self.hold, Hold::Write | Hold::Crowd) {
            self.keep(&self.is_there, &self.may_go);
        }
        if self.is_turn_there.load(Ordering::SeqCst) {
            let told = self.told.load(Ordering::SeqCst);
            self.told_before.store(told, Ordering::SeqCst);
        }
    }

    fn after_turn(&self, _worker: u8, told: u64) {
        if !matches!(self.hold, Hold::Crowd) || !self.may_go.load(Ordering::SeqCst) {
            return;
        }
        if self.is_turn_there.load(Ordering::SeqCst) {
            self.told.fetch_add(told, Ordering::SeqCst);
        } else if told >= MUCH {
            self.keep(&self.is_turn_there, &self.may_turn_go);
        }
    }

    fn woken(&self, worker: u8) {
        if worker != 1 {
            return;
        }
        self.is_woken.store(true, Ordering::SeqCst);
        if matches!(self.hold, Hold::Wake) && self.is_shut.load(Ordering::SeqCst) {
            self.keep(&self.is_there, &self.may_go);
        }
    }
}
