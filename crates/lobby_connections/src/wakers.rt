//! How the workers of a server are woken, and what each of them shows the others.
//!
//! A worker that waits is woken by the system. One that is at work is only called: it looks before it waits.

ghost use Rattle.std.specs.Prelude.{◌≡◌, ◌⊎◌, ◌<◌, ◌≤◌, ◌∷◌, ◌++◌, [], ℕ, true};
ghost use Rattle.std.specs.List.{Contains};
ghost use Rattle.lobby_post.specs.Mask.{has_home};
ghost use Rattle.lobby_connections.specs.Rung.{worker_count};

use crate::poll_timeout::PollTimeout;
use http_server::Log;
use lobby_machine::Wakes;
use mio::Waker;
use std::alloc::{AllocError, Global};
use std::marker::Model;
use std::sync::atomic::{AtomicBool, AtomicU64, Ordering};

/// The most workers.
const WORKERS: usize = 64;

/// The worker is at work, and will look before it waits.
const AT_WORK: u64 = 0;

/// It waits, or is about to.
const WAITS: u64 = 1;

/// It was called since it last looked.
const CALLED: u64 = 2;

/// What a worker shows the others, and what ends its wait.
#[derive(Drop)]
struct Sign {
    waker: Waker,
    state: AtomicU64,
    // whether it told much in its last round
    tells: AtomicBool,
}

impl Sign {
    /// The sign of a worker that was not called yet.
    fn new(waker: Waker) -> Sign {
        Sign {
            waker,
            state: AtomicU64::new(AT_WORK),
            tells: AtomicBool::new(false),
        }
    }

    /// Calls the worker, and ends its wait where it waits.
    fn call(&self) {
        if self.state.swap(CALLED, Ordering::SeqCst) == WAITS {
            let _ = self.waker.wake();
        }
    }

    /// Shows that the worker waits. False where it was called since it last looked: then it shows nothing.
    fn begin_wait(&self) -> bool {
        self.state
            .compare_exchange(AT_WORK, WAITS, Ordering::SeqCst, Ordering::SeqCst)
            .is_ok()
    }

    /// Shows that the worker is at work. Whether it was called since it last looked.
    fn end_wait(&self) -> bool {
        self.state.swap(AT_WORK, Ordering::SeqCst) == CALLED
    }

    /// Whether the worker is at work, and told much in its last round.
    fn is_telling(&self) -> bool {
        self.tells.load(Ordering::SeqCst) && self.state.load(Ordering::SeqCst) != WAITS
    }
}

/// Whom a worker woke, which only proofs read.
#[derive(Drop)]
pub struct Rung {
    workers: Log<usize, ()>,
}

impl Model for Rung {
    ghost use Rattle.std.specs.Prelude.{ℕ, List};
    ghost use Rattle.lobby_connections.specs.Gathered.{gathered};

    ghost Value = { List ℕ };

    ghost view = { λ r. gathered r.workers.items };
}

impl Rung {
    /// Nobody.
    pub(crate) fn new() -> Rung
        ensures { result ≡ [] }
    {
        Rung {
            workers: Log::new(),
        }
    }

    /// One more.
    fn note(&mut self, worker: usize)
        ensures { self.new ≡ self.old ++ worker ∷ [] }
    {
        self.workers = self.workers.and(&worker, &());
    }
}

/// Calls a worker, and notes it.
fn ring(sign: &Sign, worker: usize, rung: &mut Rung)
    ensures { rung.new ≡ rung.old ++ worker ∷ [] }
{
    sign.call();
    rung.note(worker);
}

/// Calls a worker if it is among these, and not the one that does so.
fn ring_one(sign: &Sign, worker: usize, waking: u8, wakes: Wakes, rung: &mut Rung)
    ensures kept { (other : ℕ) → Contains rung.old other → Contains rung.new other }
    ensures rung { worker < 64 → (worker ≡ waking → ⊥) → has_home wakes worker ≡ true → Contains rung.new worker }
{
    if worker < WORKERS && worker as u8 != waking && wakes.has(worker as u8) {
        ring(sign, worker, rung);
    }
}

/// How the workers of a server are woken, by their numbers from 0.
#[derive(Drop)]
pub struct Wakers {
    signs: Vec<Sign>,
}

impl Wakers {
    /// No worker yet.
    pub fn new(alloc: Global) -> Wakers {
        Wakers {
            signs: Vec::new(alloc),
        }
    }

    /// The next worker joins: its waker. Fails only where memory is refused.
    pub fn add(&mut self, waker: Waker) -> Result<(), AllocError> {
        self.signs.push(Sign::new(waker))?;
        Ok(())
    }

    /// Wakes a worker.
    pub fn wake(&self, index: usize) {
        if let Some(sign) = self.signs.get(index) {
            sign.call();
        }
    }

    /// Wakes these workers, but for the one that does so, and says whom it woke.
    pub fn wake_others(&self, waking: u8, wakes: Wakes) -> Rung
        ensures { (worker : ℕ) → worker < worker_count self.now → worker < 64 → (worker ≡ waking → ⊥)
            → has_home wakes worker ≡ true → Contains result worker }
    {
        let mut rung = Rung::new();
        for (worker, sign) in self.signs.iter().enumerate() {
            ring_one(sign, worker, waking, wakes, &mut rung);
        }
        rung
    }

    /// Wakes all workers.
    pub fn wake_all(&self) {
        for sign in &self.signs {
            sign.call();
        }
    }

    /// A worker is about to wait, and shows it. How long it may: no longer than this, and not at all where it was
    /// called since it last looked.
    pub(crate) fn begin_wait(&self, worker: u8, timeout: PollTimeout) -> PollTimeout
        ensures { (result ≡ timeout) ⊎ (result ≡ PollTimeout.Zero) }
    {
        if timeout == PollTimeout::Zero {
            return timeout;
        }
        match self.signs.get(worker as usize) {
            Some(sign) if !sign.begin_wait() => PollTimeout::Zero,
            _ => timeout,
        }
    }

    /// A worker waited, and looks from now on. Whether it was called since it last did.
    pub(crate) fn end_wait(&self, worker: u8) -> bool {
        match self.signs.get(worker as usize) {
            Some(sign) => sign.end_wait(),
            None => false,
        }
    }

    /// A worker shows whether it told much in the round that ends.
    pub fn show_telling(&self, worker: u8, tells: bool) {
        if let Some(sign) = self.signs.get(worker as usize) {
            sign.tells.store(tells, Ordering::SeqCst);
        }
    }

    /// How many workers tell much, this one among them: 1 to 64.
    pub fn tellers(&self, worker: u8) -> u64
        ensures { (1 ≤ result) × (result ≤ 64) }
    {
        let mut tellers: u64 = 1;
        for (other, sign) in self.signs.iter().enumerate() {
            if other != worker as usize && sign.is_telling() {
                tellers = tellers.saturating_add(1);
            }
        }
        tellers.clamp(1, 64)
    }
}
