//! How a worker waits until the lobby was given back. No contract says that it wakes.

use std::sync::Wait;
use std::sync::atomic::{AtomicU64, Ordering};
use std::thread;

/// So often a worker that finds the lobby taken lets others run before it sleeps: most holds are over
/// by then, and a sleep costs several times such a hold.
const YIELDS: u64 = 4;

/// What the event count shows where a give has nobody to wake.
const NOBODY: u64 = 0;

/// What it shows where somebody may be asleep.
const SLEEPERS: u64 = 1;

/// Wakes one of those who sleep, at a give.
///
/// Who is about to sleep shows it here, looks for the lobby once more, and sleeps while it is still
/// shown. A give puts the lobby back, then shows that nobody sleeps, and wakes one where somebody
/// might. Who wakes shows it again, for those who sleep on. So while somebody sleeps, either that is
/// shown or one who was woken is on its way to show it; and a give that meets no sleeper makes no
/// call of the system, also while one who was woken has not come to run.
#[derive(Drop)]
pub struct EventCount {
    shows: AtomicU64,
}

impl EventCount {
    /// Nobody sleeps.
    pub fn new() -> EventCount {
        EventCount {
            shows: AtomicU64::new(NOBODY),
        }
    }

    /// Before a look for the lobby, after so many in vain: shows a sleeper where a further one in
    /// vain is followed by sleep.
    pub fn announce(&self, looks: u64) {
        if looks >= YIELDS {
            self.shows.store(SLEEPERS, Ordering::SeqCst);
        }
    }

    /// After a look in vain: waits a little, or, after so many looks before it, sleeps until a give.
    /// Gives how many looks were in vain since the last sleep.
    pub fn wait<R: Wait>(&self, rt: &R, looks: u64) -> u64 {
        if looks < YIELDS {
            thread::yield_now();
            return looks + 1;
        }
        self.shows.park(rt, SLEEPERS as u32);
        self.shows.store(SLEEPERS, Ordering::SeqCst);
        0
    }

    /// Notifies of a give: one of those who sleep wakes.
    pub fn notify(&self) {
        if self.shows.swap(NOBODY, Ordering::SeqCst) == SLEEPERS {
            self.shows.wake_one();
        }
    }
}
