//! The sleep of a thread that writes what others put.

use std::sync::Wait;
use std::sync::atomic::{AtomicBool, AtomicU64, Ordering};
use std::time::Duration;

/// What `shown` says while the thread is awake.
const AWAKE: u64 = 0;

/// What it says where the thread may be asleep.
const ASLEEP: u64 = 1;

/// What it says where the thread may sleep while more gathers.
const GATHERS: u64 = 2;

/// Whether a thread that writes sleeps, and whether nothing more will be put.
///
/// The thread shows that it is about to sleep, and looks once more; who puts looks whether it is shown behind what it
/// put. So nobody sleeps beside what was put.
pub struct WriterSleep {
    shown: AtomicU64,
    is_over: AtomicBool,
}

impl Drop for WriterSleep {
    /// Who lets one go calls this, and need not know what it is made of.
    fn drop(self) {
        let WriterSleep { shown, is_over } = self;
        drop(shown);
        drop(is_over);
    }
}

impl WriterSleep {
    /// The thread is awake.
    pub fn new() -> WriterSleep {
        WriterSleep {
            shown: AtomicU64::new(AWAKE),
            is_over: AtomicBool::new(false),
        }
    }

    /// Whether what is put now has to wake the thread.
    pub fn is_asleep(&self) -> bool {
        self.shown.load(Ordering::SeqCst) == ASLEEP
    }

    /// Whether the thread lets more gather, and is woken where much waits.
    pub fn gathers(&self) -> bool {
        self.shown.load(Ordering::SeqCst) == GATHERS
    }

    /// Wakes the thread, where it may be asleep.
    pub fn wake(&self) {
        if self.shown.swap(AWAKE, Ordering::SeqCst) != AWAKE {
            self.shown.wake_one();
        }
    }

    /// Nothing more will be put.
    pub fn end(&self) {
        self.is_over.store(true, Ordering::SeqCst);
        self.wake();
    }

    /// Whether nothing more will be put.
    pub fn is_over(&self) -> bool {
        self.is_over.load(Ordering::SeqCst)
    }

    /// Shows that the thread is about to sleep.
    pub fn show(&self) {
        self.shown.store(ASLEEP, Ordering::SeqCst);
    }

    /// Sleeps until the thread is woken, unless it was since it showed that it is about to.
    pub fn sleep<R: Wait>(&self, rt: &R) {
        self.shown.park(rt, ASLEEP as u32);
    }

    /// Shows that the thread lets more gather. Behind it, it looks whether much waits already.
    pub fn show_gathering(&self) {
        self.shown.store(GATHERS, Ordering::SeqCst);
    }

    /// Sleeps for so many milliseconds, until the thread is woken or nothing more will be put.
    pub fn gather<R: Wait>(&self, rt: &R, milliseconds: u64) {
        if !self.is_over() {
            let most = Duration::from_millis(milliseconds);
            self.shown.park_timeout(rt, GATHERS as u32, most);
        }
    }
}
