//! A count of growths by the library checks/refuse_allocation.c, which refuses one of them, or says how many there were
//! and what is kept. It is told by requests that are refused without it too.

use std::alloc::Global;

/// A request of so many bytes and k more has the k-th growth behind it refused, once.
const BEGIN: usize = 1 << 60;

/// A request of so many bytes ends that. It is granted where a growth was refused.
const END: usize = 1 << 59;

/// From a request of so many bytes on what is asked for and kept is counted.
const MARK: usize = 1 << 58;

/// At a request of so many bytes it is told.
const TELL: usize = 1 << 57;

/// More growths than a call makes.
pub(crate) const MOST_STEPS: usize = 4_096;

/// Has one growth refused, and then the next one, counted from the same place.
#[derive(Drop)]
pub(crate) struct Counted {
    alloc: Global,
    // what was asked for last, which stays until then, so that the compiler leaves no request out
    granted: Option<Vec<u8>>,
}

impl Counted {
    pub(crate) fn new(alloc: Global) -> Counted {
        Counted {
            alloc,
            granted: None,
        }
    }

    fn request(&mut self, size: usize) {
        self.granted = Vec::with_capacity(self.alloc, size).ok();
    }

    /// Has the growth refused that has so many before it from here on.
    pub(crate) fn begin(&mut self, before: usize) {
        self.request(BEGIN.saturating_add(before).saturating_add(1));
    }

    /// Has none refused, and says whether one was.
    pub(crate) fn end(&mut self) -> bool {
        self.request(END);
        self.granted.is_some()
    }

    /// From here on what is asked for and kept is counted.
    pub(crate) fn mark(&mut self) {
        self.request(MARK);
    }

    /// Has it told on standard error.
    pub(crate) fn tell(&mut self) {
        self.request(TELL);
    }
}
