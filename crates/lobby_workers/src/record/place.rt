//! Where the lines of a worker wait.

use crate::record::lines::Lines;
use std::alloc::{AllocError, Global};
use worker_loop::StepQueue;

/// Where the lines of a worker wait to be taken, by itself or by the thread that writes. Neither waits for the other:
/// while that thread takes lines out of one of the two queues, the worker lays its lines into the other one. Lines lie
/// in one of them at most, so what is taken first is written first.
#[derive(Drop)]
pub(crate) struct Place {
    usual: StepQueue<Lines>,
    aside: StepQueue<Lines>,
}

impl Place {
    /// An empty place. Fails only where memory is refused.
    pub(crate) fn new(alloc: Global) -> Result<Place, AllocError> {
        let usual = StepQueue::new(alloc, 1)?;
        let aside = StepQueue::new(alloc, 1)?;
        Ok(Place { usual, aside })
    }

    /// Takes the lines that lie there. None where there are none, or the other thread is taking them.
    pub(crate) fn take(&self) -> Option<Lines> {
        match self.usual.take() {
            Some(lines) => Some(lines),
            None => self.aside.take(),
        }
    }

    /// The worker lays its lines there, behind a take of its own. They come back where neither queue has room.
    pub(crate) fn lay(&self, lines: Lines) -> Result<(), Lines> {
        match self.usual.put(lines) {
            Ok(()) => Ok(()),
            Err(lines) => self.aside.put(lines),
        }
    }
}
