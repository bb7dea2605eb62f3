//! A queue whose steps need no handle to wait, and so never wait.

ghost use Rattle.std.specs.Prelude.{◌<◌};

use crossbeam_queue::RuledArrayQueue;
use crossbeam_queue::protocol::Free;
use std::alloc::{AllocError, Global};

/// How often a value is tried to be put while others are in the way: each time they are, one of them has got on.
const TRIES: usize = 64;

/// A queue for several threads that has room for so many values. What finds no place comes back at once.
pub struct StepQueue<T> {
    ring: RuledArrayQueue<T, (), Free>,
}

impl<T: Drop> Drop for StepQueue<T> {
    /// What waits in it is let go with it.
    fn drop(self) {
        let StepQueue { ring } = self;
        for _ in 0..ring.capacity() {
            let mut pass = ring.pass();
            if ring.try_pop_as::<Free>(&mut pass).is_none() {
                break;
            }
        }
        drop(ring);
    }
}

impl<T> StepQueue<T> {
    /// An empty queue. Fails only where memory is refused.
    pub fn new(alloc: Global, room: usize) -> Result<StepQueue<T>, AllocError>
        requires { 0 < room }
    {
        match RuledArrayQueue::ruled(alloc, room) {
            Ok((ring, _)) => Ok(StepQueue { ring }),
            Err(AllocError) => Err(AllocError),
        }
    }

    /// Puts a value behind the others. It comes back where there is no room, or others were in the way at each try.
    pub fn put(&self, value: T) -> Result<(), T> {
        let mut value = value;
        for _ in 0..TRIES {
            match self.try_put(value) {
                Ok(()) => return Ok(()),
                Err(back) => value = back,
            }
            if self.is_full() {
                break;
            }
        }
        Err(value)
    }

    /// Tries to put a value once.
    fn try_put(&self, value: T) -> Result<(), T> {
        let mut pass = self.ring.pass();
        self.ring.try_push_as::<Free>(&mut pass, value)
    }

    /// Whether there is no room.
    pub fn is_full(&self) -> bool {
        let mut pass = self.ring.pass();
        self.ring.is_full_as::<Free>(&mut pass)
    }

    /// Takes the first value. None where there is none, or another thread is in the way: it is putting one, or took it.
    pub fn take(&self) -> Option<T> {
        let mut pass = self.ring.pass();
        self.ring.try_pop_as::<Free>(&mut pass)
    }
}
