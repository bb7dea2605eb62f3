//! The ways to refuse memory, step by step until it suffices.

use crate::refusing::counted::{self, Counted};
use crate::refusing::hog::{self, Hog};
use std::alloc::{AllocError, Global};

/// How many pieces of memory may be taken away where it is to be scarce.
const MOST_PIECES: usize = 4_096;

/// A way to refuse memory.
#[derive(Drop)]
pub(crate) enum Refuser {
    /// None is refused.
    Never,
    /// There is less than a call wants: a little more at each step.
    Scarce(Hog),
    /// One growth of a call is refused: a later one at each step.
    Counted(Counted),
}

impl Refuser {
    /// There is less than a call wants.
    pub(crate) fn scarce(alloc: Global) -> Result<Refuser, AllocError> {
        Ok(Refuser::Scarce(Hog::new(alloc, MOST_PIECES)?))
    }

    /// One growth of a call is refused.
    pub(crate) fn counted(alloc: Global) -> Refuser {
        Refuser::Counted(Counted::new(alloc))
    }

    /// The last step, at which memory is not refused.
    pub(crate) fn last_step(&self) -> usize {
        match self {
            Refuser::Never => 0,
            Refuser::Scarce(_) => hog::MOST_STEPS,
            Refuser::Counted(_) => counted::MOST_STEPS,
        }
    }

    /// Whether each step refuses a growth of its own; where memory is scarce, many steps refuse the same one.
    pub(crate) fn is_counted(&self) -> bool {
        matches!(self, Refuser::Counted(_))
    }

    /// From here on memory is refused as at this step.
    pub(crate) fn begin(&mut self, step: usize) {
        match self {
            Refuser::Never => {}
            Refuser::Scarce(hog) => hog.leave(step),
            Refuser::Counted(counted) => counted.begin(step),
        }
    }

    /// Memory is not refused any more, or, where it is scarce, much less. Says whether it is known that it was refused:
    /// one who counts knows it, also of a call that succeeded without.
    pub(crate) fn end(&mut self) -> bool {
        match self {
            Refuser::Never => false,
            Refuser::Scarce(hog) => {
                hog.ease();
                false
            }
            Refuser::Counted(counted) => counted.end(),
        }
    }

    /// All memory is there again.
    pub(crate) fn release(&mut self) {
        if let Refuser::Scarce(hog) = self {
            hog.release();
        }
    }
}
