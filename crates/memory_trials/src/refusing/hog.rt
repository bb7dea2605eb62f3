//! Memory that is taken so that others lack it.

use std::alloc::{AllocError, Global};

/// The size of the large pieces. The C library gets larger ones elsewhere.
const BLOCK: usize = 65_536;

/// The most pieces of one size. Where memory is not limited, they take less than 200 MB.
const MOST_PIECES: usize = 1_024;

/// The steps in which what is left grows at first, in bytes: those in which sizes differ for the C library.
const STEP: usize = 16;

/// How often what is left grows by one step.
const EVEN_STEPS: usize = 256;

/// How often what is left may grow. The last time it is all there is.
pub(crate) const MOST_STEPS: usize = 316;

/// Takes all memory but a little.
#[derive(Drop)]
pub(crate) struct Hog {
    alloc: Global,
    pieces: Vec<Vec<u8>>,
    // what a large piece is but for what is left
    spare: Option<Vec<u8>>,
}

impl Hog {
    /// One that has taken nothing, and has places for so many pieces.
    pub(crate) fn new(alloc: Global, places: usize) -> Result<Hog, AllocError> {
        Ok(Hog {
            alloc,
            pieces: Vec::with_capacity(alloc, places)?,
            spare: None,
        })
    }

    /// Takes a piece of this size, and says whether it got one and has places for more.
    fn take(&mut self, size: usize) -> bool {
        if self.pieces.len() >= self.pieces.capacity() {
            return false;
        }
        match Vec::with_capacity(self.alloc, size) {
            Ok(piece) => self.pieces.push(piece).is_ok(),
            Err(_) => false,
        }
    }

    /// Takes all pieces of this size that there are.
    fn take_all(&mut self, size: usize) {
        for _ in 0..MOST_PIECES {
            if !self.take(size) {
                return;
            }
        }
    }

    /// Takes all memory, large pieces first, and then smaller and smaller ones.
    fn fill(&mut self) {
        let mut size = BLOCK;
        for _ in 0..6 {
            self.take_all(size);
            size /= 2;
        }
        for _ in 0..=BLOCK / 32 / STEP {
            self.take_all(size);
            size = size.saturating_sub(STEP);
        }
    }

    /// Takes all memory but for one large piece.
    fn fill_but_one(&mut self) {
        self.release();
        self.fill();
        if !self.pieces.is_empty() {
            drop(self.pieces.swap_remove(0));
        }
    }

    /// Takes of the one large piece what is not to be left.
    fn take_but(&mut self, left: usize) {
        self.spare = Vec::with_capacity(self.alloc, BLOCK.saturating_sub(left)).ok();
    }

    /// Takes all memory but for so many steps.
    pub(crate) fn leave(&mut self, steps: usize) {
        if steps >= MOST_STEPS {
            self.release();
            return;
        }
        let more = steps.saturating_sub(EVEN_STEPS);
        let left = (steps + more * more) * STEP;
        if !self.pieces.is_empty() {
            self.take_but(left);
        }
        if self.spare.is_none() {
            self.fill_but_one();
            self.take_but(left);
        }
    }

    /// Gives the one large piece back.
    pub(crate) fn ease(&mut self) {
        self.spare = None;
    }

    /// Gives all back.
    pub(crate) fn release(&mut self) {
        self.spare = None;
        self.pieces.clear();
    }
}
