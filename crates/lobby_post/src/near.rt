//! Where clients likely lie.

use crate::key::{ClientKey, NOWHERE};
use std::alloc::{AllocError, Global};

/// How many slots are remembered. A lobby has at most 10,000 clients, whose numbers are given one after
/// another: so with more places than that hardly two of them share one. It is a power of two, so that no
/// division is made, and the places take 128 KiB.
const COUNT: usize = 16_384;

/// The slots to which clients were put, by what is left of their numbers divided by `COUNT`; of those
/// of which the same is left, that of the last. It saves searches, and no contract speaks of it: who is
/// found in a slot is asked for its number.
#[derive(Drop)]
pub struct Near {
    slots: Vec<usize>,
}

impl Near {
    /// No slot is remembered. It takes no memory yet.
    pub fn new(alloc: Global) -> Near {
        Near {
            slots: Vec::new(alloc),
        }
    }

    /// Takes the memory that it needs, if it has not. Where it is refused, nothing is remembered.
    pub fn make_ready(&mut self) -> Result<(), AllocError> {
        if self.slots.is_empty() {
            self.slots.resize(COUNT, NOWHERE)?;
        }
        Ok(())
    }

    /// The slot in which a client likely is: that of its key, where it knows one.
    pub fn likely(&self, key: ClientKey) -> usize {
        if key.slot != NOWHERE {
            return key.slot;
        }
        let remembered = self.slots.get(key.number as usize % COUNT);
        remembered.copied().unwrap_or(NOWHERE)
    }

    /// A client was put to a slot.
    pub fn remember(&mut self, client: u64, slot: usize) {
        if let Some(remembered) = self.slots.get_mut(client as usize % COUNT) {
            *remembered = slot;
        }
    }
}
