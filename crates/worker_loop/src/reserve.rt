//! The server's reserve of memory.

use crate::step_queue::StepQueue;
use std::alloc::{AllocError, Global};
use std::sync::atomic::{AtomicBool, AtomicU64, Ordering};

/// The bytes of a block. The C library gives a larger one a mapping of its own, and once that was let go returns less
/// to the system.
pub const BLOCK: usize = 122_880;

/// How many blocks there are: 15 MiB in all.
pub const BLOCKS: usize = 128;

/// So many bytes: where a block of 64 KiB or more is let go, the C library gathers what else was, and returns to the
/// system what it can.
const GATHERED: usize = 98_304;

/// Memory that is kept for what others are told of one who goes while there is no more. A worker lets it go, shuts the
/// client, and takes it anew before others ask for memory. Nothing is ever written to it.
pub struct Reserve {
    alloc: Global,
    blocks: StepQueue<Vec<u8>>,
    /// How many workers let it go and have not tried to take it anew.
    users: AtomicU64,
    /// Whether operators were told that it is gone.
    is_told_gone: AtomicBool,
}

impl Drop for Reserve {
    /// Who lets one go calls this, and need not know what it is made of.
    fn drop(self) {
        let Reserve {
            alloc: _,
            blocks,
            users,
            is_told_gone,
        } = self;
        drop(blocks);
        drop(users);
        drop(is_told_gone);
    }
}

impl Reserve {
    /// The whole reserve. Fails only where memory is refused.
    pub fn new(alloc: Global) -> Result<Reserve, AllocError> {
        let reserve = Reserve {
            alloc,
            blocks: StepQueue::new(alloc, BLOCKS)?,
            users: AtomicU64::new(0),
            is_told_gone: AtomicBool::new(false),
        };
        if reserve.fill() {
            return Ok(reserve);
        }
        drop(reserve);
        Err(AllocError)
    }

    /// Takes memory for the blocks that are missing, until it is refused. Whether none is missing then.
    fn fill(&self) -> bool {
        for _ in 0..BLOCKS {
            if self.is_whole() {
                return true;
            }
            let Ok(block) = Vec::with_capacity(self.alloc, BLOCK) else {
                return false;
            };
            if let Err(block) = self.blocks.put(block) {
                drop(block);
            }
        }
        self.is_whole()
    }

    /// Whether no block is missing.
    pub fn is_whole(&self) -> bool {
        self.blocks.is_full()
    }

    /// Lets the blocks go that are there.
    fn empty(&self) {
        for _ in 0..BLOCKS {
            match self.blocks.take() {
                Some(block) => drop(block),
                None => return,
            }
        }
    }

    /// Lets the blocks go, for what is done next.
    pub fn give_up(&self) {
        self.users.fetch_add(1, Ordering::SeqCst);
        self.empty();
    }

    /// Behind `give_up`: takes the blocks anew. Whether it is news that memory is refused to them.
    pub fn take_back(&self) -> bool {
        self.return_freed();
        let is_whole = self.fill();
        self.users.fetch_sub(1, Ordering::SeqCst);
        !is_whole && !self.is_told_gone.swap(true, Ordering::SeqCst)
    }

    /// Takes all blocks anew where some are missing, unless a worker has just let them go. Whether none is missing
    /// then. So none of them keeps what was let go below it from the system.
    pub fn renew(&self) -> bool {
        if self.is_whole() {
            return true;
        }
        if self.users.load(Ordering::SeqCst) > 0 {
            return false;
        }
        self.empty();
        self.return_freed();
        self.fill()
    }

    /// Somebody has gone: has the C library return to the system what was kept for it.
    pub fn return_freed(&self) {
        let block: Result<Vec<u8>, AllocError> = Vec::with_capacity(self.alloc, GATHERED);
        drop(block);
    }

    /// Whether it is news that the reserve, which is whole, is so.
    pub fn is_back(&self) -> bool {
        self.is_told_gone.load(Ordering::SeqCst) && self.is_told_gone.swap(false, Ordering::SeqCst)
    }
}
