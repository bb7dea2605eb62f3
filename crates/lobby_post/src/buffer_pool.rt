//! The buffers that no outbox needs now.

ghost use Rattle.std.specs.Prelude.{◌≡◌, ◌≤◌, []};

use outbox::Outbox;
use std::alloc::{AllocError, Global};
use std::collections::VecDeque;

/// The room, in bytes, that a buffer may have to be kept once all in it is read: twice what a hold drains, so that
/// what came meanwhile lies in it too, and only a burst, as that of a login, makes a larger one.
const KEPT_ROOM: usize = 32_768;

/// The room, in bytes, of all buffers that are kept: 8,000 for each of 2,000 clients.
const KEPT_BYTES: usize = 16_000_000;

/// So often all that were lent come back between two looks at how many lay idle,
const CYCLES: usize = 3;

/// or so many buffers come back at least, where never all of them do.
const RETURNS: usize = 1_024;

/// So many that lay idle go at most with a buffer that comes back, so that nobody waits long for it.
const GOING: usize = 512;

/// The buffers that outboxes handed over once all in them was read. The one that came last is lent
/// first, since the processor still has it at hand: so the bytes that wait at one time lie close
/// together, however many clients there are. Those that lay idle while three times all that were lent
/// came back, or as many as there is room for, 1,024 at least, are let go, 512 at most with each buffer
/// that comes back: so of a burst that ended ten rounds ago what is used is left.
///
/// It keeps as many as it has room for and 16,000,000 bytes at most, and no contract speaks of them.
#[derive(Drop)]
pub struct BufferPool {
    /// In the order in which they came.
    buffers: VecDeque<Vec<u8>>,
    /// The room of all of them, in bytes.
    bytes: usize,
    /// How many are here when all that were lent are back.
    all: usize,
    /// How often all were back since the last look.
    cycles: usize,
    /// How many came back since the last look.
    returned: usize,
    /// The most that were here at one time since the last look.
    most: usize,
    /// The fewest that were here at one time since the last look.
    fewest: usize,
    /// How many of the first are to go, since so many lay idle between the last two looks.
    idle: usize,
}

impl BufferPool {
    /// No buffers.
    pub fn new(alloc: Global) -> BufferPool {
        BufferPool {
            buffers: VecDeque::new(alloc),
            bytes: 0,
            all: 0,
            cycles: 0,
            returned: 0,
            most: 0,
            fewest: 0,
            idle: 0,
        }
    }

    /// Makes room for so many buffers in all.
    pub fn reserve_total(&mut self, count: usize) -> Result<(), AllocError> {
        if let Some(more) = count.checked_sub(self.buffers.len()) {
            self.buffers.reserve(more)?;
        }
        Ok(())
    }

    /// An outbox without a buffer, in which so many bytes are to be put, gets one, where one is there.
    #[inline(never)]
    pub fn lend(&mut self, outbox: &mut Outbox, bytes: usize)
        ensures unchanged { outbox.new ≡ record outbox.old { spare = outbox.new.spare } }
        ensures spare_kept { outbox.old.spare ≤ outbox.new.spare }
    {
        if bytes > 0
            && !outbox.has_buffer()
            && let Some(buffer) = self.buffers.pop_back()
        {
            self.count_lent(buffer.capacity());
            outbox.adopt(buffer);
        }
    }

    /// Takes the buffer of an outbox in which nothing is unread, if it has one. One that is large, or for
    /// which there is no room, goes, and so do the first of those that lay idle.
    pub fn take_back(&mut self, outbox: &mut Outbox)
        ensures unchanged { outbox.new ≡ record outbox.old
            { spare = outbox.new.spare; spare_pieces = outbox.new.spare_pieces } }
        ensures taken { outbox.old.unread ≡ [] → (outbox.new.spare ≡ 0) × (outbox.new.spare_pieces ≡ 0) }
    {
        if let Some(buffer) = outbox.hand_over() {
            self.receive(buffer);
        }
    }

    /// A buffer of so many bytes is lent.
    fn count_lent(&mut self, bytes: usize) {
        self.bytes = self.bytes.saturating_sub(bytes);
        self.fewest = self.fewest.min(self.buffers.len());
        self.idle = self.idle.min(self.buffers.len());
    }

    /// A buffer came back. One without room is none.
    fn receive(&mut self, buffer: Vec<u8>) {
        if buffer.capacity() == 0 {
            return;
        }
        self.keep(buffer);
        self.look();
        if self.idle > 0 {
            self.let_idle_go();
        }
    }

    /// Keeps a buffer, unless it is large or there is no room for it.
    fn keep(&mut self, buffer: Vec<u8>) {
        let bytes = self.bytes.saturating_add(buffer.capacity());
        if buffer.capacity() <= KEPT_ROOM
            && bytes <= KEPT_BYTES
            && self.buffers.len() < self.buffers.capacity()
        {
            self.bytes = bytes;
            self.buffers.push_back_reserved(buffer);
            if self.buffers.len() == self.all {
                self.cycles = self.cycles.saturating_add(1);
            }
        } else {
            // it may have been lent, and is not any more
            self.all = self.all.saturating_sub(1);
        }
        self.all = self.all.max(self.buffers.len());
        self.most = self.most.max(self.buffers.len());
    }

    /// One came back: where it is time it is looked how many lay idle.
    fn look(&mut self) {
        self.returned = self.returned.saturating_add(1);
        if self.cycles >= CYCLES || self.returned >= self.buffers.capacity().max(RETURNS) {
            self.idle = self.fewest;
            self.fewest = self.buffers.len();
            // what somebody does not read, or went with its outbox, is not awaited any longer
            self.all = self.most;
            self.most = self.buffers.len();
            self.cycles = 0;
            self.returned = 0;
        }
    }

    /// The first of those that lay idle go.
    #[cold]
    #[inline(never)]
    fn let_idle_go(&mut self) {
        for _ in 0..self.idle.min(GOING) {
            if let Some(buffer) = self.buffers.pop_front() {
                self.bytes = self.bytes.saturating_sub(buffer.capacity());
                // it lay idle, so no count would be less without it
                self.idle = self.idle.saturating_sub(1);
                self.fewest = self.fewest.saturating_sub(1);
                self.all = self.all.saturating_sub(1);
                self.most = self.most.saturating_sub(1);
            }
        }
    }
}
