//! A queue of bytes in one buffer, written at the back and read at the front.
//!
//! A [`ByteQueue`] makes room by `reserve`, takes bytes at its back by `append`, lends all that wait by `as_slice`,
//! and lets go of the first ones by `consume`.
//!
//! The test shows it from outside: an outbox keeps what it is put in such a queue. A reader takes bytes into a
//! buffer of eight, or copies some from a place on, and the buffer is then as shown.
//!
//! For example (`leaf_tests/src/outboxes.rt`):
//!
//! ```rust
//! Step::Puts(b"PONG\nENDOF\n"),
//! Step::CopiesFrom(9, 2, b"F\n......"),
//! Step::Takes(8, b"PONG\nEND"),
//! Step::Puts(b"#1 PONG\n"),
//! Step::Unread(11),
//! Step::Takes(8, b"OF\n#1 PO"),
//! ```
//!
//! Consuming moves no byte: what was consumed stays in the buffer, in front of what waits, until room is wanted or
//! nothing waits. Bytes are moved to the front only where at least as many were consumed before them. So each byte
//! that moves is paid for by one that was consumed, which pays once only: all the moves together cost no more than
//! all the bytes that were ever appended.
//!
//! `BytesMut` of the crate `bytes` is not used: it writes zeros into new room, and promises no room in a buffer
//! that it is given, as an outbox is by its pool.
#![tactic(auto)]

ghost use Rattle.std.specs.Prelude.{◌≡◌, ◌+◌, ◌^◌, ◌<◌, ◌≤◌, ◌↔◌, [], ◌++◌, length, take, drop, vec_capacity, IsTrue};
ghost use Rattle.std.specs.Prelude.{OnOk, OnErr};

use std::alloc::{AllocError, Global};
use std::marker::Model;
use std::mem;

/// Bytes that wait, in order of appending. Contracts see them, and for how many more there is room.
#[derive(Drop)]
pub struct ByteQueue {
    buffer: Vec<u8>,
    /// How many bytes at the front of `buffer` were consumed: none where no others are in it.
    consumed: usize,
}

impl Model for ByteQueue {
    ghost use Rattle.std.specs.Prelude.{◌≡◌, ◌⊎◌, ◌-◌, ◌<◌, drop, vec_len, vec_capacity};
    ghost use Rattle.byte_queue.specs.Waiting.{Waiting};

    ghost Value = { Waiting };

    ghost view = { λ q. record {
      bytes = drop q.consumed q.buffer.items;
      room = vec_capacity q.buffer - vec_len
          q.buffer;
    } };

    ghost invariant = { λ q. (q.consumed ≡ 0) ⊎ (q.consumed < vec_len q.buffer) };
}

impl ByteQueue {
    /// An empty queue without a buffer. It takes no memory yet.
    pub fn new(alloc: Global) -> ByteQueue
        ensures { result ≡ record { bytes = []; room = 0 } }
    {
        ByteQueue {
            buffer: Vec::new(alloc),
            consumed: 0,
        }
    }

    /// How many bytes wait.
    pub fn len(&self) -> usize
        ensures count { result ≡ length self.now.bytes }
        ensures small { result < 2 ^ 63 }
    {
        self.buffer.len() - self.consumed
    }

    /// The bytes that wait, the first one in front. They are lent, not copied.
    pub fn as_slice(&self) -> &[u8]
        ensures { result.now ≡ self.now.bytes }
    {
        &self.buffer[self.consumed..]
    }

    /// Makes room in memory for `n` more bytes in all, after which they can be appended without fail.
    ///
    /// An `AllocError` comes only where memory was asked for and refused. The bytes that wait are the same then too,
    /// and the room is no less.
    pub fn reserve(&mut self, n: usize) -> Result<(), AllocError>
        ensures bytes { self.new.bytes ≡ self.old.bytes }
        ensures room_kept { self.old.room ≤ self.new.room }
        ensures ok { OnOk result (n ≤ self.new.room) }
        ensures err { OnErr result (self.new.room < n) }
    {
        if n <= self.buffer.capacity() - self.buffer.len() {
            return Ok(());
        }
        self.make_room(n)
    }

    /// What `reserve` does where the room behind is too little. It stands apart, so that an append which finds room
    /// pays for the test alone.
    #[cold]
    #[inline(never)]
    fn make_room(&mut self, n: usize) -> Result<(), AllocError>
        ensures bytes { self.new.bytes ≡ self.old.bytes }
        ensures room_kept { self.old.room ≤ self.new.room }
        ensures ok { OnOk result (n ≤ self.new.room) }
        ensures err { OnErr result (self.new.room < n) }
    {
        self.close_up();
        self.buffer.reserve(n)
    }

    /// Moves the bytes that wait to the front of the buffer, if at least as many were consumed before them.
    fn close_up(&mut self)
        ensures bytes { self.new.bytes ≡ self.old.bytes }
        ensures room_kept { self.old.room ≤ self.new.room }
    {
        let waiting = self.len();
        if waiting <= self.consumed {
            self.buffer.copy_within(self.consumed.., 0);
            self.buffer.truncate(waiting);
            self.consumed = 0;
        }
    }

    /// Appends bytes for which there is room in memory. It takes no memory.
    pub fn append(&mut self, bytes: &[u8])
        requires { length bytes.now ≤ self.old.room }
        ensures bytes { self.new.bytes ≡ self.old.bytes ++ bytes.now }
        ensures room_left { self.old.room ≤ self.new.room + length bytes.now }
    {
        let done = self.buffer.extend_from_slice(bytes).is_ok();
        prove!(done);
    }

    /// Consumes the first `n` bytes, of which there must be so many. The room is no less.
    pub fn consume(&mut self, n: usize)
        requires { n ≤ length self.old.bytes }
        ensures bytes { self.new.bytes ≡ drop n self.old.bytes }
        ensures room_kept { self.old.room ≤ self.new.room }
    {
        if n < self.len() {
            self.consumed += n;
        } else {
            self.truncate(0);
        }
    }

    /// Keeps the first `n` bytes and drops those behind them, of which there may be none. The room is no less.
    pub fn truncate(&mut self, n: usize)
        ensures bytes { self.new.bytes ≡ take n self.old.bytes }
        ensures room_kept { self.old.room ≤ self.new.room }
    {
        if n == 0 {
            self.consumed = 0;
            self.buffer.clear();
        } else if n < self.len() {
            self.buffer.truncate(self.consumed + n);
        }
    }

    /// Whether it holds a buffer, so that bytes wait or there is room. Where it does not, `adopt` may save it from
    /// asking for memory.
    pub fn has_buffer(&self) -> bool
        ensures { IsTrue result ↔ (0 < length self.now.bytes + self.now.room) }
    {
        self.buffer.capacity() > 0
    }

    /// Takes a buffer for its own, emptied, where it has none. Otherwise the buffer goes.
    pub fn adopt(&mut self, mut buffer: Vec<u8>)
        ensures bytes { self.new.bytes ≡ self.old.bytes }
        ensures room_kept { self.old.room ≤ self.new.room }
        ensures adopted { length self.old.bytes + self.old.room ≡ 0 → self.new.room ≡ vec_capacity buffer }
    {
        if !self.has_buffer() {
            buffer.clear();
            self.buffer = buffer;
        }
    }

    /// Takes its buffer out, emptied, so that another queue may adopt it. The queue is left as a new one: nothing waits
    /// in it, and it has no buffer and no room.
    pub fn take_buffer(&mut self) -> Vec<u8>
        ensures left { self.new ≡ record { bytes = []; room = 0 } }
        ensures emptied { result.items ≡ [] }
        ensures capacity { length self.old.bytes + self.old.room ≤ vec_capacity result }
    {
        let none = Vec::new(*self.buffer.allocator());
        self.consumed = 0;
        let mut buffer = mem::replace(&mut self.buffer, none);
        buffer.clear();
        buffer
    }

    /// Gives the buffer back where nothing waits and it has room for more than `most` bytes.
    pub fn release(&mut self, most: usize)
        ensures bytes { self.new.bytes ≡ self.old.bytes }
        ensures released { self.old.bytes ≡ [] → self.new.room ≤ most }
        ensures waiting_kept { 0 < length self.old.bytes → self.new ≡ self.old }
        ensures little_kept { self.old.room ≤ most → self.new ≡ self.old }
    {
        if self.len() == 0 && self.buffer.capacity() > most {
            self.take_buffer();
        }
    }
}
