//! Buffers for bytes that are on their way. A link reads into one, and the lobby drains into one, without a slice
//! between.

ghost use Rattle.std.specs.Prelude.{◌≡◌, ◌↔◌, ◌+◌, ◌<◌, ◌≤◌, [], length, take, drop, vec_capacity, OnOk, OnErr};
ghost use Rattle.std.specs.Prelude.{IsTrue, Some};
ghost use Rattle.lobby_lock.specs.Passes.{pass_after};
ghost use Rattle.lobby_holds.specs.Wire.{MayGoOn, and_more, got_count};
ghost use Rattle.lobby_holds.specs.Holds.{Stands, DrainedBehind};

use crate::holds::{Chunk, drain_all};
use crate::link::{Got, Link};
use lobby_lock::{Held, MOST_EVENTS};
use std::alloc::{AllocError, Global};
use std::marker::Model;
use std::mem;

/// The most bytes that one drain moves, and the room that a read has at least: a page. So much room is made at once, so
/// it is small enough to be had where memory is short, and nearly all that a client sends at once fits.
pub const PIECE: usize = 4_096;

/// The longest buffer that a worker keeps, in bytes: what one write carries, and one read gives at most.
const LONGEST: usize = 16_384;

/// What a buffer of a piece lacks for the longest.
const BEHIND: usize = 12_288;

/// Bytes that wait in a part of a buffer, in order. The buffer is as long as its memory, so that more can be written
/// right behind them. Contracts see the bytes, and how many more fit behind.
#[derive(Drop)]
pub(crate) struct Buffer {
    memory: Vec<u8>,
    /// Where the bytes begin, and where they end: both are 0 where none wait.
    from: usize,
    to: usize,
}

impl Model for Buffer {
    ghost use Rattle.std.specs.Prelude.{◌≡◌, ◌-◌, ◌≤◌, length, take, drop};
    ghost use Rattle.byte_queue.specs.Waiting.{Waiting};

    ghost Value = { Waiting };

    ghost view = { λ b. record {
      bytes = drop b.from (take b.to b.memory.items);
      room = length b.memory.items - b.to;
    } };

    ghost invariant = { λ b. (b.from ≤ b.to) × (b.to ≤ length b.memory.items) × (b.from ≡ b.to → b.to ≡ 0) };
}

impl Buffer {
    /// An empty buffer. It takes no memory yet.
    pub(crate) fn new(alloc: Global) -> Buffer
        ensures { result ≡ record { bytes = []; room = 0 } }
    {
        Buffer {
            memory: Vec::new(alloc),
            from: 0,
            to: 0,
        }
    }

    /// The bytes that wait.
    pub(crate) fn as_slice(&self) -> &[u8]
        ensures { result.now ≡ self.now.bytes }
    {
        &self.memory[self.from..self.to]
    }

    /// Whether no bytes wait.
    pub(crate) fn is_empty(&self) -> bool
        ensures { IsTrue result ↔ (self.now.bytes ≡ []) }
    {
        self.as_slice().is_empty()
    }

    /// The first bytes went on, so many, of which there must be as many.
    pub(crate) fn consume(&mut self, count: usize)
        requires { count ≤ length self.old.bytes }
        ensures { self.new.bytes ≡ drop count self.old.bytes }
    {
        if count < self.to - self.from {
            self.from += count;
        } else {
            self.clear();
        }
    }

    /// No bytes wait any more.
    pub(crate) fn clear(&mut self)
        ensures { self.new.bytes ≡ [] }
    {
        self.from = 0;
        self.to = 0;
    }

    /// Makes room for a piece. An error comes only where memory is refused.
    pub(crate) fn make_room(&mut self) -> Result<(), AllocError>
        ensures bytes { self.new.bytes ≡ self.old.bytes }
        ensures ok { OnOk result (PIECE ≤ self.new.room) }
        ensures err { OnErr result (self.new.room < PIECE) }
    {
        if self.memory.len() - self.to >= PIECE {
            return Ok(());
        }
        self.memory.extend_from_slice(&[0; PIECE])
    }

    /// Makes room for a burst, where there is room for a piece: for as much as one read gives at most. Without memory
    /// for that the room that there is does.
    pub(crate) fn widen(&mut self)
        requires room { PIECE ≤ self.old.room }
        ensures bytes { self.new.bytes ≡ self.old.bytes }
        ensures room { PIECE ≤ self.new.room }
    {
        if self.memory.len() - self.to < LONGEST {
            let _ = self.memory.extend_from_slice(&[0; BEHIND]);
        }
    }

    /// Takes memory that is lent, where it has none.
    pub(crate) fn take(&mut self, lent: &mut Vec<u8>)
        requires { vec_capacity lent.old ≤ LONGEST }
        ensures bytes { self.new.bytes ≡ self.old.bytes }
        ensures kept { vec_capacity lent.new ≤ LONGEST }
    {
        if self.memory.capacity() == 0 {
            mem::swap(&mut self.memory, lent);
        }
    }

    /// Gives its memory away where no bytes wait, in place of less.
    pub(crate) fn give_back(&mut self, lent: &mut Vec<u8>)
        requires { vec_capacity lent.old ≤ LONGEST }
        ensures bytes { self.new.bytes ≡ self.old.bytes }
        ensures given { self.old.bytes ≡ [] → self.new.room ≡ 0 }
        ensures kept { vec_capacity lent.new ≤ LONGEST }
    {
        if self.is_empty() {
            let none = Buffer::new(*self.memory.allocator());
            let Buffer { memory, .. } = mem::replace(self, none);
            if lent.len() < memory.len() && memory.capacity() <= LONGEST {
                *lent = memory;
            }
        }
    }

    /// Reads into it as many bytes as it has room for, and so many at most. No bytes wait in it.
    pub(crate) fn read<L: Link>(&mut self, link: &mut L, most: usize) -> Got
        requires room { PIECE ≤ self.old.room }
        requires some { 1 ≤ most }
        requires wire { MayGoOn (L.wire link.old) }
        ensures read { (L.wire link.new).read ≡ and_more (L.wire link.old).read self.new.bytes }
        ensures count { length self.new.bytes ≡ got_count result }
        ensures few { (got_count result ≤ most) × (got_count result ≤ LONGEST) }
        ensures written { (L.wire link.new).written ≡ (L.wire link.old).written }
        ensures reads { (L.wire link.new).reads ≡ (L.wire link.old).reads + 1 }
        ensures writes { (L.wire link.new).writes ≡ (L.wire link.old).writes }
        ensures failures { (L.wire link.new).failures ≤ (L.wire link.old).failures + 1 }
        ensures last_got { (L.wire link.new).last_got ≡ Some result }
        ensures last_sent { (L.wire link.new).last_sent ≡ (L.wire link.old).last_sent }
    {
        let room = most.min(LONGEST).min(self.memory.len());
        let got = read_front(&mut self.memory, room, link);
        self.from = 0;
        self.to = count_of(got);
        got
    }

    /// Drains a piece behind the bytes that wait, in a hold that goes on.
    pub(crate) fn drain(&mut self, held: &mut Held, client: u64) -> Chunk
        requires few { length held.old.events + 2 ≤ MOST_EVENTS }
        requires stands { Stands held.old }
        requires room { PIECE ≤ self.old.room }
        ensures drained { DrainedBehind (pass_after held.old) (pass_after held.new) client self.old.bytes
            self.new.bytes result }
        ensures stands { Stands held.new }
        ensures count { length held.new.events ≤ length held.old.events + 2 }
        ensures pass { held.new.pass ≡ held.old.pass }
    {
        let end = self.to;
        let piece = drain_all(held, client, &mut self.memory[end..end + PIECE]);
        self.to = end + piece.count;
        piece
    }
}

/// Reads so many bytes at most to the front of a slice.
fn read_front<L: Link>(into: &mut [u8], most: usize, link: &mut L) -> Got
    requires room { most ≤ length into.old }
    requires some { 1 ≤ most }
    requires wire { MayGoOn (L.wire link.old) }
    ensures read { (L.wire link.new).read ≡ and_more (L.wire link.old).read (take (got_count result) into.new) }
    ensures few { got_count result ≤ most }
    ensures written { (L.wire link.new).written ≡ (L.wire link.old).written }
    ensures reads { (L.wire link.new).reads ≡ (L.wire link.old).reads + 1 }
    ensures writes { (L.wire link.new).writes ≡ (L.wire link.old).writes }
    ensures failures { (L.wire link.new).failures ≤ (L.wire link.old).failures + 1 }
    ensures last_got { (L.wire link.new).last_got ≡ Some result }
    ensures last_sent { (L.wire link.new).last_sent ≡ (L.wire link.old).last_sent }
{
    link.read(&mut into[..most])
}

/// How many bytes a read gave.
fn count_of(got: Got) -> usize
    ensures { result ≡ got_count got }
{
    match got {
        Got::Bytes(count) => count,
        Got::Later | Got::End | Got::Fault => 0,
    }
}

/// The memory of two buffers, which a worker keeps and lends to each connection for its turn. Contracts see how many
/// bytes each takes.
#[derive(Drop)]
pub struct Buffers {
    pub(crate) unfed: Vec<u8>,
    pub(crate) unwritten: Vec<u8>,
}

impl Model for Buffers {
    ghost use Rattle.std.specs.Prelude.{ℕ, ◌≤◌, vec_capacity};

    ghost Value = { ℕ × ℕ };

    ghost view = { λ b. (vec_capacity b.unfed, vec_capacity b.unwritten) };

    ghost invariant = { λ b. (vec_capacity b.unfed ≤ 16384) × (vec_capacity b.unwritten ≤ 16384) };
}

impl Buffers {
    /// No buffer yet. Who is lent none makes one, which then stays here.
    pub fn new(alloc: Global) -> Buffers
        ensures { result ≡ (0, 0) }
    {
        Buffers {
            unfed: Vec::new(alloc),
            unwritten: Vec::new(alloc),
        }
    }

    /// How many bytes of memory are kept.
    pub fn kept(&self) -> usize
        ensures kept { result ≡ self.now.0 + self.now.1 }
        ensures few { result ≤ 32768 }
    {
        self.unfed.capacity() + self.unwritten.capacity()
    }
}
