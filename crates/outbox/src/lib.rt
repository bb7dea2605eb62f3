//! One client's unread bytes, copied or shared, with a limit.
//!
//! One asks an [`Outbox`] for room by `room_for` and `reserve`, puts bytes by `put`, and reads them by `take`.
//!
//! The test puts bytes by copying or as a shared piece. A reader takes bytes into a buffer of eight, or copies some
//! from a place on, and the buffer is then as shown.
//!
//! For example (`leaf_tests/src/outboxes.rt`):
//!
//! ```rust
//! Step::Puts(b"PONG\n"),
//! Step::Shares(b"SAIDo\n"),
//! Step::Shares(b""),
//! Step::Puts(b"ENDOF\n"),
//! Step::CopiesFrom(9, 8, b"o\nENDOF\n"),
//! Step::Takes(8, b"PONG\nSAI"),
//! Step::Takes(8, b"Do\nENDOF"),
//! ```
//!
//! An outbox takes memory only when it is asked to make room. Putting is split in two, so that an event that goes
//! to many clients can fail for want of memory before it has changed any of them: [`Outbox::reserve`] and
//! [`Outbox::reserve_shared`] may fail and change nothing that a client sees, and [`Outbox::put`] and
//! [`Outbox::put_shared`] cannot fail.
//!
//! What is put is copied behind the outbox's own bytes, or shared: a piece that several outboxes hold lies in
//! memory once. The caller chooses, and nobody who reads sees a difference.
#![tactic(auto)]

ghost use Rattle.std.specs.Prelude.{◌≡◌, ◌≢◌, ◌⊎◌, ◌+◌, ◌-◌, ◌^◌, ◌<◌, ◌≤◌, ◌↔◌, [], ◌++◌, length, take, drop, min};
ghost use Rattle.std.specs.Prelude.{IsTrue, IfSome, IfNone, OnOk, OnErr, true, false};
ghost use Rattle.outbox.specs.Queue.{room};

mod shares;

use byte_queue::ByteQueue;
use bytes::Bytes;
use shares::{Share, Shares};
use std::alloc::{AllocError, Global};
use std::marker::Model;

/// The greatest limit: 2^63 - 1 bytes, all of which can be counted also where they are shared.
const COUNTED: usize = isize::MAX as usize;

/// The bytes that wait for a client to read them, at most as many as its limit.
///
/// A client that reads too slowly is cut: what it has not read is given up, and nothing is put for
/// it any more. Without the limit one client that stops reading would take all memory.
#[derive(Drop)]
pub struct Outbox {
    limit: usize,
    /// The bytes that were copied and wait.
    own: ByteQueue,
    cut: bool,
    shares: Shares,
}

impl Model for Outbox {
    ghost use Rattle.outbox.specs.Queue.{Queue};
    ghost use Rattle.outbox.specs.Woven.{woven, IsKept};

    ghost Value = { Queue };

    ghost view = { λ o. record {
      limit = o.limit;
      unread = woven o.shares.items o.own.bytes;
      cut = o.cut;
      spare = o.own.room;
      spare_pieces = o.shares.places;
    } };

    ghost invariant = { λ o. IsKept o.limit o.own.bytes o.shares.items o.cut };
}

/// Copies bytes to the front of a slice, as many as there are and fit, and says how many.
fn copy_front(from: &[u8], into: &mut [u8]) -> usize
    ensures count { result ≡ min (length from.now) (length into.old) }
    ensures given { into.new ≡ take result from.now ++ drop result into.old }
{
    let count = from.len().min(into.len());
    into[..count].copy_from_slice(&from[..count]);
    count
}

/// Moves the first bytes of a queue into a slice, as many as there are and fit, and says how many.
fn take_front(own: &mut ByteQueue, into: &mut [u8]) -> usize
    ensures count { result ≡ min (length own.old.bytes) (length into.old) }
    ensures given { into.new ≡ take result own.old.bytes ++ drop result into.old }
    ensures left { own.new.bytes ≡ drop result own.old.bytes }
    ensures room_kept { own.old.room ≤ own.new.room }
{
    let count = copy_front(own.as_slice(), into);
    own.consume(count);
    count
}

impl Outbox {
    /// An empty outbox in which at most `limit` bytes may stand unread, and never more than can be counted.
    /// It takes no memory yet.
    pub fn new(alloc: Global, limit: usize) -> Outbox
        ensures { result ≡ record {
          limit = min limit (2 ^ 63 - 1);
          unread = [];
          cut = false;
          spare = 0;
          spare_pieces =
              0;
        } }
    {
        Outbox {
            limit: limit.min(COUNTED),
            own: ByteQueue::new(alloc),
            cut: false,
            shares: Shares::new(alloc),
        }
    }

    /// How many bytes are unread, which the limit is never below.
    pub fn unread(&self) -> usize
        ensures count { result ≡ length self.now.unread }
        ensures within_limit { result ≤ self.now.limit }
        ensures small { result < 2 ^ 63 }
    {
        self.own.len() + self.shares.bytes()
    }

    /// Whether the client was cut. Nothing is unread then.
    pub fn is_cut(&self) -> bool
        ensures answer { result ≡ self.now.cut }
        ensures nothing_unread { IsTrue result → self.now.unread ≡ [] }
    {
        self.cut
    }

    /// Whether `n` more bytes may be put: they fit the limit beside what is unread, and the client
    /// was not cut. To put 0 bytes is always allowed, after a cut too.
    pub fn room_for(&self, n: usize) -> bool
        ensures { IsTrue result ↔ (n ≤ room self.now) }
    {
        n == 0 || !self.cut && n <= self.limit - self.unread()
    }

    /// Makes room in memory for `n` more bytes, after which they can be put without fail.
    ///
    /// An `AllocError` comes only where memory was asked for and refused. The client sees no
    /// difference, whatever the answer.
    pub fn reserve(&mut self, n: usize) -> Result<(), AllocError>
        requires { n ≤ room self.old }
        ensures unchanged { self.new ≡ record self.old { spare = self.new.spare } }
        ensures spare_kept { self.old.spare ≤ self.new.spare }
        ensures ok { OnOk result (n ≤ self.new.spare) }
        ensures err { OnErr result (self.old.spare < n) }
    {
        self.own.reserve(n)
    }

    /// Appends bytes for which there is room, under the limit and in memory. It takes no memory.
    pub fn put(&mut self, bytes: &[u8])
        requires room { length bytes.now ≤ room self.old }
        requires spare { length bytes.now ≤ self.old.spare }
        ensures put { self.new ≡ record self.old {
          unread = self.old.unread ++ bytes.now;
          spare = self.new.spare;
        } }
        ensures spare_left { self.old.spare ≤ self.new.spare + length bytes.now }
    {
        self.own.append(bytes);
    }

    /// Makes room in memory for `bytes` more bytes that are put by copying, and places for `pieces`
    /// more shared pieces, after which they can be put without fail.
    ///
    /// An `AllocError` comes only where memory was asked for and refused. The client sees no
    /// difference, whatever the answer.
    pub fn reserve_shared(&mut self, bytes: usize, pieces: usize) -> Result<(), AllocError>
        requires { bytes ≤ room self.old }
        ensures unchanged { self.new ≡ record self.old {
          spare = self.new.spare;
          spare_pieces = self.new.spare_pieces;
        } }
        ensures spare_kept { self.old.spare ≤ self.new.spare }
        ensures pieces_kept { self.old.spare_pieces ≤ self.new.spare_pieces }
        ensures ok { OnOk result ((bytes ≤ self.new.spare) × (pieces ≤ self.new.spare_pieces)) }
        ensures err { OnErr result ((self.old.spare < bytes) ⊎ (self.old.spare_pieces < pieces)) }
    {
        self.reserve(bytes)?;
        if pieces > 0 {
            self.shares.reserve(pieces)?;
        }
        Ok(())
    }

    /// Appends a shared piece for which there is room under the limit, and a place. It takes no
    /// memory and copies no byte, so it asks for no `spare`. An empty piece takes no place.
    pub fn put_shared(&mut self, piece: Bytes)
        requires room { length piece ≤ room self.old }
        requires place { 1 ≤ self.old.spare_pieces }
        ensures put { self.new ≡ record self.old {
          unread = self.old.unread ++ piece;
          spare = self.new.spare;
          spare_pieces = self.new.spare_pieces;
        } }
        ensures spare_kept { self.old.spare ≤ self.new.spare }
        ensures pieces_left { self.old.spare_pieces ≤ self.new.spare_pieces + 1 }
    {
        if piece.is_empty() {
            return;
        }
        let before = self.own.len() - self.shares.before();
        self.shares.push_back(Share {
            before,
            bytes: piece,
        });
    }

    /// Cuts the client: gives up what is unread, for good.
    #[cold]
    #[inline(never)]
    pub fn cut(&mut self)
        ensures cut { self.new ≡ record self.old {
          unread = [];
          cut = true;
          spare = self.new.spare;
          spare_pieces = self.new.spare_pieces;
        } }
        ensures spare_kept { self.old.spare ≤ self.new.spare }
        ensures pieces_kept { self.old.spare_pieces ≤ self.new.spare_pieces }
    {
        self.cut = true;
        self.own.truncate(0);
        self.shares.clear();
    }

    /// Moves the first unread bytes into a slice, as many as fit, and says how many. The rest of
    /// the slice stays as it was.
    pub fn take(&mut self, into: &mut [u8]) -> usize
        ensures count { result ≡ min (length self.old.unread) (length into.old) }
        ensures given { into.new ≡ take result self.old.unread ++ drop result into.old }
        ensures left { self.new ≡ record self.old {
          unread = drop result self.old.unread;
          spare = self.new.spare;
          spare_pieces = self.new.spare_pieces;
        } }
        ensures spare_kept { self.old.spare ≤ self.new.spare }
        ensures pieces_kept { self.old.spare_pieces ≤ self.new.spare_pieces }
    {
        if self.shares.is_empty() {
            return take_front(&mut self.own, into);
        }
        self.take_woven(into)
    }

    /// What `take` does where shared pieces wait. It stands apart, so that a client which has none pays
    /// for the test alone.
    #[cold]
    #[inline(never)]
    fn take_woven(&mut self, into: &mut [u8]) -> usize
        ensures count { result ≡ min (length self.old.unread) (length into.old) }
        ensures given { into.new ≡ take result self.old.unread ++ drop result into.old }
        ensures left { self.new ≡ record self.old {
          unread = drop result self.old.unread;
          spare = self.new.spare;
          spare_pieces = self.new.spare_pieces;
        } }
        ensures spare_kept { self.old.spare ≤ self.new.spare }
        ensures pieces_kept { self.old.spare_pieces ≤ self.new.spare_pieces }
    {
        let wanted = self.unread().min(into.len());
        let mut done = 0;
        while done < wanted {
            done += self.take_run(&mut into[done..]);
        }
        done
    }

    /// Moves unread bytes into a slice, as many as lie in a row at the front and fit: own ones, or
    /// those of one shared piece.
    fn take_run(&mut self, into: &mut [u8]) -> usize
        ensures within { (result ≤ length self.old.unread) × (result ≤ length into.old) }
        ensures some { 0 < length self.old.unread → 0 < length into.old → 0 < result }
        ensures given { into.new ≡ take result self.old.unread ++ drop result into.old }
        ensures left { self.new ≡ record self.old {
          unread = drop result self.old.unread;
          spare = self.new.spare;
          spare_pieces = self.new.spare_pieces;
        } }
        ensures spare_kept { self.old.spare ≤ self.new.spare }
        ensures pieces_kept { self.old.spare_pieces ≤ self.new.spare_pieces }
    {
        let Some(Share { before, mut bytes }) = self.shares.pop_front() else {
            return take_front(&mut self.own, into);
        };
        if before > 0 {
            let count = copy_front(&self.own.as_slice()[..before], into);
            self.own.consume(count);
            self.shares.push_front(Share {
                before: before - count,
                bytes,
            });
            return count;
        }
        let count = copy_front(bytes.as_slice(), into);
        bytes.advance(count);
        if !bytes.is_empty() {
            self.shares.push_front(Share { before, bytes });
        }
        count
    }

    /// Copies unread bytes into a slice, beginning `from` bytes behind the first, as many as there
    /// are and fit, and says how many. The rest of the slice stays as it was.
    pub fn copy_from(&self, from: usize, into: &mut [u8]) -> usize
        ensures count { result ≡ min (length self.now.unread - from) (length into.old) }
        ensures given { into.new ≡ take result (drop from self.now.unread) ++ drop result into.old }
    {
        let unread = self.unread();
        let wanted = (unread - from.min(unread)).min(into.len());
        let mut done = 0;
        while done < wanted {
            done += copy_front(self.run_at(from + done), &mut into[done..]);
        }
        done
    }

    /// The unread bytes from a place on, as many as lie in a row there.
    fn run_at(&self, from: usize) -> &[u8]
        ensures run { take (length result.now) (drop from self.now.unread) ≡ result.now }
        ensures some { from < length self.now.unread → 0 < length result.now }
    {
        let mut own = self.own.as_slice();
        let Some(shares) = self.shares.queue() else {
            return &own[from.min(own.len())..];
        };
        let mut left = from;
        for i in 0..shares.len() {
            let share = &shares[i];
            if left < share.before {
                return &own[left..share.before];
            }
            left -= share.before;
            own = &own[share.before..];
            if left < share.bytes.len() {
                return &share.bytes.as_slice()[left..];
            }
            left -= share.bytes.len();
        }
        &own[left.min(own.len())..]
    }

    /// Whether it holds a buffer. Where it does not, `adopt` may save it from asking for memory.
    pub fn has_buffer(&self) -> bool
        ensures { result ≡ false → self.now.spare ≡ 0 }
    {
        self.own.has_buffer()
    }

    /// Takes an empty buffer for its own, where it has none. Otherwise the buffer goes.
    pub fn adopt(&mut self, buffer: Vec<u8>)
        ensures unchanged { self.new ≡ record self.old { spare = self.new.spare } }
        ensures spare_kept { self.old.spare ≤ self.new.spare }
    {
        self.own.adopt(buffer);
    }

    /// Hands its buffer over where nothing is unread, so that another outbox may adopt it. The outbox
    /// is left without a buffer and without `spare`, so what it copies next wants memory or a buffer
    /// again, as do shared pieces. It keeps its limit and whether it is cut.
    pub fn hand_over(&mut self) -> Option<Vec<u8>>
        ensures unchanged { self.new ≡ record self.old {
          spare = self.new.spare;
          spare_pieces = self.new.spare_pieces;
        } }
        ensures handed { IfSome result (λ _.
            (self.old.unread ≡ []) × (self.new.spare ≡ 0) × (self.new.spare_pieces ≡ 0)) }
        ensures none { IfNone result ((self.new ≡ self.old) × (self.old.unread ≢ [])) }
    {
        if self.unread() == 0 {
            self.shares.give_up();
            Some(self.own.take_buffer())
        } else {
            None
        }
    }

    /// Gives the buffer back where nothing is unread and it has room for more than `most` bytes, so
    /// that a quiet client holds little memory.
    pub fn release(&mut self, most: usize)
        ensures unchanged { self.new ≡ record self.old { spare = self.new.spare } }
        ensures released { self.old.unread ≡ [] → self.new.spare ≤ most }
        ensures unread_kept { 0 < length self.old.unread → self.new ≡ self.old }
        ensures little_kept { self.old.spare ≤ most → self.new ≡ self.old }
    {
        if self.unread() == 0 {
            self.own.release(most);
        }
    }
}
