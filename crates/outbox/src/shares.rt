//! The shared pieces of an outbox.

ghost use Rattle.std.specs.Prelude.{◌≡◌, ◌+◌, ◌^◌, ◌<◌, ◌≤◌, [], ◌∷◌, ◌++◌, ◌==◌, length, OnOk, OnErr, IfSome, IfNone};
ghost use Rattle.std.specs.Prelude.{IsSome, ◌↔◌};
ghost use Rattle.std.specs.Option.{option_to_list};
ghost use Rattle.outbox.specs.Woven.{own_before, shared_bytes};

use bytes::Bytes;
use std::alloc::{AllocError, Global};
use std::collections::VecDeque;
use std::marker::Model;

/// A shared piece of what waits, and how many own bytes stand between it and the one before.
#[derive(Drop)]
pub struct Share {
    pub before: usize,
    pub bytes: Bytes,
}

/// Shared pieces, with what they come to.
#[derive(Drop)]
struct Held {
    queue: VecDeque<Share>,
    /// How many own bytes stand before the last of them.
    before: usize,
    /// How many bytes they have.
    bytes: usize,
}

/// The shared pieces that wait, in their order. Few outboxes have any, so they lie apart: an outbox
/// without them is small, and what is told to thousands touches little memory.
pub struct Shares {
    alloc: Global,
    held: Option<Box<Held>>,
}

impl Drop for Shares {
    /// What drops an outbox calls this, and does not itself ask whether there are pieces.
    fn drop(self) {
        let Shares { alloc: _, held } = self;
        drop(held);
    }
}

impl Model for Shares {
    ghost use Rattle.std.specs.Prelude.{◌≡◌, ◌-◌, IfSome};
    ghost use Rattle.std.specs.VecDeque.{deque_len, deque_capacity};
    ghost use Rattle.outbox.specs.Shares.{Pending, pending};
    ghost use Rattle.outbox.specs.Woven.{own_before, shared_bytes};

    ghost Value = { Pending };

    ghost view = { λ s. pending (λ b. record
        { items = b.value.queue.items; places = deque_capacity b.value.queue - deque_len b.value.queue }) s.held };

    ghost invariant = { λ s. IfSome s.held (λ b.
        (b.value.before ≡ own_before b.value.queue.items) × (b.value.bytes ≡ shared_bytes b.value.queue.items)) };
}

impl Shares {
    /// No piece. It takes no memory yet.
    pub fn new(alloc: Global) -> Shares
        ensures { result ≡ record { items = []; places = 0 } }
    {
        Shares { alloc, held: None }
    }

    /// How many own bytes stand before the last piece.
    pub fn before(&self) -> usize
        ensures { result ≡ own_before self.now.items }
    {
        match &self.held {
            Some(held) => held.before,
            None => 0,
        }
    }

    /// How many bytes the pieces have.
    pub fn bytes(&self) -> usize
        ensures { result ≡ shared_bytes self.now.items }
    {
        match &self.held {
            Some(held) => held.bytes,
            None => 0,
        }
    }

    /// Whether there is no piece.
    pub fn is_empty(&self) -> bool
        ensures { result ≡ (length self.now.items == 0) }
    {
        match &self.held {
            Some(held) => held.queue.is_empty(),
            None => true,
        }
    }

    /// The pieces, where there is memory for any.
    pub fn queue(&self) -> Option<&VecDeque<Share>>
        ensures some { IfSome result (λ queue. queue.now.items ≡ self.now.items) }
        ensures none { IfNone result (self.now.items ≡ []) }
    {
        match &self.held {
            Some(held) => Some(&held.queue),
            None => None,
        }
    }

    /// Makes places for so many more pieces. Fails only where memory was asked for and refused.
    #[cold]
    #[inline(never)]
    pub fn reserve(&mut self, pieces: usize) -> Result<(), AllocError>
        requires { 0 < pieces }
        ensures items { self.new.items ≡ self.old.items }
        ensures places_kept { self.old.places ≤ self.new.places }
        ensures ok { OnOk result (pieces ≤ self.new.places) }
        ensures err { OnErr result (self.old.places < pieces) }
    {
        if let Some(held) = &mut self.held {
            return held.queue.reserve(pieces);
        }
        let held = Held {
            queue: VecDeque::with_capacity(self.alloc, pieces)?,
            before: 0,
            bytes: 0,
        };
        match Box::new(self.alloc, held) {
            Ok(held) => {
                self.held = Some(held);
                Ok(())
            }
            Err(failed) => {
                drop(failed);
                Err(AllocError)
            }
        }
    }

    /// Puts a piece behind the others, for which there is a place.
    pub fn push_back(&mut self, share: Share)
        requires place { 1 ≤ self.old.places }
        requires before { own_before self.old.items + share.before < 2 ^ 64 }
        requires bytes { shared_bytes self.old.items + length share.bytes < 2 ^ 64 }
        ensures items { self.new.items ≡ self.old.items ++ share ∷ [] }
        ensures places { self.new.places + 1 ≡ self.old.places }
    {
        if let Some(held) = &mut self.held {
            held.before += share.before;
            held.bytes += share.bytes.len();
            held.queue.push_back_reserved(share);
        }
    }

    /// Puts a piece before the others, for which there is a place.
    pub fn push_front(&mut self, share: Share)
        requires place { 1 ≤ self.old.places }
        requires before { share.before + own_before self.old.items < 2 ^ 64 }
        requires bytes { length share.bytes + shared_bytes self.old.items < 2 ^ 64 }
        ensures items { self.new.items ≡ share ∷ self.old.items }
        ensures places { self.new.places + 1 ≡ self.old.places }
    {
        if let Some(held) = &mut self.held {
            held.before += share.before;
            held.bytes += share.bytes.len();
            held.queue.push_front_reserved(share);
        }
    }

    /// Takes the first piece out.
    pub fn pop_front(&mut self) -> Option<Share>
        ensures items { self.old.items ≡ option_to_list result ++ self.new.items }
        ensures some { IsSome result ↔ (0 < length self.old.items) }
        ensures places { self.new.places ≡ self.old.places + length (option_to_list result) }
    {
        let held = self.held.as_mut()?;
        let share = held.queue.pop_front()?;
        held.before -= share.before;
        held.bytes -= share.bytes.len();
        Some(share)
    }

    /// Gives the pieces up, and keeps their places.
    pub fn clear(&mut self)
        ensures items { self.new.items ≡ [] }
        ensures places { self.old.places ≤ self.new.places }
    {
        if let Some(held) = &mut self.held {
            held.queue.clear();
            held.before = 0;
            held.bytes = 0;
        }
    }

    /// Gives the pieces up, and the memory that they have.
    pub fn give_up(&mut self)
        ensures { self.new ≡ record { items = []; places = 0 } }
    {
        // Where there is none, its place is not written either: it lies on a line of its own of the cache.
        if self.held.is_some() {
            self.held = None;
        }
    }
}
