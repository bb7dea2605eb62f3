//! A client with its outbox.

ghost use Rattle.std.specs.Prelude.{◌≡◌, ◌+◌, ◌-◌, ◌^◌, ◌<◌, ◌≤◌, ◌++◌, length, take, drop, min, [], OnOk, OnErr};
ghost use Rattle.std.specs.Prelude.{IfOk, IfSome, Some, true, false, not, is_some, option_copied};
ghost use Rattle.lobby_model.specs.declared.event.Phase.TheVariants.{Ended, In};
ghost use Rattle.lobby_model.specs.State.{is_live, in_phase, name_in};
ghost use Rattle.lobby_model.specs.Sessions.{greeted, drained};
ghost use Rattle.lobby_model.specs.Next.{with_batch};
ghost use Rattle.lobby_post.specs.Dues.{nothing_due, due_and, due_but, share_of};
ghost use Rattle.lobby_model.specs.Touched.{is_touched};
ghost use Rattle.lobby_post.specs.Mail.{AwaitsPiece, IsReady, IsShort, PutsFirst};
ghost use Rattle.lobby_post.specs.Unread.{is_over};

use crate::buffer_pool::BufferPool;
use crate::due::Due;
use crate::shares::share;
use bytes::Bytes;
use line_words::NameBuf;
use lobby_model::Phase;
use outbox::Outbox;
use std::alloc::{AllocError, Global};
use std::marker::Model;

/// A client, with what waits for it.
///
/// Its fields lie in memory in this order. What delivery reads and writes stands in front, so that a line to
/// many touches few lines of the cache for each client.
#[derive(Drop)]
pub struct Slot {
    home: u8,
    /// Whether it stands in its worker's list of those that were touched.
    listed: bool,
    phase: Phase,
    /// What of the event at hand is still to be put.
    due: Due,
    ip: [u8; 4],
    outbox: Outbox,
}

impl Model for Slot {
    ghost use Rattle.std.specs.Prelude.{◌≡◌, ◌-◌, ◌^◌, ◌<◌, true, []};
    ghost use Rattle.lobby_post.specs.Mail.{Mailbox};

    ghost Value = { Mailbox };

    ghost view = { λ s. record {
      client = record
          { ip = s.ip; home = s.home; phase = s.phase; cut = s.outbox.cut; unread = s.outbox.unread };
      limit =
          s.outbox.limit;
      spare = s.outbox.spare;
      spare_pieces = s.outbox.spare_pieces;
      due = s.due;
      listed = s.listed;
    } };

    ghost invariant = { λ s. (s.home < 64) × (s.outbox.limit < 2 ^ 32 - 1)
        × (s.outbox.cut ≡ true → (s.outbox.unread ≡ []) × (s.outbox.spare ≡ 0) × (s.outbox.spare_pieces ≡ 0)) };
}

impl Slot {
    /// A client that has just connected, whose outbox holds at most `limit` bytes.
    pub fn new(alloc: Global, limit: usize, ip: [u8; 4], home: u8) -> Slot
        requires home { home < 64 }
        requires limit { limit < 2 ^ 32 - 1 }
        ensures client { result.client ≡ greeted ip home }
        ensures limit { result.limit ≡ limit }
        ensures due { result.due ≡ nothing_due }
        ensures listed { result.listed ≡ true }
    {
        Slot {
            home,
            listed: true,
            phase: Phase::Greeted,
            due: Due::nothing(),
            outbox: Outbox::new(alloc, limit),
            ip,
        }
    }

    /// A client that has just connected and is greeted, or cut where the greeting does not fit.
    pub fn with_greeting(
        alloc: Global,
        limit: usize,
        ip: [u8; 4],
        home: u8,
        greeting: &[u8],
        pool: &mut BufferPool,
    ) -> Result<Slot, AllocError>
        requires home { home < 64 }
        requires limit { limit < 2 ^ 32 - 1 }
        ensures client { IfOk result (λ slot. slot.client ≡ with_batch limit greeting.now (greeted ip home)) }
        ensures limit { IfOk result (λ slot. slot.limit ≡ limit) }
        ensures due { IfOk result (λ slot. slot.due ≡ nothing_due) }
        ensures listed { IfOk result (λ slot. slot.listed ≡ true) }
    {
        let mut slot = Slot::new(alloc, limit, ip, home);
        slot.reserve(greeting.len(), pool)?;
        let share = share(alloc, greeting)?;
        let _ = slot.put(greeting, share);
        // To one who is cut at once nothing is due any more either.
        slot.cancel();
        Ok(slot)
    }

    /// Whether bytes may still be put to it and its commands count.
    pub fn is_live(&self) -> bool
        ensures { result ≡ is_live self.now.client }
    {
        match self.phase {
            Phase::Ended => false,
            _ => !self.outbox.is_cut(),
        }
    }

    /// A piece of so many bytes more is due, and there is room for all that is due, where it will be
    /// put. What is copied gets a buffer of the pool, where the outbox has none of its own. Fails only
    /// where memory that it wants is refused: one who does not hear wants none.
    #[inline(always)]
    pub fn reserve(&mut self, more: usize, pool: &mut BufferPool) -> Result<(), AllocError>
        ensures client { self.new.client ≡ self.old.client }
        ensures limit { self.new.limit ≡ self.old.limit }
        ensures listed { self.new.listed ≡ self.old.listed }
        ensures spare_kept { self.old.spare ≤ self.new.spare }
        ensures pieces_kept { self.old.spare_pieces ≤ self.new.spare_pieces }
        ensures due { OnOk result (is_live self.old.client ≡ true → self.new.due ≡ due_and self.old.due more) }
        ensures ready { OnOk result (IsReady self.new) }
        ensures err { OnErr result (self.new.due ≡ self.old.due) }
        ensures wanted { OnErr result (IsShort self.old (due_and self.old.due more)) }
    {
        if !self.is_live() {
            return Ok(());
        }
        let due = self.due.and(more);
        if self.outbox.room_for(due.bytes as usize) {
            let copied = due.copied();
            if !self.outbox.has_buffer() {
                pool.lend(&mut self.outbox, copied);
            }
            self.outbox
                .reserve_shared(copied, due.shared_pieces as usize)?;
        }
        self.due = due;
        Ok(())
    }

    /// Nothing is due any more.
    pub fn cancel(&mut self)
        ensures client { self.new.client ≡ self.old.client }
        ensures limit { self.new.limit ≡ self.old.limit }
        ensures listed { self.new.listed ≡ self.old.listed }
        ensures due { self.new.due ≡ nothing_due }
    {
        self.due = Due::nothing();
    }

    /// Puts the next piece of what is due, or its share where it has one, or cuts the client where not
    /// all that is due fits. Tells whether that touched it. It stands in the loop that delivers, since
    /// the pushes of a call would wait behind the bytes of the calls before it.
    #[inline(always)]
    pub fn put(&mut self, piece: &[u8], share: Option<Bytes>) -> bool
        requires share { share ≡ share_of piece.now }
        requires due { AwaitsPiece self.old (length piece.now) }
        requires ready { IsReady self.old }
        ensures client { PutsFirst self.old.limit self.old.due.bytes piece.now self.old.client self.new.client }
        ensures limit { self.new.limit ≡ self.old.limit }
        ensures listed { self.new.listed ≡ self.old.listed }
        ensures due { is_live self.new.client ≡ true → self.new.due ≡ due_but self.old.due (length piece.now) }
        ensures uncounted { is_live self.new.client ≡ true → 2 ^ 32 - 1 ≤ self.old.due.bytes → length piece.now ≡ 0 }
        ensures ready { IsReady self.new }
        ensures touched { result ≡ is_touched self.old.limit piece.now self.old.client }
    {
        match share {
            None => self.put_short(piece),
            Some(share) => self.put_long(share),
        }
    }

    /// Puts a short piece, which is copied.
    #[inline(always)]
    fn put_short(&mut self, piece: &[u8]) -> bool
        requires short { length piece.now < 2048 }
        requires due { AwaitsPiece self.old (length piece.now) }
        requires ready { IsReady self.old }
        ensures client { PutsFirst self.old.limit self.old.due.bytes piece.now self.old.client self.new.client }
        ensures limit { self.new.limit ≡ self.old.limit }
        ensures listed { self.new.listed ≡ self.old.listed }
        ensures due { is_live self.new.client ≡ true → self.new.due ≡ due_but self.old.due (length piece.now) }
        ensures uncounted { is_live self.new.client ≡ true → 2 ^ 32 - 1 ≤ self.old.due.bytes → length piece.now ≡ 0 }
        ensures ready { IsReady self.new }
        ensures touched { result ≡ is_touched self.old.limit piece.now self.old.client }
    {
        if !self.is_live() || piece.is_empty() {
            return false;
        }
        let due = self.due.bytes as usize;
        if self.outbox.room_for(due) {
            self.due.bytes -= piece.len() as u32;
            self.outbox.put(piece);
        } else {
            self.cut();
        }
        true
    }

    /// Puts a long piece by its share. It stands apart, so that the loop that delivers is short.
    #[cold]
    #[inline(never)]
    fn put_long(&mut self, share: Bytes) -> bool
        requires long { 2048 ≤ length share }
        requires due { AwaitsPiece self.old (length share) }
        requires ready { IsReady self.old }
        ensures client { PutsFirst self.old.limit self.old.due.bytes share self.old.client self.new.client }
        ensures limit { self.new.limit ≡ self.old.limit }
        ensures listed { self.new.listed ≡ self.old.listed }
        ensures due { is_live self.new.client ≡ true → self.new.due ≡ due_but self.old.due (length share) }
        ensures uncounted { is_live self.new.client ≡ true → 2 ^ 32 - 1 ≤ self.old.due.bytes → length share ≡ 0 }
        ensures ready { IsReady self.new }
        ensures touched { result ≡ is_touched self.old.limit share self.old.client }
    {
        if !self.is_live() {
            return false;
        }
        if self.outbox.room_for(self.due.bytes as usize) {
            self.due = self.due.but(share.len());
            self.outbox.put_shared(share);
        } else {
            self.cut();
        }
        true
    }

    /// Cuts the client, and gives back all memory that its outbox has.
    #[cold]
    #[inline(never)]
    fn cut(&mut self)
        ensures client { self.new.client ≡ record self.old.client { cut = true; unread = [] } }
        ensures limit { self.new.limit ≡ self.old.limit }
        ensures listed { self.new.listed ≡ self.old.listed }
        ensures given_back { (self.new.spare ≡ 0) × (self.new.spare_pieces ≡ 0) }
    {
        self.outbox.cut();
        drop(self.outbox.hand_over());
    }

    /// The worker that serves it, 0 to 63.
    pub fn home(&self) -> u8
        ensures home { result ≡ self.now.client.home }
        ensures small { result < 64 }
    {
        self.home
    }

    /// Whether it stands in its worker's list.
    pub fn is_listed(&self) -> bool
        ensures { result ≡ self.now.listed }
    {
        self.listed
    }

    /// It stands in its worker's list from now on. Tells whether it did not before.
    pub fn list(&mut self) -> bool
        ensures slot { self.new ≡ record self.old { listed = true } }
        ensures was { result ≡ not self.old.listed }
    {
        let was = self.listed;
        self.listed = true;
        !was
    }

    /// It does not stand in its worker's list any more.
    pub fn unlist(&mut self)
        ensures { self.new ≡ record self.old { listed = false } }
    {
        self.listed = false;
    }

    /// The IPv4 address from which it connected.
    pub fn ip(&self) -> [u8; 4]
        ensures { result ≡ self.now.client.ip }
    {
        self.ip
    }

    /// The name under which it is logged in.
    pub fn name(&self) -> Option<&NameBuf>
        ensures { option_copied result ≡ name_in self.now.client.phase }
    {
        match &self.phase {
            Phase::In { name } => Some(name),
            _ => None,
        }
    }

    /// The same where it hears, and None where it does not.
    pub fn heard(&self) -> Option<Option<&NameBuf>>
        ensures hears { is_some result ≡ is_live self.now.client }
        ensures name { IfSome result (λ name. option_copied name ≡ name_in self.now.client.phase) }
    {
        if self.is_live() {
            Some(self.name())
        } else {
            None
        }
    }

    /// Ends the client: nothing more is put to it, and its commands do nothing.
    pub fn end(&mut self)
        ensures client { self.new.client ≡ in_phase Ended self.old.client }
        ensures limit { self.new.limit ≡ self.old.limit }
        ensures listed { self.new.listed ≡ self.old.listed }
        ensures due { self.new.due ≡ self.old.due }
        ensures ready { IsReady self.new }
    {
        self.phase = Phase::Ended;
    }

    /// The client, which hears, is logged in under a name.
    pub fn log_in(&mut self, name: NameBuf)
        requires { is_live self.old.client ≡ true }
        ensures client { self.new.client ≡ in_phase (In name) self.old.client }
        ensures limit { self.new.limit ≡ self.old.limit }
        ensures listed { self.new.listed ≡ self.old.listed }
        ensures due { self.new.due ≡ self.old.due }
        ensures ready { IsReady self.old → IsReady self.new }
    {
        self.phase = Phase::In { name };
    }

    /// Takes unread bytes into a slice, as many as fit. Once all are taken, the pool gets the buffer.
    pub fn drain(&mut self, into: &mut [u8], pool: &mut BufferPool) -> usize
        ensures count { result ≡ min (length self.old.client.unread) (length into.old) }
        ensures given { into.new ≡ take result self.old.client.unread ++ drop result into.old }
        ensures client { self.new.client ≡ drained (length into.old) self.old.client }
        ensures limit { self.new.limit ≡ self.old.limit }
        ensures listed { self.new.listed ≡ self.old.listed }
        ensures due { self.new.due ≡ self.old.due }
        ensures given_back { self.new.client.unread ≡ [] → (self.new.spare ≡ 0) × (self.new.spare_pieces ≡ 0) }
    {
        let count = self.outbox.take(into);
        pool.take_back(&mut self.outbox);
        count
    }

    /// Whether nothing will ever come of it again.
    pub fn is_over(&self) -> bool
        ensures { result ≡ is_over (Some self.now.client) }
    {
        match self.phase {
            Phase::Ended => self.outbox.is_cut() || self.outbox.unread() == 0,
            _ => self.outbox.is_cut(),
        }
    }

    /// How many bytes it has not read.
    pub fn unread(&self) -> usize
        ensures count { result ≡ length self.now.client.unread }
        ensures small { result < 2 ^ 63 }
    {
        self.outbox.unread()
    }

    /// Copies bytes that it has not read into a slice, beginning `from` bytes behind the first.
    pub fn copy_unread(&self, from: usize, into: &mut [u8]) -> usize
        ensures count { result ≡ min (length self.now.client.unread - from) (length into.old) }
        ensures given { into.new ≡ take result (drop from self.now.client.unread) ++ drop result into.old }
    {
        self.outbox.copy_from(from, into)
    }
}
