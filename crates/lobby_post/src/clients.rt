//! All clients by their numbers.

ghost use Rattle.std.specs.Prelude.{◌≡◌, ℕ, ◌+◌, ◌-◌, ◌^◌, ◌<◌, [], ◌∷◌, ◌++◌, List, length, take, drop, min, map};
ghost use Rattle.std.specs.Prelude.{if◌then◌else◌, OnOk, OnErr, IfSome, IfNone, Some, true, false, is_some};
ghost use Rattle.std.specs.Prelude.{option_copied};
ghost use Rattle.std.specs.Option.{option_map, option_to_list};
ghost use Rattle.std.specs.Ordering.{nat_cmp};
ghost use Rattle.std.specs.List.Sorted.{IsStrictlySortedBy};
ghost use Rattle.std.specs.Map.{keys_of};
ghost use Rattle.line_words.specs.Table.{ByNumber, at_number, put_number, same_number, without_number, change_number};
ghost use Rattle.lobby_model.specs.declared.event.Phase.TheVariants.{Ended, In};
ghost use Rattle.lobby_model.specs.State.{is_live_client, name_at, set_phase};
ghost use Rattle.lobby_model.specs.Sessions.{greeted, drained};
ghost use Rattle.lobby_model.specs.Next.{with_batch};
ghost use Rattle.lobby_post.specs.Dirty.{listings_of, IsNewly};
ghost use Rattle.lobby_post.specs.Mask.{has_home};
ghost use Rattle.lobby_post.specs.Crowd.{all_but_client, waits, Known, KeepsNothing};
ghost use Rattle.lobby_post.specs.Mail.{AreDue, AreReady, WantsMemory, bytes_for, deliver, parted, plain, wakes_home};
ghost use Rattle.lobby_post.specs.Unread.{is_over, unread_in};
ghost use Rattle.lobby_post.specs.Amounts.{bytes_in_all, counted_on};

use crate::buffer_pool::BufferPool;
use crate::dirty::DirtyLists;
use crate::key::ClientKey;
use crate::post::Post;
use crate::slot::Slot;
use crate::slots::Slots;
use crate::wakes::Wakes;
use line_words::NameBuf;
use std::alloc::{AllocError, Global};
use std::marker::Model;

/// What a drain gave.
#[derive(Clone, Copy, PartialEq, Eq, Debug)]
pub struct Drained {
    /// How many bytes were taken.
    pub count: usize,
    /// Whether nothing will ever come of the client again.
    pub finished: bool,
}

/// The clients that are connected, by their numbers, each with an outbox.
///
/// A client hears until it is ended or cut: only then do its commands count, and bytes are put to it.
#[derive(Drop)]
pub struct Clients {
    alloc: Global,
    /// How many bytes may stand unread in an outbox.
    limit: usize,
    slots: Slots,
    pool: BufferPool,
    dirty: DirtyLists,
}

impl Model for Clients {
    ghost use Rattle.std.specs.Prelude.{◌-◌, ◌^◌, ◌<◌};
    ghost use Rattle.lobby_post.specs.Mail.{HaveLimit};
    ghost use Rattle.lobby_post.specs.Crowd.{Crowd, lines_of};

    ghost Value = { Crowd };

    ghost view = { λ c. record { limit = c.limit; slots = c.slots; lines = lines_of c.dirty } };

    ghost invariant = { λ c. HaveLimit c.limit c.slots × (c.limit < 2 ^ 32 - 1) };
}

impl Clients {
    /// No client. Each outbox will hold at most `limit` bytes.
    pub fn new(alloc: Global, limit: usize) -> Clients
        requires { limit < 2 ^ 32 - 1 }
        ensures limit { result.limit ≡ limit }
        ensures nobody { result.slots ≡ [] }
        ensures known { Known result 0 }
        ensures waits { (h : ℕ) → waits result h ≡ [] }
    {
        Clients {
            alloc,
            limit,
            slots: Slots::new(alloc),
            pool: BufferPool::new(alloc),
            dirty: DirtyLists::new(alloc),
        }
    }

    /// How many clients are there.
    pub fn len(&self) -> usize
        ensures { result ≡ length (plain self.now.slots) }
    {
        self.slots.len()
    }

    /// Whether a client is there: inserted and not yet removed.
    pub fn contains(&self, client: u64) -> bool
        ensures { result ≡ is_some (at_number (plain self.now.slots) client) }
    {
        self.slots.contains(client)
    }

    /// Whether a client may give commands and get bytes.
    pub fn hears(&self, client: u64) -> bool
        ensures { result ≡ is_live_client (at_number (plain self.now.slots) client) }
    {
        match self.slots.get(client) {
            Some(slot) => slot.is_live(),
            None => false,
        }
    }

    /// The name under which a client is logged in, whether it hears or not.
    pub fn name_of(&self, client: u64) -> Option<&NameBuf>
        ensures { option_copied result ≡ name_at (plain self.now.slots) client }
    {
        match self.slots.get(client) {
            Some(slot) => slot.name(),
            None => None,
        }
    }

    /// The key of a client, by which `Post::address_key` finds it without a search.
    pub fn key_of(&self, client: u64) -> ClientKey
        ensures { result.number ≡ client }
    {
        self.slots.key_of(client)
    }

    /// The key of a client that knows where it likely is, for one who addresses it at once.
    pub fn likely_key_of(&self, client: u64) -> ClientKey
        ensures { result.number ≡ client }
    {
        self.slots.likely_key_of(client)
    }

    /// Whether a key's client is logged in under this name, and in the slot in which the key saw it.
    pub fn is_named_at(&self, key: ClientKey, name: &NameBuf) -> bool
        ensures { result ≡ true → name_at (plain self.now.slots) key.number ≡ Some name.now }
    {
        match self.slots.at(key) {
            Some(slot) => match slot.name() {
                Some(held) => held == name,
                None => false,
            },
            None => false,
        }
    }

    /// The IPv4 address from which a client connected.
    pub fn ip_of(&self, client: u64) -> Option<[u8; 4]>
        ensures { result ≡ option_map (λ c. c.ip) (at_number (plain self.now.slots) client) }
    {
        match self.slots.get(client) {
            Some(slot) => Some(slot.ip()),
            None => None,
        }
    }

    /// Of a client that hears, the name under which it is logged in; `None` where it does not hear,
    /// and `Some(None)` where nobody is logged in at it.
    pub fn heard(&self, client: u64) -> Option<Option<&NameBuf>>
        ensures hears { is_some result ≡ is_live_client (at_number (plain self.now.slots) client) }
        ensures name { IfSome result (λ name. option_copied name ≡ name_at (plain self.now.slots) client) }
    {
        match self.slots.get(client) {
            Some(slot) => slot.heard(),
            None => None,
        }
    }

    /// Adds a client that has just connected from an IPv4 address, served by the worker `home`, 0 to
    /// 63, in place of one that has this number. It is greeted, or cut where the greeting is longer than
    /// the limit. Fails only where memory is refused, and then nothing changes.
    pub fn insert(
        &mut self,
        client: u64,
        ip: [u8; 4],
        home: u8,
        greeting: &[u8],
    ) -> Result<(), AllocError>
        requires { home < 64 }
        ensures limit { self.new.limit ≡ self.old.limit }
        ensures ok { OnOk result (plain self.new.slots
            ≡ put_number (plain self.old.slots) client (with_batch self.old.limit greeting.now (greeted ip home))) }
        ensures due { OnOk result ((pieces : ByNumber (List ℕ)) → bytes_for pieces client ≡ []
            → AreDue pieces self.old.slots → AreDue pieces self.new.slots) }
        ensures was_ordered { OnOk result (IsStrictlySortedBy nat_cmp (map (λ e. e.0) self.old.slots)) }
        ensures known { OnOk result ((last : ℕ) → last < client → Known self.old last → Known self.new client) }
        ensures waits { OnOk result ((last h : ℕ) → last < client → Known self.old last → h < 64
            → waits self.new h ≡ waits self.old h ++ (if same_number home h then client ∷ [] else [])) }
        ensures err { OnErr result (self.new ≡ self.old) }
    {
        self.pool.reserve_total(self.slots.len().saturating_add(1))?;
        self.dirty.reserve(home)?;
        let slot = Slot::with_greeting(self.alloc, self.limit, ip, home, greeting, &mut self.pool)?;
        self.slots.insert(client, slot)?;
        self.dirty.add(home, client);
        Ok(())
    }

    /// A client that hears is logged in under a name.
    pub fn log_in(&mut self, client: u64, name: NameBuf)
        requires { is_live_client (at_number (plain self.old.slots) client) ≡ true }
        ensures limit { self.new.limit ≡ self.old.limit }
        ensures clients { plain self.new.slots ≡ set_phase (plain self.old.slots) client (In name) }
        ensures due { (pieces : ByNumber (List ℕ)) → AreDue pieces self.old.slots → AreDue pieces self.new.slots }
        ensures ready { AreReady self.old.slots → AreReady self.new.slots }
        ensures listings { listings_of self.new.slots ≡ listings_of self.old.slots }
        ensures lines { self.new.lines ≡ self.old.lines }
    {
        if let Some(slot) = self.slots.get_mut(client) {
            slot.log_in(name);
        }
    }

    /// Ends a client: nothing more is put to it, and its commands do nothing. What it has not read
    /// stays.
    pub fn end(&mut self, client: u64)
        ensures limit { self.new.limit ≡ self.old.limit }
        ensures clients { plain self.new.slots ≡ set_phase (plain self.old.slots) client Ended }
        ensures due { (pieces : ByNumber (List ℕ)) → AreDue pieces self.old.slots → AreDue pieces self.new.slots }
        ensures ready { AreReady self.old.slots → AreReady self.new.slots }
        ensures listings { listings_of self.new.slots ≡ listings_of self.old.slots }
        ensures lines { self.new.lines ≡ self.old.lines }
    {
        if let Some(slot) = self.slots.get_mut(client) {
            slot.end();
        }
    }

    /// Removes a client, with what it has not read.
    pub fn remove(&mut self, client: u64)
        ensures limit { self.new.limit ≡ self.old.limit }
        ensures clients { plain self.new.slots ≡ without_number (plain self.old.slots) client }
        ensures due { (pieces : ByNumber (List ℕ)) → AreDue pieces self.old.slots → AreDue pieces self.new.slots }
        ensures ready { AreReady self.old.slots → AreReady self.new.slots }
        ensures known { (last : ℕ) → Known self.old last → Known self.new last }
        ensures waits { (h : ℕ) → h < 64 → waits self.new h ≡ all_but_client client (waits self.old h) }
    {
        let listing = self.slots.listing_of(client);
        self.slots.remove(client);
        if let Some((home, listed)) = listing {
            self.dirty.leave(home, listed, &self.slots);
        }
    }

    /// A client goes: it ends, or, where it does not stay, is removed.
    pub fn part(&mut self, client: u64, stays: bool)
        ensures limit { self.new.limit ≡ self.old.limit }
        ensures clients { plain self.new.slots ≡ parted (plain self.old.slots) client stays }
        ensures due { (pieces : ByNumber (List ℕ)) → AreDue pieces self.old.slots → AreDue pieces self.new.slots }
        ensures ready { AreReady self.old.slots → AreReady self.new.slots }
        ensures known { (last : ℕ) → Known self.old last → Known self.new last }
        ensures waits { (h : ℕ) → h < 64
            → waits self.new h ≡ (if stays then waits self.old h else all_but_client client (waits self.old h)) }
    {
        if stays {
            self.end(client);
        } else {
            self.remove(client);
        }
    }

    /// Makes room for all that an event tells, in each outbox that takes it: all of that is due then, and
    /// `deliver` cannot fail. No client sees a difference. Where memory is refused that a client which
    /// hears wants, nothing is due.
    pub fn reserve(&mut self, post: &Post) -> Result<(), AllocError>
        requires due { AreDue [] self.old.slots }
        ensures limit { self.new.limit ≡ self.old.limit }
        ensures clients { plain self.new.slots ≡ plain self.old.slots }
        ensures due { OnOk result (AreDue post.now.sent self.new.slots) }
        ensures ready { OnOk result (AreReady self.new.slots) }
        ensures err { OnErr result (AreDue [] self.new.slots) }
        ensures wanted { OnErr result (WantsMemory post.now.sent self.old.slots) }
        ensures same_listings { listings_of self.new.slots ≡ listings_of self.old.slots }
        ensures same_lines { self.new.lines ≡ self.old.lines }
    {
        post.reserve(&mut self.slots, &mut self.pool)
    }

    /// Gives up what `reserve` promised: nothing is due any more. What was told stays told.
    pub fn cancel(&mut self, post: &Post)
        requires due { AreDue post.now.sent self.old.slots }
        ensures limit { self.new.limit ≡ self.old.limit }
        ensures clients { plain self.new.slots ≡ plain self.old.slots }
        ensures due { AreDue [] self.new.slots }
        ensures same_listings { listings_of self.new.slots ≡ listings_of self.old.slots }
        ensures same_lines { self.new.lines ≡ self.old.lines }
    {
        post.cancel(&mut self.slots);
    }

    /// Puts all that an event tells, to each client whole or not at all. Gives the workers of those that
    /// it touched, and adds to `told` how many bytes they are told. Nothing is told any more then.
    pub fn deliver(&mut self, post: &mut Post, told: &mut u64) -> Wakes
        requires due { AreDue post.old.sent self.old.slots }
        requires ready { AreReady self.old.slots }
        ensures limit { self.new.limit ≡ self.old.limit }
        ensures clients { plain self.new.slots ≡ deliver self.old.limit post.old.sent (plain self.old.slots) }
        ensures due { AreDue [] self.new.slots }
        ensures told { told.new
            ≡ counted_on told.old (bytes_in_all (bytes_for post.old.sent) (keys_of self.old.slots)) }
        ensures wakes { (home : ℕ) → has_home result home
            ≡ wakes_home self.old.limit post.old.sent (plain self.old.slots) home }
        ensures known { (n : ℕ) → Known self.old n → Known self.new n }
        ensures newly { (n home : ℕ) → Known self.old n → home < 64
            → IsNewly post.old.sent self.old.slots home (waits self.old home) (waits self.new home) }
    {
        post.deliver(&mut self.slots, &mut self.dirty, told)
    }

    /// Takes the first client of a worker's list out. Of the worker's clients that are there, those wait
    /// in it that were inserted or touched since they were taken out. It takes no memory.
    pub fn next_dirty(&mut self, home: u8) -> Option<u64>
        requires { home < 64 }
        ensures limit { self.new.limit ≡ self.old.limit }
        ensures clients { plain self.new.slots ≡ plain self.old.slots }
        ensures due { (pieces : ByNumber (List ℕ)) → AreDue pieces self.old.slots → AreDue pieces self.new.slots }
        ensures ready { AreReady self.old.slots → AreReady self.new.slots }
        ensures known { (last : ℕ) → Known self.old last → Known self.new last }
        ensures first { waits self.old home ≡ option_to_list result ++ waits self.new home }
        ensures nobody { IfNone result (waits self.old home ≡ []) }
        ensures others { (h : ℕ) → h < 64 → same_number home h ≡ false → waits self.new h ≡ waits self.old h }
    {
        let client = self.dirty.next(home, &self.slots)?;
        if let Some(slot) = self.slots.get_mut(client) {
            slot.unlist();
        }
        Some(client)
    }

    /// Takes bytes that a client has not read into a slice, as many as fit, and tells whether nothing
    /// will ever come of the client again. It takes no memory, and of one who has read all no memory is
    /// kept. A client that is not there has nothing, and is finished.
    pub fn drain(&mut self, client: u64, into: &mut [u8]) -> Drained
        ensures count { result.count ≡ min (length (unread_in (at_number (plain self.old.slots) client)))
            (length into.old) }
        ensures given { into.new ≡ take result.count (unread_in (at_number (plain self.old.slots) client))
            ++ drop result.count into.old }
        ensures finished { result.finished ≡ is_over (at_number (plain self.new.slots) client) }
        ensures given_back { KeepsNothing client self.new.slots }
        ensures limit { self.new.limit ≡ self.old.limit }
        ensures clients { plain self.new.slots
            ≡ change_number (plain self.old.slots) client (drained (length into.old)) }
        ensures due { (pieces : ByNumber (List ℕ)) → AreDue pieces self.old.slots → AreDue pieces self.new.slots }
        ensures listings { listings_of self.new.slots ≡ listings_of self.old.slots }
        ensures lines { self.new.lines ≡ self.old.lines }
    {
        match self.slots.get_mut(client) {
            Some(slot) => {
                let count = slot.drain(into, &mut self.pool);
                Drained {
                    count,
                    finished: slot.is_over(),
                }
            }
            None => Drained {
                count: 0,
                finished: true,
            },
        }
    }

    /// How many bytes a client has not read; 0 where it is not there.
    pub fn unread(&self, client: u64) -> usize
        ensures count { result ≡ length (unread_in (at_number (plain self.now.slots) client)) }
        ensures small { result < 2 ^ 63 }
    {
        match self.slots.get(client) {
            Some(slot) => slot.unread(),
            None => 0,
        }
    }

    /// Copies bytes that a client has not read into a slice, beginning `from` bytes behind the first,
    /// as many as there are and fit, and says how many; 0 where it is not there.
    pub fn copy_unread(&self, client: u64, from: usize, into: &mut [u8]) -> usize
        ensures count { result ≡ min (length (unread_in (at_number (plain self.now.slots) client)) - from)
            (length into.old) }
        ensures given { into.new ≡ take result (drop from (unread_in (at_number (plain self.now.slots) client)))
            ++ drop result into.old }
    {
        match self.slots.get(client) {
            Some(slot) => slot.copy_unread(from, into),
            None => 0,
        }
    }
}
