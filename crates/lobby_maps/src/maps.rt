//! The lobby's maps, and how an event is committed to them.

ghost use Rattle.std.specs.Prelude.{◌≡◌, ℕ, ◌+◌, ◌-◌, ◌^◌, ◌<◌, ◌≤◌, ◌↔◌, [], ◌++◌, length, take, drop, min};
ghost use Rattle.std.specs.Prelude.{OnOk, OnErr, IfNone, IfOk, IfSome, true, is_some, Some, None, option_copied};
ghost use Rattle.line_words.specs.Table.{at_number};
ghost use Rattle.room_lists.specs.Room.{has_asker, has_member};
ghost use Rattle.lobby_model.specs.declared.event.Event.TheVariants as event;
ghost use Rattle.lobby_model.specs.State.{Battle, asked_by, battle_of, empty_lobby, hears, name_of};
ghost use Rattle.lobby_model.specs.Sessions.{has_place};
ghost use Rattle.lobby_post.specs.Mail.{IsWakes};
ghost use Rattle.lobby_battles.specs.Battles.{AskOutside, ChangesAlike, IsOnly};
ghost use Rattle.lobby_post.specs.Amounts.{counted_on};
ghost use Rattle.lobby_maps.specs.Amounts.{bytes_told};
ghost use Rattle.lobby_maps.specs.Calls.{Applies, HasNoNumber, IsFull, IsNextNumber, KeepsOthers, ListsTouched};
ghost use Rattle.lobby_maps.specs.Calls.{ListsOpened, TakesFirst, count_into, filled};
ghost use Rattle.lobby_maps.specs.Changes.{CanBe, OfEvent};
ghost use Rattle.lobby_maps.specs.Dirty.{those_there};
ghost use Rattle.lobby_maps.specs.Shown.{dirty_at, unread_of, is_finished};

use crate::change::{Change, apply};
use crate::greeting::greeting_of;
use account_book::AccountBook;
use battle_room::HashSeed;
use channel_book::ChannelBook;
use line_words::NameBuf;
use lobby_battles::{Battle, Battles, OnlineUsers};
use lobby_model::{CLIENT_LIMIT, Settings};
use lobby_post::{ClientKey, Clients, Drained, Post, Wakes};
use std::alloc::{AllocError, Global};
use std::marker::Model;

/// Whether an open gets a number.
#[derive(Clone, Copy, PartialEq, Eq, Debug)]
pub enum Admission {
    /// It does.
    Free,
    /// There are as many clients as there may be.
    Full,
    /// The last number was given.
    NoNumber,
}

/// The maps. Contracts see the plain lobby, the lists of changed clients, and how much was told.
pub struct Maps {
    pub(crate) alloc: Global,
    // how the words of a room are hashed
    pub(crate) seed: HashSeed,
    pub(crate) settings: Settings,
    pub(crate) accounts: AccountBook,
    // what each client is greeted with, printed once
    greeting_line: Vec<u8>,
    pub(crate) clients: Clients,
    pub(crate) online: OnlineUsers,
    pub(crate) channels: ChannelBook<ClientKey>,
    pub(crate) battles: Battles,
    last_client: u64,
    // how much its events told; it begins anew behind its last value
    told: u64,
}

impl Drop for Maps {
    /// Who lets them go calls this, and need not know what they are made of.
    fn drop(self) {
        let Maps {
            alloc: _,
            seed: _,
            settings,
            accounts,
            greeting_line,
            clients,
            online,
            channels,
            battles,
            last_client: _,
            told: _,
        } = self;
        drop(settings);
        drop(accounts);
        drop(greeting_line);
        drop(clients);
        drop(online);
        drop(channels);
        drop(battles);
    }
}

impl Model for Maps {
    ghost use Rattle.std.specs.Prelude.{◌≡◌, None};
    ghost use Rattle.reply_kinds.specs.Replies.{printed_line};
    ghost use Rattle.lobby_model.specs.Sessions.{greeting};
    ghost use Rattle.lobby_post.specs.Mail.{plain};
    ghost use Rattle.lobby_maps.specs.Dirty.{lists_of};
    ghost use Rattle.lobby_battles.specs.OnlineUsers.{users_of};
    ghost use Rattle.lobby_maps.specs.Fit.{Fit};
    ghost use Rattle.lobby_maps.specs.Shown.{lobby_of, Shown};

    ghost Value = { Shown };

    ghost view = { λ m. record {
      plain = lobby_of m.settings m.accounts (plain m.clients.slots) (users_of m.online.users.entries) m.channels
          m.battles.by_number.entries m.last_client m.battles.last;
      dirty = lists_of m.clients;
      told = m.told;
    } };

    ghost invariant = { λ m. (m.greeting_line.items ≡ printed_line None (greeting m.settings))
        × Fit m.settings.outbox_limit m.clients m.online.users.entries m.online.clients.keys m.last_client
        m.battles.by_number.entries m.battles.last };
}

impl Maps {
    /// The empty lobby. The words of its rooms are hashed by this seed.
    pub fn new(
        alloc: Global,
        settings: Settings,
        accounts: AccountBook,
        seed: HashSeed,
    ) -> Result<Maps, AllocError>
        ensures plain { IfOk result (λ maps. maps.plain ≡ empty_lobby settings accounts) }
        ensures dirty { IfOk result (λ maps. (home : ℕ) → home ≤ 63 → dirty_at maps home ≡ []) }
        ensures told { IfOk result (λ maps. maps.told ≡ 0) }
    {
        let greeting_line = greeting_of(alloc, &settings)?;
        settings.keep_their_bounds();
        Ok(Maps {
            alloc,
            seed,
            clients: Clients::new(alloc, settings.outbox_limit()),
            settings,
            accounts,
            greeting_line,
            online: OnlineUsers::new(alloc),
            channels: ChannelBook::with_keys(alloc),
            battles: Battles::new(alloc),
            last_client: 0,
            told: 0,
        })
    }

    /// Whether an open would get a number.
    pub fn admission(&self) -> Admission
        ensures full { (result ≡ Admission.Full) ↔ IsFull self.now }
        ensures no_number { result ≡ Admission.NoNumber → HasNoNumber self.now }
        ensures free { (result ≡ Admission.Free) ↔ (has_place self.now.plain ≡ true) }
    {
        if self.clients.len() >= CLIENT_LIMIT {
            Admission::Full
        } else if self.last_client == u64::MAX {
            Admission::NoNumber
        } else {
            Admission::Free
        }
    }

    /// Adds a client under the next number, with its greeting.
    pub fn open(&mut self, ip: [u8; 4], home: u8) -> Result<u64, AllocError>
        requires home { home < 64 }
        requires place { has_place self.old.plain ≡ true }
        ensures number { IfOk result (λ number. IsNextNumber self.old number) }
        ensures ok { OnOk result (Applies self.old self.new (event.Open ip home)) }
        ensures dirty { IfOk result (λ number. ListsOpened self.old self.new home number) }
        ensures told { self.new.told ≡ self.old.told }
        ensures err { OnErr result (self.new ≡ self.old) }
    {
        let number = self.last_client + 1;
        self.clients.insert(number, ip, home, &self.greeting_line)?;
        self.last_client = number;
        Ok(number)
    }

    /// A client that may give commands and get bytes: the name under which it is logged in, if it is.
    pub fn issuer(&self, client: u64) -> Option<Option<&NameBuf>>
        ensures hears { is_some result ≡ hears self.now.plain client }
        ensures name { IfSome result (λ me. option_copied me ≡ name_of self.now.plain client) }
        ensures waiting { (home : ℕ) → home ≤ 63
            → those_there self.now.plain.clients (dirty_at self.now home) ≡ dirty_at self.now home }
    {
        self.clients.heard(client)
    }

    /// Makes room for all that is told, changes the maps, and delivers. The count of what was told goes on by the bytes
    /// that the event tells, and so many more. Where memory is refused, nothing changes.
    pub fn commit(
        &mut self,
        client: u64,
        change: Change,
        post: &mut Post,
        more: u64,
    ) -> Result<Wakes, AllocError>
        requires { CanBe self.old.plain.clients self.old.plain.users self.old.plain.channels self.old.plain.battles
            client change }
        ensures ok { OnOk result (OfEvent self.old.plain client change post.old (λ e. Applies self.old self.new e)) }
        ensures wakes { IfOk result (λ wakes.
            OfEvent self.old.plain client change post.old (λ e. IsWakes self.old.plain e wakes)) }
        ensures dirty { OnOk result (OfEvent self.old.plain client change post.old (λ e.
            ListsTouched self.old self.new e)) }
        ensures told { OnOk result (OfEvent self.old.plain client change post.old (λ e.
            self.new.told ≡ counted_on self.old.told (more + bytes_told self.old.plain e))) }
        ensures err { OnErr result (self.new ≡ self.old) }
    {
        match self.clients.reserve(post) {
            Ok(()) => {}
            Err(refused) => {
                drop(change);
                return Err(refused);
            }
        }
        let done = apply(
            &mut self.clients,
            &mut self.online,
            &mut self.channels,
            &mut self.battles,
            client,
            change,
        );
        match done {
            Ok(()) => {
                self.told = self.told.wrapping_add(more);
                Ok(self.clients.deliver(post, &mut self.told))
            }
            Err(refused) => {
                self.clients.cancel(post);
                Err(refused)
            }
        }
    }

    /// The battle that a user is in, with its number.
    pub fn battle_of(&self, name: &NameBuf) -> Option<(u32, &Battle)>
        ensures some { IfSome result (λ own. battle_of self.now.plain name.now ≡ Some (own.0, own.1.now)) }
        ensures only { IfSome result (λ own. IsOnly (has_member name.now) self.now.plain.battles (Some own.0)) }
        ensures there { IfSome result (λ own. at_number self.now.plain.battles own.0 ≡ Some own.1.now) }
        ensures outside { IfSome result (λ own. AskOutside own.1.now.room) }
        ensures alike { IfSome result (λ own. ChangesAlike self.now.plain.battles own.0 own.1.now) }
        ensures none { result ≡ None → battle_of self.now.plain name.now ≡ None }
    {
        // Its contract says that the numbers rise, which the proof wants however this ends.
        let _ = self.battles.by_number.len();
        let number = self.online.battle_of(name)?;
        let battle = self.battles.with_member(number, name)?;
        Some((number, battle))
    }

    /// The number of the battle that a user asks to join.
    pub fn asked_by(&self, name: &NameBuf) -> Option<u32>
        ensures some { IfSome result (λ number.
            (battle : Battle) × (asked_by self.now.plain name.now ≡ Some (number, battle))) }
        ensures only { IsOnly (has_asker name.now) self.now.plain.battles result }
        ensures none { result ≡ None → asked_by self.now.plain name.now ≡ None }
    {
        // Its contract says that the numbers rise, which the proof wants however this ends.
        let _ = self.battles.by_number.len();
        let number = self.online.battle_of(name)?;
        if self.battles.asks_at(number, name) {
            Some(number)
        } else {
            None
        }
    }

    /// Takes bytes that a client has not read.
    pub fn drain(&mut self, client: u64, into: &mut [u8]) -> Drained
        ensures count { result.count ≡ count_into self.old.plain client into.old }
        ensures given { into.new ≡ filled self.old.plain client result.count into.old }
        ensures finished { result.finished ≡ is_finished self.new.plain client }
        ensures next { Applies self.old self.new (event.Drain client (length into.old)) }
        ensures dirty { self.new.dirty ≡ self.old.dirty }
        ensures told { self.new.told ≡ self.old.told }
    {
        self.clients.drain(client, into)
    }

    /// Takes the first client out of a worker's list of those that changed.
    pub fn next_dirty(&mut self, home: u8) -> Option<u64>
        requires { home < 64 }
        ensures plain { self.new.plain ≡ self.old.plain }
        ensures first { TakesFirst self.old self.new home result }
        ensures nobody { IfNone result (dirty_at self.old home ≡ []) }
        ensures others { KeepsOthers self.old self.new home }
        ensures told { self.new.told ≡ self.old.told }
    {
        self.clients.next_dirty(home)
    }

    /// How much its events told so far: the bytes that `commit` counts. It begins anew behind 2^64 - 1.
    pub fn told(&self) -> u64
        ensures { result ≡ self.now.told }
    {
        self.told
    }

    /// The last client number given, 0 at first.
    pub fn last_client(&self) -> u64
        ensures { result ≡ self.now.plain.last_client }
    {
        self.last_client
    }

    /// Whether a client is there.
    pub fn has_client(&self, client: u64) -> bool
        ensures there { result ≡ is_some (at_number self.now.plain.clients client) }
        ensures waiting { (home : ℕ) → home ≤ 63
            → those_there self.now.plain.clients (dirty_at self.now home) ≡ dirty_at self.now home }
    {
        self.clients.contains(client)
    }

    /// How many bytes a client has not read.
    pub fn unread(&self, client: u64) -> usize
        ensures count { result ≡ length (unread_of self.now.plain client) }
        ensures small { result < 2 ^ 63 }
    {
        self.clients.unread(client)
    }

    /// Copies bytes that a client has not read into a slice, beginning `from` bytes behind the first.
    pub fn copy_unread(&self, client: u64, from: usize, into: &mut [u8]) -> usize
        ensures count { result ≡ min (length (unread_of self.now.plain client) - from) (length into.old) }
        ensures given { into.new ≡ take result (drop from (unread_of self.now.plain client)) ++ drop result into.old }
    {
        self.clients.copy_unread(client, from, into)
    }
}
