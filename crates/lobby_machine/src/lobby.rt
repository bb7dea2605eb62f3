//! The lobby and its events.

ghost use Rattle.std.specs.Prelude.{◌≡◌, ℕ, ◌-◌, ◌^◌, ◌<◌, ◌≤◌, ◌↔◌, [], ◌++◌, length, take, drop, min, OnOk, OnErr};
ghost use Rattle.std.specs.Prelude.{IfNone, IfOk, IsTrue, true, false, is_some};
ghost use Rattle.command_grammar.specs.Kinds.{keeps_kinds};
ghost use Rattle.line_words.specs.Table.{at_number};
ghost use Rattle.lobby_model.specs.declared.event.Event.TheVariants as event;
ghost use Rattle.lobby_model.specs.State.{empty_lobby, hears};
ghost use Rattle.lobby_model.specs.Sessions.{has_place};
ghost use Rattle.lobby_post.specs.Mail.{IsWakes};
ghost use Rattle.lobby_maps.specs.Calls.{Applies, HasNoNumber, IsFull, IsNextNumber, KeepsOthers, ListsTouched};
ghost use Rattle.lobby_maps.specs.Calls.{ListsOpened, Opens, TakesFirst, count_into, filled};
ghost use Rattle.lobby_maps.specs.Shown.{dirty_at, unread_of, is_finished};
ghost use Rattle.lobby_machine.specs.Logins.{AnswersLogin};
ghost use Rattle.lobby_machine.specs.Work.{CountsOn, list_length};

use crate::login_answer::LoginAnswer;
use crate::rules;
use account_book::AccountBook;
use battle_room::HashSeed;
use command_grammar::{Command, Request};
use lobby_maps::{Admission, Maps};
use lobby_model::Settings;
use lobby_post::{Drained, Post, Wakes};
use std::alloc::{AllocError, Global};
use std::marker::Model;
use thiserror::Error;

/// Why a client was not let in.
#[derive(Clone, Copy, PartialEq, Eq, Debug, Error)]
pub enum OpenError {
    /// There are 10,000 clients that are not yet disconnected.
    #[error("the lobby is full")]
    Full,
    /// The last client number, 18446744073709551615, was given.
    #[error("no client number is left")]
    NoNumber,
    /// Memory was refused.
    #[error("no memory")]
    Memory,
}

/// The lobby. Contracts see the plain lobby that it stands for, for each worker which of its clients
/// changed and wait to be looked after, and how much its events told. It stays where it lies, and who hands it over
/// hands its address.
pub struct Lobby {
    parts: Box<Parts>,
}

/// What the lobby is made of.
#[derive(Drop)]
struct Parts {
    maps: Maps,
    // what the event at hand tells; its buffers are kept from event to event
    post: Post,
}

impl Drop for Lobby {
    /// Who lets a lobby go calls this, and need not know what it is made of.
    fn drop(self) {
        let Lobby { parts } = self;
        drop(parts);
    }
}

impl Model for Lobby {
    ghost use Rattle.lobby_maps.specs.Shown.{Shown};

    ghost Value = { Shown };

    ghost view = { λ l. l.parts.value.maps };
}

impl Lobby {
    /// The lobby before its first event, which hashes the words that its clients choose by the seed that everybody
    /// knows: for clients that do not set out to slow it. Fails only where memory is refused.
    pub fn new(
        alloc: Global,
        settings: Settings,
        accounts: AccountBook,
    ) -> Result<Lobby, AllocError>
        ensures plain { IfOk result (λ lobby. lobby.plain ≡ empty_lobby settings accounts) }
        ensures dirty { IfOk result (λ lobby. (home : ℕ) → home ≤ 63 → dirty_at lobby home ≡ []) }
        ensures told { IfOk result (λ lobby. lobby.told ≡ 0) }
    {
        Lobby::with_seed(alloc, settings, accounts, HashSeed::known())
    }

    /// The lobby before its first event. The words that its clients choose are hashed by this seed, which none of them
    /// should know. Fails only where memory is refused.
    pub fn with_seed(
        alloc: Global,
        settings: Settings,
        accounts: AccountBook,
        seed: HashSeed,
    ) -> Result<Lobby, AllocError>
        ensures plain { IfOk result (λ lobby. lobby.plain ≡ empty_lobby settings accounts) }
        ensures dirty { IfOk result (λ lobby. (home : ℕ) → home ≤ 63 → dirty_at lobby home ≡ []) }
        ensures told { IfOk result (λ lobby. lobby.told ≡ 0) }
    {
        let maps = Maps::new(alloc, settings, accounts, seed)?;
        let post = Post::new(alloc);
        let parts = Parts { maps, post };
        match Box::new(alloc, parts) {
            Ok(parts) => Ok(Lobby { parts }),
            Err(failed) => {
                drop(failed);
                Err(AllocError)
            }
        }
    }

    /// A client connects from an IPv4 address, served by the worker `home`, 0 to 63. It gets the
    /// next number and is greeted. A refusal changes nothing.
    pub fn open(&mut self, ip: [u8; 4], home: u8) -> Result<u64, OpenError>
        requires { home ≤ 63 }
        ensures number { IfOk result (λ number. IsNextNumber self.old number) }
        ensures ok { OnOk result (Opens self.old self.new ip home) }
        ensures dirty { IfOk result (λ number. ListsOpened self.old self.new home number) }
        ensures told { self.new.told ≡ self.old.told }
        ensures full { (result ≡ Err OpenError.Full) ↔ IsFull self.old }
        ensures no_number { result ≡ Err OpenError.NoNumber → HasNoNumber self.old }
        ensures no_place { has_place self.old.plain ≡ false → result ≡ Err OpenError.Memory → ⊥ }
        ensures err { OnErr result (self.new ≡ self.old) }
    {
        match self.parts.maps.admission() {
            Admission::Full => Err(OpenError::Full),
            Admission::NoNumber => Err(OpenError::NoNumber),
            Admission::Free => self
                .parts
                .maps
                .open(ip, home)
                .map_err(|_| OpenError::Memory),
        }
    }

    /// A client's line was read as this request, whose arguments are of the kinds that each line's
    /// are. Gives the workers whose clients it touched. The request of a client that is not there,
    /// was cut or has said EXIT does nothing, and is never refused. Fails only where memory is refused, and then
    /// nothing changes.
    pub fn say(&mut self, client: u64, request: &Request) -> Result<Wakes, AllocError>
        requires { IsTrue (keeps_kinds request.now.command) }
        ensures ok { OnOk result (Applies self.old self.new (event.Say client request.now)) }
        ensures wakes { IfOk result (λ wakes. IsWakes self.old.plain (event.Say client request.now) wakes) }
        ensures dirty { OnOk result (ListsTouched self.old self.new (event.Say client request.now)) }
        ensures told { OnOk result (CountsOn self.old self.new (event.Say client request.now)) }
        ensures err { OnErr result (self.new ≡ self.old) }
        ensures heard { OnErr result (hears self.old.plain client ≡ true) }
    {
        let Parts { maps, post } = &mut *self.parts;
        let Some(me) = maps.issuer(client) else {
            return Ok(Wakes::none());
        };
        let change = rules::decide(maps, client, me, request.id, &request.command, post)?;
        let listed = LOOK_UP.wrapping_mul(list_len(&request.command) as u64);
        maps.commit(client, change, post, listed)
    }

    /// How the lobby answers a client's command, if that is a login of a client that hears. Nothing is done for any
    /// other, and nothing changes.
    pub fn login_answer(&self, client: u64, command: &Command) -> Option<LoginAnswer>
        ensures { AnswersLogin self.now.plain client command.now result }
    {
        let Command::Login {
            user_name,
            password,
            ..
        } = command
        else {
            return None;
        };
        let maps = &self.parts.maps;
        let Some(me) = maps.issuer(client) else {
            return None;
        };
        Some(rules::login_answer(maps, client, me, user_name, password))
    }

    /// A client's connection is closed: it is removed, and its user, if it was logged in, is logged
    /// out. Gives the workers whose clients that touched. Nothing happens, and nothing is refused, where it is not
    /// there. Fails only where memory is refused, and then nothing changes.
    pub fn shut(&mut self, client: u64) -> Result<Wakes, AllocError>
        ensures ok { OnOk result (Applies self.old self.new (event.Shut client)) }
        ensures wakes { IfOk result (λ wakes. IsWakes self.old.plain (event.Shut client) wakes) }
        ensures dirty { OnOk result (ListsTouched self.old self.new (event.Shut client)) }
        ensures told { OnOk result (CountsOn self.old self.new (event.Shut client)) }
        ensures err { OnErr result (self.new ≡ self.old) }
        ensures there { OnErr result (is_some (at_number self.old.plain.clients client) ≡ true) }
    {
        let Parts { maps, post } = &mut *self.parts;
        if !maps.has_client(client) {
            return Ok(Wakes::none());
        }
        let change = rules::close(maps, client, post)?;
        maps.commit(client, change, post, 0)
    }

    /// Takes bytes that a client has not read into a slice, as many as fit, and tells whether
    /// nothing will ever come of the client again. It takes no memory.
    pub fn drain(&mut self, client: u64, into: &mut [u8]) -> Drained
        ensures count { result.count ≡ count_into self.old.plain client into.old }
        ensures given { into.new ≡ filled self.old.plain client result.count into.old }
        ensures finished { result.finished ≡ is_finished self.new.plain client }
        ensures next { Applies self.old self.new (event.Drain client (length into.old)) }
        ensures dirty { self.new.dirty ≡ self.old.dirty }
        ensures told { self.new.told ≡ self.old.told }
    {
        self.parts.maps.drain(client, into)
    }

    /// Takes the first client out of the list of those clients of a worker that changed: that were
    /// opened, gained bytes or were cut since they were last taken out, and are there. It takes no
    /// memory, and is no event.
    pub fn next_dirty(&mut self, home: u8) -> Option<u64>
        requires { home ≤ 63 }
        ensures plain { self.new.plain ≡ self.old.plain }
        ensures first { TakesFirst self.old self.new home result }
        ensures nobody { IfNone result (dirty_at self.old home ≡ []) }
        ensures others { KeepsOthers self.old self.new home }
        ensures told { self.new.told ≡ self.old.told }
    {
        self.parts.maps.next_dirty(home)
    }

    /// How much its events told so far: the bytes that clients were sent, those whom that cut among them, and 64 for
    /// each word or pair that a line listed. Of an event that was refused memory nothing counts. The count begins anew
    /// behind 2^64 - 1.
    pub fn told(&self) -> u64
        ensures { result ≡ self.now.told }
    {
        self.parts.maps.told()
    }

    /// Whether an open would get a number.
    pub fn has_place(&self) -> bool
        ensures { result ≡ has_place self.now.plain }
    {
        self.parts.maps.admission() == Admission::Free
    }

    /// The last client number given, 0 before the first.
    pub fn last_client(&self) -> u64
        ensures { result ≡ self.now.plain.last_client }
    {
        self.parts.maps.last_client()
    }

    /// Whether a client is there: opened and not yet removed.
    pub fn has_client(&self, client: u64) -> bool
        ensures { result ≡ is_some (at_number self.now.plain.clients client) }
    {
        self.parts.maps.has_client(client)
    }

    /// Whether a client hears: it is there, was not cut and has not said EXIT.
    pub fn hears(&self, client: u64) -> bool
        ensures { result ≡ hears self.now.plain client }
    {
        self.parts.maps.issuer(client).is_some()
    }

    /// How many bytes a client has not read; 0 where it is not there.
    pub fn unread(&self, client: u64) -> usize
        ensures count { result ≡ length (unread_of self.now.plain client) }
        ensures small { result < 2 ^ 63 }
    {
        self.parts.maps.unread(client)
    }

    /// Copies bytes that a client has not read into a slice, beginning `from` bytes behind the
    /// first, as many as there are and fit, and says how many; 0 where it is not there.
    pub fn copy_unread(&self, client: u64, from: usize, into: &mut [u8]) -> usize
        ensures count { result ≡ min (length (unread_of self.now.plain client) - from) (length into.old) }
        ensures given { into.new ≡ take result (drop from (unread_of self.now.plain client)) ++ drop result into.old }
    {
        self.parts.maps.copy_unread(client, from, into)
    }
}

/// To look up a word or a pair that a line lists costs as much as to tell one client a line of so many bytes.
const LOOK_UP: u64 = 64;

/// How many words or pairs a command lists.
fn list_len(command: &Command) -> usize
    ensures { result ≡ list_length command.now }
{
    match command {
        Command::DisableUnits { units } | Command::EnableUnits { units } => units.as_slice().len(),
        Command::SetScriptTags { pairs } => pairs.as_slice().len(),
        Command::RemoveScriptTags { keys } => keys.as_slice().len(),
        // the definition goes by the kinds of arguments, so what lists words or pairs is not among these
        _ => 0,
    }
}
