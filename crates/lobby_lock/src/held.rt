//! A hold of the lobby.

ghost use Rattle.std.specs.Prelude.{◌≡◌, ◌<◌, ◌≤◌, ◌↔◌, [], length, OnOk, OnErr, IfNone};
ghost use Rattle.std.specs.Prelude.{IfOk, IsTrue, true, false, is_some};
ghost use Rattle.command_grammar.specs.Kinds.{keeps_kinds};
ghost use Rattle.line_words.specs.Table.{at_number};
ghost use Rattle.lobby_model.specs.declared.event.Event.TheVariants as event;
ghost use Rattle.lobby_model.specs.Sessions.{has_place};
ghost use Rattle.lobby_model.specs.State.{hears};
ghost use Rattle.lobby_post.specs.Mail.{IsWakes};
ghost use Rattle.lobby_machine.specs.Shown.{Applies, HasNoNumber, IsFull, IsNextNumber, KeepsOthers, ListsOpened};
ghost use Rattle.lobby_machine.specs.Shown.{ListsTouched, Opens, TakesFirst, count_into, filled, dirty_at, unread_of};
ghost use Rattle.lobby_machine.specs.Shown.{is_finished};
ghost use Rattle.lobby_machine.specs.Logins.{AnswersLogin};
ghost use Rattle.lobby_machine.specs.Work.{CountsOn};
ghost use Rattle.lobby_lock.specs.Counts.{position_of};
ghost use Rattle.lobby_lock.specs.Passes.{AddsEvent, lobby_after, made_in, pass_after};

use crate::desk::{Desk, MOST_EVENTS};
use crate::events::Events;
use crate::kept::Kept;
use crate::laid::Laid;
use crate::made::Made;
use crate::pass::{Counts, Pass};
use crate::place::put_back;
use crate::rule::PlacePass;
use command_grammar::Request;
use lobby_machine::{Drained, Lobby, LoginAnswer, OpenError, Wakes};
use lobby_model::Event;
use std::alloc::AllocError;
use std::marker::{Brand, Model};
use std::sync::Wait;

/// What came of a line that was said.
#[derive(Clone, Copy)]
pub struct SaidLine {
    /// The workers whose clients it touched.
    pub wakes: Wakes,
    /// How the lobby answered it, if it was a login of a client that hears.
    pub login: Option<LoginAnswer>,
}

/// A hold of the lobby: nobody else has it. Contracts see its pass, the lobby with its lists of changed
/// clients, and its events so far.
/// It has no `Drop`, so it must be given back.
pub struct Held {
    pub(crate) inner: PlacePass,
    pub(crate) number: u8,
    pub(crate) handed: u8,
    pub(crate) lobby: Lobby,
    pub(crate) events: Events,
    pub(crate) counts: Counts,
}

impl Model for Held {
    ghost use Rattle.lobby_lock.specs.Passes.{ShownHold, shown_hold, IsHolding};

    ghost Value = { ShownHold };

    ghost view = { λ h. shown_hold h.inner h.lobby h.events };

    ghost invariant = { λ h. IsHolding h.inner h.number h.handed h.counts.made h.counts.places.items h.lobby h.events };
}

impl Held {
    /// How many events this hold has. Its lobby is always the plain lobby after all that its worker
    /// has seen, and then these events.
    pub fn count(&self) -> usize
        ensures count { result ≡ length self.now.events }
        ensures stands { self.now.lobby.plain ≡ lobby_after self.now.pass self.now.events }
    {
        self.events.count()
    }

    /// How many events the history has before those of this hold. That number stays at the last value of its type.
    pub fn position(&self) -> u64
        ensures { result ≡ position_of self.now.pass.worker.seen }
    {
        self.events.position()
    }

    /// A client connects, as `Lobby::open` says: one event, unless it is refused.
    pub fn open(&mut self, ip: [u8; 4], home: u8) -> Result<u64, OpenError>
        requires few { length self.old.events < MOST_EVENTS }
        requires home { home ≤ 63 }
        ensures number { IfOk result (λ number. IsNextNumber self.old.lobby number) }
        ensures ok { OnOk result (Opens self.old.lobby self.new.lobby ip home) }
        ensures dirty { IfOk result (λ number. ListsOpened self.old.lobby self.new.lobby home number) }
        ensures event { OnOk result (AddsEvent self.old self.new (event.Open ip home)) }
        ensures told { self.new.lobby.told ≡ self.old.lobby.told }
        ensures full { (result ≡ Err OpenError.Full) ↔ IsFull self.old.lobby }
        ensures no_number { result ≡ Err OpenError.NoNumber → HasNoNumber self.old.lobby }
        ensures no_place { has_place self.old.lobby.plain ≡ false → result ≡ Err OpenError.Memory → ⊥ }
        ensures err { OnErr result (self.new ≡ self.old) }
    {
        match self.lobby.open(ip, home) {
            Ok(number) => {
                self.events.add(Event::Open { ip, home }, number);
                Ok(number)
            }
            Err(error) => Err(error),
        }
    }

    /// A client's line was read as this request, as `Lobby::say` says: one event, also where it
    /// changes nothing. Says too how a login was answered, as `Lobby::login_answer` does. Fails only where memory is
    /// refused, and then nothing changes.
    pub fn say(&mut self, client: u64, request: Request) -> Result<SaidLine, AllocError>
        requires few { length self.old.events < MOST_EVENTS }
        requires kinds { IsTrue (keeps_kinds request.command) }
        ensures ok { OnOk result (Applies self.old.lobby self.new.lobby (event.Say client request)) }
        ensures wakes { IfOk result (λ said. IsWakes self.old.lobby.plain (event.Say client request) said.wakes) }
        ensures login { IfOk result (λ said. AnswersLogin self.old.lobby.plain client request.command said.login) }
        ensures dirty { OnOk result (ListsTouched self.old.lobby self.new.lobby (event.Say client request)) }
        ensures event { OnOk result (AddsEvent self.old self.new (event.Say client request)) }
        ensures told { OnOk result (CountsOn self.old.lobby self.new.lobby (event.Say client request)) }
        ensures err { OnErr result (self.new ≡ self.old) }
        ensures heard { OnErr result (hears self.old.lobby.plain client ≡ true) }
    {
        let login = answer_to(&self.lobby, client, &request);
        match self.lobby.say(client, &request) {
            Ok(wakes) => {
                if self.events.keeps() {
                    self.events.add(Event::Say { client, request }, 0);
                } else {
                    self.events.add_unkept(client, &request);
                    request.discard();
                }
                Ok(SaidLine { wakes, login })
            }
            Err(error) => {
                request.discard();
                Err(error)
            }
        }
    }

    /// A client's connection is closed, as `Lobby::shut` says: one event, also where it changes
    /// nothing. Fails only where memory is refused, and then nothing changes.
    pub fn shut(&mut self, client: u64) -> Result<Wakes, AllocError>
        requires few { length self.old.events < MOST_EVENTS }
        ensures ok { OnOk result (Applies self.old.lobby self.new.lobby (event.Shut client)) }
        ensures wakes { IfOk result (λ wakes. IsWakes self.old.lobby.plain (event.Shut client) wakes) }
        ensures dirty { OnOk result (ListsTouched self.old.lobby self.new.lobby (event.Shut client)) }
        ensures event { OnOk result (AddsEvent self.old self.new (event.Shut client)) }
        ensures told { OnOk result (CountsOn self.old.lobby self.new.lobby (event.Shut client)) }
        ensures err { OnErr result (self.new ≡ self.old) }
        ensures there { OnErr result (is_some (at_number self.old.lobby.plain.clients client) ≡ true) }
    {
        match self.lobby.shut(client) {
            Ok(wakes) => {
                self.events.add(Event::Shut { client }, 0);
                Ok(wakes)
            }
            Err(error) => Err(error),
        }
    }

    /// Takes bytes that a client has not read into a slice, as `Lobby::drain` says: one event, also
    /// where there are none. It takes no memory.
    pub fn drain(&mut self, client: u64, into: &mut [u8]) -> Drained
        requires few { length self.old.events < MOST_EVENTS }
        ensures count { result.count ≡ count_into self.old.lobby.plain client into.old }
        ensures given { into.new ≡ filled self.old.lobby.plain client result.count into.old }
        ensures finished { result.finished ≡ is_finished self.new.lobby.plain client }
        ensures next { Applies self.old.lobby self.new.lobby (event.Drain client (length into.old)) }
        ensures dirty { self.new.lobby.dirty ≡ self.old.lobby.dirty }
        ensures told { self.new.lobby.told ≡ self.old.lobby.told }
        ensures event { AddsEvent self.old self.new (event.Drain client (length into.old)) }
    {
        let count = into.len();
        let drained = self.lobby.drain(client, into);
        self.events.add_drained(client, count, drained.count as u64);
        drained
    }

    /// Takes the first client out of the list of a worker's clients that changed, as `Lobby::next_dirty`
    /// says. It takes no memory, and is no event: what a hold finds in these lists is no part of the
    /// history, and a hold that makes nothing but such calls gives back unchanged.
    pub fn next_dirty(&mut self, home: u8) -> Option<u64>
        requires { home ≤ 63 }
        ensures plain { self.new.lobby.plain ≡ self.old.lobby.plain }
        ensures first { TakesFirst self.old.lobby self.new.lobby home result }
        ensures nobody { IfNone result (dirty_at self.old.lobby home ≡ []) }
        ensures others { KeepsOthers self.old.lobby self.new.lobby home }
        ensures told { self.new.lobby.told ≡ self.old.lobby.told }
        ensures rest { self.new ≡ record self.old { lobby = self.new.lobby } }
    {
        self.lobby.next_dirty(home)
    }

    /// Whether a client hears, as `Lobby::hears` says. It is no event.
    pub fn hears(&self, client: u64) -> bool
        ensures { result ≡ hears self.now.lobby.plain client }
    {
        self.lobby.hears(client)
    }

    /// How much the lobby's events told so far, as `Lobby::told` says.
    pub fn told(&self) -> u64
        ensures { result ≡ self.now.lobby.told }
    {
        self.lobby.told()
    }

    /// How many bytes a client has not read; 0 where it is not there.
    pub fn unread(&self, client: u64) -> usize
        ensures { result ≡ length (unread_of self.now.lobby.plain client) }
    {
        self.lobby.unread(client)
    }

    /// Gives the lobby back as the hold has it, with its lists of changed clients, and ends the hold: its
    /// events join the history under its worker's number, behind all that the worker has seen. Another
    /// worker may then take the lobby. What was kept of the events is let go.
    pub fn give<R: Wait>(self, rt: &R, desk: &Desk) -> Pass
        requires { self.pass.desk ≡ desk.now }
        ensures { result ≡ pass_after self }
    {
        let Held {
            mut inner,
            number,
            handed,
            lobby,
            events,
            counts: Counts { made, places },
        } = self;
        let made = made.saturating_add(events.count() as u64);
        let laid = Laid {
            lobby,
            position: events.position_behind(),
        };
        put_back::<Brand, R>(rt, &desk.place, &mut inner, laid, &events);
        desk.event_count.notify();
        let mut kept = events.into_kept();
        kept.clear();
        Pass {
            inner,
            number,
            handed,
            counts: Counts { made, places },
            kept,
        }
    }

    /// Gives the lobby back, as `give` does. What the hold kept of its events can be looked at before the pass is used.
    pub fn lay_down<R: Wait>(mut self, rt: &R, desk: &Desk) -> Made
        requires { self.pass.desk ≡ desk.now }
        ensures pass { result.pass ≡ pass_after self }
        ensures events { result.events ≡ made_in self }
    {
        let kept = self.events.take_kept();
        let pass = self.give(rt, desk);
        Made { pass, kept }
    }
}

/// How a lobby answers a client's request, if it is a login of a client that hears.
fn answer_to(lobby: &Lobby, client: u64, request: &Request) -> Option<LoginAnswer>
    ensures { AnswersLogin lobby.now.plain client request.now.command result }
{
    lobby.login_answer(client, &request.command)
}
