//! The events of a hold. Their list is for proofs alone, but for those that are kept.

ghost use Rattle.std.specs.Prelude.{◌≡◌, ◌+◌, ◌<◌, [], false, length, min};
ghost use Rattle.lobby_model.specs.declared.event.Event.TheVariants as event;
ghost use Rattle.lobby_lock.specs.Counts.{last_count};
ghost use Rattle.lobby_lock.specs.Events.{none_yet, with_event};

use crate::desk::MOST_EVENTS;
use crate::event_log::EventLog;
use crate::kept::Kept;
use command_grammar::Request;
use lobby_model::Event;
use std::marker::Model;
use std::mem;

/// The events that a hold has made, in their order. Contracts see their list, how many the history has before them, and
/// what is kept of them.
#[derive(Drop)]
pub(crate) struct Events {
    position: u64,
    count: usize,
    log: EventLog,
    kept: Kept,
}

impl Model for Events {
    ghost use Rattle.std.specs.Prelude.{◌≡◌, ◌≤◌, length};
    ghost use Rattle.lobby_lock.specs.Events.{Noted};

    ghost Value = { Noted };

    ghost view = { λ e. record { position = e.position; events = e.log; kept = e.kept } };

    ghost invariant = { λ e. (e.count ≡ length e.log) × (length e.kept.events ≤ length e.log) };
}

impl Events {
    /// No event, behind so many in the history.
    pub(crate) fn new(position: u64, kept: Kept) -> Events
        requires { kept.events ≡ [] }
        ensures { result ≡ record { position = position; events = []; kept = kept } }
    {
        Events {
            position,
            count: 0,
            log: EventLog::new(),
            kept,
        }
    }

    /// How many they are.
    pub(crate) fn count(&self) -> usize
        ensures { result ≡ length self.now.events }
    {
        self.count
    }

    /// How many the history has before them.
    pub(crate) fn position(&self) -> u64
        ensures { result ≡ self.now.position }
    {
        self.position
    }

    /// How many the history has with them.
    pub(crate) fn position_behind(&self) -> u64
        ensures { result ≡ min (self.now.position + length self.now.events) last_count }
    {
        self.position.saturating_add(self.count as u64)
    }

    /// Whether they are kept.
    pub(crate) fn keeps(&self) -> bool
        ensures { result ≡ self.now.kept.keeps }
    {
        self.kept.keeps()
    }

    /// One event more, with what it gave.
    pub(crate) fn add(&mut self, event: Event, gain: u64)
        requires { length self.old.events < MOST_EVENTS }
        ensures { self.new ≡ with_event self.old event gain }
    {
        let place = self.position_behind();
        self.log = self.log.and(&event);
        self.count += 1;
        self.kept.add(place, event, gain);
    }

    /// One event more where none is kept: a client's line was read as this request, which stays where it lies.
    pub(crate) fn add_unkept(&mut self, client: u64, request: &Request)
        requires few { length self.old.events < MOST_EVENTS }
        requires unkept { self.old.kept.keeps ≡ false }
        ensures { self.new ≡ with_event self.old (event.Say client request.now) 0 }
    {
        self.log = self.log.and_said(client, request);
        self.count += 1;
    }

    /// One event more: a client was drained into a slice of so many bytes, and so many came.
    pub(crate) fn add_drained(&mut self, client: u64, count: usize, came: u64)
        requires { length self.old.events < MOST_EVENTS }
        ensures { self.new ≡ with_event self.old (event.Drain client count) came }
    {
        let place = self.position_behind();
        self.log = self.log.and_drained(client, count);
        self.count += 1;
        self.kept.add_drained(place, client, count, came);
    }

    /// Takes what is kept of them. From now on none is kept.
    pub(crate) fn take_kept(&mut self) -> Kept
        ensures taken { result ≡ self.old.kept }
        ensures rest { self.new ≡ record self.old { kept = none_yet false } }
    {
        mem::replace(&mut self.kept, Kept::nothing())
    }

    /// What is kept of them.
    pub(crate) fn into_kept(self) -> Kept
        ensures { result ≡ self.kept }
    {
        self.kept
    }
}
