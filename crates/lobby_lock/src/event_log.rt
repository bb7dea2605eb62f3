//! The list of the events of a hold, which only proofs read. It takes no memory, and its calls do nothing.

ghost use Rattle.std.specs.Prelude.{◌≡◌, ◌++◌, [], ◌∷◌, None};
ghost use Rattle.command_grammar.specs.declared.command.Command.TheVariants as command;
ghost use Rattle.lobby_model.specs.declared.event.Event.TheVariants as event;
ghost use Rattle.lobby_lock.specs.Events.{event_of};

use command_grammar::{Command, Request};
use http_server::Log;
use lobby_model::Event;
use std::marker::Model;
use std::mem::ManuallyDrop;

/// What an event is, but for the request of a line, which is noted beside it where it lies.
#[derive(Clone, Copy)]
enum Kind {
    Open { ip: [u8; 4], home: u8 },
    Say { client: u64 },
    Shut { client: u64 },
    Drain { client: u64, count: usize },
}

/// Events in their order. Contracts see their list.
#[derive(Drop)]
pub(crate) struct EventLog {
    noted: Log<Kind, Request>,
}

impl Model for EventLog {
    ghost use Rattle.std.specs.Prelude.{List, map};
    ghost use Rattle.lobby_model.specs.declared.event.Event.{Event};
    ghost use Rattle.lobby_lock.specs.Events.{event_of};

    ghost Value = { List Event };

    ghost view = { λ log. map event_of log.noted.items };
}

impl EventLog {
    /// No event.
    pub(crate) fn new() -> EventLog
        ensures { result ≡ [] }
    {
        EventLog { noted: Log::new() }
    }

    /// One event more.
    pub(crate) fn and(&self, event: &Event) -> EventLog
        ensures { result ≡ self.now ++ event.now ∷ [] }
    {
        match event {
            Event::Open { ip, home } => self.and_other(Kind::Open {
                ip: *ip,
                home: *home,
            }),
            Event::Say { client, request } => self.and_said(*client, request),
            Event::Shut { client } => self.and_other(Kind::Shut { client: *client }),
            Event::Drain { client, count } => self.and_drained(*client, *count),
        }
    }

    /// One event more: a client's line was read as this request.
    pub(crate) fn and_said(&self, client: u64, request: &Request) -> EventLog
        ensures { result ≡ self.now ++ event.Say client request.now ∷ [] }
    {
        EventLog {
            noted: self.noted.and(&Kind::Say { client }, request),
        }
    }

    /// One event more: a client was drained into a slice of so many bytes.
    pub(crate) fn and_drained(&self, client: u64, count: usize) -> EventLog
        ensures { result ≡ self.now ++ event.Drain client count ∷ [] }
    {
        self.and_other(Kind::Drain { client, count })
    }

    /// One event more, which has no request: a blank one stands for it.
    fn and_other(&self, kind: Kind) -> EventLog
        ensures { result ≡ self.now ++ event_of (kind, record { id = None; command = command.Blank }) ∷ [] }
    {
        // Nothing of it is to be let go.
        let none = ManuallyDrop::new(Request {
            id: None,
            command: Command::Blank,
        });
        EventLog {
            noted: self.noted.and(&kind, &none),
        }
    }
}
