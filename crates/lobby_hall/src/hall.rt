//! A hall: a lobby, the sessions of its clients, and the record of what was put for each.

ghost use Rattle.std.specs.Prelude.{◌≡◌, ◌≢◌, ℕ, ◌≤◌, List, [], ◌∷◌, ◌++◌, IfOk, IsTrue, OnOk, OnErr, None, length};
ghost use Rattle.std.specs.List.{AllByRecursion};
ghost use Rattle.account_book.specs.Account.{Account};
ghost use Rattle.command_grammar.specs.Kinds.{keeps_kinds};
ghost use Rattle.lobby_model.specs.declared.event.Event.{Event};
ghost use Rattle.lobby_model.specs.declared.event.Event.TheVariants as event;
ghost use Rattle.lobby_model.specs.declared.schedule.Step.{Step};
ghost use Rattle.lobby_model.specs.declared.schedule.Step.TheVariants as step;
ghost use Rattle.lobby_model.specs.Configuration.{Configuration};
ghost use Rattle.lobby_model.specs.Next.{next};
ghost use Rattle.lobby_model.specs.Sessions.{has_place};
ghost use Rattle.lobby_model.specs.Schedule.{World, new_world};
ghost use Rattle.lobby_hall.specs.Copied.{IsWithin, changed_at, completed};
ghost use Rattle.client_session.specs.OneSession.{Accepted};
ghost use Rattle.lobby_hall.specs.Schedules.{IsRecordOf, StandsFor};
ghost use Rattle.lobby_hall.specs.Wanting.{MayNeed};
ghost use Rattle.lobby_machine.specs.Shown.{unread_of};
ghost use Rattle.lobby_hall.specs.Standing.{HasHome, Stands, TakesStep, is_ready, session_at};

use crate::record::Record;
use crate::sessions::{accept, close, feed, is_ready, next_of};
use account_book::AccountBook;
use client_session::{Next, Session};
use command_grammar::Request;
use lobby_machine::Lobby;
use lobby_model::{Settings, Step};
use std::alloc::{AllocError, Global};
use std::marker::Model;
use thiserror::Error;

/// Why a hall was not made, or did not take a step or give its record.
#[derive(Clone, Copy, PartialEq, Eq, Debug, Error)]
pub enum HallError {
    /// Memory was refused. A hall that is kept is as it was before.
    #[error("no memory")]
    Memory,
}

impl From<AllocError> for HallError {
    ghost use Rattle.std.specs.Prelude.{◌≡◌};
    ghost use Rattle.lobby_hall.specs.declared.hall.HallError.TheVariants.{Memory};

    ghost from_gives = { λ _ e. e ≡ Memory };

    fn from(_: AllocError) -> HallError {
        HallError::Memory
    }
}

/// A lobby that takes the steps of a schedule, and a record of the bytes put for each client.
#[derive(Drop)]
pub struct Hall {
    alloc: Global,
    lobby: Lobby,
    // of client 1, 2, 3 and so on; none of a client that is removed
    sessions: Vec<Option<Session>>,
    // may lack bytes that still wait in the lobby, those of clients in its lists of changed ones
    logs: Record,
    // taken out of its list, but its log may lack bytes as well, since memory was refused
    behind: Option<u64>,
    // all clients are served by the first workers, so many
    homes: u8,
    // where the bytes that a client reads go
    drained: Vec<u8>,
}

impl Model for Hall {
    ghost use Rattle.lobby_hall.specs.Copied.{completed};
    ghost use Rattle.lobby_hall.specs.Following.{Follows};
    ghost use Rattle.lobby_hall.specs.Standing.{Kept};

    ghost Value = { Kept };

    ghost view = { λ h. record {
      lobby = h.lobby.plain;
      sessions = h.sessions.items;
      record_so_far = completed h.logs
          h.lobby.plain;
    } };

    ghost invariant = { λ h. Follows h.homes h.lobby h.behind h.logs };
}

impl Hall {
    ghost use Rattle.std.specs.Borrow.{sem};
    ghost use Rattle.std.specs.Io.BufRead.{Rests};
    ghost use Rattle.lobby_hall.specs.contracts.hall.Hall.{the_row};

    /// A hall with an empty lobby, to which one may log in under these accounts. Fails only where
    /// memory is refused.
    pub fn new(alloc: Global, settings: Settings, accounts: AccountBook) -> Result<Hall, HallError>
        ensures stands { IfOk result (λ hall. Stands hall settings accounts [] (new_world settings accounts)) }
        ensures schedule { IfOk result (λ hall. StandsFor hall settings accounts []) }
    {
        Ok(Hall {
            alloc,
            lobby: Lobby::new(alloc, settings, accounts)?,
            sessions: Vec::new(alloc),
            logs: Record::new(alloc),
            behind: None,
            homes: 0,
            drained: Vec::new(alloc),
        })
    }

    /// A client connects; an open that the lobby refuses does nothing.
    fn open(&mut self, ip: [u8; 4], home: u8) -> Result<(), AllocError>
        requires { home ≤ 63 }
        ensures ok { OnOk result (TakesStep self.old self.new (step.Open ip home)) }
        ensures err { OnErr result (self.new ≡ self.old) }
        ensures wanted { OnErr result (MayNeed self.old (step.Open ip home)) }
    {
        if !self.lobby.has_place() {
            return Ok(());
        }
        self.logs.begin()?;
        let session = Session::new(self.alloc, self.lobby.last_client() + 1);
        match self.sessions.push(Some(session)) {
            Ok(()) => {}
            Err(_) => {
                self.logs.take_back();
                return Err(AllocError);
            }
        }
        match self.lobby.open(ip, home) {
            Ok(_) => {
                self.homes = self.homes.max(home + 1);
                Ok(())
            }
            Err(_) => {
                let _ = self.sessions.pop();
                self.logs.take_back();
                Err(AllocError)
            }
        }
    }

    /// Bytes come from a client.
    fn arrive(&mut self, client: u64, bytes: &[u8]) -> Result<(), AllocError>
        ensures ok { OnOk result (TakesStep self.old self.new (step.Arrive client bytes.now)) }
        ensures err { OnErr result (self.new ≡ self.old) }
        ensures wanted { OnErr result (MayNeed self.old (step.Arrive client bytes.now)) }
    {
        feed(&mut self.sessions, client, bytes)
    }

    /// The next line of a client is taken.
    fn take(&mut self, client: u64) -> Result<(), AllocError>
        ensures ok { OnOk result (TakesStep self.old self.new (step.Take client)) }
        ensures err { OnErr result (self.new ≡ self.old) }
        ensures wanted { OnErr result (MayNeed self.old (step.Take client)) }
    {
        match next_of(&self.sessions, client)? {
            Next::Nothing => Ok(()),
            Next::Spoilt => self.remove(client),
            Next::Line(request) => {
                let said = self.say(client, &request);
                request.discard();
                said
            }
        }
    }

    /// The lobby is told the request, and the line that asked for it is accepted.
    fn say(&mut self, client: u64, request: &Request) -> Result<(), AllocError>
        requires { IsTrue (keeps_kinds request.now.command) }
        ensures lobby { OnOk result (self.new.lobby ≡ next self.old.lobby (event.Say client request.now)) }
        ensures accepted { OnOk result (Accepted (session_at self.old.sessions client)
            (session_at self.new.sessions client)) }
        ensures others { (q : ℕ) → q ≢ client → session_at self.new.sessions q ≡ session_at self.old.sessions q }
        ensures same_length { length self.new.sessions ≡ length self.old.sessions }
        ensures logs { OnOk result (self.new.record_so_far ≡ completed self.old.record_so_far self.new.lobby) }
        ensures within { OnOk result (AllByRecursion IsWithin self.old.record_so_far) }
        ensures err { OnErr result (self.new ≡ self.old) }
    {
        self.logs
            .catch_up_changed(&mut self.lobby, &mut self.behind, self.homes)?;
        let _ = self.lobby.say(client, request)?;
        accept(&mut self.sessions, client);
        Ok(())
    }

    /// A client is removed.
    fn remove(&mut self, client: u64) -> Result<(), AllocError>
        ensures lobby { OnOk result (self.new.lobby ≡ next self.old.lobby (event.Shut client)) }
        ensures sessions { OnOk result (self.new.sessions ≡ changed_at (λ _. None) self.old.sessions client) }
        ensures logs { OnOk result (self.new.record_so_far ≡ completed self.old.record_so_far self.new.lobby) }
        ensures within { OnOk result (AllByRecursion IsWithin self.old.record_so_far) }
        ensures err { OnErr result (self.new ≡ self.old) }
    {
        self.logs
            .catch_up_changed(&mut self.lobby, &mut self.behind, self.homes)?;
        let _ = self.lobby.shut(client)?;
        close(&mut self.sessions, client);
        Ok(())
    }

    /// A client reads up to `count` of the bytes that wait for it.
    fn read(&mut self, client: u64, count: usize) -> Result<(), AllocError>
        ensures ok { OnOk result (TakesStep self.old self.new (step.Read client count)) }
        ensures err { OnErr result (self.new ≡ self.old) }
        ensures wanted { OnErr result (MayNeed self.old (step.Read client count)) }
    {
        if !self.lobby.has_client(client) {
            return Ok(());
        }
        let wanted = count.min(self.lobby.unread(client));
        self.drained.clear();
        self.drained.resize(wanted, 0)?;
        self.logs.catch_up(&self.lobby, client)?;
        let drained = self.lobby.drain(client, &mut self.drained);
        self.logs.note_read(client, drained.count);
        Ok(())
    }

    /// A client's connection is closed.
    fn shut(&mut self, client: u64) -> Result<(), AllocError>
        ensures ok { OnOk result (TakesStep self.old self.new (step.Shut client)) }
        ensures err { OnErr result (self.new ≡ self.old) }
        ensures wanted { OnErr result (MayNeed self.old (step.Shut client)) }
    {
        if !self.lobby.has_client(client) {
            return Ok(());
        }
        self.remove(client)
    }

    /// Takes one step of a schedule, in which an open names a worker from 0 to 63 as home. A step for a
    /// client that is not open, and an open that the lobby refuses, do nothing. Fails only where memory is
    /// refused, and then nothing changes. A step that does nothing, bytes that are none, and a take where neither
    /// a whole line nor a spoilt place is next, ask for none.
    pub fn step(&mut self, step: &Step) -> Result<(), HallError>
        requires { HasHome step.now }
        ensures ok { OnOk result (TakesStep self.old self.new step.now) }
        ensures schedule { OnOk result ((settings : Configuration) (accounts : List Account) (steps : List Step)
            → StandsFor self.old settings accounts steps
            → StandsFor self.new settings accounts (steps ++ step.now ∷ [])) }
        ensures err { OnErr result (self.new ≡ self.old) }
        ensures wanted { OnErr result (MayNeed self.old step.now) }
    {
        self.take_step(step)?;
        Ok(())
    }

    fn take_step(&mut self, step: &Step) -> Result<(), AllocError>
        requires { HasHome step.now }
        ensures ok { OnOk result (TakesStep self.old self.new step.now) }
        ensures err { OnErr result (self.new ≡ self.old) }
        ensures wanted { OnErr result (MayNeed self.old step.now) }
    {
        match step {
            Step::Open { ip, home } => self.open(*ip, *home),
            Step::Arrive { client, bytes } => self.arrive(*client, bytes.as_slice()),
            Step::Take { client } => self.take(*client),
            Step::Read { client, count } => self.read(*client, *count),
            Step::Shut { client } => self.shut(*client),
        }
    }

    /// Whether a take of a client's next line would give an event: a whole line or a spoilt place is next.
    pub fn ready(&self, client: u64) -> bool
        ensures { (settings : Configuration) (accounts : List Account) (events : List Event) (world : World)
            → Stands self.now settings accounts events world → result ≡ is_ready world client }
    {
        is_ready(&self.sessions, client)
    }

    /// Whether an open would let a client in.
    pub fn has_place(&self) -> bool
        ensures { result ≡ has_place self.now.lobby }
    {
        self.lobby.has_place()
    }

    /// How many bytes wait for a client: none, where it is not open.
    pub fn unread(&self, client: u64) -> usize
        ensures { result ≡ length (unread_of self.now.lobby client) }
    {
        self.lobby.unread(client)
    }

    /// The number of the last client that was opened, 0 before the first.
    pub fn last_client(&self) -> u64
        ensures { result ≡ self.now.lobby.last_client }
    {
        self.lobby.last_client()
    }

    /// The record of the steps so far. Fails only where memory is refused, and then nothing changes.
    pub fn record(&mut self) -> Result<&Record, HallError>
        ensures* stays { sem 𝓛 (Rests the_row self.entry (λ hall. hall ≡ self.old)) }
        ensures value { IfOk result (λ logs. logs.now ≡ self.old.record_so_far) }
    {
        self.logs
            .catch_up_changed(&mut self.lobby, &mut self.behind, self.homes)?;
        Ok(&self.logs)
    }

    /// The record of the steps, which the hall gives up. Fails only where memory is refused; the
    /// record is lost then.
    pub fn into_record(mut self) -> Result<Record, HallError>
        ensures { IfOk result (λ logs. logs ≡ self.record_so_far) }
    {
        let caught_up = self
            .logs
            .catch_up_changed(&mut self.lobby, &mut self.behind, self.homes);
        let Hall {
            alloc: _,
            lobby,
            sessions,
            logs,
            behind: _,
            homes: _,
            drained: _,
        } = self;
        drop(lobby);
        drop(sessions);
        match caught_up {
            Ok(()) => Ok(logs),
            Err(refused) => {
                drop(logs);
                Err(HallError::from(refused))
            }
        }
    }
}

/// The record of a whole schedule: a lobby with these settings, to which one may log in under these
/// accounts, takes its steps in order, in which each open names a worker from 0 to 63 as home. Fails only
/// where memory is refused.
pub fn run(
    alloc: Global,
    settings: Settings,
    accounts: AccountBook,
    steps: &[Step],
) -> Result<Record, HallError>
    requires { AllByRecursion HasHome steps.now }
    ensures { IfOk result (λ logs. IsRecordOf logs settings accounts steps.now) }
{
    let mut hall = Hall::new(alloc, settings, accounts)?;
    match take_steps(&mut hall, steps) {
        Ok(()) => hall.into_record(),
        Err(refused) => {
            drop(hall);
            Err(refused)
        }
    }
}

/// A hall takes steps in their order. Where memory is refused, it has taken some of the first ones.
fn take_steps(hall: &mut Hall, steps: &[Step]) -> Result<(), HallError>
    requires { AllByRecursion HasHome steps.now }
    ensures { OnOk result ((settings : Configuration) (accounts : List Account)
        → StandsFor hall.old settings accounts [] → StandsFor hall.new settings accounts steps.now) }
{
    for step in steps {
        hall.step(step)?;
    }
    Ok(())
}
