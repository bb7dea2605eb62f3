//! What a schedule leaves of each client.

ghost use Rattle.std.specs.Prelude.{◌≡◌, ℕ, ◌+◌, ◌-◌, ◌<◌, ◌≤◌, [], ◌∷◌, ◌++◌, length, take, OnOk, IfSome, None};
ghost use Rattle.std.specs.Prelude.{is_ok, if◌then◌else◌};
ghost use Rattle.std.specs.Option.{option_copied};
ghost use Rattle.lobby_machine.specs.Shown.{dirty_at, unread_of};
ghost use Rattle.lobby_hall.specs.ByClient.{of_client};
ghost use Rattle.lobby_hall.specs.Record.{log_at};
ghost use Rattle.lobby_hall.specs.Copied.{IsWithin, caught_up, changed_at, completed, completed_log, no_log, read_on};
ghost use Rattle.lobby_hall.specs.Following.{Follows, IsFull, StillFollows};

use crate::index::index_of;
use lobby_machine::Lobby;
use std::alloc::{AllocError, Global};
use std::marker::Model;

/// The bytes put to one client, and how many of them it read: those at the front.
#[derive(Drop)]
struct Log {
    put: Vec<u8>,
    read: usize,
}

impl Model for Log {
    ghost use Rattle.std.specs.Prelude.{◌≤◌, take, vec_len};
    ghost use Rattle.lobby_hall.specs.Record.{Log as Kept};

    ghost Value = { Kept };

    ghost view = { λ l. record { put = l.put.items; read = take l.read l.put.items } };

    ghost invariant = { λ l. l.read ≤ vec_len l.put };
}

impl Log {
    /// Copies the unread bytes of the client that the log lacks.
    fn catch_up(&mut self, lobby: &Lobby, client: u64) -> Result<(), AllocError>
        ensures log { self.new ≡ (if is_ok result then completed_log self.old (unread_of lobby.now.plain client)
            else self.old) }
        ensures within { length self.old.read ≤ length self.old.put }
    {
        let had = self.put.len();
        let recorded = had - self.read;
        let unread = lobby.unread(client);
        if recorded < unread {
            self.put.resize(had + (unread - recorded), 0)?;
            let _ = lobby.copy_unread(client, recorded, &mut self.put[had..]);
        }
        Ok(())
    }

    /// Notes that the client read so many bytes more.
    fn note_read(&mut self, count: usize)
        ensures log { self.new ≡ read_on count self.old }
        ensures none { count ≡ 0 → self.new ≡ self.old }
    {
        let left = self.put.len() - self.read;
        self.read += count.min(left);
    }
}

/// The record of a schedule: for each client all bytes that were put to it, and those that it read.
#[derive(Drop)]
pub struct Record {
    // of client 1, 2, 3 and so on
    logs: Vec<Log>,
}

impl Model for Record {
    ghost use Rattle.std.specs.Prelude.{List};
    ghost use Rattle.lobby_hall.specs.Record.{Log as Kept};

    ghost Value = { List Kept };

    ghost view = { λ r. r.logs.items };
}

impl Record {
    /// The record of no event.
    pub(crate) fn new(alloc: Global) -> Record
        ensures { result ≡ [] }
    {
        Record {
            logs: Vec::new(alloc),
        }
    }

    /// All bytes that were put to a client, none for a number that no client bore.
    pub fn put(&self, client: u64) -> &[u8]
        ensures { result.now ≡ (log_at self.now client).put }
    {
        match self.log(client) {
            Some(log) => &log.put,
            None => &[],
        }
    }

    /// All bytes that a client read, none for a number that no client bore.
    pub fn read(&self, client: u64) -> &[u8]
        ensures { result.now ≡ (log_at self.now client).read }
    {
        match self.log(client) {
            Some(log) => &log.put[..log.read],
            None => &[],
        }
    }

    /// The log of a client.
    fn log(&self, client: u64) -> Option<&Log>
        ensures { option_copied result ≡ of_client self.now client }
    {
        self.logs.get(index_of(client)?)
    }

    /// Begins the log of the next client.
    pub(crate) fn begin(&mut self) -> Result<(), AllocError>
        ensures { self.new ≡ (if is_ok result then self.old ++ no_log ∷ [] else self.old) }
    {
        let alloc = *self.logs.allocator();
        self.logs.push(Log {
            put: Vec::new(alloc),
            read: 0,
        })?;
        Ok(())
    }

    /// Takes back the last log that was begun.
    pub(crate) fn take_back(&mut self)
        ensures { self.new ≡ take (length self.old - 1) self.old }
    {
        let _ = self.logs.pop();
    }

    /// Copies the unread bytes of a client that its log lacks. The completed record stays as it is.
    pub(crate) fn catch_up(&mut self, lobby: &Lobby, client: u64) -> Result<(), AllocError>
        ensures log { self.new ≡ (if is_ok result then caught_up self.old lobby.now.plain client else self.old) }
        ensures within { IfSome (of_client self.old client) IsWithin }
    {
        let Some(index) = index_of(client) else {
            return Ok(());
        };
        if index >= self.logs.len() {
            return Ok(());
        }
        let log = &mut self.logs[index];
        log.catch_up(lobby, client)
    }

    /// Copies the unread bytes that the log of the client lacks that is behind, if one is.
    fn catch_up_behind(&mut self, lobby: &Lobby, behind: &mut Option<u64>) -> Result<(), AllocError>
        ensures follows { StillFollows lobby.now behind.old self.old lobby.now behind.new self.new }
        ensures none { OnOk result (behind.new ≡ None) }
    {
        if let Some(client) = *behind {
            self.catch_up(lobby, client)?;
            *behind = None;
        }
        Ok(())
    }

    /// Copies the unread bytes of the changed clients of one worker that their logs lack.
    fn catch_up_home(
        &mut self,
        lobby: &mut Lobby,
        behind: &mut Option<u64>,
        home: u8,
    ) -> Result<(), AllocError>
        requires home { home ≤ 63 }
        requires none { behind.old ≡ None }
        ensures plain { lobby.new.plain ≡ lobby.old.plain }
        ensures follows { StillFollows lobby.old behind.old self.old lobby.new behind.new self.new }
        ensures none { OnOk result (behind.new ≡ None) }
        ensures served { OnOk result (dirty_at lobby.new home ≡ []) }
        ensures others { OnOk result ((worker : ℕ) → worker ≤ 63 → dirty_at lobby.old worker ≡ []
            → dirty_at lobby.new worker ≡ []) }
    {
        while let Some(client) = lobby.next_dirty(home) {
            *behind = Some(client);
            self.catch_up_behind(lobby, behind)?;
        }
        Ok(())
    }

    /// Copies the unread bytes that logs lack: those of the client that is behind, and of the changed
    /// clients of the first workers, so many. Where memory is refused, the rest stays as it was.
    pub(crate) fn catch_up_changed(
        &mut self,
        lobby: &mut Lobby,
        behind: &mut Option<u64>,
        homes: u8,
    ) -> Result<(), AllocError>
        requires { Follows homes lobby.old behind.old self.old }
        ensures plain { lobby.new.plain ≡ lobby.old.plain }
        ensures follows { Follows homes lobby.new behind.new self.new }
        ensures kept { completed self.new lobby.old.plain ≡ completed self.old lobby.old.plain }
        ensures all { OnOk result (self.new ≡ completed self.old lobby.old.plain) }
        ensures full { OnOk result ((c : ℕ) → IsFull self.new lobby.new.plain c) }
    {
        self.catch_up_behind(lobby, behind)?;
        for home in 0..homes {
            self.catch_up_home(lobby, behind, home)?;
        }
        Ok(())
    }

    /// Notes that a client read so many bytes more.
    pub(crate) fn note_read(&mut self, client: u64, count: usize)
        ensures log { self.new ≡ changed_at (read_on count) self.old client }
        ensures none { count ≡ 0 → self.new ≡ self.old }
    {
        let Some(index) = index_of(client) else {
            return;
        };
        if index < self.logs.len() {
            let log = &mut self.logs[index];
            log.note_read(count);
        }
    }
}
