//! What operators are told of.

ghost use Rattle.std.specs.Prelude.{◌≡◌};
ghost use Rattle.server_log.specs.Fields.{cause_word, denial_word, record_end_word, refusal_word, reserve_word};
ghost use Rattle.server_log.specs.Fields.{word_of};

use crate::text::ShortText;

/// Why a login was denied.
#[derive(Clone, Copy, PartialEq, Eq, Debug)]
pub enum Denial {
    /// There is no such account that is not disabled, or the password is another.
    Invalid,
    /// A user of that name is logged in.
    InUse,
    /// This client is logged in.
    Again,
}

/// Why a user was logged out.
#[derive(Clone, Copy, PartialEq, Eq, Debug)]
pub enum Cause {
    /// The client said EXIT.
    Exit,
    /// The client ended its connection.
    Closed,
    /// More was to wait for the client than may wait unread.
    TooSlow,
    /// The client sent a line over the limit.
    LineTooLong,
    /// The connection failed.
    Fault,
    /// The server stopped.
    Stop,
}

/// Why a connection was refused, or has to wait.
#[derive(Clone, Copy, PartialEq, Eq, Debug)]
pub enum Refusal {
    /// There are as many clients as a lobby takes.
    Full,
    /// The system gives no file for it. It waits, and so do those behind it; it is told once until one is accepted.
    Files,
    /// Memory was refused, to the server or by the system.
    Memory,
    /// The system does not accept it for another cause. It is told once until one is accepted.
    System,
    /// Its worker has not looked after those that wait for it.
    Busy,
    /// It comes from a front, and does not begin with the line by which a front says for whom it is.
    Front,
}

/// How the reserve of memory stands.
#[derive(Clone, Copy, PartialEq, Eq, Debug)]
pub enum ReserveState {
    /// It was given up for a log out, and memory is refused to it.
    Gone,
    /// It is there again.
    Whole,
}

/// Why a record ended.
#[derive(Clone, Copy, PartialEq, Eq, Debug)]
pub enum RecordEnd {
    /// The server stopped.
    Stop,
    /// Events came faster than they were written.
    Full,
    /// A file took nothing more.
    Disk,
    /// Memory was refused.
    Memory,
    /// The history has come to the last place that can be told.
    LastPlace,
    /// A number of a client or of bytes has more than 32 bits.
    Number,
    /// No line says the event.
    Line,
}

/// What a server is that has started.
#[derive(Drop)]
pub struct Started {
    /// The version of the program.
    pub version: &'static str,
    /// Where it listens: an address, a colon and a port.
    pub address: ShortText,
    /// How many threads serve clients.
    pub workers: u32,
    /// The most clients at a time.
    pub client_limit: u64,
    /// The most bytes that may wait unread for a client.
    pub outbox_limit: u64,
    /// How many accounts can log in.
    pub accounts: u64,
}

/// Something that operators are told of.
#[derive(Drop)]
pub enum Happening {
    /// The server listens.
    Started(Started),
    /// The server writes a record into this folder.
    RecordStarted {
        folder: ShortText,
    },
    /// The record has ended. This is the last place of the history that is known to be written, if there is one.
    RecordEnded {
        reason: RecordEnd,
        place: Option<u64>,
    },
    /// A client logged in, which connected from this address.
    Login {
        client: u64,
        name: ShortText,
        ip: [u8; 4],
    },
    /// A client was not let in, which connected from this address.
    Denied {
        client: u64,
        name: ShortText,
        reason: Denial,
        ip: [u8; 4],
    },
    /// A client has gone that was not let in so often more than was told of it.
    DeniedMore {
        client: u64,
        count: u64,
        ip: [u8; 4],
    },
    /// A user is no longer logged in.
    Logout {
        client: u64,
        name: ShortText,
        cause: Cause,
    },
    /// A connection was refused, from this address if it is known.
    Refused {
        reason: Refusal,
        ip: Option<[u8; 4]>,
    },
    /// Memory was refused to a worker, which tries again. It is told once until the worker gets what it asks for.
    MemoryRefused {
        worker: u8,
    },
    /// The reserve of memory is gone, or there again. Each is told once in turn.
    Reserve(ReserveState),
    /// The server stopped, and this worker made so many events, or more than are counted.
    Stopped {
        worker: u8,
        events: Option<u64>,
    },
    /// So many of these were not told, since there was no place for them.
    Lost(u64),
}

impl Started {
    /// The same once more.
    pub fn copy(&self) -> Started
        ensures { result ≡ self.now }
    {
        Started {
            version: self.version,
            address: self.address.copy(),
            workers: self.workers,
            client_limit: self.client_limit,
            outbox_limit: self.outbox_limit,
            accounts: self.accounts,
        }
    }
}

impl Denial {
    /// The word of a line.
    pub(crate) fn word(self) -> &'static str
        ensures { result.now ≡ denial_word self }
    {
        match self {
            Denial::Invalid => "invalid",
            Denial::InUse => "in_use",
            Denial::Again => "again",
        }
    }
}

impl Cause {
    /// The word of a line.
    pub(crate) fn word(self) -> &'static str
        ensures { result.now ≡ cause_word self }
    {
        match self {
            Cause::Exit => "exit",
            Cause::Closed => "closed",
            Cause::TooSlow => "too_slow",
            Cause::LineTooLong => "line_too_long",
            Cause::Fault => "fault",
            Cause::Stop => "stop",
        }
    }
}

impl Refusal {
    /// The word of a line.
    pub(crate) fn word(self) -> &'static str
        ensures { result.now ≡ refusal_word self }
    {
        match self {
            Refusal::Full => "full",
            Refusal::Files => "files",
            Refusal::Memory => "memory",
            Refusal::System => "system",
            Refusal::Busy => "busy",
            Refusal::Front => "front",
        }
    }
}

impl RecordEnd {
    /// The word of a line.
    pub(crate) fn word(self) -> &'static str
        ensures { result.now ≡ record_end_word self }
    {
        match self {
            RecordEnd::Stop => "stop",
            RecordEnd::Full => "full",
            RecordEnd::Disk => "disk",
            RecordEnd::Memory => "memory",
            RecordEnd::LastPlace => "last_place",
            RecordEnd::Number => "number",
            RecordEnd::Line => "line",
        }
    }
}

impl ReserveState {
    /// The word of a line.
    pub(crate) fn word(self) -> &'static str
        ensures { result.now ≡ reserve_word self }
    {
        match self {
            ReserveState::Gone => "gone",
            ReserveState::Whole => "whole",
        }
    }
}

impl Happening {
    /// The word with which its line begins.
    pub(crate) fn word(&self) -> &'static str
        ensures { result.now ≡ word_of self.now }
    {
        match self {
            Happening::Started(_) => "started",
            Happening::RecordStarted { .. } => "record_started",
            Happening::RecordEnded { .. } => "record_ended",
            Happening::Login { .. } => "login",
            Happening::Denied { .. } => "denied",
            Happening::DeniedMore { .. } => "denied_more",
            Happening::Logout { .. } => "logout",
            Happening::Refused { .. } => "refused",
            Happening::MemoryRefused { .. } => "memory_refused",
            Happening::Reserve(_) => "reserve",
            Happening::Stopped { .. } => "stopped",
            Happening::Lost(_) => "log",
        }
    }
}
