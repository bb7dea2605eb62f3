//! A hall that takes steps of every kind, in channels and a battle, and is asked for its record in between.

ghost use Rattle.std.specs.Prelude.{IfOk, IfSome};
ghost use Rattle.lobby_hall.specs.Standing.{HasHome};

use crate::refusing::deeds::{Deed, Subject, try_deeds};
use crate::refusing::notes::Notes;
use crate::refusing::refuser::Refuser;
use lobby_hall::{Hall, HallError, Record};
use lobby_model::Step;
use lobby_model::schedule::Piece;
use lobby_model::settings::LEAST_OUTBOX_LIMIT;
use std::alloc::{AllocError, Global};
use std::io;
use std::io::Write;
use test_lobby::{book_with_onlookers, settings};

/// The bytes of a text that is copied to who hears it.
const TEXT: usize = 1_900;

/// So many of them are more than a buffer has that is kept, 32,768 bytes.
const TEXTS: u32 = 18;

const DORA_LOGS_IN: &[u8] = b"LOGIN Dora X03MO1qnZdYdgyfeuILPmQ== 0 * TestLobby 1.0\n";

static DEEDS: [(u64, Deed); 32] = [
    (1, Deed::Open),
    (
        1,
        Deed::Send(b"LOGIN Anna X03MO1qnZdYdgyfeuILPmQ== 0 * TestLobby 1.0\r\nJO"),
    ),
    (1, Deed::Take),
    (2, Deed::Open),
    (1, Deed::Record),
    (
        2,
        Deed::Send(b"LOGIN Bert X03MO1qnZdYdgyfeuILPmQ== 0 * TestLobby 1.0\nJOIN main\n#2 SAY ma"),
    ),
    (2, Deed::Take),
    (2, Deed::Take),
    (2, Deed::Read(30)),
    (1, Deed::Send(b"IN main\n")),
    (1, Deed::Take),
    (2, Deed::Take),
    (2, Deed::Send(b"in hello\nPING\n")),
    (2, Deed::Take),
    (1, Deed::Read(90)),
    (2, Deed::Read(200)),
    (3, Deed::Open),
    (3, Deed::Record),
    (
        3,
        Deed::Send(b"LOGIN Cleo X03MO1qnZdYdgyfeuILPmQ== 0 * TestLobby 1.0\n"),
    ),
    (3, Deed::Take),
    (2, Deed::Take),
    (3, Deed::Read(1000)),
    (
        1,
        Deed::Send(
            b"OPENBATTLE 0 0 * 8452 8 -1 0 123 Spring\t104.0\tComet Catcher\tAnna's game\tBA 9.46\nADDBOT Robo 1024 255 KAIK\n",
        ),
    ),
    (1, Deed::Take),
    (1, Deed::Take),
    (2, Deed::Send(b"JOINBATTLE 1 * pw9\n")),
    (2, Deed::Take),
    (1, Deed::Shut),
    (2, Deed::Record),
    (3, Deed::Send(b"EXIT\n")),
    (3, Deed::Take),
    (4, Deed::Send(b"PING\n")),
];

/// An unfinished line of each is ended, and its next lines are taken. Then so many connect that a client 6 is there,
/// however many there were. Emil logs in at it, and is told the users, the battle and its members; then who is in the
/// channels, and what the members of the battle share. Then the others go, and he is told what each was in.
static LOOKS: [(u64, Deed); 22] = [
    (1, Deed::Send(b"\n")),
    (1, Deed::Take),
    (2, Deed::Send(b"\n")),
    (2, Deed::Take),
    (2, Deed::Take),
    (3, Deed::Send(b"CHANNELS\n")),
    (3, Deed::Take),
    (1, Deed::Open),
    (2, Deed::Open),
    (3, Deed::Open),
    (4, Deed::Open),
    (5, Deed::Open),
    (
        6,
        Deed::Send(
            b"LOGIN Emil X03MO1qnZdYdgyfeuILPmQ== 0 * TestLobby 1.0\nCHANNELS\nJOIN main\nJOINBATTLE 1\n",
        ),
    ),
    (6, Deed::Take),
    (6, Deed::Take),
    (6, Deed::Take),
    (6, Deed::Take),
    (1, Deed::Shut),
    (2, Deed::Shut),
    (3, Deed::Shut),
    (4, Deed::Shut),
    (5, Deed::Shut),
];

/// The step of a deed, where it is one.
fn step_of(alloc: Global, client: u64, deed: Deed) -> Result<Option<Step>, AllocError>
    ensures { IfOk result (λ found. IfSome found HasHome) }
{
    let step = match deed {
        Deed::Open => Step::Open {
            ip: [10, 0, 0, 1],
            home: 0,
        },
        Deed::Send(bytes) => Step::Arrive {
            client,
            bytes: Piece::of(Vec::from_slice(alloc, bytes)?),
        },
        Deed::Take => Step::Take { client },
        Deed::Read(count) => Step::Read { client, count },
        Deed::Shut => Step::Shut { client },
        Deed::Record => return Ok(None),
    };
    Ok(Some(step))
}

/// Whether two records have the same of a client.
fn has_alike(record: &Record, other: &Record, client: u64) -> bool {
    record.put(client) == other.put(client) && record.read(client) == other.read(client)
}

/// Whether two records have the same of the clients up to this one.
fn are_alike(record: &Record, other: &Record, last: u64) -> bool {
    (0..=last).all(|client| has_alike(record, other, client))
}

/// Shows what was put for a client, and how much of it was read.
fn show_log<R: Print>(rt: &R, record: &Record, client: u64) -> io::Result<()> {
    println!(rt;
        "client {client}: {} bytes, {} read",
        record.put(client).len(),
        record.read(client).len()
    )?;
    io::writer(rt).write_all(record.put(client))
}

/// A client sends this, and its next line is taken.
fn say(hall: &mut Hall, client: u64, line: Vec<u8>) -> Result<(), HallError> {
    let bytes = Piece::of(line);
    hall.step(&Step::Arrive { client, bytes })?;
    hall.step(&Step::Take { client })
}

/// A line to this user.
fn long_line(alloc: Global, user: &[u8]) -> Result<Vec<u8>, AllocError> {
    let mut line = Vec::from_slice(alloc, b"SAYPRIVATE ")?;
    line.extend_from_slice(user)?;
    line.push(b' ')?;
    let end = line.len().saturating_add(TEXT);
    line.resize(end, b'x')?;
    line.push(b'\n')?;
    Ok(line)
}

/// Dora connects under this number, logs in, and says more to each user than a buffer has that is kept. She reads in
/// between, or her own outbox would pass its limit.
fn say_all(hall: &mut Hall, alloc: Global, dora: u64) -> Result<(), HallError> {
    hall.step(&Step::Open {
        ip: [10, 0, 0, 4],
        home: 0,
    })?;
    say(hall, dora, Vec::from_slice(alloc, DORA_LOGS_IN)?)?;
    for user in [b"Anna", b"Bert", b"Cleo"] {
        for _ in 0..TEXTS {
            say(hall, dora, long_line(alloc, user)?)?;
        }
        hall.step(&Step::Read {
            client: dora,
            count: LEAST_OUTBOX_LIMIT,
        })?;
    }
    Ok(())
}

/// A client reads all that waits for it.
fn reads_all(hall: &mut Hall, client: u64) -> bool {
    let count = LEAST_OUTBOX_LIMIT;
    hall.step(&Step::Read { client, count }).is_ok()
}

/// A hall under trial.
#[derive(Drop)]
struct TriedHall(Hall);

impl Subject for TriedHall {
    fn new(alloc: Global) -> Option<TriedHall> {
        let accounts = book_with_onlookers(alloc)?;
        match settings(alloc, LEAST_OUTBOX_LIMIT) {
            Some(settings) => Some(TriedHall(Hall::new(alloc, settings, accounts).ok()?)),
            None => {
                drop(accounts);
                None
            }
        }
    }

    fn act(&mut self, alloc: Global, client: u64, deed: Deed) -> bool {
        match step_of(alloc, client, deed) {
            Ok(Some(step)) => self.0.step(&step) != Err(HallError::Memory),
            Ok(None) => self.0.record().is_ok(),
            Err(_) => false,
        }
    }

    fn use_up(&mut self, alloc: Global) -> bool {
        let dora = self.0.last_client().saturating_add(1);
        let is_said = say_all(&mut self.0, alloc, dora).is_ok();
        is_said && (1..=dora).all(|client| reads_all(&mut self.0, client))
    }

    fn is_as(&mut self, other: &mut TriedHall) -> bool {
        let last = self.0.last_client();
        let are_ready = (0..=last).all(|client| self.0.ready(client) == other.0.ready(client));
        if !are_ready || other.0.last_client() != last {
            return false;
        }
        match (self.0.record(), other.0.record()) {
            (Ok(record), Ok(theirs)) => are_alike(record, theirs, last),
            _ => false,
        }
    }

    fn show<R: Print>(&mut self, rt: &R) -> io::Result<()> {
        let last = self.0.last_client();
        match self.0.record() {
            Ok(record) => {
                for client in 1..=last {
                    show_log(rt, record, client)?;
                }
                Ok(())
            }
            Err(_) => println!(rt; "no record"),
        }
    }
}

pub fn try_out<R: Print + AllocGlobal>(
    rt: &R,
    refuser: &mut Refuser,
    notes: &mut Notes,
) -> io::Result<()> {
    try_deeds::<TriedHall, R>(rt, &DEEDS, &LOOKS, refuser, notes)
}
