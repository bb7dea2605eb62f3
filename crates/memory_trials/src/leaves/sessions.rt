//! A framer and a session that are fed lines, some of them in pieces.

use crate::refusing::deeds::{Deed, Subject, try_deeds};
use crate::refusing::notes::Notes;
use crate::refusing::refuser::Refuser;
use client_session::{Next, Session};
use command_grammar::Command;
use line_framer::{FeedError, Framer};
use line_words::Pair;
use std::alloc::{AllocError, Global};
use std::io;
use std::io::Write;

static DEEDS: [(u64, Deed); 12] = [
    (1, Deed::Send(b"#7 JOIN ma")),
    (1, Deed::Take),
    (
        1,
        Deed::Send(b"in\r\nSAY main  hello there, this is long\n#8 PI"),
    ),
    (1, Deed::Take),
    (
        1,
        Deed::Send(
            b"NG\nSETSCRIPTTAGS a=1\tb=2\tc=3\tand more of them, so that what is kept grows\n",
        ),
    ),
    (1, Deed::Take),
    (1, Deed::Send(b"JOIN other\n")),
    (1, Deed::Take),
    (1, Deed::Take),
    (1, Deed::Send(&[b'x'; 8191])),
    (1, Deed::Send(b"yz\nPING\n")),
    (1, Deed::Send(b"PING\n")),
];

/// An unfinished line is ended, and the lines that are there are taken, one after another.
static LOOKS: [(u64, Deed); 4] = [
    (1, Deed::Send(b"\n")),
    (1, Deed::Take),
    (1, Deed::Take),
    (1, Deed::Take),
];

/// A framer under trial.
#[derive(Drop)]
struct TriedFramer(Framer);

impl Subject for TriedFramer {
    fn new(alloc: Global) -> Option<TriedFramer> {
        Some(TriedFramer(Framer::new(alloc, 8192)))
    }

    fn act(&mut self, alloc: Global, client: u64, deed: Deed) -> bool {
        let _ = (alloc, client);
        match deed {
            Deed::Send(bytes) => self.0.feed(bytes) != Err(FeedError::Memory),
            Deed::Take => {
                if self.0.peek().is_some() {
                    self.0.drop_line();
                }
                true
            }
            Deed::Open | Deed::Read(_) | Deed::Shut | Deed::Record => true,
        }
    }

    fn use_up(&mut self, alloc: Global) -> bool {
        let _ = alloc;
        true
    }

    fn is_as(&mut self, other: &mut TriedFramer) -> bool {
        self.0.is_spoilt() == other.0.is_spoilt()
            && self.0.next_len() == other.0.next_len()
            && self.0.peek() == other.0.peek()
    }

    fn show<R: Print>(&mut self, rt: &R) -> io::Result<()> {
        println!(rt; "a framer, spoilt: {}", self.0.is_spoilt())?;
        for _ in 0..9 {
            let Some(line) = self.0.peek() else {
                return Ok(());
            };
            io::writer(rt).write_all(line)?;
            println!(rt; "")?;
            self.0.drop_line();
        }
        Ok(())
    }
}

/// The id of a line's request, where a line is next.
fn id_of(next: Next) -> Option<Option<u32>> {
    let id = match &next {
        Next::Line(request) => Some(request.id),
        Next::Nothing | Next::Spoilt => None,
    };
    next.discard();
    id
}

fn next_id(session: &Session) -> Result<Option<Option<u32>>, AllocError> {
    match session.next_request() {
        Ok(next) => Ok(id_of(next)),
        Err(refused) => Err(refused),
    }
}

pub fn pairs_are_same(ours: &[Pair], theirs: &[Pair]) -> bool {
    for (place, pair) in ours.iter().enumerate() {
        match theirs.get(place) {
            Some(other)
                if pair.key.as_slice() == other.key.as_slice()
                    && pair.value.as_slice() == other.value.as_slice() => {}
            _ => return false,
        }
    }
    ours.len() == theirs.len()
}

/// Whether two commands are the same one, with the same arguments. Those that are not sent here are not.
fn commands_are_same(ours: &Command, theirs: &Command) -> bool {
    match (ours, theirs) {
        (Command::Blank, Command::Blank) | (Command::Ping, Command::Ping) => true,
        (Command::Unread(ours), Command::Unread(theirs)) => ours == theirs,
        (
            Command::Join {
                channel: ours,
                key: None,
            },
            Command::Join {
                channel: theirs,
                key: None,
            },
        ) => ours.as_slice() == theirs.as_slice(),
        (
            Command::Say { channel, text },
            Command::Say {
                channel: other_channel,
                text: other_text,
            },
        ) => {
            channel.as_slice() == other_channel.as_slice()
                && text.as_slice() == other_text.as_slice()
        }
        (Command::SetScriptTags { pairs: ours }, Command::SetScriptTags { pairs: theirs }) =>
            pairs_are_same(ours.as_slice(), theirs.as_slice()),
        _ => false,
    }
}

fn nexts_are_same(ours: &Next, theirs: &Next) -> bool {
    match (ours, theirs) {
        (Next::Line(ours), Next::Line(theirs)) => {
            ours.id == theirs.id && commands_are_same(&ours.command, &theirs.command)
        }
        (Next::Nothing, Next::Nothing) | (Next::Spoilt, Next::Spoilt) => true,
        _ => false,
    }
}

/// Whether two sessions have the same request next, and memory to show it.
fn next_is_same(session: &Session, other: &Session) -> bool {
    let Ok(ours) = session.next_request() else {
        return false;
    };
    let Ok(theirs) = other.next_request() else {
        ours.discard();
        return false;
    };
    let are_same = nexts_are_same(&ours, &theirs);
    ours.discard();
    theirs.discard();
    are_same
}

/// A session under trial.
#[derive(Drop)]
struct TriedSession(Session);

impl Subject for TriedSession {
    fn new(alloc: Global) -> Option<TriedSession> {
        Some(TriedSession(Session::new(alloc, 7)))
    }

    fn act(&mut self, alloc: Global, client: u64, deed: Deed) -> bool {
        let _ = (alloc, client);
        match deed {
            Deed::Send(bytes) => self.0.feed(bytes) != Err(FeedError::Memory),
            Deed::Take => {
                let is_read = next_id(&self.0).is_ok();
                if is_read {
                    self.0.accept_next();
                }
                is_read
            }
            Deed::Open | Deed::Read(_) | Deed::Shut | Deed::Record => true,
        }
    }

    fn use_up(&mut self, alloc: Global) -> bool {
        let _ = alloc;
        true
    }

    fn is_as(&mut self, other: &mut TriedSession) -> bool {
        self.0.client() == other.0.client()
            && self.0.is_ready() == other.0.is_ready()
            && self.0.has_line() == other.0.has_line()
            && next_is_same(&self.0, &other.0)
    }

    fn show<R: Print>(&mut self, rt: &R) -> io::Result<()> {
        println!(rt; "the session of client {}", self.0.client())?;
        for _ in 0..9 {
            println!(rt; "ready: {}, id: {:?}", self.0.is_ready(), next_id(&self.0))?;
            self.0.accept_next();
        }
        Ok(())
    }
}

pub fn try_out<R: Print + AllocGlobal>(
    rt: &R,
    refuser: &mut Refuser,
    notes: &mut Notes,
) -> io::Result<()> {
    try_deeds::<TriedFramer, R>(rt, &DEEDS, &LOOKS, refuser, notes)?;
    try_deeds::<TriedSession, R>(rt, &DEEDS, &LOOKS, refuser, notes)
}
