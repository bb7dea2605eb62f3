//! The link over a socket that never waits.
//!
//! It tells proofs which bytes the system said that its calls moved, so what is proved of a connection's turn is no
//! empty promise for a server over sockets. That a socket delivers is not proved.

ghost use Rattle.std.specs.Prelude.{◌≡◌, ◌≤◌, ◌++◌, length};
ghost use Rattle.lobby_connections.specs.Gathered.{gathered};
ghost use Rattle.lobby_holds.specs.Wire.{got_count, sent_count, untouched};

use http_server::Log;
use lobby_holds::{Got, Link, Sent};
use mio::event::Event;
use mio::net::TcpStream;
use mio::{Interest, Registry, Token};
use std::io::{self, ErrorKind, Read, Write};
use std::marker::Model;
use std::net::Shutdown;

/// So often a call that a signal broke off is tried before it counts as a failure.
const TRIES: u32 = 16;

/// Up to this many of each a link has room for a turn more, with each count a number of 64 bits.
const LAST_FRESH: u64 = 18_446_744_073_709_551_583;

/// The link over a socket that never waits. It tells proofs which bytes the system said that its calls
/// moved; that takes no memory.
///
/// A poll tells each arrival once (it is edge-triggered), and the link remembers whether its last read left the socket
/// empty. Until a poll tells of the socket again a read is then answered `Later` without a call of the system.
#[derive(Drop)]
pub struct WireLink {
    stream: TcpStream,
    // whether the socket may have something to read
    is_readable: bool,
    // whether it may have that after each read: no poll tells again of an end or a failure, and urgent bytes part what
    // one read gives
    stays_readable: bool,
    reads: u64,
    writes: u64,
    failures: u64,
    last_got: Option<Got>,
    last_sent: Option<Sent>,
    read: Log<u8, ()>,
    written: Log<u8, ()>,
}

impl Model for WireLink {
    ghost use Rattle.std.specs.Prelude.{Some};
    ghost use Rattle.lobby_connections.specs.Gathered.{gathered};
    ghost use Rattle.lobby_holds.specs.Wire.{Wire};

    ghost Value = { Wire };

    ghost view = { λ l. record {
      reads = l.reads;
      writes = l.writes;
      failures = l.failures;
      read = Some (gathered l.read.items);
      written = Some (gathered l.written.items);
      last_got = l.last_got;
      last_sent = l.last_sent;
    } };
}

impl WireLink {
    /// The link over a socket on which it made no call.
    pub fn new(stream: TcpStream) -> WireLink
        ensures { result ≡ untouched }
    {
        WireLink {
            stream,
            is_readable: true,
            stays_readable: false,
            reads: 0,
            writes: 0,
            failures: 0,
            last_got: None,
            last_sent: None,
            read: Log::new(),
            written: Log::new(),
        }
    }

    /// Has a poll tell under this token when the socket has something to read, and when it takes bytes
    /// again. Fails where the system refuses it.
    pub fn register(&mut self, registry: &Registry, token: Token) -> io::Result<()>
        ensures { self.new ≡ self.old }
    {
        registry.register(
            &mut self.stream,
            token,
            Interest::READABLE | Interest::WRITABLE | Interest::PRIORITY,
        )
    }

    /// How many writes it made.
    pub fn writes(&self) -> u64
        ensures { result ≡ self.now.writes }
    {
        self.writes
    }

    /// Notes what a poll told of the socket. It is to be called before the next read, with each event of each poll.
    pub fn note(&mut self, event: &Event)
        ensures { self.new ≡ self.old }
    {
        self.is_readable = true;
        self.stays_readable |= event.is_read_closed() || event.is_error() || event.is_priority();
    }

    /// Ends what is written, and gives the socket for what may still come. None, and the socket is closed, where the
    /// other side has ended or did not take all, or the system refuses it.
    pub(crate) fn into_lingering(self) -> Option<TcpStream> {
        let may_linger = may_send(self.last_got) && takes_all(self.last_sent);
        let stream = self.stream;
        if may_linger && stream.shutdown(Shutdown::Write).is_ok() {
            Some(stream)
        } else {
            None
        }
    }
}

/// Whether more may come behind such a read.
fn may_send(last_got: Option<Got>) -> bool {
    match last_got {
        None | Some(Got::Bytes(_)) | Some(Got::Later) => true,
        Some(Got::End) | Some(Got::Fault) => false,
    }
}

/// Whether a link takes more behind such a write.
fn takes_all(last_sent: Option<Sent>) -> bool {
    match last_sent {
        None | Some(Sent::Took(_)) => true,
        Some(Sent::Later) | Some(Sent::Fault) => false,
    }
}

/// Whether a stream socket may have more behind such a read into a slice of this length. One that gave less than fits
/// had no more at that moment, so what comes later is a new arrival, of which a poll tells.
fn may_have_more(got: Got, length: usize) -> bool {
    match got {
        Got::Bytes(count) => count == length,
        Got::Later => false,
        Got::End | Got::Fault => true,
    }
}

pub(crate) fn try_read(stream: &mut TcpStream, into: &mut [u8]) -> Got
    ensures { got_count result ≤ length into.old }
{
    for _ in 0..TRIES {
        match stream.read(into) {
            Ok(0) => return Got::End,
            Ok(count) => return Got::Bytes(count),
            Err(error) => match error.kind() {
                ErrorKind::WouldBlock => return Got::Later,
                ErrorKind::Interrupted => {}
                _ => return Got::Fault,
            },
        }
    }
    Got::Fault
}

fn try_write(stream: &mut TcpStream, from: &[u8]) -> Sent
    ensures { sent_count result ≤ length from.now }
{
    for _ in 0..TRIES {
        match stream.write(from) {
            Ok(count) => return Sent::Took(count),
            Err(error) => match error.kind() {
                ErrorKind::WouldBlock => return Sent::Later,
                ErrorKind::Interrupted => {}
                _ => return Sent::Fault,
            },
        }
    }
    Sent::Fault
}

/// Notes these bytes in a log. It keeps none when the program runs, and the loop is no work then.
fn note(log: &mut Log<u8, ()>, bytes: &[u8])
    ensures { gathered log.new.items ≡ gathered log.old.items ++ bytes.now }
{
    for byte in bytes {
        *log = log.and(byte, &());
    }
}

impl Link for WireLink {
    ghost wire = { λ l. l };

    fn read(&mut self, into: &mut [u8]) -> Got {
        self.reads += 1;
        let got = if self.is_readable {
            try_read(&mut self.stream, into)
        } else {
            Got::Later
        };
        self.is_readable = self.stays_readable || may_have_more(got, into.len());
        match got {
            Got::Bytes(count) => note(&mut self.read, &into[..count]),
            Got::Fault => self.failures += 1,
            Got::Later | Got::End => {}
        }
        self.last_got = Some(got);
        got
    }

    fn is_likely_empty(&self) -> bool {
        !self.is_readable
    }

    fn write(&mut self, from: &[u8]) -> Sent {
        self.writes += 1;
        let sent = try_write(&mut self.stream, from);
        match sent {
            Sent::Took(count) => note(&mut self.written, &from[..count]),
            Sent::Fault => self.failures += 1,
            Sent::Later => {}
        }
        self.last_sent = Some(sent);
        sent
    }

    fn last_got(&self) -> Option<Got> {
        self.last_got
    }

    fn last_sent(&self) -> Option<Sent> {
        self.last_sent
    }

    fn fresh(&self) -> bool {
        self.reads <= LAST_FRESH && self.writes <= LAST_FRESH && self.failures <= LAST_FRESH
    }
}
