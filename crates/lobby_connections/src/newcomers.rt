//! Connections of fronts that have not yet said where they come from.
//!
//! The line is read byte by byte, so that what the client sent behind it stays in the socket for its link.

ghost use Rattle.std.specs.Prelude.{◌≡◌, ◌∷◌, ◌++◌, [], ◌<◌};
ghost use Rattle.lobby_connections.specs.Progress.{IsProgress};

use crate::wire_link::try_read;
use lobby_holds::Got;
use mio::net::TcpStream;
use mio::{Interest, Registry, Token};
use proxy_line::{HalfLine, LONGEST, Step};
use std::alloc::Global;
use std::mem;

/// The most connections whose line is waited for at once. Each keeps a file of the system, and one whose front says no
/// more keeps it until its place is that of a further one: so these are the most files that a worker loses to such.
const MOST: usize = 256;

/// The token of the first place, far above the keys of any table and below those of connections that linger.
const FIRST: usize = usize::MAX - 2_048;

/// What was read of a line.
#[derive(Clone, Copy)]
pub enum Progress {
    /// Not all of it.
    Waits,
    /// All of it: the connection comes from this address.
    Whole([u8; 4]),
    /// It is none with which a front begins.
    Refused,
    /// The other side has ended before all of it came, or the device failed.
    Ended,
}

/// What came of a connection of a front so far.
#[derive(Drop)]
pub enum Fronted {
    /// Its line is whole: the connection comes from this address, and is given back.
    Client { stream: TcpStream, ip: [u8; 4] },
    /// It was closed, since its line is none with which a front begins. The front is at this address.
    Refused { ip: [u8; 4] },
    /// Its line is waited for; or the connection was closed, since it ended or the system or memory do not allow it to
    /// wait.
    Nothing,
}

/// A connection whose line is not whole yet.
#[derive(Drop)]
struct Newcomer {
    stream: TcpStream,
    // where it comes from without its line
    ip: [u8; 4],
    line: HalfLine,
}

impl Newcomer {
    /// Takes the next byte of the line.
    fn take(&mut self, byte: u8) -> Progress
        ensures { IsProgress self.old.ip (self.old.line ++ byte ∷ []) result }
    {
        match self.line.take(byte) {
            Step::More => Progress::Waits,
            Step::Whole(source) => Progress::Whole(source.address(self.ip)),
            Step::Refused => Progress::Refused,
        }
    }

    /// Reads what is there of the line, and nothing behind it.
    fn read_line(&mut self) -> Progress {
        let mut byte = [0];
        for _ in 0..LONGEST {
            match try_read(&mut self.stream, &mut byte) {
                Got::Bytes(_) => match self.take(byte[0]) {
                    Progress::Waits => {}
                    done => return done,
                },
                Got::Later => return Progress::Waits,
                Got::End | Got::Fault => return Progress::Ended,
            }
        }
        Progress::Refused
    }
}

/// The connections of a worker whose line is waited for, 256 at most. Each has a place, and waits until its line is
/// whole or refused, its other side ends, its device fails, or its place is that of a further one, which comes 256
/// later.
#[derive(Drop)]
pub struct Newcomers {
    places: Vec<Option<Newcomer>>,
    // the place of the next one
    next: usize,
    ghost within: { next < 256 },
}

impl Newcomers {
    /// None. It takes no memory.
    pub fn new(alloc: Global) -> Newcomers {
        Newcomers {
            places: Vec::new(alloc),
            next: 0,
        }
    }

    /// A connection comes from a front, which is at this address. It is given back, with where it comes from, where its
    /// line is there already.
    pub fn begin(&mut self, registry: &Registry, stream: TcpStream, ip: [u8; 4]) -> Fronted {
        let line = HalfLine::new();
        let mut newcomer = Newcomer { stream, ip, line };
        match newcomer.read_line() {
            Progress::Waits => {
                self.wait(registry, newcomer);
                Fronted::Nothing
            }
            Progress::Whole(ip) => {
                let Newcomer { stream, .. } = newcomer;
                Fronted::Client { stream, ip }
            }
            Progress::Refused => Fronted::Refused { ip },
            Progress::Ended => Fronted::Nothing,
        }
    }

    /// Has a connection wait at the next place. Who was there is closed.
    fn wait(&mut self, registry: &Registry, newcomer: Newcomer) {
        let mut newcomer = newcomer;
        let token = Token(FIRST + self.next);
        if registry
            .register(&mut newcomer.stream, token, Interest::READABLE)
            .is_err()
        {
            return;
        }
        match self.places.get_mut(self.next) {
            Some(place) => drop(mem::replace(place, Some(newcomer))),
            None => {
                if self.places.push(Some(newcomer)).is_err() {
                    return;
                }
            }
        }
        self.next = (self.next + 1) % MOST;
    }

    /// Whether a poll's token is one of these.
    pub fn has(token: Token) -> bool {
        FIRST <= token.0 && token.0 < FIRST + MOST
    }

    /// Reads on for the connection of a poll's token. It is given back, with where it comes from, once its line is
    /// whole. It is closed where the system does not let go of it then.
    pub fn turn(&mut self, registry: &Registry, token: Token) -> Fronted {
        let Some(newcomer) = self.take_out(token) else {
            return Fronted::Nothing;
        };
        let mut newcomer = newcomer;
        match newcomer.read_line() {
            Progress::Waits => {
                self.put_back(token, newcomer);
                Fronted::Nothing
            }
            Progress::Whole(ip) => {
                let Newcomer { stream, .. } = newcomer;
                let mut stream = stream;
                match registry.deregister(&mut stream) {
                    Ok(()) => Fronted::Client { stream, ip },
                    Err(_) => Fronted::Nothing,
                }
            }
            Progress::Refused => Fronted::Refused { ip: newcomer.ip },
            Progress::Ended => Fronted::Nothing,
        }
    }

    /// Takes out the connection of a poll's token. None where there is none.
    fn take_out(&mut self, token: Token) -> Option<Newcomer> {
        let place = self.places.get_mut(token.0.checked_sub(FIRST)?)?;
        mem::replace(place, None)
    }

    /// Puts back the connection that was taken out of the place of a poll's token.
    fn put_back(&mut self, token: Token, newcomer: Newcomer) {
        if let Some(index) = token.0.checked_sub(FIRST)
            && let Some(place) = self.places.get_mut(index)
        {
            drop(mem::replace(place, Some(newcomer)));
        }
    }
}
