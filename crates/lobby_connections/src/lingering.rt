//! Connections that linger: their clients were shut, and what was written to them may still be on its way.
//!
//! A socket that is closed while something lies there unread makes the system send a reset, and that takes from the
//! other side what was written and has not arrived. So such a connection ends what it writes, and reads and lets go
//! what still comes.

ghost use Rattle.std.specs.Prelude.{◌≡◌, ◌+◌, ◌<◌, ◌≤◌, IsTrue};

use crate::wire_link::{WireLink, try_read};
use lobby_holds::{Got, PIECE};
use mio::net::TcpStream;
use mio::{Interest, Registry, Token};
use std::alloc::Global;
use std::mem;

/// The most connections that linger at once. Each keeps a file of the system, and one whose other side says nothing
/// keeps it for good: so these are the most files that a worker loses to such.
const MOST: usize = 64;

/// The most bytes that are let go of one connection: more than what a client had on its way when it was shut, so that
/// who goes on sends without end.
const MOST_BYTES: usize = 1_048_576;

/// The most reads of a turn, as many as of a client that is served: 64 KiB, so that who sends without end does not keep
/// its worker from the others.
const READS: u32 = 16;

/// The token of the first place, far above the keys of any table.
const FIRST: usize = usize::MAX - 1_024;

/// What a turn came to.
#[derive(Clone, Copy)]
enum Rest {
    /// Nothing more now.
    Nothing,
    /// There may be more.
    More,
    /// The other side has ended, the device failed, or too much came.
    Over,
}

/// A connection that lingers.
#[derive(Drop)]
struct Lingerer {
    stream: TcpStream,
    // how many more bytes may be let go
    left: usize,
}

impl Lingerer {
    /// Whether so many bytes may be let go besides. They count from then on.
    fn spend(&mut self, count: usize) -> bool
        ensures spent { IsTrue result → self.new.left + count ≡ self.old.left }
        ensures fewer { self.new.left ≤ self.old.left }
    {
        if count > self.left {
            return false;
        }
        self.left -= count;
        true
    }

    /// Reads what is there and lets it go, in 16 reads at most.
    fn discard_input(&mut self) -> Rest
        ensures { self.new.left ≤ self.old.left }
    {
        let mut piece = [0u8; PIECE];
        for _ in 0..READS {
            match try_read(&mut self.stream, &mut piece) {
                Got::Bytes(count) => {
                    if !self.spend(count) {
                        return Rest::Over;
                    }
                }
                Got::Later => return Rest::Nothing,
                Got::End | Got::Fault => return Rest::Over,
            }
        }
        Rest::More
    }

    /// Has a poll tell under this token of what is there and of what comes. Whether the system allows it.
    fn listen(&mut self, registry: &Registry, token: Token) -> bool {
        registry
            .reregister(&mut self.stream, token, Interest::READABLE)
            .is_ok()
    }

    /// A turn, under this token. Whether the connection goes on.
    fn turn(&mut self, registry: &Registry, token: Token) -> bool {
        match self.discard_input() {
            Rest::Nothing => true,
            Rest::More => self.listen(registry, token),
            Rest::Over => false,
        }
    }
}

/// The connections of a worker that linger, 64 at most while it serves. Each has a place, and goes on until its other
/// side ends, its link fails, more than 1,048,576 bytes came of it, or its place is that of a further one, which comes
/// 64 later.
#[derive(Drop)]
pub(crate) struct Lingering {
    places: Vec<Option<Lingerer>>,
    // the place of the next one
    next: usize,
    ghost within: { next < 64 },
}

impl Lingering {
    /// None. It takes no memory.
    pub(crate) fn new(alloc: Global) -> Lingering {
        Lingering {
            places: Vec::new(alloc),
            next: 0,
        }
    }

    /// Has a connection linger that a poll knows already and whose client was shut. It is closed at once where its
    /// other side has ended or did not take all, or the system or memory do not allow it.
    pub(crate) fn begin(&mut self, registry: &Registry, link: WireLink) {
        let Some(stream) = link.into_lingering() else {
            return;
        };
        let mut lingerer = Lingerer {
            stream,
            left: MOST_BYTES,
        };
        if lingerer.listen(registry, Token(FIRST + self.next)) {
            self.put(lingerer);
        }
    }

    /// Puts a connection at the next place. Who was there is closed.
    fn put(&mut self, lingerer: Lingerer) {
        match self.places.get_mut(self.next) {
            Some(place) => drop(mem::replace(place, Some(lingerer))),
            None => {
                if self.places.push(Some(lingerer)).is_err() {
                    return;
                }
            }
        }
        self.next = (self.next + 1) % MOST;
    }

    /// Has one more connection linger whose client was shut, beside all others: no poll tells of it, and
    /// `discard_input` alone reads it. Only a worker that ends does so, which bounds how often that is. It is closed at
    /// once where its other side has ended or did not take all, or the system or memory do not allow it.
    pub(crate) fn add(&mut self, link: WireLink) {
        if let Some(stream) = link.into_lingering() {
            let left = usize::MAX;
            let _ = self.places.push(Some(Lingerer { stream, left }));
        }
    }

    /// Reads what is there for each connection and lets it go, in 16 reads of each at most. Whether any goes on.
    pub(crate) fn discard_input(&mut self) -> bool {
        let mut goes_any_on = false;
        for place in &mut self.places {
            if let Some(lingerer) = place {
                match lingerer.discard_input() {
                    Rest::Nothing | Rest::More => goes_any_on = true,
                    Rest::Over => drop(mem::replace(place, None)),
                }
            }
        }
        goes_any_on
    }

    /// Lets go what came for the connection of a poll's token. Whether the token is one of these.
    pub(crate) fn turn(&mut self, registry: &Registry, token: Token) -> bool {
        let Some(at) = token.0.checked_sub(FIRST) else {
            return false;
        };
        if let Some(place) = self.places.get_mut(at)
            && let Some(lingerer) = place
            && !lingerer.turn(registry, token)
        {
            drop(mem::replace(place, None));
        }
        at < MOST
    }
}
