//! A client of the server under test.

use mio::net::TcpStream;
use std::io::{self, Read, Write};
use std::net::{Net, Shutdown, SocketAddr};
use std::thread;
use std::time::{Clock, Duration};

/// So often a client or a gate looks for what it waits for, with a sleep of a millisecond after each look.
pub const LOOKS: u32 = 10_000;

/// The most bytes that a client reads at once.
const PIECE: usize = 4_096;

/// What one turn at the socket came to.
#[derive(Clone, Copy)]
enum Moved {
    Some(usize),
    Nothing,
    Ended,
    Broken,
}

fn outcome(counted: io::Result<usize>) -> Moved {
    match counted {
        Ok(0) => Moved::Ended,
        Ok(count) => Moved::Some(count),
        Err(error) => match error.kind() {
            io::ErrorKind::WouldBlock | io::ErrorKind::Interrupted | io::ErrorKind::NotConnected =>
                Moved::Nothing,
            _ => Moved::Broken,
        },
    }
}

/// Whether a text is one line so many times over, and another one once among these.
fn are_among(text: &[u8], line: &[u8], times: usize, other: &[u8]) -> bool {
    let mut rest = text;
    let mut others = 0u32;
    for _ in 0..=times {
        if let Some(behind) = rest.strip_prefix(line) {
            rest = behind;
        } else if let Some(behind) = rest.strip_prefix(other) {
            rest = behind;
            others = others.saturating_add(1);
        } else {
            return false;
        }
    }
    rest.is_empty() && others == 1
}

/// How many bytes of a text's beginning end what came, with one byte more, where so many did before. Its first byte
/// stands in it once.
fn met_with(text: &[u8], met: usize, byte: u8) -> usize {
    if text.get(met) == Some(&byte) {
        met.saturating_add(1)
    } else if text.first() == Some(&byte) {
        1
    } else {
        0
    }
}

/// A client that reads what it expects and nothing else.
#[derive(Drop)]
pub struct Client {
    stream: TcpStream,
}

impl Client {
    /// Connects, and does not wait for it. None where the system refuses it.
    pub fn connect<R: Net>(rt: &R, address: SocketAddr) -> Option<Client> {
        match TcpStream::connect(rt, address) {
            Ok(stream) => Some(Client { stream }),
            Err(_) => None,
        }
    }

    /// Whether these bytes can be sent, within so many looks. Nothing is read meanwhile.
    pub fn sends<C: Clock>(&mut self, clock: &C, bytes: &[u8]) -> bool {
        let mut rest = bytes;
        for _ in 0..LOOKS {
            if rest.is_empty() {
                return true;
            }
            match outcome(self.stream.write(rest)) {
                Moved::Some(count) => rest = rest.get(count..).unwrap_or(&[]),
                Moved::Nothing => thread::sleep(clock, Duration::from_millis(1)),
                Moved::Ended | Moved::Broken => return false,
            }
        }
        false
    }

    /// Whether exactly these bytes come, within so many looks.
    pub fn reads<C: Clock>(&mut self, clock: &C, want: &[u8]) -> bool {
        let mut rest = want;
        let mut piece = [0u8; PIECE];
        for _ in 0..LOOKS {
            if rest.is_empty() {
                return true;
            }
            let room = rest.len().min(PIECE);
            match outcome(self.stream.read(&mut piece[..room])) {
                Moved::Some(count) => {
                    if rest.get(..count) != piece.get(..count) {
                        return false;
                    }
                    rest = rest.get(count..).unwrap_or(&[]);
                }
                Moved::Nothing => thread::sleep(clock, Duration::from_millis(1)),
                Moved::Ended | Moved::Broken => return false,
            }
        }
        false
    }

    /// Fills a slice with the bytes that come next. False where so many do not come within so many looks.
    fn fills<C: Clock>(&mut self, clock: &C, into: &mut [u8]) -> bool {
        let mut done = 0usize;
        for _ in 0..LOOKS {
            let Some(room) = into.get_mut(done..) else {
                return false;
            };
            if room.is_empty() {
                return true;
            }
            match outcome(self.stream.read(room)) {
                Moved::Some(count) => done = done.saturating_add(count),
                Moved::Nothing => thread::sleep(clock, Duration::from_millis(1)),
                Moved::Ended | Moved::Broken => return false,
            }
        }
        false
    }

    /// Whether one line comes so many times next, and another one once, before, between or behind these. Both fit
    /// into a piece.
    pub fn reads_among<C: Clock>(
        &mut self,
        clock: &C,
        line: &[u8],
        times: usize,
        other: &[u8],
    ) -> bool {
        let mut piece = [0u8; PIECE];
        let count = line.len().saturating_mul(times).saturating_add(other.len());
        match piece.get_mut(..count) {
            Some(came) => self.fills(clock, came) && are_among(came, line, times, other),
            None => false,
        }
    }

    /// Whether these bytes come last, within so many looks, behind whatever others. Their first byte stands in them
    /// once.
    pub fn reads_up_to<C: Clock>(&mut self, clock: &C, last: &[u8]) -> bool {
        let mut met = 0usize;
        let mut piece = [0u8; PIECE];
        for _ in 0..LOOKS {
            match outcome(self.stream.read(&mut piece)) {
                Moved::Some(count) => {
                    for byte in piece.get(..count).unwrap_or(&[]) {
                        met = met_with(last, met, *byte);
                    }
                    if met == last.len() {
                        return true;
                    }
                }
                Moved::Nothing => thread::sleep(clock, Duration::from_millis(1)),
                Moved::Ended | Moved::Broken => return false,
            }
        }
        false
    }

    /// Ends what is sent, and goes on reading. Whether the system allowed it.
    pub fn finishes(&mut self) -> bool {
        self.stream.shutdown(Shutdown::Write).is_ok()
    }

    /// How many bytes come before the other side closes the connection. None where it does not within so
    /// many looks, or where the connection breaks.
    pub fn ends<C: Clock>(&mut self, clock: &C) -> Option<usize> {
        let mut count = 0usize;
        let mut piece = [0u8; PIECE];
        for _ in 0..LOOKS {
            match outcome(self.stream.read(&mut piece)) {
                Moved::Some(more) => count = count.saturating_add(more),
                Moved::Nothing => thread::sleep(clock, Duration::from_millis(1)),
                Moved::Ended => return Some(count),
                Moved::Broken => return None,
            }
        }
        None
    }

    /// Whether the other side breaks the connection off while these bytes are sent again and again, once a look and
    /// within so many looks. Nothing is read meanwhile.
    pub fn is_broken_off<C: Clock>(&mut self, clock: &C, bytes: &[u8]) -> bool {
        for _ in 0..LOOKS {
            match outcome(self.stream.write(bytes)) {
                Moved::Some(_) | Moved::Nothing => thread::sleep(clock, Duration::from_millis(1)),
                Moved::Ended | Moved::Broken => return true,
            }
        }
        false
    }
}
