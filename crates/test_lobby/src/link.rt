//! A link in memory: turns over it need no socket, and what it moves can be compared.

ghost use Rattle.std.specs.Prelude.{◌≡◌, ◌≤◌, length, IfOk, Some};
ghost use Rattle.lobby_holds.specs.Wire.{untouched};

use lobby_holds::{Got, Link, Sent};
use std::alloc::{AllocError, Global};

/// The largest count with which a turn may still begin.
const MOST_CALLS: u64 = u64::MAX - 32;

/// A link without a device: what it reads was given to it before, and what it writes is kept. It
/// tells proofs all its bytes, so it shows that a link may.
#[derive(Drop)]
pub struct MemoryLink {
    input: Vec<u8>,
    at: usize,
    output: Vec<u8>,
    piece: usize,
    room: usize,
    device: Device,
    is_ended: bool,
    reads: u64,
    writes: u64,
    failures: u64,
    last_got: Option<Got>,
    last_sent: Option<Sent>,
    ghost within: { at ≤ length input.items },
}

/// Which calls the device of a link in memory fails at, counted from 1 over reads and writes together.
#[derive(Clone, Copy)]
enum Device {
    /// None.
    Sound,
    /// This one.
    FailsAt(u64),
    /// This one and all after it.
    FailsFrom(u64),
}

impl MemoryLink {
    /// A link that has these bytes to read. A read gives at most `piece` bytes of them and a write
    /// takes at most `room`; a link with room for none answers `Later` to each write.
    pub fn new(alloc: Global, input: Vec<u8>, piece: usize, room: usize) -> MemoryLink
        ensures { ⟦<MemoryLink as Link>⟧.wire result ≡ untouched }
    {
        MemoryLink {
            input,
            at: 0,
            output: Vec::new(alloc),
            piece,
            room,
            device: Device::Sound,
            is_ended: false,
            reads: 0,
            writes: 0,
            failures: 0,
            last_got: None,
            last_sent: None,
        }
    }

    /// The same link, whose other side sends nothing behind what there is to read.
    pub fn ended(self) -> MemoryLink
        ensures { ⟦<MemoryLink as Link>⟧.wire result ≡ ⟦<MemoryLink as Link>⟧.wire self }
    {
        let mut link = self;
        link.is_ended = true;
        link
    }

    /// The same link, but its device fails at its call of this number, counted from 1 over reads and
    /// writes together.
    pub fn failing_at(self, call: u64) -> MemoryLink
        ensures { ⟦<MemoryLink as Link>⟧.wire result ≡ ⟦<MemoryLink as Link>⟧.wire self }
    {
        let mut link = self;
        link.device = Device::FailsAt(call);
        link
    }

    /// The same link, but its device fails at its call of this number, counted so, and at each one
    /// after it.
    pub fn failing_from(self, call: u64) -> MemoryLink
        ensures { ⟦<MemoryLink as Link>⟧.wire result ≡ ⟦<MemoryLink as Link>⟧.wire self }
    {
        let mut link = self;
        link.device = Device::FailsFrom(call);
        link
    }

    /// The same link, with place for so many bytes that are written, so that they take no memory then.
    pub fn with_place(self, bytes: usize) -> Result<MemoryLink, AllocError>
        ensures { IfOk result (λ link. ⟦<MemoryLink as Link>⟧.wire link ≡ ⟦<MemoryLink as Link>⟧.wire self) }
    {
        let mut link = self;
        match link.output.reserve(bytes) {
            Ok(()) => Ok(link),
            Err(_) => {
                drop(link);
                Err(AllocError)
            }
        }
    }

    /// All that was written.
    pub fn output(&self) -> &[u8]
        ensures { (⟦<MemoryLink as Link>⟧.wire self.now).written ≡ Some result.now }
    {
        &self.output
    }

    fn fails(&self) -> bool {
        let call = self.reads.saturating_add(self.writes);
        match self.device {
            Device::Sound => false,
            Device::FailsAt(number) => call == number,
            Device::FailsFrom(number) => call >= number,
        }
    }
}

impl Link for MemoryLink {
    ghost use Rattle.std.specs.Prelude.{◌≡◌, ℕ, take, Some};
    ghost use Rattle.lobby_holds.specs.Wire.{Wire};

    ghost wire = { λ l. record {
      reads = l.reads;
      writes = l.writes;
      failures = l.failures;
      read = Some (take l.at l.input.items);
      written = Some l.output.items;
      last_got = l.last_got;
      last_sent = l.last_sent;
    } };

    #[tactic(auto, using(crate::proofs::Moves::take_on, crate::proofs::Moves::copied_front))]
    fn read(&mut self, into: &mut [u8]) -> Got {
        self.reads += 1;
        if self.fails() {
            self.failures += 1;
            self.last_got = Some(Got::Fault);
            return Got::Fault;
        }
        let count = (self.input.len() - self.at).min(into.len()).min(self.piece);
        if count == 0 {
            if self.is_ended && self.at == self.input.len() {
                self.last_got = Some(Got::End);
                return Got::End;
            }
            self.last_got = Some(Got::Later);
            return Got::Later;
        }
        into[..count].copy_from_slice(&self.input[self.at..self.at + count]);
        self.at += count;
        self.last_got = Some(Got::Bytes(count));
        Got::Bytes(count)
    }

    fn write(&mut self, from: &[u8]) -> Sent {
        self.writes += 1;
        if self.fails() {
            self.failures += 1;
            self.last_sent = Some(Sent::Fault);
            return Sent::Fault;
        }
        let count = from.len().min(self.room);
        if count == 0 {
            self.last_sent = Some(Sent::Later);
            return Sent::Later;
        }
        match self.output.extend_from_slice(&from[..count]) {
            Ok(()) => {
                self.last_sent = Some(Sent::Took(count));
                Sent::Took(count)
            }
            Err(_) => {
                self.last_sent = Some(Sent::Later);
                Sent::Later
            }
        }
    }

    fn last_got(&self) -> Option<Got> {
        self.last_got
    }

    fn last_sent(&self) -> Option<Sent> {
        self.last_sent
    }

    fn fresh(&self) -> bool {
        self.reads <= MOST_CALLS && self.writes <= MOST_CALLS && self.failures <= MOST_CALLS
    }
}
