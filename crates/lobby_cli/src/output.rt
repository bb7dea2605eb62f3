//! Standard output and standard error, which keep a server waiting for a second at most.

use lobby_workers::ServerError;
use mio::unix::SourceFd;
use mio::{Events, Interest, Poll, Token};
use std::alloc::Global;
use std::io::{self, ErrorKind, Write};
use std::net::Net;
use std::os::fd::RawFd;
use std::str;
use std::time::Duration;

/// The most bytes of a write. A pipe that takes something takes so many without a wait.
const PIECE: usize = 4_096;

/// The milliseconds for which an output that takes nothing is waited for.
const PATIENCE: u64 = 1_000;

/// The errors by which the system has no poll tell of an output to which no write waits: a file; one that is closed;
/// and one that was closed, whose number the poll itself has got.
const NO_WAITS: [i32; 3] = [1, 9, 22];

/// The error of the system where it has no memory.
const NO_MEMORY: i32 = 12;

/// What a program writes to.
#[derive(Clone, Copy, PartialEq, Eq, Debug)]
pub enum Output {
    /// Standard output, which is given up once it has taken nothing for a second.
    Results,
    /// Standard error, to which each write waits for a second.
    Errors,
}

impl Output {
    /// Its number.
    fn number(self) -> RawFd {
        match self {
            Output::Results => 1,
            Output::Errors => 2,
        }
    }
}

/// A writer to an output that asks the system first whether that takes something. Where it does not within a second,
/// the write fails by `WouldBlock`. So a full output that nobody reads, as a pipe may be, does not keep who writes. A
/// write waits only where another program fills it behind the question.
#[derive(Drop)]
pub struct PatientOutput<W> {
    writer: W,
    output: Output,
    poll: Poll,
    events: Events,
    // whether the system answers: it does not where no write waits
    is_asked: bool,
    is_patient: bool,
}

impl<W: Write + Drop> PatientOutput<W> {
    /// Fails where memory is refused, or the system makes no poll or does not have it tell of the output.
    pub fn new<R: Net>(
        rt: &R,
        alloc: Global,
        output: Output,
        writer: W,
    ) -> Result<PatientOutput<W>, ServerError> {
        let Ok(events) = Events::with_capacity(alloc, 1) else {
            return Err(ServerError::Memory);
        };
        let Ok(poll) = Poll::new(rt) else {
            return Err(ServerError::Listener);
        };
        let mut source = SourceFd(&output.number());
        let is_asked = is_asked(
            poll.registry()
                .register(&mut source, Token(0), Interest::WRITABLE),
        )?;
        Ok(PatientOutput {
            writer,
            output,
            poll,
            events,
            is_asked,
            is_patient: true,
        })
    }

    /// Whether a write does not wait.
    fn is_ready(&mut self) -> bool {
        if !self.is_asked {
            return true;
        }
        let patience = if self.is_patient { PATIENCE } else { 0 };
        let mut source = SourceFd(&self.output.number());
        // Registered anew, a poll tells how it is and not what has changed.
        let registry = self.poll.registry();
        let is_told = registry
            .reregister(&mut source, Token(0), Interest::WRITABLE)
            .is_ok()
            && self
                .poll
                .poll(&mut self.events, Some(Duration::from_millis(patience)))
                .is_ok()
            && !self.events.is_empty();
        self.is_patient &= is_told || self.output == Output::Errors;
        is_told
    }
}

/// Whether a poll tells of an output, by what came of its registration.
fn is_asked(registered: io::Result<()>) -> Result<bool, ServerError> {
    let Err(error) = registered else {
        return Ok(true);
    };
    match error.raw_os_error() {
        Some(code) if NO_WAITS.contains(&code) => Ok(false),
        Some(NO_MEMORY) => Err(ServerError::Memory),
        _ => Err(ServerError::Listener),
    }
}

impl<W: Write + Drop> Write for PatientOutput<W> {
    fn write(&mut self, from: &[u8]) -> io::Result<usize> {
        if !self.is_ready() {
            return Err(io::Error::from(ErrorKind::WouldBlock));
        }
        self.writer.write(&from[..from.len().min(PIECE)])
    }

    fn flush(&mut self) -> io::Result<()> {
        self.writer.flush()
    }
}

/// A writer to standard error, for bytes that are text.
#[derive(Drop)]
pub struct ErrorWriter<'a, R> {
    /// To print with.
    pub rt: &'a R,
}

impl<R: Eprint> Write for ErrorWriter<'_, R> {
    fn write(&mut self, from: &[u8]) -> io::Result<usize> {
        match str::from_utf8(from) {
            Ok(text) => {
                self.rt.eprint(text)?;
                Ok(from.len())
            }
            Err(_) => Err(io::Error::from(ErrorKind::InvalidData)),
        }
    }

    fn flush(&mut self) -> io::Result<()> {
        Ok(())
    }
}
