//! Scripts whose reader or writer fails, and scripts of the largest size.

use crate::verdict::same;
use lobby_script::{MOST_READS, PlayFault, SCRIPT_LIMIT, play};
use std::alloc::{AllocError, Global};
use std::io;
use std::io::{Error, ErrorKind, Read, Write};
use std::process::Abort;

const SCRIPT: &[u8] = b"open 1 10.0.0.1\nshow 1\n";

/// What the script shows.
const SHOWN: &[u8] = b"1> TASSERVER 0.38 * 8201 0\n";

/// The script and a line that is a bad step.
const SPOILT: &[u8] = b"open 1 10.0.0.1\nshow 1\nx\n";

/// How many reads may be interrupted where the script comes a byte at a time, and one read more
/// finds its end.
const SPARE_READS: u32 = MOST_READS - SCRIPT.len() as u32 - 1;

/// Gives a script a byte at a time. Once no more than so many bytes are left, so many reads are
/// interrupted, and the last read may fail.
#[derive(Drop)]
struct Faulty<'a> {
    rest: &'a [u8],
    left: usize,
    interruptions: u32,
    end: Option<ErrorKind>,
}

impl Read for Faulty<'_> {
    fn read(&mut self, buf: &mut [u8]) -> io::Result<usize> {
        if self.interruptions > 0 && self.rest.len() <= self.left {
            self.interruptions -= 1;
            return Err(Error::from(ErrorKind::Interrupted));
        }
        let Some((first, rest)) = self.rest.split_first() else {
            return match self.end {
                Some(kind) => Err(Error::from(kind)),
                None => Ok(0),
            };
        };
        if buf.is_empty() {
            return Ok(0);
        }
        buf[0] = *first;
        self.rest = rest;
        Ok(1)
    }
}

/// Takes so many writes, and then fails.
#[derive(Drop)]
struct Full {
    writes: usize,
    flushes: bool,
}

impl Write for Full {
    fn write(&mut self, buf: &[u8]) -> io::Result<usize> {
        if self.writes == 0 {
            return Err(Error::from(ErrorKind::Other));
        }
        self.writes -= 1;
        Ok(buf.len())
    }

    fn flush(&mut self) -> io::Result<()> {
        if self.flushes {
            Ok(())
        } else {
            Err(Error::from(ErrorKind::Other))
        }
    }
}

/// How many bytes are left when reads are interrupted, how many are, how the last one fails, and what
/// comes of it.
type Reading = (
    usize,
    u32,
    Option<ErrorKind>,
    Result<(), PlayFault>,
    &'static [u8],
);

static READINGS: [Reading; 6] = [
    (SCRIPT.len(), 1, None, Ok(()), SHOWN),
    (7, 2, None, Ok(()), SHOWN),
    (0, 1, None, Ok(()), SHOWN),
    (7, 1, Some(ErrorKind::Other), Err(PlayFault::Device), b""),
    (22, SPARE_READS, None, Ok(()), SHOWN),
    (22, SPARE_READS + 1, None, Err(PlayFault::Device), b""),
];

/// Whether this comes of a reading.
fn reads_so(alloc: Global, reading: &Reading) -> bool {
    let (left, interruptions, end, told, output) = reading;
    let mut reader = Faulty {
        rest: SCRIPT,
        left: *left,
        interruptions: *interruptions,
        end: *end,
    };
    let mut writer = Vec::new(alloc);
    let played = play(alloc, &mut reader, &mut writer);
    played == *told && writer.as_slice() == *output
}

#[test]
fn interrupted_and_failed_reads(rt: HostRuntime) {
    for (k, reading) in READINGS.iter().enumerate() {
        same(&rt, (k, reads_so(rt.alloc(), reading)), (k, true));
    }
}

/// In so many writes a line is shown: the client's number, what parts it from the line, the line, and its end.
const PARTS: usize = 4;

/// Whether the script is played to its end where so many writes are taken and flushes are or are not, and fails for its
/// device else.
fn writes_so(alloc: Global, writes: usize, flushes: bool) -> bool {
    let mut reader = SCRIPT;
    let mut writer = Full { writes, flushes };
    let played = play(alloc, &mut reader, &mut writer);
    let told = if writes >= PARTS && flushes {
        Ok(())
    } else {
        Err(PlayFault::Device)
    };
    played == told
}

#[test]
fn failed_writes(rt: HostRuntime) {
    for writes in 0..6 {
        same(
            &rt,
            (writes, writes_so(rt.alloc(), writes, false)),
            (writes, true),
        );
        same(
            &rt,
            (writes, writes_so(rt.alloc(), writes, true)),
            (writes, true),
        );
    }
}

/// What a script begins with, how many bytes it has with the empty lines behind that, and what
/// comes of it. One that is too long shows nothing, though a bad step stands in it.
type Size = (&'static [u8], usize, Result<(), PlayFault>, &'static [u8]);

static SIZES: [Size; 6] = [
    (b"", SCRIPT_LIMIT, Ok(()), b""),
    (b"", SCRIPT_LIMIT + 1, Err(PlayFault::TooLong), b""),
    (b"x\n", SCRIPT_LIMIT, Err(PlayFault::BadStep(1)), b""),
    (b"x\n", SCRIPT_LIMIT + 1, Err(PlayFault::TooLong), b""),
    (SPOILT, SCRIPT_LIMIT, Err(PlayFault::BadStep(3)), SHOWN),
    (SPOILT, SCRIPT_LIMIT + 1, Err(PlayFault::TooLong), b""),
];

/// This front and empty lines behind it, in so many bytes.
fn script_of(alloc: Global, front: &[u8], size: usize) -> Result<Vec<u8>, AllocError> {
    let mut script = Vec::from_slice(alloc, front)?;
    match script.resize(size, b'\n') {
        Ok(()) => Ok(script),
        Err(refused) => {
            drop(script);
            Err(refused)
        }
    }
}

/// Whether this comes of a script.
fn plays_so(alloc: Global, script: &[u8], told: Result<(), PlayFault>, output: &[u8]) -> bool {
    let mut reader = script;
    let mut writer = Vec::new(alloc);
    play(alloc, &mut reader, &mut writer) == told && writer.as_slice() == output
}

/// Whether this comes of a script of this size; not where memory is refused.
fn has_size(alloc: Global, case: &Size) -> bool {
    let (front, size, told, output) = case;
    match script_of(alloc, front, *size) {
        Ok(script) => plays_so(alloc, script.as_slice(), *told, output),
        Err(AllocError) => false,
    }
}

#[test]
fn largest_scripts(rt: HostRuntime) {
    for (k, case) in SIZES.iter().enumerate() {
        same(&rt, (k, has_size(rt.alloc(), case)), (k, true));
    }
}

const PING: &[u8] = b"open 1 10.0.0.1\nsend 1 PING\\n\nall 1\nshow 1\n";

/// What that script shows.
const PONG: &[u8] = b"1> TASSERVER 0.38 * 8201 0\n1> PONG\n";

/// Plays a script, of which only a last line that is not whole may be a bad step.
fn play_front(rt: &impl Abort, alloc: Global, front: &[u8], last: u64, output: &[u8]) {
    let mut reader = front;
    let mut writer = Vec::new(alloc);
    let told = play(alloc, &mut reader, &mut writer);
    let is_so = matches!(told, Ok(())) || told == Err(PlayFault::BadStep(last));
    assert!(rt; is_so, "{told:?}");
    same(rt, writer.as_slice(), output);
    drop(writer);
}

#[test]
fn each_front_of_a_script_has_an_answer(rt: HostRuntime) {
    let mut last = 1u64;
    for len in 0..PING.len() {
        // the last line shows something, and needs no line end
        let output = if len + 1 < PING.len() { b"" } else { PONG };
        play_front(&rt, rt.alloc(), &PING[..len], last, output);
        if PING[len] == b'\n' {
            last = last.saturating_add(1);
        }
    }
}

/// What is told of each fault, and the exit status.
static FAULTS: [(PlayFault, &str, u8); 4] = [
    (PlayFault::BadStep(3), "line 3: bad step", 1),
    (PlayFault::Device, "device fault", 2),
    (PlayFault::TooLong, "script too long", 2),
    (PlayFault::Memory, "no memory", 4),
];

/// Whether a fault shows itself by this text; not where memory is refused.
fn has_text(alloc: Global, fault: PlayFault, text: &str) -> bool {
    match format!(in alloc; "{fault}") {
        Ok(told) => told.as_str() == text,
        Err(_) => false,
    }
}

#[test]
fn each_fault_has_its_text_and_status(rt: HostRuntime) {
    for (fault, text, status) in &FAULTS {
        let told = (*text, has_text(rt.alloc(), *fault, text), fault.status());
        same(&rt, told, (*text, true, *status));
    }
}
