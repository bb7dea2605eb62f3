//! `hash` over inputs and outputs in memory, some of which fail.

use crate::verdict::same;
use lobby_cli::hash_line;
use std::alloc::{AllocError, Global};
use std::io::{Error, ErrorKind, Read, Result, Write};

const PASSWORD: &[u8] = b"X03MO1qnZdYdgyfeuILPmQ==\n";

const EMPTY: &[u8] = b"1B2M2Y8AsgTpgAmY7PhCfg==\n";

/// An input that counts its reads, and fails where its bytes are at an end.
#[derive(Drop)]
struct Broken<'a> {
    rest: &'a [u8],
    kind: ErrorKind,
    reads: usize,
}

impl Read for Broken<'_> {
    fn read(&mut self, buf: &mut [u8]) -> Result<usize> {
        self.reads = self.reads.saturating_add(1);
        if self.rest.is_empty() {
            return Err(Error::from(self.kind));
        }
        self.rest.read(buf)
    }
}

/// An output that takes three bytes and no more.
#[derive(Drop)]
struct Full {
    taken: usize,
}

impl Write for Full {
    fn write(&mut self, buf: &[u8]) -> Result<usize> {
        let count = buf.len().min(3usize.saturating_sub(self.taken));
        self.taken = self.taken.saturating_add(count);
        Ok(count)
    }

    fn flush(&mut self) -> Result<()> {
        Ok(())
    }
}

/// The status of an input, and what was printed.
fn hashed(alloc: Global, mut input: &[u8]) -> (u8, Vec<u8>) {
    let mut output = Vec::new(alloc);
    let status = hash_line(&mut input, &mut output);
    (status, output)
}

/// So many bytes `a` and then some others.
fn line(alloc: Global, count: usize, end: &[u8]) -> std::result::Result<Vec<u8>, AllocError> {
    let mut line = vec![in alloc; b'a'; count]?;
    line.extend_from_slice(end)?;
    Ok(line)
}

static LINE_ENDS: [(&[u8], &[u8]); 7] = [
    (b"password\n", PASSWORD),
    (b"password\r\n", PASSWORD),
    (b"password", PASSWORD),
    (b"password\nmore", PASSWORD),
    (b"", EMPTY),
    (b"\n", EMPTY),
    // Without LF a CR belongs to the password.
    (b"password\r", b"dYXdkGvIC54mYZss7XnL0w==\n"),
];

#[test]
fn drops_the_lines_end_alone(rt: HostRuntime) {
    for (input, word) in &LINE_ENDS {
        let (status, printed) = hashed(rt.alloc(), input);
        same(&rt, (status, printed.as_slice()), (0, *word));
    }
}

/// How many bytes stand before a line's end, that end, and the status.
static LENGTHS: [(usize, &[u8], u8); 6] = [
    (8_192, b"\n", 0),
    (8_191, b"\r\n", 0),
    (8_192, b"", 0),
    (8_192, b"\r\n", 1),
    (8_193, b"\n", 1),
    (8_193, b"", 1),
];

/// The status of a line; none where memory is refused.
fn status_of(alloc: Global, count: usize, end: &[u8]) -> Option<u8> {
    match line(alloc, count, end) {
        Ok(input) => Some(hashed(alloc, &input).0),
        Err(AllocError) => None,
    }
}

#[test]
fn refuses_a_line_over_the_limit(rt: HostRuntime) {
    for (count, end, status) in &LENGTHS {
        same(&rt, status_of(rt.alloc(), *count, end), Some(*status));
    }
}

/// What can be read before an input fails, how it fails, and how often it is read.
static FAILURES: [(&[u8], ErrorKind, usize); 3] = [
    (b"pass", ErrorKind::Other, 5),
    (b"pass", ErrorKind::Interrupted, 8_194),
    (&[b'a'; 8_192], ErrorKind::Interrupted, 8_194),
];

#[test]
fn tells_of_an_input_that_fails(rt: HostRuntime) {
    for (rest, kind, reads) in &FAILURES {
        let mut input = Broken {
            rest: *rest,
            kind: *kind,
            reads: 0,
        };
        let mut output = Vec::new(rt.alloc());
        let status = hash_line(&mut input, &mut output);
        same(
            &rt,
            (status, output.is_empty(), input.reads),
            (2, true, *reads),
        );
    }
}

#[test]
fn ignores_a_print_that_fails(rt: HostRuntime) {
    let mut output = Full { taken: 0 };
    same(
        &rt,
        hash_line(&mut b"password\n".as_slice(), &mut output),
        0,
    );
    same(&rt, output.taken, 3);
}
