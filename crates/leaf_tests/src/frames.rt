//! Streams of bytes cut into lines, with memory at hand.

use crate::verdict::same_for;
use line_framer::{FeedError, Framer};
use std::alloc::Global;
use std::process::Abort;
use std::rt::HostRuntime;

const LIMIT: usize = 8192;

/// A size of pieces that cuts nothing.
const WHOLE: usize = 16_384;

/// What comes, with what is answered, and what is next then.
#[derive(Clone, Copy)]
enum Step {
    Comes(&'static [u8], Result<(), FeedError>),
    /// The next line is this, and it is dropped.
    Next(&'static [u8]),
    /// The next line has so many bytes.
    NextLen(usize),
    NothingIsNext,
    IsSpoilt(bool),
}

/// Takes off the next line where it is the one that is wanted.
fn takes_off(framer: &mut Framer, want: &[u8]) -> bool {
    if framer.next_len() != Some(want.len()) {
        return false;
    }
    let is_wanted = match framer.peek() {
        Some(line) => line == want,
        None => false,
    };
    if is_wanted {
        framer.drop_line();
    }
    is_wanted
}

/// What comes is fed in pieces of this size; a size of nothing counts as one byte.
fn fed_in_pieces(framer: &mut Framer, stream: &[u8], size: usize) -> Result<(), FeedError> {
    for piece in stream.chunks(size.max(1)) {
        framer.feed(piece)?;
    }
    Ok(())
}

/// Whether a step comes out as it says.
fn takes(framer: &mut Framer, size: usize, step: &Step) -> bool {
    match step {
        Step::Comes(stream, wanted) => fed_in_pieces(framer, stream, size) == *wanted,
        Step::Next(line) => takes_off(framer, line),
        Step::NextLen(len) => framer.next_len() == Some(*len),
        Step::NothingIsNext => framer.next_len().is_none() && framer.peek().is_none(),
        Step::IsSpoilt(is_so) => framer.is_spoilt() == *is_so,
    }
}

fn take_all(rt: &impl Abort, framer: &mut Framer, size: usize, steps: &[Step]) {
    for (k, step) in steps.iter().enumerate() {
        same_for(rt, &(size, k), takes(framer, size, step), true);
    }
}

/// Takes these steps with a new framer of this limit; what comes is cut into pieces of this size.
fn play(rt: &impl Abort, alloc: Global, limit: usize, size: usize, steps: &[Step]) {
    let mut framer = Framer::new(alloc, limit);
    take_all(rt, &mut framer, size, steps);
    drop(framer);
}

static SIZES: [usize; 4] = [1, 2, 7, 64];

static CUT: [Step; 8] = [
    Step::Comes(b"PING\r\nSAY main a\rb\n\n\r\r\nEXIT", Ok(())),
    Step::Next(b"PING"),
    Step::Next(b"SAY main a\rb"),
    Step::Next(b""),
    Step::Next(b"\r"),
    Step::NothingIsNext,
    Step::Comes(b"\n", Ok(())),
    Step::Next(b"EXIT"),
];

#[test]
fn a_line_is_one_however_it_is_cut(rt: HostRuntime) {
    for size in &SIZES {
        play(&rt, rt.alloc(), LIMIT, *size, &CUT);
    }
}

static LATE_LF: [Step; 6] = [
    Step::Comes(b"PI", Ok(())),
    Step::Comes(b"NG\r", Ok(())),
    Step::NothingIsNext,
    Step::Comes(b"\n", Ok(())),
    Step::Next(b"PING"),
    Step::NothingIsNext,
];

#[test]
fn a_cr_is_dropped_though_its_lf_comes_in_the_next_piece(rt: HostRuntime) {
    play(&rt, rt.alloc(), LIMIT, WHOLE, &LATE_LF);
}

static AT_THE_LIMIT: [Step; 4] = [
    Step::Comes(&[b'A'; 8192], Ok(())),
    Step::Comes(b"\n", Ok(())),
    Step::NextLen(8192),
    Step::IsSpoilt(false),
];

#[test]
fn a_line_of_8192_bytes_is_a_line(rt: HostRuntime) {
    play(&rt, rt.alloc(), LIMIT, WHOLE, &AT_THE_LIMIT);
}

static OVER_THE_LIMIT: [Step; 6] = [
    Step::Comes(b"PING\nEX", Ok(())),
    Step::Comes(&[b'A'; 8191], Err(FeedError::Spoilt)),
    Step::IsSpoilt(true),
    Step::Comes(b"\nEXIT\n", Err(FeedError::Spoilt)),
    Step::Next(b"PING"),
    Step::NothingIsNext,
];

#[test]
fn a_line_of_8193_bytes_spoils_and_the_line_before_it_is_kept(rt: HostRuntime) {
    play(&rt, rt.alloc(), LIMIT, WHOLE, &OVER_THE_LIMIT);
}

static MANY_LINES: [Step; 3] = [
    Step::Comes(b"PING\nPONG\r\nEXIT\nPING\n", Err(FeedError::Spoilt)),
    Step::Next(b"PING"),
    Step::NothingIsNext,
];

#[test]
fn a_piece_of_many_lines_may_be_longer_than_the_limit(rt: HostRuntime) {
    play(&rt, rt.alloc(), 4, WHOLE, &MANY_LINES);
}
