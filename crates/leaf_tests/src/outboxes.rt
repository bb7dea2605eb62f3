//! One client's queue with memory at hand: the order of copied and of shared bytes, its limit and its cut.

use crate::verdict::same_for;
use bytes::Bytes;
use outbox::Outbox;
use std::alloc::Global;
use std::process::Abort;

/// What is done to an outbox, and what it shows then.
#[derive(Clone, Copy)]
enum Step {
    /// There is room for these bytes, and they are put by copying.
    Puts(&'static [u8]),
    /// There is room for these bytes, and they are put as a shared piece.
    Shares(&'static [u8]),
    /// There is no room for these bytes as a shared piece.
    RefusesToShare(&'static [u8]),
    /// So many bytes are copied from this place on, and the buffer is then this.
    CopiesFrom(usize, usize, &'static [u8; 8]),
    /// So many bytes are taken, and the buffer is then this.
    Takes(usize, &'static [u8; 8]),
    /// What a reader had is let go.
    Releases,
    Cuts,
    Unread(usize),
    HasRoomFor(usize),
    HasNoRoomFor(usize),
    IsCut(bool),
}

/// Makes room for bytes and puts them, as the lobby does for each event; whether there was room.
fn puts(outbox: &mut Outbox, bytes: &[u8]) -> bool {
    if !outbox.room_for(bytes.len()) || outbox.reserve(bytes.len()).is_err() {
        return false;
    }
    outbox.put(bytes);
    true
}

/// Makes room for a shared piece and puts it; whether there was room.
fn shares(outbox: &mut Outbox, bytes: &'static [u8]) -> bool {
    let piece: Bytes = Bytes::from_static(bytes);
    if !outbox.room_for(piece.len()) || outbox.reserve_shared(0, 1).is_err() {
        return false;
    }
    outbox.put_shared(piece);
    true
}

fn copies(
    outbox: &Outbox,
    buffer: &mut [u8; 8],
    place: usize,
    count: usize,
    bytes: &[u8; 8],
) -> bool {
    outbox.copy_from(place, buffer) == count && *buffer == *bytes
}

fn takes(outbox: &mut Outbox, buffer: &mut [u8; 8], count: usize, bytes: &[u8; 8]) -> bool {
    outbox.take(buffer) == count && *buffer == *bytes
}

/// Does what a step says, and whether it comes out so.
fn acts(outbox: &mut Outbox, buffer: &mut [u8; 8], step: &Step) -> bool {
    match step {
        Step::Puts(bytes) => puts(outbox, bytes),
        Step::Shares(bytes) => shares(outbox, bytes),
        Step::RefusesToShare(bytes) => !shares(outbox, bytes),
        Step::CopiesFrom(place, count, bytes) => copies(outbox, buffer, *place, *count, bytes),
        Step::Takes(count, bytes) => takes(outbox, buffer, *count, bytes),
        Step::Releases => {
            outbox.release(0);
            true
        }
        Step::Cuts => {
            outbox.cut();
            true
        }
        Step::Unread(count) => outbox.unread() == *count,
        Step::HasRoomFor(count) => outbox.room_for(*count),
        Step::HasNoRoomFor(count) => !outbox.room_for(*count),
        Step::IsCut(is_so) => outbox.is_cut() == *is_so,
    }
}

fn act_all(rt: &impl Abort, outbox: &mut Outbox, buffer: &mut [u8; 8], steps: &[Step]) {
    for (k, step) in steps.iter().enumerate() {
        same_for(rt, &k, acts(outbox, buffer, step), true);
    }
}

/// Takes these steps, so many times over, with a new outbox of this limit and one buffer.
fn play(rt: &impl Abort, alloc: Global, limit: usize, steps: &[Step], times: u32) {
    let mut outbox = Outbox::new(alloc, limit);
    let mut buffer = [b'.'; 8];
    for _ in 0..times {
        act_all(rt, &mut outbox, &mut buffer, steps);
    }
    drop(outbox);
}

const LONG: [u8; 65_530] = [b'x'; 65_530];

static FULL: [Step; 4] = [
    Step::Puts(&LONG),
    Step::Unread(65_530),
    Step::HasRoomFor(6),
    Step::HasNoRoomFor(7),
];

static FULL_OF_A_SHARE: [Step; 4] = [
    Step::Shares(&LONG),
    Step::Unread(65_530),
    Step::HasRoomFor(6),
    Step::HasNoRoomFor(7),
];

#[test]
fn room_ends_at_the_limit(rt: HostRuntime) {
    play(&rt, rt.alloc(), 65_536, &FULL, 1);
    play(&rt, rt.alloc(), 65_536, &FULL_OF_A_SHARE, 1);
}

static COPIED: [Step; 11] = [
    Step::Puts(b"PONG\nENDOF\n"),
    Step::CopiesFrom(9, 2, b"F\n......"),
    Step::Takes(8, b"PONG\nEND"),
    Step::Puts(b"#1 PONG\n"),
    Step::Unread(11),
    Step::Takes(8, b"OF\n#1 PO"),
    Step::Takes(3, b"NG\n#1 PO"),
    Step::Takes(0, b"NG\n#1 PO"),
    Step::Releases,
    Step::Puts(b"PONG\n"),
    Step::Unread(5),
];

#[test]
fn bytes_come_out_in_their_order(rt: HostRuntime) {
    play(&rt, rt.alloc(), 12, &COPIED, 1);
}

/// Shared pieces among copied bytes.
static SHARED: [Step; 10] = [
    Step::Puts(b"PONG\n"),
    Step::Shares(b"SAIDo\n"),
    Step::Shares(b""),
    Step::Puts(b"ENDOF\n"),
    Step::CopiesFrom(9, 8, b"o\nENDOF\n"),
    Step::Takes(8, b"PONG\nSAI"),
    Step::Takes(8, b"Do\nENDOF"),
    Step::Takes(1, b"\no\nENDOF"),
    Step::Takes(0, b"\no\nENDOF"),
    Step::Releases,
];

#[test]
fn shared_pieces_come_out_among_copied_bytes(rt: HostRuntime) {
    play(&rt, rt.alloc(), 64, &SHARED, 3);
}

#[test]
fn no_limit_is_too_great_for_shared_pieces(rt: HostRuntime) {
    play(&rt, rt.alloc(), usize::MAX, &SHARED, 1);
}

/// One shared piece more behind a copied one.
static PILED: [Step; 2] = [Step::Puts(b"#"), Step::Shares(b"SAIDo\n")];

#[test]
fn thousands_of_shared_pieces_are_refused_no_memory(rt: HostRuntime) {
    play(&rt, rt.alloc(), 65_536, &PILED, 3_000);
    let mut outbox = Outbox::new(rt.alloc(), 65_536);
    same_for(
        &rt,
        &"at once",
        outbox.reserve_shared(0, 3_000).is_ok(),
        true,
    );
    drop(outbox);
}

static CUT: [Step; 6] = [
    Step::Puts(b"PONG\n"),
    Step::IsCut(false),
    Step::Cuts,
    Step::IsCut(true),
    Step::Takes(0, b"........"),
    Step::HasNoRoomFor(1),
];

static CUT_WITH_A_SHARE: [Step; 5] = [
    Step::Shares(b"PONG\n"),
    Step::Cuts,
    Step::Takes(0, b"........"),
    Step::HasNoRoomFor(1),
    Step::RefusesToShare(b"PONG\n"),
];

#[test]
fn a_cut_client_gets_nothing_more(rt: HostRuntime) {
    play(&rt, rt.alloc(), 64, &CUT, 1);
    play(&rt, rt.alloc(), 64, &CUT_WITH_A_SHARE, 1);
}

/// Whether the buffer that one outbox hands over is gone from it, has the room that was made, and is
/// held by another that had none.
fn is_handed_on(from: &mut Outbox, to: &mut Outbox) -> bool {
    if !from.room_for(8) || from.reserve(8).is_err() || to.has_buffer() {
        return false;
    }
    match from.hand_over() {
        Some(buffer) => {
            let has_room = buffer.capacity() >= 8;
            to.adopt(buffer);
            has_room && !from.has_buffer() && to.has_buffer()
        }
        None => false,
    }
}

#[test]
fn a_buffer_that_is_handed_over_serves_another(rt: HostRuntime) {
    let mut from = Outbox::new(rt.alloc(), 64);
    let mut to = Outbox::new(rt.alloc(), 64);
    same_for(&rt, &"handed on", is_handed_on(&mut from, &mut to), true);
    drop(to);
    drop(from);
}
