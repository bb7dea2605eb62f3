//! Workers in threads of their own at one desk, how many passes there are, and how a desk is closed.

ghost use Rattle.std.specs.Prelude.{◌≡◌};

use crate::turns::desks::{open, open_for_two};
use crate::verdict::same;
use lobby_lock::{CloseError, Closing, Count, Desk, DeskError, Pass};
use lobby_machine::Wakes;
use std::alloc::Global;
use std::process::Abort;
use std::sync::Wait;
use std::sync::atomic::{AtomicBool, Ordering};
use std::thread::{self, Threads};
use std::time::{Clock, Duration};
use test_lobby::{ANNA_SAYS, BERT_IS_IN, BERT_SAYS, GREETING, read};

/// Opens a client and logs it in by this line, in one hold, and then sets the flag.
fn log_in<R: Wait>(
    rt: &R,
    desk: &Desk,
    pass: Pass,
    alloc: Global,
    line: &[u8],
    flag: &AtomicBool,
) -> Pass
    requires { pass.desk ≡ desk.now }
    ensures desk { result.desk ≡ desk.now }
    ensures number { result.worker.number ≡ pass.worker.number }
{
    let Ok(login) = read(alloc, line) else {
        return pass;
    };
    let mut held = desk.take(rt, pass);
    let _ = held.open([10, 0, 0, 1], 0);
    let _ = held.say(1, login);
    let pass = held.give(rt, desk);
    flag.store(true, Ordering::SeqCst);
    pass
}

/// What came of a hold.
#[derive(Drop)]
struct Seen {
    client: u64,
    position: u64,
    wakes: Option<Wakes>,
    events: usize,
    count: usize,
    bytes: [u8; 256],
}

/// So often a thread looks for the flag, with a sleep of a millisecond after each look.
const LOOKS: u32 = 10_000;

/// Whether the flag is set, within so many looks.
fn see<C: Clock>(clock: &C, flag: &AtomicBool) -> bool {
    for _ in 0..LOOKS {
        if flag.load(Ordering::SeqCst) {
            return true;
        }
        thread::sleep(clock, Duration::from_millis(1));
    }
    false
}

/// Sees the flag, and then opens a client, logs it in by this line, and reads, in one hold. None where the flag is not
/// seen.
fn log_in_and_read<R: Wait>(
    rt: &R,
    desk: &Desk,
    pass: Pass,
    clock: HostRuntime,
    line: &[u8],
    flag: &AtomicBool,
) -> (Pass, Option<Seen>)
    requires { pass.desk ≡ desk.now }
    ensures { result.0.desk ≡ desk.now }
{
    if !see(&clock, flag) {
        return (pass, None);
    }
    let Ok(login) = read(clock.alloc(), line) else {
        return (pass, None);
    };
    let mut held = desk.take(rt, pass);
    let position = held.position();
    let client = held.open([10, 0, 0, 2], 1).unwrap_or(0);
    let wakes = held.say(client, login).ok().map(|said| said.wakes);
    let mut bytes = [0u8; 256];
    let count = held.drain(client, &mut bytes).count;
    let events = held.count();
    let seen = Seen {
        client,
        position,
        wakes,
        events,
        count,
        bytes,
    };
    (held.give(rt, desk), Some(seen))
}

fn compare(rt: &impl Abort, seen: Option<Seen>) {
    let Some(seen) = seen else {
        assert!(rt; false, "a line was read, and the flag was seen");
        return;
    };
    same(rt, seen.client, 2);
    same(rt, seen.position, 2);
    same(rt, seen.wakes, Some(Wakes::one(0).union(Wakes::one(1))));
    same(rt, seen.events, 3);
    let read = seen.bytes.get(..seen.count).unwrap_or(&[]);
    same(rt, read.strip_prefix(GREETING), Some(BERT_IS_IN));
}

/// Takes back the pass of a worker that has ended, and holds the lobby once more.
fn end<R: Wait + Abort>(rt: &R, desk: &Desk, pass: Pass, other: Pass)
    requires desk { (pass.desk ≡ desk.now) × (other.desk ≡ desk.now) }
    requires first { pass.worker.number ≡ 0 }
{
    let pass = desk.take_back(pass, other);
    let mut held = desk.take(rt, pass);
    same(rt, held.shut(1).is_ok(), true);
    same(rt, held.count(), 1);
    drop(held.give(rt, desk));
}

/// Logs Anna in in a thread, and then Bert in this one, who reads.
fn give_and_read<R: Threads + Wait + Abort + Sync>(
    rt: &R,
    clock: HostRuntime,
    desk: &Desk,
    pass: Pass,
    other: Pass,
)
    requires desk { (pass.desk ≡ desk.now) × (other.desk ≡ desk.now) }
    requires first { pass.worker.number ≡ 0 }
{
    let flag = AtomicBool::new(false);
    let given = &flag;
    let alloc = clock.alloc();
    let (pass, answer) = thread::join(
        rt,
        move || -> Pass
            requires { (pass.desk ≡ desk.now) × (pass.worker.number ≡ 0) }
            ensures { (result.desk ≡ desk.entry.now) × (result.worker.number ≡ 0) }
        { log_in(rt, desk, pass, alloc, ANNA_SAYS, given) },
        move || -> (Pass, Option<Seen>)
            requires { other.desk ≡ desk.now }
            ensures { result.0.desk ≡ desk.entry.now }
        { log_in_and_read(rt, desk, other, clock, BERT_SAYS, given) },
    );
    let (other, seen) = answer;
    compare(rt, seen);
    end(rt, desk, pass, other);
}

#[test]
fn what_one_worker_gave_another_reads(rt: HostRuntime) {
    match open_for_two(&rt, rt.alloc()) {
        Some((desk, pass, other)) => {
            give_and_read(&rt, rt, &desk, pass, other);
            drop(desk);
        }
        None => assert!(rt; false, "no desk"),
    }
}

/// Asks for a pass 64 times, of which 63 are one more than the first: how many were handed out, and why one was
/// refused.
fn hand_out_all(
    desk: &Desk,
    alloc: Global,
    pass: Pass,
    others: &mut Vec<Pass>,
) -> (Pass, u64, Option<DeskError>)
    requires { (pass.desk ≡ desk.now) × (pass.worker.number ≡ 0) }
    ensures { result.0.desk ≡ desk.now }
{
    let mut pass = pass;
    let mut count = 0u64;
    let mut refusal = None;
    for _ in 0..64u64 {
        match desk.hand_out(alloc, pass) {
            Ok((mine, other)) => {
                pass = mine;
                count += 1;
                let _ = others.push(other);
            }
            Err((mine, error)) => {
                pass = mine;
                refusal = Some(error);
            }
        }
    }
    (pass, count, refusal)
}

/// Hands out all passes, and holds the lobby once more.
fn count_passes<R: Wait + Abort>(rt: &R, alloc: Global, desk: &Desk, pass: Pass)
    requires { (pass.desk ≡ desk.now) × (pass.worker.number ≡ 0) }
{
    let mut others = Vec::new(alloc);
    let (pass, count, refusal) = hand_out_all(desk, alloc, pass, &mut others);
    drop(others);
    same(rt, count, 63);
    same(rt, refusal, Some(DeskError::TooManyWorkers));
    let mut held = desk.take(rt, pass);
    same(rt, held.open([10, 0, 0, 1], 63), Ok(1));
    drop(held.give(rt, desk));
}

#[test]
fn sixty_three_passes_are_handed_out(rt: HostRuntime) {
    match open(&rt, rt.alloc()) {
        Some((desk, pass)) => {
            count_passes(&rt, rt.alloc(), &desk, pass);
            drop(desk);
        }
        None => assert!(rt; false, "no desk"),
    }
}

/// A hold in which a client is opened.
fn open_one<R: Wait>(rt: &R, desk: &Desk, pass: Pass) -> Pass
    requires { pass.desk ≡ desk.now }
    ensures desk { result.desk ≡ desk.now }
    ensures number { result.worker.number ≡ pass.worker.number }
{
    let mut held = desk.take(rt, pass);
    let _ = held.open([10, 0, 0, 1], 0);
    held.give(rt, desk)
}

fn compare_counts(rt: &impl Abort, closing: &Closing) {
    same(rt, closing.events(0), Count::Made(1));
    same(rt, closing.events(1), Count::Made(2));
    same(rt, closing.events(2), Count::Never);
}

/// Takes back the pass that was out, and closes the desk.
fn close_at_last<R: Wait + Abort>(rt: &R, desk: Desk, pass: Pass, other: Pass)
    requires desk { (pass.desk ≡ desk) × (other.desk ≡ desk) }
    requires first { pass.worker.number ≡ 0 }
{
    let pass = desk.take_back(pass, other);
    match desk.close(rt, pass) {
        Ok(closing) => {
            compare_counts(rt, &closing);
            drop(closing);
        }
        Err(refused) => {
            drop(refused);
            assert!(rt; false, "the desk was not closed");
        }
    }
}

/// Tries to close the desk while a pass is out, and then without.
fn close<R: Wait + Abort>(rt: &R, desk: Desk, pass: Pass, other: Pass)
    requires desk { (pass.desk ≡ desk) × (other.desk ≡ desk) }
    requires first { pass.worker.number ≡ 0 }
{
    match desk.close(rt, pass) {
        Ok(closing) => {
            drop(closing);
            drop(other);
            assert!(rt; false, "the desk was closed while a pass was out");
        }
        Err((desk, pass, error)) => {
            same(rt, error, CloseError::StillOut(1));
            close_at_last(rt, desk, pass, other);
        }
    }
}

/// Worker 0 makes an event, worker 1 two.
#[test]
fn a_desk_is_closed_once_all_passes_are_back(rt: HostRuntime) {
    match open_for_two(&rt, rt.alloc()) {
        Some((desk, pass, other)) => {
            let pass = open_one(&rt, &desk, pass);
            let other = open_one(&rt, &desk, other);
            let other = open_one(&rt, &desk, other);
            close(&rt, desk, pass, other);
        }
        None => assert!(rt; false, "no desk"),
    }
}
