//! A lobby: whom it wakes, and how a client ends and is cut.

ghost use Rattle.std.specs.Prelude.{◌<◌};

use crate::machine::plays::{Part, play};
use crate::verdict::same;
use lobby_machine::{Drained, Lobby, OpenError, Wakes};
use std::alloc::Global;
use std::process::Abort;
use test_lobby::{ANNA_SAYS, new_lobby, read};

/// The value, where it is as it should be.
fn only_if<T: Drop>(is_so: bool, value: T) -> Option<T> {
    if is_so {
        Some(value)
    } else {
        drop(value);
        None
    }
}

/// Whom a line of a client wakes; nothing where memory is refused.
pub fn say(lobby: &mut Lobby, alloc: Global, client: u64, line: &[u8]) -> Option<Wakes> {
    match read(alloc, line) {
        Ok(request) => {
            let said = lobby.say(client, &request);
            request.discard();
            said.ok()
        }
        Err(_) => None,
    }
}

/// Whether a drain into a slice gives these bytes and no more, and says so of whether anything will come again.
pub fn drains(
    lobby: &mut Lobby,
    client: u64,
    into: &mut [u8],
    want: &[u8],
    finished: bool,
) -> bool {
    let count = want.len();
    lobby.drain(client, into) == Drained { count, finished } && into.starts_with(want)
}

/// Whether a line of a client wakes this worker alone.
fn wakes_alone(lobby: &mut Lobby, alloc: Global, client: u64, line: &[u8], worker: u8) -> bool
    requires { worker < 64 }
{
    match say(lobby, alloc, client, line) {
        Some(wakes) => wakes.has(worker) && wakes == Wakes::one(worker),
        None => false,
    }
}

/// Whether a line of a client wakes nobody.
fn wakes_nobody(lobby: &mut Lobby, alloc: Global, client: u64, line: &[u8]) -> bool {
    say(lobby, alloc, client, line) == Some(Wakes::none())
}

fn open_two(rt: &impl Abort, lobby: &mut Lobby) {
    same(rt, lobby.has_place(), true);
    same(rt, lobby.open([10, 0, 0, 1], 5), Ok(1));
    same(rt, lobby.open([10, 0, 0, 2], 63), Ok(2));
    same(rt, lobby.last_client(), 2);
}

/// Lines that are answered, most of them by a refusal.
static ANSWERED: [&[u8]; 9] = [
    b"PING",
    b"ping",
    b"SAY main",
    b"MYSTATUS 1x",
    b"JOIN a-b",
    b"JOIN a\tb",
    b"SETSCRIPTTAGS =1",
    b"JOIN main",
    b"LOGIN Anna 1B2M2Y8AsgTpgAmY7PhCfg== 0 * TestLobby 1.0",
];

/// The first line of these with which one of the clients wakes others than its own worker.
fn misses(lobby: &mut Lobby, alloc: Global) -> Option<&'static [u8]> {
    for line in &ANSWERED {
        if !wakes_alone(lobby, alloc, 1, line, 5) || !wakes_alone(lobby, alloc, 2, line, 63) {
            return Some(*line);
        }
    }
    None
}

pub fn wake(rt: &impl Abort, alloc: Global, lobby: &mut Lobby) {
    open_two(rt, lobby);
    same(rt, misses(lobby, alloc), None);
    same(rt, wakes_nobody(lobby, alloc, 1, b"   "), true);
    same(rt, wakes_nobody(lobby, alloc, 1, b"#9 "), true);
}

#[test]
fn an_answer_wakes_the_worker_of_its_client(rt: HostRuntime) {
    play(&rt, rt.alloc(), new_lobby(rt.alloc()), Part::Waking);
}

fn exit(rt: &impl Abort, alloc: Global, lobby: &mut Lobby) {
    same(rt, lobby.open([10, 0, 0, 1], 0), Ok(1));
    same(rt, wakes_nobody(lobby, alloc, 1, b"EXIT bye"), true);
    same(rt, wakes_nobody(lobby, alloc, 1, b"PING"), true);
}

fn read_on(rt: &impl Abort, lobby: &mut Lobby) {
    let mut piece = [b'.'; 16];
    same(rt, lobby.copy_unread(1, 19, &mut piece), 5);
    same(rt, piece, *b"01 0\n...........");
    same(
        rt,
        drains(lobby, 1, &mut piece, b"TASSERVER 0.38 *", false),
        true,
    );
    same(rt, drains(lobby, 1, &mut piece, b" 8201 0\n", true), true);
    same(rt, piece, *b" 8201 0\nR 0.38 *");
}

fn leave(rt: &impl Abort, lobby: &mut Lobby) {
    same(rt, lobby.has_client(1), true);
    same(rt, lobby.shut(1), Ok(Wakes::none()));
    same(rt, lobby.has_client(1), false);
}

pub fn exit_and_read_on(rt: &impl Abort, alloc: Global, lobby: &mut Lobby) {
    exit(rt, alloc, lobby);
    read_on(rt, lobby);
    leave(rt, lobby);
}

#[test]
fn a_client_that_exits_may_read_on(rt: HostRuntime) {
    play(&rt, rt.alloc(), new_lobby(rt.alloc()), Part::ReadingOn);
}

fn ping_often(lobby: &mut Lobby, alloc: Global, client: u64, times: u32) -> bool {
    for _ in 0..times {
        if say(lobby, alloc, client, b"#1 PING").is_none() {
            return false;
        }
    }
    true
}

/// A greeting has 24 bytes, and each answer 8: together just as many as an outbox takes, so nobody is cut.
pub fn fill(rt: &impl Abort, alloc: Global, lobby: &mut Lobby) {
    same(rt, lobby.open([10, 0, 0, 1], 0), Ok(1));
    same(rt, lobby.unread(1), 24);
    same(rt, ping_often(lobby, alloc, 1, 8_189), true);
    same(rt, lobby.unread(1), 65_536);
}

/// One more answer finds no room: it puts no byte, and nothing will ever come of its client.
pub fn cut(rt: &impl Abort, alloc: Global, lobby: &mut Lobby) {
    same(rt, wakes_alone(lobby, alloc, 1, b"PING", 0), true);
    same(rt, lobby.unread(1), 0);
    same(rt, drains(lobby, 1, &mut [0; 8], b"", true), true);
}

pub fn fill_and_cut(rt: &impl Abort, alloc: Global, lobby: &mut Lobby) {
    fill(rt, alloc, lobby);
    cut(rt, alloc, lobby);
    same(rt, wakes_nobody(lobby, alloc, 1, b"PING"), true);
    same(rt, lobby.unread(1), 0);
    leave(rt, lobby);
}

#[test]
fn a_client_that_reads_nothing_is_cut_at_the_limit(rt: HostRuntime) {
    play(&rt, rt.alloc(), new_lobby(rt.alloc()), Part::Cutting);
}

/// The answer has 5 bytes: just so many are read before.
pub fn read_enough(rt: &impl Abort, alloc: Global, lobby: &mut Lobby) {
    fill(rt, alloc, lobby);
    same(rt, drains(lobby, 1, &mut [0; 5], b"TASSE", false), true);
    same(rt, wakes_alone(lobby, alloc, 1, b"PING", 0), true);
    same(rt, lobby.unread(1), 65_536);
    let mut last = [0; 13];
    same(rt, lobby.copy_unread(1, 65_523, &mut last), 13);
    same(rt, last, *b"#1 PONG\nPONG\n");
}

#[test]
fn who_reads_as_much_as_an_answer_has_gets_it(rt: HostRuntime) {
    play(&rt, rt.alloc(), new_lobby(rt.alloc()), Part::ReadingEnough);
}

/// A byte fewer is read before.
pub fn read_too_little(rt: &impl Abort, alloc: Global, lobby: &mut Lobby) {
    fill(rt, alloc, lobby);
    same(rt, drains(lobby, 1, &mut [0; 4], b"TASS", false), true);
    cut(rt, alloc, lobby);
}

#[test]
fn who_reads_a_byte_fewer_is_cut(rt: HostRuntime) {
    play(
        &rt,
        rt.alloc(),
        new_lobby(rt.alloc()),
        Part::ReadingTooLittle,
    );
}

fn read_all(lobby: &mut Lobby, client: u64) {
    let _ = lobby.drain(client, &mut [0; 512]);
}

/// The clients 1, 2 and 3, which the workers of the same numbers serve, read their greetings.
fn open_three(lobby: &mut Lobby) -> Result<(), OpenError> {
    for home in 1..4 {
        let client = lobby.open([10, 0, 0, 1], home)?;
        read_all(lobby, client);
    }
    Ok(())
}

fn lobby_of_three(alloc: Global) -> Option<Lobby> {
    let mut lobby = new_lobby(alloc)?;
    let are_open = open_three(&mut lobby).is_ok();
    only_if(are_open, lobby)
}

/// Anna logs in and out again, and reads what she got.
pub fn log_in_and_out(rt: &impl Abort, alloc: Global, lobby: &mut Lobby) {
    let client = 1;
    same(rt, wakes_alone(lobby, alloc, client, ANNA_SAYS, 1), true);
    same(rt, wakes_nobody(lobby, alloc, client, b"#5 EXIT bye"), true);
    same(rt, wakes_nobody(lobby, alloc, client, b"PING"), true);
    let got = b"ACCEPTED Anna\nMOTD Welcome\nADDUSER Anna DE 0 1\nLOGININFOEND\n";
    same(rt, drains(lobby, client, &mut [0; 256], got, true), true);
}

#[test]
fn a_user_that_exits_is_finished_when_all_is_read(rt: HostRuntime) {
    play(&rt, rt.alloc(), lobby_of_three(rt.alloc()), Part::Leaving);
}

fn open_often(lobby: &mut Lobby, times: u32) -> Result<(), OpenError> {
    for _ in 0..times {
        let _ = lobby.open([10, 0, 0, 1], 0)?;
    }
    Ok(())
}

fn find_it_full(rt: &impl Abort, lobby: &mut Lobby) {
    same(rt, lobby.open([10, 0, 0, 1], 0), Err(OpenError::Full));
    same(rt, lobby.last_client(), 10_000);
    same(rt, lobby.shut(7).is_ok(), true);
    same(rt, lobby.open([10, 0, 0, 1], 0), Ok(10_001));
}

pub fn open_to_the_last(rt: &impl Abort, lobby: &mut Lobby) {
    same(rt, open_often(lobby, 10_000), Ok(()));
    find_it_full(rt, lobby);
}

#[test]
fn ten_thousand_clients_are_full(rt: HostRuntime) {
    play(&rt, rt.alloc(), new_lobby(rt.alloc()), Part::Filling);
}
