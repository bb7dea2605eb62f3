//! The lists of changed clients: who comes out of them, and in which order.

ghost use Rattle.std.specs.Prelude.{◌<◌};

use crate::machine::clients::{cut, drains, fill, say};
use crate::machine::plays::{Part, play};
use crate::verdict::{holds, same};
use lobby_machine::{Lobby, Wakes};
use std::alloc::Global;
use std::process::Abort;
use test_lobby::{ANNA_SAYS, BERT_SAYS, new_lobby};

/// These clients of a worker come out in this order, and nobody else.
fn come_out(rt: &impl Abort, lobby: &mut Lobby, worker: u8, clients: &[u64])
    requires { worker < 64 }
{
    for client in clients {
        same(rt, lobby.next_dirty(worker), Some(*client));
    }
    same(rt, lobby.next_dirty(worker), None);
}

pub fn open_one(rt: &impl Abort, lobby: &mut Lobby) {
    same(rt, lobby.open([10, 0, 0, 1], 2), Ok(1));
    same(rt, lobby.next_dirty(1), None);
    come_out(rt, lobby, 2, &[1]);
}

#[test]
fn a_client_that_was_opened_comes_out_once(rt: HostRuntime) {
    play(&rt, rt.alloc(), new_lobby(rt.alloc()), Part::ComingOnce);
}

/// Whether who speaks for this client speaks in vain.
fn is_nobody(lobby: &mut Lobby, alloc: Global, client: u64) -> bool {
    say(lobby, alloc, client, b"PING") == Some(Wakes::none())
        && drains(lobby, client, &mut [0; 8], b"", true)
        && lobby.shut(client) == Ok(Wakes::none())
        && lobby.unread(client) == 0
}

fn comes_and_goes(lobby: &mut Lobby, alloc: Global, client: u64) -> bool {
    lobby.open([10, 0, 0, 1], 0) == Ok(client)
        && lobby.shut(client).is_ok()
        && is_nobody(lobby, alloc, client)
}

pub fn come_and_go(rt: &impl Abort, alloc: Global, lobby: &mut Lobby) {
    for client in 1..1001 {
        holds(rt, comes_and_goes(lobby, alloc, client), client);
    }
    same(rt, lobby.open([10, 0, 0, 1], 0), Ok(1001));
    for client in 1..1001 {
        holds(rt, is_nobody(lobby, alloc, client), client);
    }
    come_out(rt, lobby, 0, &[1001]);
}

#[test]
fn a_number_of_the_past_is_nobody(rt: HostRuntime) {
    play(&rt, rt.alloc(), new_lobby(rt.alloc()), Part::ComingAndGoing);
}

pub fn fill_and_cut(rt: &impl Abort, alloc: Global, lobby: &mut Lobby) {
    fill(rt, alloc, lobby);
    come_out(rt, lobby, 0, &[1]);
    cut(rt, alloc, lobby);
    come_out(rt, lobby, 0, &[1]);
}

#[test]
fn a_client_that_was_cut_comes_out_once(rt: HostRuntime) {
    play(&rt, rt.alloc(), new_lobby(rt.alloc()), Part::BeingCut);
}

/// Two users whom one worker serves. The second of them enters the channel first, and is told first.
static MEETING: [(u64, &[u8]); 4] = [
    (1, ANNA_SAYS),
    (2, BERT_SAYS),
    (2, b"JOIN main"),
    (1, b"JOIN main"),
];

fn meet(rt: &impl Abort, alloc: Global, lobby: &mut Lobby) {
    same(rt, lobby.open([10, 0, 0, 1], 5), Ok(1));
    same(rt, lobby.open([10, 0, 0, 2], 5), Ok(2));
    for (client, line) in &MEETING {
        holds(rt, say(lobby, alloc, *client, line).is_some(), *client);
    }
    come_out(rt, lobby, 5, &[1, 2]);
}

fn talk(rt: &impl Abort, alloc: Global, lobby: &mut Lobby) {
    holds(rt, say(lobby, alloc, 2, b"SAY main hello").is_some(), 2);
    come_out(rt, lobby, 5, &[1, 2]);
    holds(rt, say(lobby, alloc, 2, b"PING").is_some(), 2);
    holds(rt, say(lobby, alloc, 1, b"SAY main hello").is_some(), 1);
    come_out(rt, lobby, 5, &[2, 1]);
}

pub fn meet_and_talk(rt: &impl Abort, alloc: Global, lobby: &mut Lobby) {
    meet(rt, alloc, lobby);
    talk(rt, alloc, lobby);
}

#[test]
fn who_gained_bytes_comes_out_in_rising_numbers_behind_those_who_wait(rt: HostRuntime) {
    play(&rt, rt.alloc(), new_lobby(rt.alloc()), Part::Meeting);
}
