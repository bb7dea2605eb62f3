//! A lobby of three users who talk, and gather in a battle.

use crate::refusing::deeds::{Deed, Subject, try_deeds};
use crate::refusing::notes::Notes;
use crate::refusing::refuser::Refuser;
use lobby_machine::{Lobby, OpenError};
use std::alloc::{AllocError, Global};
use std::io;
use std::io::Write;
use test_lobby::{
    ANNA_SAYS, BERT_SAYS, HOME, PIECE, READS, book_with_onlookers, lobby_of, read_some, say,
};

/// So many answers of 17 bytes are more than a buffer has that is kept, 32,768 bytes.
const ANSWERS: u32 = 2_000;

/// How many bytes are compared at a time.
const COMPARED: usize = 512;

/// They log in, one after another, and talk in two channels; then Anna opens a battle and furnishes it, Cleo joins it,
/// is forced this and that, and leaves with two bots; Bert goes with his channels, and is shut.
static DEEDS: [(u64, Deed); 52] = [
    (1, Deed::Open),
    (2, Deed::Open),
    (3, Deed::Open),
    (1, Deed::Send(ANNA_SAYS)),
    (2, Deed::Send(BERT_SAYS)),
    (2, Deed::Read(40)),
    (
        3,
        Deed::Send(b"LOGIN Cleo X03MO1qnZdYdgyfeuILPmQ== 0 * TestLobby 1.0"),
    ),
    (1, Deed::Send(b"MYSTATUS 1")),
    (2, Deed::Send(b"MYSTATUS 2")),
    (1, Deed::Send(b"JOIN main")),
    (2, Deed::Send(b"JOIN main")),
    (3, Deed::Send(b"JOIN main")),
    (2, Deed::Send(b"JOIN big")),
    (1, Deed::Send(b"JOIN big")),
    (2, Deed::Send(b"#7 SAY main hello")),
    (3, Deed::Send(b"SAYEX main waves")),
    (1, Deed::Send(b"#8 SAYPRIVATE Cleo hi")),
    (3, Deed::Send(b"CHANNELS")),
    (3, Deed::Send(b"PING")),
    (
        1,
        Deed::Send(
            b"#3 OPENBATTLE 0 2 secret 8452 16 -1 7 123 spring\t104.0\tComet Catcher\tAll welcome\tBA 9.46",
        ),
    ),
    (1, Deed::Send(b"ADDBOT Robo 1024 255 KAIK")),
    (1, Deed::Send(b"ADDSTARTRECT 0 0 0 200 60")),
    (1, Deed::Send(b"SETSCRIPTTAGS a=1\tb=2")),
    (1, Deed::Send(b"UPDATEBATTLEINFO 0 0 5 Other Map")),
    (3, Deed::Send(b"JOINBATTLE 1 secret pw9")),
    (3, Deed::Send(b"MYBATTLESTATUS 1024 7")),
    (3, Deed::Send(b"ADDBOT Rex 1024 0 KAIK")),
    (3, Deed::Send(b"ADDBOT Tik 1088 -1 KAIK")),
    (1, Deed::Send(b"KICKFROMBATTLE Cleo")),
    (3, Deed::Send(b"JOINBATTLE 1 secret")),
    (3, Deed::Send(b"ADDBOT Rex 1024 0 KAIK")),
    (3, Deed::Send(b"ADDBOT Tik 1088 -1 KAIK")),
    (1, Deed::Send(b"SAYBATTLE go")),
    (3, Deed::Send(b"SAYBATTLEEX goes")),
    (3, Deed::Send(b"MYBATTLESTATUS 1024 7")),
    (1, Deed::Send(b"HANDICAP Cleo 10")),
    (1, Deed::Send(b"FORCETEAMNO Cleo 3")),
    (1, Deed::Send(b"FORCEALLYNO Cleo 1")),
    (1, Deed::Send(b"FORCETEAMCOLOR Cleo 255")),
    (1, Deed::Send(b"FORCESPECTATORMODE Cleo")),
    (1, Deed::Send(b"RING Cleo")),
    (3, Deed::Send(b"UPDATEBOT Rex 1088 9")),
    (1, Deed::Send(b"REMOVEBOT Robo")),
    (1, Deed::Send(b"REMOVESTARTRECT 0")),
    (1, Deed::Send(b"SETSCRIPTTAGS a=3\tc=4")),
    (1, Deed::Send(b"REMOVESCRIPTTAGS b")),
    (3, Deed::Send(b"EXIT")),
    (2, Deed::Shut),
    (1, Deed::Send(b"LEAVE main")),
    (4, Deed::Open),
    (
        4,
        Deed::Send(b"LOGIN Bert X03MO1qnZdYdgyfeuILPmQ== 0 * TestLobby 1.0"),
    ),
    (1, Deed::Send(b"LEAVEBATTLE")),
];

/// Five more connect, so that a client 5 is there, however many there were. Dora logs in at it, and is told the users,
/// the battles and their members; then who is in the channels, and what the members of the battle share. Then the
/// others log out, and she is told what each was in.
static LOOKS: [(u64, Deed); 13] = [
    (1, Deed::Open),
    (2, Deed::Open),
    (3, Deed::Open),
    (4, Deed::Open),
    (5, Deed::Open),
    (
        5,
        Deed::Send(b"LOGIN Dora X03MO1qnZdYdgyfeuILPmQ== 0 * TestLobby 1.0"),
    ),
    (5, Deed::Send(b"JOIN main")),
    (5, Deed::Send(b"JOIN big")),
    (5, Deed::Send(b"JOINBATTLE 1 secret")),
    (1, Deed::Send(b"EXIT")),
    (2, Deed::Send(b"EXIT")),
    (3, Deed::Send(b"EXIT")),
    (4, Deed::Send(b"EXIT")),
];

/// A client is told more than a buffer has that is kept, and reads it.
pub fn use_buffer_up(lobby: &mut Lobby, alloc: Global, client: u64) -> bool {
    for _ in 0..ANSWERS {
        if !say(lobby, alloc, client, b"#4294967295 PING") {
            return false;
        }
    }
    for _ in 0..READS {
        read_some(lobby, client, PIECE);
    }
    true
}

/// Does it, and says whether memory sufficed.
pub fn act(lobby: &mut Lobby, alloc: Global, client: u64, deed: Deed) -> bool {
    match deed {
        Deed::Open => lobby.open([10, 0, 0, 1], HOME) != Err(OpenError::Memory),
        Deed::Send(line) => say(lobby, alloc, client, line),
        Deed::Read(count) => {
            read_some(lobby, client, count);
            true
        }
        Deed::Shut => lobby.shut(client).is_ok(),
        Deed::Take | Deed::Record => true,
    }
}

/// Whether the same waits for a client in two lobbies, in a piece that begins `from` bytes behind the first.
fn piece_is_alike(lobby: &Lobby, other: &Lobby, client: u64, from: usize) -> bool {
    let (mut ours, mut theirs) = ([0; COMPARED], [0; COMPARED]);
    let count = lobby.copy_unread(client, from, &mut ours);
    other.copy_unread(client, from, &mut theirs) == count && ours == theirs
}

/// Whether the same waits for a client in two lobbies.
fn waits_alike(lobby: &Lobby, other: &Lobby, client: u64) -> bool {
    (0..=lobby.unread(client) / COMPARED).all(|number| piece_is_alike(
        lobby,
        other,
        client,
        number.saturating_mul(COMPARED),
    )) && lobby.unread(client) == other.unread(client)
}

/// Takes all clients out of the lists of changed ones, and says whether both had the same, in the same order.
fn changed_alike(lobby: &mut Lobby, other: &mut Lobby) -> bool {
    for _ in 0..=lobby.last_client() {
        let changed = lobby.next_dirty(HOME);
        if other.next_dirty(HOME) != changed {
            return false;
        }
        if changed.is_none() {
            return true;
        }
    }
    false
}

/// Whether the same clients are there, and the same waits for each.
fn clients_are_alike(lobby: &Lobby, other: &Lobby) -> bool {
    for client in 0..=lobby.last_client().saturating_add(1) {
        if lobby.has_client(client) != other.has_client(client)
            || !waits_alike(lobby, other, client)
        {
            return false;
        }
    }
    lobby.last_client() == other.last_client() && lobby.has_place() == other.has_place()
}

/// Whether public calls tell the same of both.
pub fn are_alike(lobby: &mut Lobby, other: &mut Lobby) -> bool {
    clients_are_alike(lobby, other) && changed_alike(lobby, other)
}

/// Shows what a client has not read.
fn show_client<R: Print>(rt: &R, lobby: &Lobby, client: u64) -> io::Result<()> {
    let mut unread = [0; 4096];
    let count = lobby.copy_unread(client, 0, &mut unread);
    println!(rt; "client {client}: {} bytes", lobby.unread(client))?;
    io::writer(rt).write_all(unread.get(..count).unwrap_or(&[]))
}

/// Shows what each client has not read.
pub fn show_unread<R: Print>(rt: &R, lobby: &Lobby) -> io::Result<()> {
    for client in 1..=lobby.last_client() {
        show_client(rt, lobby, client)?;
    }
    Ok(())
}

/// A lobby under trial.
#[derive(Drop)]
struct TriedLobby(Lobby);

impl Subject for TriedLobby {
    fn new(alloc: Global) -> Option<TriedLobby> {
        let accounts = book_with_onlookers(alloc)?;
        Some(TriedLobby(lobby_of(alloc, accounts)?))
    }

    fn act(&mut self, alloc: Global, client: u64, deed: Deed) -> bool {
        act(&mut self.0, alloc, client, deed)
    }

    fn use_up(&mut self, alloc: Global) -> bool {
        for client in 1..=self.0.last_client() {
            if !use_buffer_up(&mut self.0, alloc, client) {
                return false;
            }
        }
        true
    }

    fn is_as(&mut self, other: &mut TriedLobby) -> bool {
        are_alike(&mut self.0, &mut other.0)
    }

    fn show<R: Print>(&mut self, rt: &R) -> io::Result<()> {
        show_unread(rt, &mut self.0)
    }
}

pub fn try_out<R: Print + AllocGlobal>(
    rt: &R,
    refuser: &mut Refuser,
    notes: &mut Notes,
) -> io::Result<()> {
    try_deeds::<TriedLobby, R>(rt, &DEEDS, &LOOKS, refuser, notes)
}
