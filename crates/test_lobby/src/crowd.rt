//! A crowd of users who are logged in, of whom all but the last are in a channel.

use crate::lobbies::{lobby_of, read};
use crate::users::WORD;
use account_book::{Account, AccountBook};
use lobby_machine::Lobby;
use std::alloc::Global;

/// The worker that serves them.
pub const HOME: u8 = 0;

/// The most bytes that one reads at a time.
pub const PIECE: usize = 4_096;

/// So many reads take more than a buffer has that is kept, 32,768 bytes.
pub const READS: u32 = 9;

/// So many lines of `LONG` bytes are more than such a buffer has.
const LINES: u32 = 18;

const LONG: usize = 1_900;

fn add_user(accounts: &mut AccountBook, alloc: Global, user: u32) -> bool {
    let Ok(name) = format!(in alloc; "u{user:02}") else {
        return false;
    };
    match Account::new(alloc, name.as_bytes(), WORD, user, 0, false, false, b"DE") {
        Ok(account) => accounts.add(account).is_ok(),
        Err(_) => false,
    }
}

fn add_users(accounts: &mut AccountBook, alloc: Global, users: u32) -> bool {
    for user in 1..=users {
        if !add_user(accounts, alloc, user) {
            return false;
        }
    }
    true
}

/// The accounts u01, u02 and so on of so many users, in the order of their clients.
fn accounts(alloc: Global, users: u32) -> Option<AccountBook> {
    let mut accounts = AccountBook::new(alloc);
    if add_users(&mut accounts, alloc, users) {
        Some(accounts)
    } else {
        drop(accounts);
        None
    }
}

/// A client says a line; whether memory sufficed.
pub fn say(lobby: &mut Lobby, alloc: Global, client: u64, line: &[u8]) -> bool {
    match read(alloc, line) {
        Ok(request) => {
            let said = lobby.say(client, &request);
            request.discard();
            said.is_ok()
        }
        Err(_) => false,
    }
}

/// A client reads up to so many bytes, and at most 4,096.
pub fn read_some(lobby: &mut Lobby, client: u64, count: usize) {
    let mut bytes = [0; PIECE];
    let _ = lobby.drain(client, &mut bytes[..count.min(PIECE)]);
}

fn read_all(lobby: &mut Lobby, users: u32) {
    for client in 1..=u64::from(users) {
        read_some(lobby, client, PIECE);
    }
}

/// A user connects, logs in as one who is asked by those who would join its battle, and joins the channel, where it is
/// not the last of so many users.
fn enter(lobby: &mut Lobby, alloc: Global, user: u32, users: u32) -> bool {
    let client = u64::from(user);
    let Ok(line) = format!(in alloc;
        "LOGIN u{user:02} X03MO1qnZdYdgyfeuILPmQ== 0 * TestLobby 1.0\t0\tb"
    ) else {
        return false;
    };
    lobby.open([10, 0, 0, 1], HOME) == Ok(client)
        && say(lobby, alloc, client, line.as_bytes())
        && (user == users || say(lobby, alloc, client, b"JOIN main"))
}

fn enter_all(lobby: &mut Lobby, alloc: Global, users: u32) -> bool {
    for user in 1..=users {
        if !enter(lobby, alloc, user, users) {
            return false;
        }
        read_all(lobby, users);
    }
    true
}

/// The channel's members are told, and read, more than a buffer has that is kept: so what they are told next takes
/// memory.
pub fn use_buffers_up(lobby: &mut Lobby, alloc: Global, users: u32) -> bool {
    let Ok(mut line) = Vec::from_slice(alloc, b"SAY main ") else {
        return false;
    };
    let is_said = line.resize(LONG, b'x').is_ok()
        && (0..LINES).all(|_| say(lobby, alloc, 1, &line));
    for _ in 0..READS {
        read_all(lobby, users);
    }
    is_said
}

/// A lobby of so many users who have read all, where all but the last are in a channel and have no buffer. `None` where
/// memory is refused.
pub fn crowd_lobby(alloc: Global, users: u32) -> Option<Lobby> {
    let mut lobby = lobby_of(alloc, accounts(alloc, users)?)?;
    if enter_all(&mut lobby, alloc, users) && use_buffers_up(&mut lobby, alloc, users) {
        Some(lobby)
    } else {
        drop(lobby);
        None
    }
}
