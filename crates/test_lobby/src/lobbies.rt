//! The users' books, settings and lobbies of them. Each is `None` where memory is refused.

ghost use Rattle.std.specs.Prelude.{IfOk, IsTrue};
ghost use Rattle.command_grammar.specs.Kinds.{keeps_kinds};

use crate::users::{ACCOUNTS, WORD};
use account_book::{Account, AccountBook};
use command_grammar::{Request, read_request};
use line_words::TextBuf;
use lobby_machine::Lobby;
use lobby_model::Settings;
use lobby_model::settings::LEAST_OUTBOX_LIMIT;
use std::alloc::{AllocError, Global};
use std::slice;

/// The book of the users' accounts.
pub fn book(alloc: Global) -> Option<AccountBook> {
    AccountBook::from_toml(alloc, ACCOUNTS).ok()
}

fn add_user(accounts: &mut AccountBook, alloc: Global, name: &[u8], id: u32) -> bool {
    match Account::new(alloc, name, WORD, id, 0, false, false, b"??") {
        Ok(account) => accounts.add(account).is_ok(),
        Err(_) => false,
    }
}

/// The book of the users' accounts and of two more, Dora's and Emil's, who come where others are to look on.
pub fn book_with_onlookers(alloc: Global) -> Option<AccountBook> {
    let mut accounts = book(alloc)?;
    if add_user(&mut accounts, alloc, b"Dora", 4) && add_user(&mut accounts, alloc, b"Emil", 5) {
        Some(accounts)
    } else {
        drop(accounts);
        None
    }
}

/// How many a crowd has.
pub const CROWD: u8 = 40;

/// The name of one of a crowd, by its place from 0.
pub fn crowd_name(place: u8) -> [u8; 3] {
    [b'c', b'0' + place / 10 % 10, b'0' + place % 10]
}

/// The book of the users' accounts, and of a crowd.
pub fn book_with_crowd(alloc: Global) -> Option<AccountBook> {
    let mut accounts = book(alloc)?;
    for place in 0..CROWD {
        if !add_user(&mut accounts, alloc, &crowd_name(place), 100 + place as u32) {
            drop(accounts);
            return None;
        }
    }
    Some(accounts)
}

/// The default settings, but for a message of the day, `Welcome`, and this limit of an outbox, from 65,536 to
/// 67,108,864 bytes; none where the limit is another.
pub fn settings(alloc: Global, outbox_limit: usize) -> Option<Settings> {
    let motd = TextBuf::copy_of(alloc, b"Welcome").ok()?;
    let lines = slice::from_ref(&motd);
    let settings = Settings::new(alloc, b"0.38", b"*", 8201, 0, lines, outbox_limit);
    drop(motd);
    settings.ok()
}

/// A lobby of these accounts, with the least limit of an outbox.
pub fn lobby_of(alloc: Global, accounts: AccountBook) -> Option<Lobby> {
    match settings(alloc, LEAST_OUTBOX_LIMIT) {
        Some(settings) => Lobby::new(alloc, settings, accounts).ok(),
        None => {
            drop(accounts);
            None
        }
    }
}

/// A lobby of the users, with the least limit of an outbox.
pub fn new_lobby(alloc: Global) -> Option<Lobby> {
    lobby_of(alloc, book(alloc)?)
}

/// What a line asks for, with arguments of their kinds.
#[tactic(auto, using(command_grammar::proofs::Bounds::request_keeps))]
pub fn read(alloc: Global, line: &[u8]) -> Result<Request, AllocError>
    ensures { IfOk result (λ request. IsTrue (keeps_kinds request.command)) }
{
    read_request(alloc, line)
}
