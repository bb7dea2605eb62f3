//! Those who ask to join a room, with memory at hand.

use crate::lists::{are, is_password};
use crate::rooms::{RoomStep, join, play, word};
use battle_room::{Room, RoomError};
use line_words::{NameBuf, WordBuf};
use std::alloc::Global;

type Password = Option<&'static [u8]>;

/// What is done to a room, and what it shows then: who asks with which script passwords, and who is in it.
#[derive(Clone, Copy)]
enum Step {
    /// One asks to join who is no member and does not ask yet.
    Asks(&'static [u8], Password),
    /// The request of a user is taken: it has this script password, or is refused.
    IsTaken(&'static [u8], Result<Password, RoomError>),
    /// One is let in who is no member, having asked or not.
    IsLetIn(&'static [u8]),
    IsDropped(&'static [u8]),
    /// One joins who is no member.
    Joins(&'static [u8]),
    Askers(&'static [(&'static [u8], Password)]),
    /// One who asks has this script password.
    AsksWith(&'static [u8], Password),
    /// One does not ask, with any script password or none.
    AsksNot(&'static [u8]),
    Members(&'static [&'static [u8]]),
}

fn ask(room: &mut Room, user: &[u8], script_password: Option<WordBuf>) -> bool {
    match NameBuf::of(user) {
        Some(user) => !room.has_member(&user)
            && !room.has_asker(&user)
            && room.ask(user, script_password).is_ok(),
        None => false,
    }
}

/// Whether one asks, with this script password.
fn asks_with(room: &Room, user: &[u8], password: Option<&[u8]>) -> bool {
    match NameBuf::of(user) {
        Some(user) => match room.asker(&user) {
            Some(asker) => is_password(asker.script_password(), password),
            None => false,
        },
        None => false,
    }
}

fn asks_not(room: &Room, user: &[u8]) -> bool {
    match NameBuf::of(user) {
        Some(user) => !room.has_asker(&user) && room.asker(&user).is_none(),
        None => false,
    }
}

fn asks(room: &mut Room, alloc: Global, user: &[u8], password: Option<&[u8]>) -> bool {
    match password {
        Some(bytes) => match word(alloc, bytes) {
            Some(password) => ask(room, user, Some(password)),
            None => false,
        },
        None => ask(room, user, None),
    }
}

/// Whether who takes the request of this user is given this script password, or is told this refusal.
fn gives(room: &mut Room, user: &[u8], wanted: Result<Option<&[u8]>, RoomError>) -> bool {
    let Some(user) = NameBuf::of(user) else {
        return false;
    };
    match (room.take_ask(&user), wanted) {
        (Ok(password), Ok(wanted)) => is_password(password.as_ref(), wanted),
        (Err(told), Err(wanted)) => told == wanted,
        _ => false,
    }
}

fn lets_in(room: &mut Room, user: &[u8]) -> bool {
    match NameBuf::of(user) {
        Some(user) => !room.has_member(&user) && room.let_in(&user).is_ok(),
        None => false,
    }
}

fn drops_asker(room: &mut Room, user: &[u8]) -> bool {
    match NameBuf::of(user) {
        Some(user) => {
            room.drop_asker(&user);
            true
        }
        None => false,
    }
}

impl RoomStep for Step {
    fn is_so(&self, room: &mut Room, alloc: Global) -> bool {
        match self {
            Step::Asks(user, password) => asks(room, alloc, user, *password),
            Step::IsTaken(user, wanted) => gives(room, user, *wanted),
            Step::IsLetIn(user) => lets_in(room, user),
            Step::IsDropped(user) => drops_asker(room, user),
            Step::Joins(user) => join(room, user),
            Step::Askers(wanted) => are(room.askers(), wanted),
            Step::AsksWith(user, password) => asks_with(room, user, *password),
            Step::AsksNot(user) => asks_not(room, user),
            Step::Members(wanted) => are(room.members(), wanted),
        }
    }
}

static TAKEN_ONCE: [Step; 10] = [
    Step::Asks(b"Bert", Some(b"pw9")),
    Step::Asks(b"Cleo", None),
    Step::Askers(&[(b"Bert", Some(b"pw9")), (b"Cleo", None)]),
    Step::IsTaken(b"Anna", Err(RoomError::NoRequest)),
    Step::IsTaken(b"Bert", Ok(Some(b"pw9"))),
    Step::IsTaken(b"Bert", Err(RoomError::NoRequest)),
    Step::IsTaken(b"Dora", Err(RoomError::NoRequest)),
    Step::IsTaken(b"Cleo", Ok(None)),
    Step::Askers(&[]),
    Step::Members(&[b"Anna"]),
];

#[test]
fn each_request_is_taken_once(rt: HostRuntime) {
    play(&rt, rt.alloc(), &[], &TAKEN_ONCE);
}

static LET_IN: [Step; 6] = [
    Step::Asks(b"Bert", Some(b"pw9")),
    Step::Asks(b"Cleo", None),
    Step::IsLetIn(b"Bert"),
    Step::IsLetIn(b"Dora"),
    Step::Members(&[b"Anna", b"Bert", b"Dora"]),
    Step::Askers(&[(b"Cleo", None)]),
];

#[test]
fn one_who_is_let_in_asks_no_more(rt: HostRuntime) {
    play(&rt, rt.alloc(), &[], &LET_IN);
}

static DROPPED: [Step; 11] = [
    Step::Asks(b"Bert", Some(b"pw9")),
    Step::Asks(b"Cleo", None),
    Step::IsDropped(b"Bert"),
    Step::IsDropped(b"Bert"),
    Step::AsksNot(b"Bert"),
    Step::Joins(b"Emil"),
    Step::Askers(&[(b"Cleo", None)]),
    Step::Asks(b"Bert", None),
    Step::Askers(&[(b"Cleo", None), (b"Bert", None)]),
    Step::AsksWith(b"Bert", None),
    Step::AsksNot(b"Emil"),
];

#[test]
fn one_who_is_dropped_may_ask_again(rt: HostRuntime) {
    play(&rt, rt.alloc(), &[], &DROPPED);
}
