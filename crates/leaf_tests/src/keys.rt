//! Keys, which no contract speaks of: each name has the one that was given with it.

use crate::lists::are;
use crate::verdict::{fail, same, same_for};
use battle_room::{HashSeed, Room};
use channel_book::ChannelBook;
use line_words::NameBuf;
use std::alloc::Global;
use std::process::Abort;

/// One more member, under a key, of a name that no member has.
fn join(room: &mut Room<u8>, member: &[u8], key: u8) -> bool {
    match NameBuf::of(member) {
        Some(member) => !room.has_member(&member) && room.add_keyed(member, key).is_ok(),
        None => false,
    }
}

/// One is let in under a key, who is no member.
fn let_in(room: &mut Room<u8>, user: &[u8], key: u8) -> bool {
    match NameBuf::of(user) {
        Some(user) => !room.has_member(&user) && room.let_in_keyed(&user, key).is_ok(),
        None => false,
    }
}

/// Whether a member was there, who is dropped then.
fn drops(room: &mut Room<u8>, member: &[u8]) -> bool {
    match NameBuf::of(member) {
        Some(member) => {
            let was_there = room.has_member(&member);
            room.drop_member(&member);
            was_there
        }
        None => false,
    }
}

/// Anna's room under 1 is joined by Bert under 2, and Cleo is let in under 3.
fn key_members(rt: &impl Abort, room: &mut Room<u8>) {
    same(rt, join(room, b"Bert", 2), true);
    same(rt, let_in(room, b"Cleo", 3), true);
    same(rt, are(room.members(), &[1, 2, 3]), true);
    same(rt, drops(room, b"Bert"), true);
    same(rt, are(room.members(), &[1, 3]), true);
}

fn new_room(alloc: Global) -> Option<Room<u8>> {
    Room::with_key(alloc, NameBuf::of(b"Anna")?, 1u8, HashSeed::known()).ok()
}

#[test]
fn members_have_their_keys(rt: HostRuntime) {
    match new_room(rt.alloc()) {
        Some(mut room) => {
            key_members(&rt, &mut room);
            drop(room);
        }
        None => fail(&rt, "a room of one"),
    }
}

/// A user joins a channel under a key.
fn join_channel(book: &mut ChannelBook<u8>, channel: &NameBuf, user: &[u8], key: u8) -> bool {
    match NameBuf::of(user) {
        Some(user) => {
            !book.has_member(channel, &user) && book.add_member(channel.copy(), user, key).is_ok()
        }
        None => false,
    }
}

/// Anna, Bert and Cleo join under 1, 2 and 3, and then Anna leaves.
fn key_names(rt: &impl Abort, book: &mut ChannelBook<u8>, channel: &NameBuf, anna: &NameBuf) {
    same(rt, join_channel(book, channel, b"Anna", 1), true);
    same(rt, join_channel(book, channel, b"Bert", 2), true);
    same(rt, join_channel(book, channel, b"Cleo", 3), true);
    same(rt, book.keys_in(channel), [1, 2, 3].as_slice());
    book.remove_member(channel, anna);
    same(rt, book.keys_in(channel), [2, 3].as_slice());
}

fn leave_channel(book: &mut ChannelBook<u8>, channel: &NameBuf, user: &[u8]) {
    if let Some(user) = NameBuf::of(user) {
        book.remove_member(channel, &user);
    }
}

/// So many join under 0 and so on, some of them leave, and these keys stay.
struct Leaving {
    joins: u8,
    leaves: &'static [&'static [u8]],
    left: &'static [u8],
}

static LEAVINGS: [Leaving; 2] = [
    Leaving {
        joins: 5,
        leaves: &[b"c", b"e", b"a"],
        left: &[1, 3],
    },
    Leaving {
        joins: 10,
        leaves: &[b"a", b"e", b"j"],
        left: &[1, 2, 3, 5, 6, 7, 8],
    },
];

fn leaves_keys(rt: &impl Abort, alloc: Global, channel: &NameBuf, row: &Leaving) {
    let mut book = ChannelBook::with_keys(alloc);
    for key in 0..row.joins {
        let user = [b'a'.wrapping_add(key)];
        same_for(rt, &key, join_channel(&mut book, channel, &user, key), true);
    }
    for user in row.leaves {
        leave_channel(&mut book, channel, user);
    }
    same(rt, book.keys_in(channel), row.left);
    drop(book);
}

#[test]
fn those_who_stay_in_a_channel_keep_their_keys(rt: HostRuntime) {
    match NameBuf::of(b"main") {
        Some(channel) => {
            for row in &LEAVINGS {
                leaves_keys(&rt, rt.alloc(), &channel, row);
            }
        }
        None => fail(&rt, "a name"),
    }
}

#[test]
fn names_in_channels_have_their_keys(rt: HostRuntime) {
    match (NameBuf::of(b"main"), NameBuf::of(b"Anna")) {
        (Some(channel), Some(anna)) => {
            let mut book = ChannelBook::with_keys(rt.alloc());
            key_names(&rt, &mut book, &channel, &anna);
            drop(book);
        }
        _ => fail(&rt, "two names"),
    }
}
