//! Who is in which channel after joins.

use crate::verdict::same_for;
use channel_book::{ChannelBook, ChannelError};
use line_words::NameBuf;
use std::alloc::Global;
use std::process::Abort;

/// What is done to a book, and what it shows then: a channel's members, the channels, those that a user is in.
#[derive(Clone, Copy)]
enum Step {
    /// A user joins a channel, with this answer.
    Joins(&'static [u8], &'static [u8], Result<(), ChannelError>),
    /// A user leaves a channel that it is in.
    Leaves(&'static [u8], &'static [u8]),
    LeavesAll(&'static [u8]),
    Members(&'static [u8], &'static [&'static [u8]]),
    Channels(&'static [&'static [u8]]),
    IsIn(&'static [u8], &'static [&'static [u8]]),
}

fn joins(
    book: &mut ChannelBook,
    channel: &[u8],
    user: &[u8],
    wanted: Result<(), ChannelError>,
) -> bool {
    match (NameBuf::of(channel), NameBuf::of(user)) {
        (Some(channel), Some(user)) => book.join(channel, user) == wanted,
        _ => false,
    }
}

fn shows(found: Option<&NameBuf>, wanted: Option<&[u8]>) -> bool {
    match (found, wanted) {
        (Some(found), Some(wanted)) => found.as_slice() == wanted,
        (None, None) => true,
        _ => false,
    }
}

/// Whether a channel has these members in this order, and no more, by each reader.
fn has_members(book: &ChannelBook, channel: &NameBuf, wanted: &[&[u8]]) -> bool {
    let lent = book.names_in(channel);
    let mut same = book.member_count(channel) == wanted.len() && lent.len() == wanted.len();
    for k in 0..wanted.len() + 2 {
        let want = wanted.get(k).copied();
        same = same && shows(book.member_at(channel, k), want) && shows(lent.get(k), want);
    }
    same
}

/// Whether these are the channels in this order, and no more, by each reader.
fn has_channels(book: &ChannelBook, wanted: &[&[u8]]) -> bool {
    let mut same = book.channel_count() == wanted.len();
    for k in 0..wanted.len() + 2 {
        same = same && shows(book.channel_at(k), wanted.get(k).copied());
    }
    let mut places = wanted.iter();
    for (channel, members) in book {
        same = same
            && shows(Some(channel), places.next().copied())
            && !members.as_slice().is_empty();
    }
    same
}

/// Whether a user is in these channels in this order, and no more.
fn is_in(book: &ChannelBook, user: &[u8], wanted: &[&[u8]]) -> bool {
    let Some(user) = NameBuf::of(user) else {
        return false;
    };
    let Some(channels) = book.channels_of(&user) else {
        return wanted.is_empty();
    };
    let mut same = !channels.is_empty() && channels.len() == wanted.len();
    let mut places = wanted.iter();
    for channel in channels {
        same = same && shows(Some(channel), places.next().copied());
    }
    same
}

fn leaves(book: &mut ChannelBook, channel: &[u8], user: &[u8]) -> bool {
    match (NameBuf::of(channel), NameBuf::of(user)) {
        (Some(channel), Some(user)) => book.leave(&channel, &user).is_ok(),
        _ => false,
    }
}

fn has_named(book: &ChannelBook, channel: &[u8], wanted: &[&[u8]]) -> bool {
    match NameBuf::of(channel) {
        Some(channel) => has_members(book, &channel, wanted),
        None => false,
    }
}

fn leaves_all(book: &mut ChannelBook, user: &[u8]) -> bool {
    match NameBuf::of(user) {
        Some(user) => {
            book.leave_all(&user);
            true
        }
        None => false,
    }
}

/// Whether a step comes out as it says.
fn takes(book: &mut ChannelBook, step: &Step) -> bool {
    match step {
        Step::Joins(channel, user, wanted) => joins(book, channel, user, *wanted),
        Step::Leaves(channel, user) => leaves(book, channel, user),
        Step::LeavesAll(user) => leaves_all(book, user),
        Step::Members(channel, names) => has_named(book, channel, names),
        Step::Channels(channels) => has_channels(book, channels),
        Step::IsIn(user, channels) => is_in(book, user, channels),
    }
}

fn take_all(rt: &impl Abort, book: &mut ChannelBook, steps: &[Step]) {
    for (k, step) in steps.iter().enumerate() {
        same_for(rt, &k, takes(book, step), true);
    }
}

/// Takes these steps with a new book.
fn play(rt: &impl Abort, alloc: Global, steps: &[Step]) {
    let mut book = ChannelBook::new(alloc);
    take_all(rt, &mut book, steps);
    drop(book);
}

static MEMBERS: [Step; 8] = [
    Step::Channels(&[]),
    Step::Joins(b"main", b"Bert", Ok(())),
    Step::Joins(b"main", b"Anna", Ok(())),
    Step::Joins(b"main", b"Cleo", Ok(())),
    Step::Joins(b"main", b"Anna", Err(ChannelError::AlreadyIn)),
    Step::Members(b"main", &[b"Bert", b"Anna", b"Cleo"]),
    Step::Members(b"Main", &[]),
    Step::Channels(&[b"main"]),
];

#[test]
fn members_stand_in_order_of_joining(rt: HostRuntime) {
    play(&rt, rt.alloc(), &MEMBERS);
}

static CHANNELS: [Step; 8] = [
    Step::Joins(b"aa", b"Anna", Ok(())),
    Step::Joins(b"_", b"Anna", Ok(())),
    Step::Joins(b"a", b"Anna", Ok(())),
    Step::Joins(b"[x]", b"Anna", Ok(())),
    Step::Joins(b"Z", b"Anna", Ok(())),
    Step::Joins(b"9", b"Anna", Ok(())),
    Step::Joins(b"]", b"Anna", Ok(())),
    Step::Channels(&[b"9", b"Z", b"[x]", b"]", b"_", b"a", b"aa"]),
];

#[test]
fn channels_stand_in_the_order_of_their_bytes(rt: HostRuntime) {
    play(&rt, rt.alloc(), &CHANNELS);
}

static CHANNELS_OF_A_USER: [Step; 7] = [
    Step::Joins(b"main", b"Anna", Ok(())),
    Step::Joins(b"big", b"Anna", Ok(())),
    Step::Joins(b"Z", b"Anna", Ok(())),
    Step::Joins(b"main", b"Bert", Ok(())),
    Step::IsIn(b"Anna", &[b"Z", b"big", b"main"]),
    Step::IsIn(b"Bert", &[b"main"]),
    Step::IsIn(b"Cleo", &[]),
];

#[test]
fn the_channels_of_a_user_stand_in_the_order_of_their_bytes(rt: HostRuntime) {
    play(&rt, rt.alloc(), &CHANNELS_OF_A_USER);
}

static LAST_CHANNEL: [Step; 11] = [
    Step::Joins(b"main", b"Anna", Ok(())),
    Step::Joins(b"big", b"Anna", Ok(())),
    Step::Joins(b"main", b"Bert", Ok(())),
    Step::Joins(b"big", b"Bert", Ok(())),
    Step::Leaves(b"main", b"Anna"),
    Step::IsIn(b"Anna", &[b"big"]),
    Step::Leaves(b"big", b"Anna"),
    Step::IsIn(b"Anna", &[]),
    Step::LeavesAll(b"Bert"),
    Step::IsIn(b"Bert", &[]),
    Step::Channels(&[]),
];

#[test]
fn who_left_the_last_channel_has_none(rt: HostRuntime) {
    play(&rt, rt.alloc(), &LAST_CHANNEL);
}

static MANY: [Step; 18] = [
    Step::Joins(b"main", b"u0", Ok(())),
    Step::Joins(b"main", b"u1", Ok(())),
    Step::Joins(b"main", b"u2", Ok(())),
    Step::Joins(b"main", b"u3", Ok(())),
    Step::Joins(b"main", b"u4", Ok(())),
    Step::Joins(b"main", b"u5", Ok(())),
    Step::Joins(b"main", b"u6", Ok(())),
    Step::Joins(b"main", b"u7", Ok(())),
    Step::Joins(b"main", b"u3", Err(ChannelError::AlreadyIn)),
    Step::Joins(b"main", b"u8", Ok(())),
    Step::Joins(b"main", b"u9", Ok(())),
    Step::Joins(b"main", b"u3", Err(ChannelError::AlreadyIn)),
    Step::Leaves(b"main", b"u0"),
    Step::Leaves(b"main", b"u4"),
    Step::LeavesAll(b"u9"),
    Step::Leaves(b"main", b"u6"),
    Step::Joins(b"main", b"u4", Ok(())),
    Step::Members(b"main", &[b"u1", b"u2", b"u3", b"u5", b"u7", b"u8", b"u4"]),
];

#[test]
fn many_members_stand_in_order_of_joining(rt: HostRuntime) {
    play(&rt, rt.alloc(), &MANY);
}
