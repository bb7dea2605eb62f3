//! What a client knows from its bytes, whole and byte by byte, and beyond the longest line.

use crate::lists::are;
use crate::verdict::same_for;
use client_view::{View, ViewError};
use line_words::NameBuf;
use std::alloc::Global;
use std::process::Abort;
use std::rt::HostRuntime;

/// What Anna is sent from her login on, until she has opened a battle and Bert and his bot are in it.
const SENT: &[u8] = b"TASSERVER 0.38 * 8201 0\n\
#4 ACCEPTED Anna\n\
MOTD Welcome\n\
ADDUSER Bert ?? 2400 2\n\
ADDUSER Anna SE 1 1\r\n\
CLIENTSTATUS Bert 12\n\
LOGININFOEND\n\
WELCOME to a later server\n\
JOIN main\n\
CLIENTS main Bert Anna\n\
JOINED main Cleo\n\
LEFT main Bert\n\
BATTLEOPENED 1 0 0 Anna 10.0.0.1 8452 8 0 0 123 Spring\t104.0\tComet Catcher\tAnna's game\tBA 9.46\n\
OPENBATTLE 1\n\
UPDATEBATTLEINFO 1 2 1 5 Other Map\n\
JOINEDBATTLE 1 Bert pw9\n\
CLIENTBATTLESTATUS Bert 4195330 255\n\
ADDBOT 1 Robo Bert 1024 -1 KAIK\n\
ADDBOT 1 Rex Bert 0 0 E323\n\
REMOVEBOT 1 Rex\n\
UPDATEBOT 2 Robo 7 7\n\
ADDSTARTRECT 1 0 0 200 60\n\
SETSCRIPTTAGS a=1\tb=2\n\
REMOVESCRIPTTAGS a\n\
SAIDBATTLE Bert go\n";

/// A battle in the list: its number, map and map's hash, whether it is locked, how many spectators are told, and how
/// many members.
#[derive(Clone, Copy)]
struct Listed {
    number: u32,
    map: &'static [u8],
    map_hash: i64,
    locked: bool,
    spectators: u16,
    members: usize,
}

/// How much there is in a client's own room, and the number of its battle.
#[derive(Clone, Copy)]
struct Held {
    battle: u32,
    members: usize,
    bots: usize,
    tags: usize,
}

/// What is fed to a view, and what it shows then.
#[derive(Clone, Copy)]
enum Step {
    /// These bytes at once, with this answer.
    Feeds(&'static [u8], Result<usize, ViewError>),
    /// These bytes one by one, of which so many lines are folded.
    FeedsEach(&'static [u8], usize),
    Me(&'static [u8]),
    /// There are so many users, channels and battles.
    Counts(usize, usize, usize),
    /// A user of this name, country, speed, account and status.
    User(&'static [u8], &'static [u8], i64, u32, u32),
    /// A channel of so many members, the first of whom is this.
    Channel(&'static [u8], usize, &'static [u8]),
    Lists(Listed),
    Holds(Held),
    /// The room's first bot has this status and colour.
    Bot(u32, i64),
    /// The room has one rectangle, of the first allies, which ends at the right and below at these.
    Rect(u8, u8),
    Units(&'static [&'static [u8]]),
    HasNoRoom,
}

/// How many lines are folded of bytes that are fed one by one.
fn feed_each(view: &mut View, bytes: &[u8]) -> Option<usize> {
    let mut folded: usize = 0;
    for k in 0..bytes.len() {
        folded = folded.saturating_add(view.feed(&bytes[k..k + 1]).ok()?);
    }
    Some(folded)
}

fn has_counts(view: &View, users: usize, channels: usize, battles: usize) -> bool {
    view.users().len() == users
        && view.channels().len() == channels
        && view.battles().len() == battles
}

fn has_user(view: &View, name: &[u8], country: &[u8], cpu: i64, account: u32, status: u32) -> bool {
    let Some(name) = NameBuf::of(name) else {
        return false;
    };
    match view.users().get(&name) {
        Some(user) => user.country.as_slice() == country
            && user.cpu == cpu
            && user.account == account
            && user.status == status,
        None => false,
    }
}

fn has_channel(view: &View, name: &[u8], members: usize, first: &[u8]) -> bool {
    let Some(name) = NameBuf::of(name) else {
        return false;
    };
    match view.channels().get(&name) {
        Some(names) => names.len() == members
            && names
                .first()
                .is_some_and(|member| member.as_slice() == first),
        None => false,
    }
}

fn lists(view: &View, wanted: &Listed) -> bool {
    match view.battles().get(&wanted.number) {
        Some(battle) => battle.opened.map.as_slice() == wanted.map
            && battle.opened.map_hash == wanted.map_hash
            && battle.locked == wanted.locked
            && battle.spectators == wanted.spectators
            && battle.members().len() == wanted.members,
        None => false,
    }
}

fn holds(view: &View, wanted: &Held) -> bool {
    match view.room() {
        Some(room) => room.battle() == wanted.battle
            && room.members().len() == wanted.members
            && room.bots().len() == wanted.bots
            && room.tags().len() == wanted.tags,
        None => false,
    }
}

fn has_bot(view: &View, status: u32, colour: i64) -> bool {
    match view.room() {
        Some(room) => match room.bots().first() {
            Some(bot) => bot.status() == status && bot.colour() == colour,
            None => false,
        },
        None => false,
    }
}

fn has_rect(view: &View, right: u8, bottom: u8) -> bool {
    match view.room() {
        Some(room) => room.rect_count() == 1
            && match room.rect_at(1) {
                Some(rect) => rect.right == right && rect.bottom == bottom,
                None => false,
            },
        None => false,
    }
}

fn has_units(view: &View, wanted: &[&[u8]]) -> bool {
    match view.room() {
        Some(room) => are(room.units(), wanted),
        None => false,
    }
}

/// Whether a view shows what a step says.
fn shows(view: &View, step: &Step) -> bool {
    match step {
        Step::Me(name) => view.me() == Some(*name),
        Step::Counts(users, channels, battles) => has_counts(view, *users, *channels, *battles),
        Step::User(name, country, cpu, account, status) => has_user(
            view, name, country, *cpu, *account, *status,
        ),
        Step::Channel(name, members, first) => has_channel(view, name, *members, first),
        Step::Lists(wanted) => lists(view, wanted),
        Step::Holds(wanted) => holds(view, wanted),
        Step::Bot(status, colour) => has_bot(view, *status, *colour),
        Step::Rect(right, bottom) => has_rect(view, *right, *bottom),
        Step::Units(wanted) => has_units(view, wanted),
        Step::HasNoRoom => view.room().is_none(),
        _ => false,
    }
}

/// Whether a step comes out as it says.
fn takes(view: &mut View, step: &Step) -> bool {
    match step {
        Step::Feeds(bytes, told) => view.feed(bytes) == *told,
        Step::FeedsEach(bytes, folded) => feed_each(view, bytes) == Some(*folded),
        _ => shows(view, step),
    }
}

fn take_all(rt: &impl Abort, view: &mut View, steps: &[Step]) {
    for (k, step) in steps.iter().enumerate() {
        same_for(rt, &k, takes(view, step), true);
    }
}

/// Takes these steps with a new view.
fn play(rt: &impl Abort, alloc: Global, steps: &[Step]) {
    let mut view = View::new(alloc);
    take_all(rt, &mut view, steps);
    drop(view);
}

static USERS: [Step; 4] = [
    Step::Feeds(SENT, Ok(24)),
    Step::Me(b"Anna"),
    Step::Counts(2, 1, 1),
    Step::User(b"Bert", b"??", 2400, 2, 12),
];

#[test]
fn a_view_has_what_the_lines_told(rt: HostRuntime) {
    play(&rt, rt.alloc(), &USERS);
}

static CHANNEL: [Step; 5] = [
    Step::Feeds(SENT, Ok(24)),
    Step::Counts(2, 1, 1),
    Step::Channel(b"main", 2, b"Anna"),
    Step::Feeds(b"LEFT main Anna\n", Ok(1)),
    Step::Counts(2, 0, 1),
];

#[test]
fn a_channel_has_those_who_are_in_it(rt: HostRuntime) {
    play(&rt, rt.alloc(), &CHANNEL);
}

static BATTLE: [Step; 3] = [
    Step::Feeds(SENT, Ok(24)),
    Step::Counts(2, 1, 1),
    Step::Lists(Listed {
        number: 1,
        map: b"Other Map",
        map_hash: 5,
        locked: true,
        spectators: 2,
        members: 2,
    }),
];

#[test]
fn a_battle_has_its_members(rt: HostRuntime) {
    play(&rt, rt.alloc(), &BATTLE);
}

const ROOM: Held = Held {
    battle: 1,
    members: 2,
    bots: 1,
    tags: 1,
};

static SHARED: [Step; 6] = [
    Step::Feeds(SENT, Ok(24)),
    Step::Holds(ROOM),
    Step::Bot(1024, -1),
    Step::Rect(200, 60),
    Step::Feeds(b"BATTLECLOSED 1\n", Ok(1)),
    Step::HasNoRoom,
];

#[test]
fn the_room_has_what_its_members_share(rt: HostRuntime) {
    play(&rt, rt.alloc(), &SHARED);
}

/// Lines that Anna is sent in her room, and the units that are disabled behind each.
static UNITS: [Step; 19] = [
    Step::Feeds(SENT, Ok(24)),
    Step::Feeds(b"DISABLEUNITS armcom corcom\n", Ok(1)),
    Step::Units(&[b"armcom", b"corcom"]),
    Step::Feeds(b"#7 DISABLEUNITS armflash\n", Ok(1)),
    Step::Units(&[b"armcom", b"corcom", b"armflash"]),
    Step::Feeds(b"DISABLEUNITS corcom armpw armpw\n", Ok(1)),
    Step::Units(&[b"armcom", b"corcom", b"armflash", b"armpw"]),
    Step::Feeds(b"ENABLEUNITS armcom armpw x\n", Ok(1)),
    Step::Units(&[b"corcom", b"armflash"]),
    Step::Feeds(b"DISABLEUNITS armcom\n", Ok(1)),
    Step::Units(&[b"corcom", b"armflash", b"armcom"]),
    Step::Feeds(b"JOINBATTLEREQUEST Cleo 10.0.0.3\n", Ok(1)),
    Step::Units(&[b"corcom", b"armflash", b"armcom"]),
    Step::Feeds(b"ENABLEALLUNITS\n", Ok(1)),
    Step::Units(&[]),
    Step::Feeds(b"DISABLEUNITS corcom\n", Ok(1)),
    Step::Units(&[b"corcom"]),
    Step::Feeds(b"OPENBATTLE 1\n", Ok(1)),
    Step::Units(&[]),
];

#[test]
fn the_room_has_the_units_that_are_disabled(rt: HostRuntime) {
    play(&rt, rt.alloc(), &UNITS);
}

static PIECES: [Step; 3] = [
    Step::FeedsEach(SENT, 24),
    Step::Counts(2, 1, 1),
    Step::Holds(ROOM),
];

#[test]
fn a_view_is_the_same_however_its_bytes_are_cut(rt: HostRuntime) {
    play(&rt, rt.alloc(), &PIECES);
}

static LONGEST: [Step; 5] = [
    Step::Feeds(&[b'A'; 20_479], Ok(0)),
    Step::Feeds(b"\nACCEPTED Bert\n", Ok(1)),
    Step::Feeds(&[b'A'; 20_480], Err(ViewError::LineTooLong)),
    Step::Feeds(b"\nACCEPTED Anna\n", Err(ViewError::LineTooLong)),
    Step::Me(b"Bert"),
];

#[test]
fn a_line_of_20479_bytes_is_a_line_and_a_longer_one_ends_all(rt: HostRuntime) {
    play(&rt, rt.alloc(), &LONGEST);
}
