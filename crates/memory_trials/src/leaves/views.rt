//! A client's view that is fed pieces of several lines, some of them cut in two.

use crate::leaves::sessions::pairs_are_same;
use crate::refusing::deeds::{Deed, Subject, try_deeds};
use crate::refusing::notes::Notes;
use crate::refusing::refuser::Refuser;
use client_view::{Battle, Battles, Bot, Channels, Member, OwnRoom, User, Users, View, ViewError};
use line_words::NameBuf;
use std::alloc::Global;
use std::io;

/// Who comes and goes, with a login in between.
const USERS: &[u8] = b"TASSERVER 0.38 * 8201 0\n\
ACCEPTED Anna\n\
ADDUSER Anna DE 0 1\n\
ADDUSER Bert ?? 2400 2\n\
ADDUSER Cleo FR 0 3\n\
CLIENTSTATUS Bert 12\n\
REMOVEUSER Bert\n\
ADDUSER Bert SE 1 4\n\
CLIENTSTATUS Bert 1\n\
CLIENTSTATUS Cle";

/// Channels, and who is in them.
const CHANNELS: &[u8] = b"o 7\n\
JOIN main\n\
CLIENTS main Bert Anna\n\
JOINED main Cleo\n\
LEFT main Bert\n\
JOIN other\n\
CLIENTS other Anna Cleo\n\
LEFT other Anna\n\
JOIN main\n\
CLIENTS main Cleo Anna\n\
SAID main Cleo hello\n";

/// Battles, and who is in them.
const BATTLES: &[u8] =
    b"BATTLEOPENED 1 0 0 Anna 10.0.0.1 8452 8 0 0 1 Spring\t104.0\tComet Catcher\tAnna's game\tBA\n\
BATTLEOPENED 2 1 2 Bert 10.0.0.2 8453 4 1 3 2 Spring\t105.0\tSmall Divide\tBert's game\tBA\n\
JOINEDBATTLE 2 Cleo\n\
UPDATEBATTLEINFO 2 1 1 5 Other Map\n\
LEFTBATTLE 2 Cleo\n\
JOINEDBATTLE 1 Dora\n\
BATTLECLOSED 2\n\
BATTLEOPENED 2 0 0 Cleo 10.0.0.3 8454 4 0 0 2 Spring\t105.0\tSmall Divide\tCleo's game\tBA\n\
UPDATEBATTLEINFO 1 0 0 6 Tall Map\n\
OPENBAT";

/// The own room, and all that its members share.
const ROOM: &[u8] = b"TLE 1\n\
JOINEDBATTLE 1 Bert pw9\n\
CLIENTBATTLESTATUS Bert 4195330 255\n\
ADDBOT 1 Robo Bert 1024 -1 KAIK\n\
ADDBOT 1 Rex Bert 0 0 E323\n\
ADDSTARTRECT 1 0 0 200 60\n\
ADDSTARTRECT 2 0 140 200 200\n\
SETSCRIPTTAGS a=1\tb=2\n\
DISABLEUNITS armcom corcom\n";

/// Each list of it changes once more.
const CHANGED: &[u8] = b"LEFTBATTLE 1 Dora\n\
CLIENTBATTLESTATUS Bert 7 8\n\
REMOVEBOT 1 Rex\n\
UPDATEBOT 1 Robo 7 7\n\
REMOVESTARTRECT 1\n\
SETSCRIPTTAGS b=3\tc=4\n\
REMOVESCRIPTTAGS a\n\
ENABLEUNITS armcom\n\
DISABLEUNITS armpw\n\
CLIENTSTATUS Anna 3\n";

/// The room goes, and another one takes its place.
const MOVED: &[u8] = b"ENABLEALLUNITS\n\
BATTLECLOSED 1\n\
JOINBATTLE 2 9\n\
SETSCRIPTTAGS d=5\n\
JOINEDBATTLE 2 Anna\n\
ADDBOT 2 Rob Anna 0 0 KAIK\n";

/// All begins anew, behind changes and before others.
const ANEW: &[u8] = b"REMOVEUSER Cleo\n\
SETSCRIPTTAGS e=6\n\
LEFTBATTLE 2 Anna\n\
ACCEPTED Bert\n\
ADDUSER Bert DE 0 1\n\
JOIN third\n\
ACCEPTED Anna\n\
ADDUSER Anna DE 0 1\n\
JOIN main\n";

/// Lines before one that is too long.
const LAST: &[u8] = b"ADDUSER Emil DE 0 5\nCLIENTSTATUS Anna 1\nLEFT main Anna\n";

static DEEDS: [(u64, Deed); 10] = [
    (1, Deed::Send(USERS)),
    (1, Deed::Send(CHANNELS)),
    (1, Deed::Send(b"CLIENTSTATUS Anna 2")),
    (1, Deed::Send(b"\n")),
    (1, Deed::Send(BATTLES)),
    (1, Deed::Send(ROOM)),
    (1, Deed::Send(CHANGED)),
    (1, Deed::Send(MOVED)),
    (1, Deed::Send(ANEW)),
    (1, Deed::Shut),
];

/// An unfinished line is ended, and each list changes once more.
static LOOKS: [(u64, Deed); 3] = [
    (1, Deed::Send(b"\n")),
    (1, Deed::Send(CHANGED)),
    (1, Deed::Send(MOVED)),
];

/// Feeds lines, and behind them one that is too long.
fn feed_too_long(view: &mut View) -> Result<usize, ViewError> {
    let mut piece = [b'A'; 20_600];
    let (lines, _) = piece.split_at_mut(LAST.len());
    lines.copy_from_slice(LAST);
    view.feed(&piece)
}

fn users_are_same(ours: &Users<'_>, theirs: &Users<'_>) -> bool {
    let mut others = theirs.iter();
    for (name, user) in ours.iter() {
        match others.next() {
            Some((other, known)) if name.as_slice() == other.as_slice() && is_user(user, known) =>
                {}
            _ => return false,
        }
    }
    others.next().is_none() && ours.len() == theirs.len()
}

fn is_user(ours: &User, theirs: &User) -> bool {
    ours.country.as_slice() == theirs.country.as_slice()
        && ours.cpu == theirs.cpu
        && ours.account == theirs.account
        && ours.status == theirs.status
}

fn names_are_same(ours: &[NameBuf], theirs: &[NameBuf]) -> bool {
    ours.len() == theirs.len()
        && ours
            .iter()
            .zip(theirs)
            .all(|(name, other)| name.as_slice() == other.as_slice())
}

fn battles_are_same(ours: &Battles<'_>, theirs: &Battles<'_>) -> bool {
    let mut others = theirs.iter();
    for (number, battle) in ours.iter() {
        match others.next() {
            Some((other, listed)) if *number == *other && is_battle(battle, listed) => {}
            _ => return false,
        }
    }
    others.next().is_none() && ours.len() == theirs.len()
}

fn is_battle(ours: &Battle, theirs: &Battle) -> bool {
    ours.opened.founder.as_slice() == theirs.opened.founder.as_slice()
        && ours.opened.ip.as_slice() == theirs.opened.ip.as_slice()
        && ours.opened.port == theirs.opened.port
        && ours.opened.rank == theirs.opened.rank
        && ours.opened.map_hash == theirs.opened.map_hash
        && ours.opened.map.as_slice() == theirs.opened.map.as_slice()
        && ours.opened.title.as_slice() == theirs.opened.title.as_slice()
        && ours.spectators == theirs.spectators
        && ours.locked == theirs.locked
        && names_are_same(ours.members(), theirs.members())
}

fn channels_are_same(ours: &Channels<'_>, theirs: &Channels<'_>) -> bool {
    for place in 0..ours.len() {
        match (ours.name_at(place), theirs.name_at(place)) {
            (Some(name), Some(other)) if name.as_slice() == other.as_slice() => {
                match (ours.get(name), theirs.get(other)) {
                    (Some(ours), Some(theirs)) if names_are_same(ours, theirs) => {}
                    _ => return false,
                }
            }
            _ => return false,
        }
    }
    ours.len() == theirs.len()
}

fn is_member(ours: &Member, theirs: &Member) -> bool {
    ours.name.as_slice() == theirs.name.as_slice()
        && ours.status == theirs.status
        && ours.colour == theirs.colour
}

fn is_bot(ours: &Bot, theirs: &Bot) -> bool {
    ours.name().as_slice() == theirs.name().as_slice()
        && ours.owner().as_slice() == theirs.owner().as_slice()
        && ours.status() == theirs.status()
        && ours.colour() == theirs.colour()
        && ours.ai().as_slice() == theirs.ai().as_slice()
}

fn is_room(ours: &OwnRoom, theirs: &OwnRoom) -> bool {
    let mut members = ours.members().iter().zip(theirs.members());
    let mut bots = ours.bots().iter().zip(theirs.bots());
    let mut units = ours.units().iter().zip(theirs.units());
    ours.battle() == theirs.battle()
        && ours.members().len() == theirs.members().len()
        && members.all(|(member, other)| is_member(member, other))
        && ours.bots().len() == theirs.bots().len()
        && bots.all(|(bot, other)| is_bot(bot, other))
        && ours.rect_count() == theirs.rect_count()
        && (0..16).all(|ally| ours.rect_at(ally) == theirs.rect_at(ally))
        && pairs_are_same(ours.tags(), theirs.tags())
        && ours.units().len() == theirs.units().len()
        && units.all(|(unit, other)| unit.as_slice() == other.as_slice())
}

fn rooms_are_same(ours: Option<&OwnRoom>, theirs: Option<&OwnRoom>) -> bool {
    match (ours, theirs) {
        (Some(ours), Some(theirs)) => is_room(ours, theirs),
        (None, None) => true,
        _ => false,
    }
}

/// A view under trial.
#[derive(Drop)]
struct TriedView(View);

impl Subject for TriedView {
    fn new(alloc: Global) -> Option<TriedView> {
        Some(TriedView(View::new(alloc)))
    }

    fn act(&mut self, alloc: Global, client: u64, deed: Deed) -> bool {
        let _ = (alloc, client);
        match deed {
            Deed::Send(bytes) => self.0.feed(bytes) != Err(ViewError::Memory),
            Deed::Shut => feed_too_long(&mut self.0) != Err(ViewError::Memory),
            Deed::Open | Deed::Take | Deed::Read(_) | Deed::Record => true,
        }
    }

    fn use_up(&mut self, alloc: Global) -> bool {
        let _ = alloc;
        true
    }

    fn is_as(&mut self, other: &mut TriedView) -> bool {
        self.0.me() == other.0.me()
            && users_are_same(&self.0.users(), &other.0.users())
            && battles_are_same(&self.0.battles(), &other.0.battles())
            && channels_are_same(&self.0.channels(), &other.0.channels())
            && rooms_are_same(self.0.room(), other.0.room())
            && self.0.feed(b"") == other.0.feed(b"")
    }

    fn show<R: Print>(&mut self, rt: &R) -> io::Result<()> {
        println!(rt;
            "a view: {} users, {} battles, {} channels, in a room: {}, more: {:?}",
            self.0.users().len(),
            self.0.battles().len(),
            self.0.channels().len(),
            self.0.room().is_some(),
            self.0.feed(b"")
        )
    }
}

pub fn try_out<R: Print + AllocGlobal>(
    rt: &R,
    refuser: &mut Refuser,
    notes: &mut Notes,
) -> io::Result<()> {
    try_deeds::<TriedView, R>(rt, &DEEDS, &LOOKS, refuser, notes)
}
