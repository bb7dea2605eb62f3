//! A room with memory at hand: each of its calls that may be refused it, and the most tags that a room has.

use crate::lists::are;
use crate::verdict::{fail, same_for};
use battle_room::{Room, RoomError};
use line_words::{KeyBuf, NameBuf, Pair, PairList, SentenceBuf, WordBuf};
use status_bits::BattleStatus;
use std::alloc::Global;
use std::process::Abort;

pub(crate) fn word(alloc: Global, bytes: &[u8]) -> Option<WordBuf> {
    WordBuf::of(Vec::from_slice(alloc, bytes).ok()?)
}

fn sentence(alloc: Global, bytes: &[u8]) -> Option<SentenceBuf> {
    SentenceBuf::of(Vec::from_slice(alloc, bytes).ok()?)
}

/// One more member, of a name that no member has.
pub(crate) fn join(room: &mut Room, member: &[u8]) -> bool {
    match NameBuf::of(member) {
        Some(member) => !room.has_member(&member) && room.add_member(member).is_ok(),
        None => false,
    }
}

fn add_bot(room: &mut Room, alloc: Global, owner: &[u8], bot: &[u8]) -> Option<()> {
    let owner = NameBuf::of(owner)?;
    let bot = word(alloc, bot)?;
    let ai = sentence(alloc, b"NullAI 0.1")?;
    room.add_bot(owner, bot, BattleStatus::zero(), 255, ai).ok()
}

/// A room of Anna alone.
fn new_room(alloc: Global) -> Option<Room> {
    Room::new(alloc, NameBuf::of(b"Anna")?).ok()
}

fn add_pair(list: &mut Vec<Pair>, alloc: Global, key: &[u8], value: &[u8]) -> Option<()> {
    let key = KeyBuf::of(Vec::from_slice(alloc, key).ok()?)?;
    let value = sentence(alloc, value)?;
    list.push(Pair { key, value }).ok()
}

pub(crate) fn pairs(alloc: Global, wanted: &[(&[u8], &[u8])]) -> Option<PairList> {
    let mut list = Vec::new(alloc);
    for (key, value) in wanted {
        add_pair(&mut list, alloc, key, value)?;
    }
    Some(PairList::new(list))
}

/// The pairs k1=1 to k512=1.
fn most_pairs(alloc: Global) -> Option<PairList> {
    let mut list = Vec::new(alloc);
    for k in 1..513u32 {
        let key = format!(in alloc; "k{k}").ok()?;
        add_pair(&mut list, alloc, key.as_bytes(), b"1")?;
    }
    Some(PairList::new(list))
}

/// Whether there are so many tags, the first of this key and value.
fn begins(room: &Room, count: usize, key: &[u8], value: &[u8]) -> bool {
    match room.tags().first() {
        Some(tag) => room.tags().len() == count
            && tag.key.as_slice() == key
            && tag.value.as_slice() == value,
        None => false,
    }
}

/// Whether the founder is told this who sets these tags.
fn sets(room: &mut Room, pairs: Option<PairList>, wanted: Result<(), RoomError>) -> bool {
    match (NameBuf::of(b"Anna"), pairs) {
        (Some(founder), Some(pairs)) => room.set_tags(&founder, pairs) == wanted,
        _ => false,
    }
}

pub(crate) fn words(alloc: Global, wanted: &[&[u8]]) -> Option<Vec<WordBuf>> {
    let mut list = Vec::new(alloc);
    for bytes in wanted {
        list.push(word(alloc, bytes)?).ok()?;
    }
    Some(list)
}

/// Whether the founder is told that of these keys those are gone.
fn removes(room: &mut Room, keys: Option<Vec<WordBuf>>, gone: &[&[u8]]) -> bool {
    match (NameBuf::of(b"Anna"), keys) {
        (Some(founder), Some(keys)) => match room.remove_tags(&founder, &keys) {
            Ok(there) => are(there.as_slice(), gone),
            Err(_) => false,
        },
        _ => false,
    }
}

fn has_tag(room: &Room, key: &[u8]) -> bool {
    room.tags().iter().any(|tag| tag.key.as_slice() == key)
}

type PairText = (&'static [u8], &'static [u8]);

/// What is done to a room, and what it shows then. Tags are set and removed by the founder.
#[derive(Clone, Copy)]
enum Step {
    /// One joins who is no member.
    Joins(&'static [u8]),
    /// A member adds a bot.
    AddsBot(&'static [u8], &'static [u8]),
    Members(&'static [&'static [u8]]),
    /// These are the bots, of each the owner and the name.
    Bots(&'static [PairText]),
    Sets(&'static [PairText], Result<(), RoomError>),
    /// The tags k1=1 to k512=1 are set.
    SetsMost,
    /// Of these keys those are told to be gone.
    Removes(&'static [&'static [u8]], &'static [&'static [u8]]),
    /// There are so many tags, the first of this key and value.
    Tags(usize, &'static [u8], &'static [u8]),
    HasTag(&'static [u8], bool),
}

/// What is done to a room, or what it shows then.
pub(crate) trait RoomStep {
    /// Whether it comes out as it says.
    fn is_so(&self, room: &mut Room, alloc: Global) -> bool;
}

impl RoomStep for Step {
    fn is_so(&self, room: &mut Room, alloc: Global) -> bool {
        match self {
            Step::Joins(member) => join(room, member),
            Step::AddsBot(owner, bot) => add_bot(room, alloc, owner, bot).is_some(),
            Step::Members(wanted) => are(room.members(), wanted),
            Step::Bots(wanted) => are(room.bots(), wanted),
            Step::Sets(wanted, told) => sets(room, pairs(alloc, wanted), *told),
            Step::SetsMost => sets(room, most_pairs(alloc), Ok(())),
            Step::Removes(keys, gone) => removes(room, words(alloc, keys), gone),
            Step::Tags(count, key, value) => begins(room, *count, key, value),
            Step::HasTag(key, is_so) => has_tag(room, key) == *is_so,
        }
    }
}

fn take_all<S: RoomStep>(rt: &impl Abort, room: &mut Room, alloc: Global, steps: &[S]) {
    for (k, step) in steps.iter().enumerate() {
        same_for(rt, &k, step.is_so(room, alloc), true);
    }
}

/// Takes these steps in a room of Anna and of these who joined it.
pub(crate) fn play<S: RoomStep>(rt: &impl Abort, alloc: Global, others: &[&[u8]], steps: &[S]) {
    match new_room(alloc) {
        Some(mut room) => {
            for other in others {
                same_for(rt, &"join", join(&mut room, other), true);
            }
            take_all(rt, &mut room, alloc, steps);
            drop(room);
        }
        None => fail(rt, "a room of one"),
    }
}

/// Anna's room is joined by Bert, who adds two bots, and by Cleo.
static MEMBERS: [Step; 6] = [
    Step::Joins(b"Bert"),
    Step::Joins(b"Cleo"),
    Step::AddsBot(b"Bert", b"Robo"),
    Step::AddsBot(b"Bert", b"Rex"),
    Step::Members(&[b"Anna", b"Bert", b"Cleo"]),
    Step::Bots(&[(b"Bert", b"Robo"), (b"Bert", b"Rex")]),
];

#[test]
fn members_and_bots_are_added(rt: HostRuntime) {
    play(&rt, rt.alloc(), &[], &MEMBERS);
}

/// One tag more is refused, and none of the others is set then.
static TAGS: [Step; 10] = [
    Step::SetsMost,
    Step::Tags(512, b"k1", b"1"),
    Step::Sets(
        &[(b"new", b"1"), (b"k1", b"2")],
        Err(RoomError::TooManyTags),
    ),
    Step::Tags(512, b"k1", b"1"),
    Step::Sets(&[(b"k1", b"2")], Ok(())),
    Step::Tags(512, b"k1", b"2"),
    Step::Removes(&[b"k2", b"k1", b"zz", b"k2"], &[b"k2", b"k1"]),
    Step::Tags(510, b"k3", b"1"),
    Step::HasTag(b"k1", false),
    Step::HasTag(b"k3", true),
];

#[test]
fn five_hundred_and_twelve_tags(rt: HostRuntime) {
    play(&rt, rt.alloc(), &[], &TAGS);
}
