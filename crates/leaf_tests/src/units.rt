//! The disabled units of a room, with memory at hand, and the most that there are.

use crate::lists;
use crate::rooms::{RoomStep, play, word, words};
use battle_room::{Room, RoomError};
use line_words::{NameBuf, WordBuf, WordList};
use std::alloc::Global;

/// What one asks of the units of a room.
#[derive(Clone, Copy)]
enum Call {
    Disable(&'static [&'static [u8]]),
    /// The units u1 to u1024.
    DisableMost,
    Enable(&'static [&'static [u8]]),
    EnableAll,
}

/// Units in their order.
#[derive(Clone, Copy)]
enum Units {
    These(&'static [&'static [u8]]),
    /// So many, the first of them this.
    Begin(usize, &'static [u8]),
}

/// Who calls, what is asked, of which units it tells or why it is refused, and the units thereafter.
type Row = (&'static [u8], Call, Result<Units, RoomError>, Units);

/// Anna is the founder and Bert is a member. Cleo is not.
static ROWS: [Row; 14] = [
    (
        b"Anna",
        Call::Disable(&[b"armcom", b"corcom", b"armcom"]),
        Ok(Units::These(&[b"armcom", b"corcom"])),
        Units::These(&[b"armcom", b"corcom"]),
    ),
    (
        b"Anna",
        Call::Disable(&[b"corcom", b"armflash"]),
        Ok(Units::These(&[b"armflash"])),
        Units::These(&[b"armcom", b"corcom", b"armflash"]),
    ),
    (
        b"Anna",
        Call::Disable(&[b"corcom"]),
        Ok(Units::These(&[])),
        Units::These(&[b"armcom", b"corcom", b"armflash"]),
    ),
    (
        b"Bert",
        Call::Disable(&[b"x"]),
        Err(RoomError::NotAllowed),
        Units::These(&[b"armcom", b"corcom", b"armflash"]),
    ),
    (
        b"Cleo",
        Call::Disable(&[b"x"]),
        Err(RoomError::NotMember),
        Units::These(&[b"armcom", b"corcom", b"armflash"]),
    ),
    (
        b"Anna",
        Call::Enable(&[b"x"]),
        Ok(Units::These(&[])),
        Units::These(&[b"armcom", b"corcom", b"armflash"]),
    ),
    (
        b"Anna",
        Call::Enable(&[b"armcom", b"x", b"armcom"]),
        Ok(Units::These(&[b"armcom"])),
        Units::These(&[b"corcom", b"armflash"]),
    ),
    (
        b"Bert",
        Call::Enable(&[b"corcom"]),
        Err(RoomError::NotAllowed),
        Units::These(&[b"corcom", b"armflash"]),
    ),
    (
        b"Cleo",
        Call::Enable(&[b"corcom"]),
        Err(RoomError::NotMember),
        Units::These(&[b"corcom", b"armflash"]),
    ),
    (
        b"Anna",
        Call::Disable(&[b"armcom"]),
        Ok(Units::These(&[b"armcom"])),
        Units::These(&[b"corcom", b"armflash", b"armcom"]),
    ),
    (
        b"Bert",
        Call::EnableAll,
        Err(RoomError::NotAllowed),
        Units::These(&[b"corcom", b"armflash", b"armcom"]),
    ),
    (
        b"Cleo",
        Call::EnableAll,
        Err(RoomError::NotMember),
        Units::These(&[b"corcom", b"armflash", b"armcom"]),
    ),
    (
        b"Anna",
        Call::EnableAll,
        Ok(Units::These(&[])),
        Units::These(&[]),
    ),
    (
        b"Anna",
        Call::EnableAll,
        Ok(Units::These(&[])),
        Units::These(&[]),
    ),
];

fn are(units: &[WordBuf], wanted: &Units) -> bool {
    match wanted {
        Units::These(wanted) => lists::are(units, wanted),
        Units::Begin(count, first) => units.len() == *count && begins(units, first),
    }
}

fn begins(units: &[WordBuf], first: &[u8]) -> bool {
    match units.first() {
        Some(unit) => unit.as_slice() == first,
        None => false,
    }
}

/// Whether these units are told, or this refusal.
fn tells(told: Result<WordList, RoomError>, wanted: &Result<Units, RoomError>) -> bool {
    match (told, wanted) {
        (Ok(told), Ok(wanted)) => are(told.as_slice(), wanted),
        (Err(told), Err(wanted)) => told == *wanted,
        _ => false,
    }
}

fn numbered(alloc: Global, number: u32) -> Option<WordBuf> {
    let unit = format!(in alloc; "u{number}").ok()?;
    word(alloc, unit.as_bytes())
}

/// The units u1 to u1024.
fn most_units(alloc: Global) -> Option<Vec<WordBuf>> {
    let mut list = Vec::new(alloc);
    for k in 1..1025u32 {
        list.push(numbered(alloc, k)?).ok()?;
    }
    Some(list)
}

fn disable(
    room: &mut Room,
    by: &NameBuf,
    units: Option<Vec<WordBuf>>,
) -> Option<Result<WordList, RoomError>> {
    Some(room.disable_units(by, WordList::new(units?)))
}

fn make_call(
    room: &mut Room,
    alloc: Global,
    by: &NameBuf,
    asked: &Call,
) -> Option<Result<WordList, RoomError>> {
    match asked {
        Call::Disable(units) => disable(room, by, words(alloc, units)),
        Call::DisableMost => disable(room, by, most_units(alloc)),
        Call::Enable(units) => {
            let units = words(alloc, units)?;
            Some(room.enable_units(by, &units))
        }
        Call::EnableAll => match room.enable_all(by) {
            Ok(()) => Some(Ok(WordList::new(Vec::new(alloc)))),
            Err(refusal) => Some(Err(refusal)),
        },
    }
}

impl RoomStep for Row {
    fn is_so(&self, room: &mut Room, alloc: Global) -> bool {
        let (by, asked, wanted, left) = self;
        let Some(by) = NameBuf::of(by) else {
            return false;
        };
        match make_call(room, alloc, &by, asked) {
            Some(told) => tells(told, wanted) && are(room.units(), left),
            None => false,
        }
    }
}

#[test]
fn units_are_disabled_and_enabled(rt: HostRuntime) {
    play(&rt, rt.alloc(), &[b"Bert"], &ROWS);
}

/// One unit more is refused, and none of the others is disabled then. A unit that is named twice counts once.
static MOST: [Row; 8] = [
    (
        b"Anna",
        Call::DisableMost,
        Ok(Units::Begin(1024, b"u1")),
        Units::Begin(1024, b"u1"),
    ),
    (
        b"Anna",
        Call::Disable(&[b"u7", b"new"]),
        Err(RoomError::TooManyUnits),
        Units::Begin(1024, b"u1"),
    ),
    (
        b"Bert",
        Call::Disable(&[b"new"]),
        Err(RoomError::NotAllowed),
        Units::Begin(1024, b"u1"),
    ),
    (
        b"Anna",
        Call::Disable(&[b"u7", b"u1024"]),
        Ok(Units::These(&[])),
        Units::Begin(1024, b"u1"),
    ),
    (
        b"Anna",
        Call::Enable(&[
            b"u9", b"u1", b"u2", b"u3", b"none", b"u4", b"u5", b"u6", b"u7", b"u8", b"u9",
        ]),
        Ok(Units::These(&[
            b"u9", b"u1", b"u2", b"u3", b"u4", b"u5", b"u6", b"u7", b"u8",
        ])),
        Units::Begin(1015, b"u10"),
    ),
    (
        b"Anna",
        Call::Disable(&[
            b"n0", b"n1", b"n2", b"n3", b"n4", b"n5", b"n6", b"n7", b"n8", b"n9",
        ]),
        Err(RoomError::TooManyUnits),
        Units::Begin(1015, b"u10"),
    ),
    (
        b"Anna",
        Call::Disable(&[
            b"n8", b"n1", b"n8", b"u10", b"n2", b"n3", b"n4", b"n1", b"n5", b"n6", b"n7", b"n9",
        ]),
        Ok(Units::These(&[
            b"n8", b"n1", b"n2", b"n3", b"n4", b"n5", b"n6", b"n7", b"n9",
        ])),
        Units::Begin(1024, b"u10"),
    ),
    (
        b"Anna",
        Call::EnableAll,
        Ok(Units::These(&[])),
        Units::These(&[]),
    ),
];

#[test]
fn one_thousand_and_twenty_four_units(rt: HostRuntime) {
    play(&rt, rt.alloc(), &[b"Bert"], &MOST);
}
