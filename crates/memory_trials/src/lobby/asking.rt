//! A battle whose founder is asked by those who would join it, and in which units are disabled.

use crate::lobby::crowd::Crowd;
use crate::refusing::deeds::{Deed, try_deeds};
use crate::refusing::notes::Notes;
use crate::refusing::refuser::Refuser;
use std::io;

/// The first user opens a battle, which nineteen ask to join. It lets eleven of them in and denies it two, and one asks
/// no more. An index has room for nine at first: so that of those who ask grows, and that of the members, and that of
/// the disabled units. Units are disabled, of which some are already, and enabled again, before and after one joins who
/// is told which are. At the end some go who ask, who are members with bots, and the founder; those who shall not be
/// shown have read all.
static DEEDS: [(u64, Deed); 69] = [
    (
        1,
        Deed::Send(
            b"OPENBATTLE 0 2 * 8452 16 -1 7 123 spring\t104.0\tComet Catcher\tAll welcome\tBA 9.46",
        ),
    ),
    (1, Deed::Send(b"SETSCRIPTTAGS a=1\tb=2")),
    (1, Deed::Send(b"DISABLEUNITS armcom corcom")),
    (2, Deed::Send(b"#4 JOINBATTLE 1")),
    (3, Deed::Send(b"JOINBATTLE 1 * pw3")),
    (4, Deed::Send(b"JOINBATTLE 1")),
    (
        5,
        Deed::Send(b"JOINBATTLE 1 any a-script-password-of-some-length"),
    ),
    (6, Deed::Send(b"JOINBATTLE 1")),
    (7, Deed::Send(b"JOINBATTLE 1")),
    (8, Deed::Send(b"JOINBATTLE 1 * pw8")),
    (9, Deed::Send(b"JOINBATTLE 1")),
    (10, Deed::Send(b"JOINBATTLE 1")),
    (11, Deed::Send(b"JOINBATTLE 1")),
    (12, Deed::Send(b"JOINBATTLE 1")),
    (13, Deed::Send(b"JOINBATTLE 1")),
    (14, Deed::Send(b"JOINBATTLE 1")),
    (15, Deed::Send(b"JOINBATTLE 1")),
    (16, Deed::Send(b"JOINBATTLE 1")),
    (17, Deed::Send(b"JOINBATTLE 1")),
    (18, Deed::Send(b"JOINBATTLE 1")),
    (19, Deed::Send(b"JOINBATTLE 1")),
    (20, Deed::Send(b"JOINBATTLE 1")),
    (1, Deed::Send(b"#5 JOINBATTLEACCEPT u03")),
    (1, Deed::Send(b"JOINBATTLEACCEPT u02")),
    (1, Deed::Send(b"JOINBATTLEACCEPT u04")),
    (1, Deed::Send(b"JOINBATTLEACCEPT u05")),
    (1, Deed::Send(b"JOINBATTLEACCEPT u06")),
    (1, Deed::Send(b"JOINBATTLEACCEPT u07")),
    (1, Deed::Send(b"JOINBATTLEACCEPT u08")),
    (1, Deed::Send(b"JOINBATTLEACCEPT u09")),
    (1, Deed::Send(b"JOINBATTLEACCEPT u10")),
    (1, Deed::Send(b"JOINBATTLEACCEPT u11")),
    (1, Deed::Send(b"JOINBATTLEACCEPT u12")),
    (1, Deed::Send(b"#6 JOINBATTLEDENY u13")),
    (1, Deed::Send(b"JOINBATTLEDENY u14 no room")),
    (15, Deed::Send(b"LEAVEBATTLE")),
    (2, Deed::Send(b"ADDBOT Robo 1024 255 KAIK")),
    (2, Deed::Send(b"ADDBOT Rex 1088 -1 KAIK")),
    (
        1,
        Deed::Send(
            b"#7 DISABLEUNITS corcom armpw armpw corak armflash armcom armstump armrock armham armwar armbull armsam",
        ),
    ),
    (1, Deed::Send(b"ENABLEUNITS armcom none corak armcom")),
    (21, Deed::Send(b"JOINBATTLE 1 * pw21")),
    (1, Deed::Send(b"JOINBATTLEACCEPT u21")),
    (1, Deed::Send(b"#8 ENABLEALLUNITS")),
    (1, Deed::Send(b"DISABLEUNITS corak")),
    (1, Deed::Send(b"KICKFROMBATTLE u06")),
    (13, Deed::Send(b"JOINBATTLE 1")),
    (2, Deed::Send(b"EXIT")),
    (16, Deed::Shut),
    (14, Deed::Send(b"JOINBATTLE 1")),
    (14, Deed::Send(b"EXIT")),
    (1, Deed::Send(b"SAYBATTLE go")),
    (1, Deed::Send(b"EXIT")),
    (3, Deed::Read(4096)),
    (4, Deed::Read(4096)),
    (5, Deed::Read(4096)),
    (6, Deed::Read(4096)),
    (7, Deed::Read(4096)),
    (8, Deed::Read(4096)),
    (9, Deed::Read(4096)),
    (10, Deed::Read(4096)),
    (11, Deed::Read(4096)),
    (12, Deed::Read(4096)),
    (14, Deed::Read(4096)),
    (15, Deed::Read(4096)),
    (17, Deed::Read(4096)),
    (18, Deed::Read(4096)),
    (19, Deed::Read(4096)),
    (20, Deed::Read(4096)),
    (22, Deed::Read(4096)),
];

/// The last user logs in once more, and is told the users, the battles and their members; then who is in the channel;
/// it asks to join the battle, and is told what the members share; and those who ask are told that the battle is
/// closed.
static LOOKS: [(u64, Deed); 7] = [
    (22, Deed::Send(b"EXIT")),
    (23, Deed::Open),
    (
        23,
        Deed::Send(b"LOGIN u22 X03MO1qnZdYdgyfeuILPmQ== 0 * TestLobby 1.0"),
    ),
    (23, Deed::Send(b"JOIN main")),
    (23, Deed::Send(b"JOINBATTLE 1")),
    (1, Deed::Send(b"JOINBATTLEACCEPT u22")),
    (1, Deed::Send(b"LEAVEBATTLE")),
];

pub fn try_out<R: Print + AllocGlobal>(
    rt: &R,
    refuser: &mut Refuser,
    notes: &mut Notes,
) -> io::Result<()> {
    try_deeds::<Crowd<22>, R>(rt, &DEEDS, &LOOKS, refuser, notes)
}
