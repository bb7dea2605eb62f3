//! The parts of a script, each with its rule and the most memory that this allows.

use crate::bounds::acts::Act;
use test_lobby::GREETING;

/// The users of a large crowd: so many that a line to them has more shares than there are places for from event to
/// event, 1,024.
pub const MANY: u32 = 1_100;

/// Those of them who are in the channel, the speaker among them.
const MEMBERS: usize = MANY as usize - 1;

/// The users of a small crowd.
pub const FEW: u32 = 4;

/// How long a line is as it is told, in bytes: one that is copied, of which a buffer that is kept has room for
/// seventeen, and the shortest that is shared.
pub const SHORT: usize = 1_900;

pub const LONG: usize = 2_048;

/// The most that sharing a long line may cost for each who shares it, in bytes: a quarter of a copy of the shortest.
const PLACE: usize = LONG / 4;

/// So many channels one user joins, in the order of their names, which leaves the nodes of trees half empty; and so
/// many bytes may each take, with what the index of users has of it.
const ALONE: usize = 10_000;

const CHANNEL: usize = 450;

/// So many bytes more may a few blocks have that were made anew: the C library rounds each up by 32 at most.
const ROUNDED: usize = 256;

/// A part of a script, which is done some times over before it is counted, and some times while it is.
pub struct Part {
    pub rule: &'static str,
    pub acts: &'static [(u32, Act)],
    pub before: u32,
    pub times: u32,
    pub growths: usize,
    pub asked: usize,
    pub kept: usize,
}

/// A line that is said takes one growth for itself, the text of its request. Where a buffer grows by doubling, four
/// bytes at most are asked for to each that waits in the end.
pub static MANY_PARTS: [Part; 7] = [
    Part {
        rule: "equal rounds of a copied line take no buffer anew",
        acts: &[(1, Act::Short), (1, Act::Read(4_096))],
        before: 10,
        times: 3,
        growths: 3,
        asked: 3 * SHORT,
        kept: 0,
    },
    Part {
        rule: "equal rounds of several copied lines take no buffer anew",
        acts: &[(3, Act::Short), (2, Act::Read(4_096))],
        before: 10,
        times: 3,
        growths: 9,
        asked: 9 * SHORT,
        kept: 0,
    },
    Part {
        rule: "a buffer that grows doubles, and goes once it is read if it is large",
        acts: &[(18, Act::Short), (9, Act::Read(4_096))],
        before: 0,
        times: 1,
        growths: 18 * (MEMBERS + 1),
        asked: 4 * 18 * SHORT * (MEMBERS + 1),
        kept: 0,
    },
    Part {
        rule: "buffers that lie idle are given back",
        acts: &[(3, Act::Short), (2, Act::Read(4_096)), (8_000, Act::Come)],
        before: 0,
        times: 1,
        growths: 3 * (MEMBERS + 2),
        asked: 4 * 3 * SHORT * (MEMBERS + 1),
        kept: 4 * SHORT + ROUNDED,
    },
    Part {
        rule: "no more than 16,000,000 bytes of buffers are kept",
        acts: &[(8, Act::Short), (4, Act::Read(4_096))],
        before: 0,
        times: 1,
        growths: 8 * (MEMBERS + 1),
        asked: 4 * 8 * SHORT * (MEMBERS + 1),
        kept: 16_000_000 + 32 * MEMBERS,
    },
    Part {
        rule: "a long line is in memory once, and not at all once it is read",
        acts: &[(1, Act::Long), (1, Act::Read(4_096))],
        before: 1,
        times: 1,
        growths: 2 * MEMBERS + 8,
        asked: 4 * LONG + PLACE * MEMBERS,
        kept: ROUNDED,
    },
    Part {
        rule: "nothing is kept of long lines for those who are cut",
        acts: &[(1, Act::Long)],
        before: 0,
        times: 33,
        growths: 33 * (2 * MEMBERS + 8),
        asked: 33 * (4 * LONG + PLACE * MEMBERS),
        kept: ROUNDED,
    },
];

pub static FEW_PARTS: [Part; 5] = [
    Part {
        rule: "one growth at most for each who is told a first line",
        acts: &[(1, Act::Short)],
        before: 0,
        times: 1,
        growths: FEW as usize + 1,
        asked: 2 * SHORT * (FEW as usize + 1),
        kept: 2 * SHORT * (FEW as usize + 1),
    },
    Part {
        rule: "who always leaves a line unread costs no more than the lines that are said",
        acts: &[
            (1, Act::Long),
            (1, Act::Short),
            (1, Act::Read(SHORT + LONG)),
        ],
        before: 100,
        times: 1_000,
        growths: 4 * 1_000,
        asked: 2 * (SHORT + LONG) * 1_000,
        kept: ROUNDED,
    },
    Part {
        rule: "those who come and go take nothing anew",
        acts: &[(1, Act::Come)],
        before: 1_000,
        times: 3_000,
        growths: 0,
        asked: 0,
        kept: 0,
    },
    Part {
        rule: "nothing is kept of clients that no worker looks at and that read nothing, once they have gone",
        acts: &[(1, Act::Vanish)],
        before: 1_000,
        times: 3_000,
        growths: 3_000,
        asked: 2 * GREETING.len() * 3_000,
        kept: ROUNDED,
    },
    Part {
        rule: "a channel in which one user is alone takes no more than 450 bytes",
        acts: &[(1, Act::Join(ALONE as u32))],
        before: 0,
        times: 1,
        growths: 20 * ALONE,
        asked: 10 * CHANNEL * ALONE,
        kept: CHANNEL * ALONE,
    },
];

/// A small crowd comes, is told lines, and goes with its lobby. Only what is kept is bounded closely.
pub static WHOLE: Part = Part {
    rule: "nothing is kept of a lobby that is let go with lines unread",
    acts: &[],
    before: 0,
    times: 0,
    growths: 10_000,
    asked: 10_000_000,
    kept: 0,
};

/// What that crowd is told.
pub static PASSES: [(u32, Act); 3] = [(1, Act::Long), (1, Act::Short), (1, Act::Long)];
