//! How the client's own room was before it changed.

ghost use Rattle.std.specs.Prelude.{◌≡◌, Option, Some, None, true, false, IsOk, OnOk, OnErr, IfOk};
ghost use Rattle.std.specs.Option.{option_map};
ghost use Rattle.lobby_view.specs.View.{OwnRoom};
ghost use Rattle.view_room.specs.Kept.{or_now, restored, was, is_noted, keeping};
ghost use Rattle.view_room.specs.Kept.{keep_members, keep_bots, keep_rects, keep_tags, keep_units};

use crate::members::Members;
use crate::own_room::OwnRoom;
use crate::rects::Rects;
use room_lists::{Bots, Tags, Units};
use std::alloc::{AllocError, Global};

/// A list that can be kept as it is.
trait Copied: Drop {
    /// A copy. Fails only where memory is refused.
    fn copied(&self, alloc: Global) -> Result<Self, AllocError>
        ensures { IfOk result (λ copy. copy ≡ self.now) };
}

impl Copied for Members {
    fn copied(&self, alloc: Global) -> Result<Members, AllocError> {
        self.copy(alloc)
    }
}

impl Copied for Bots<u32> {
    fn copied(&self, alloc: Global) -> Result<Bots<u32>, AllocError> {
        self.copy(alloc)
    }
}

impl Copied for Rects {
    fn copied(&self, _alloc: Global) -> Result<Rects, AllocError> {
        self.copy()
    }
}

impl Copied for Tags {
    fn copied(&self, alloc: Global) -> Result<Tags, AllocError> {
        self.copy(alloc)
    }
}

impl Copied for Units {
    fn copied(&self, alloc: Global) -> Result<Units, AllocError> {
        self.copy(alloc)
    }
}

/// Keeps a list as it is, where nothing is kept of it yet. Where memory is refused, nothing changes.
fn keep<L: Copied>(kept: &mut Option<L>, list: &L, alloc: Global) -> Result<(), AllocError>
    ensures ok { OnOk result (kept.new ≡ Some (or_now kept.old list.now)) }
    ensures err { OnErr result (kept.new ≡ kept.old) }
{
    if kept.is_none() {
        *kept = Some(list.copied(alloc)?);
    }
    Ok(())
}

/// A list is again as it was kept, if it was.
fn put_back<L: Copied>(kept: Option<L>, list: &mut L)
    ensures { list.new ≡ or_now kept list.old }
{
    if let Some(was) = kept {
        *list = was;
    }
}

/// Lists of a room as they were. A list that has not changed is not here.
pub(crate) struct KeptLists {
    members: Option<Members>,
    bots: Option<Bots<u32>>,
    rects: Option<Rects>,
    tags: Option<Tags>,
    units: Option<Units>,
}

impl Drop for KeptLists {
    fn drop(self) {
        let KeptLists {
            members,
            bots,
            rects,
            tags,
            units,
        } = self;
        drop(members);
        drop(bots);
        drop(rects);
        drop(tags);
        drop(units);
    }
}

/// How the client's own room was.
#[derive(Drop)]
pub(crate) enum Before {
    /// Nothing is noted.
    Unnoted,
    /// As it is, but for these lists.
    Lists(KeptLists),
    /// This one, in place of which another came, or none.
    Replaced(Option<OwnRoom>),
}

impl KeptLists {
    pub(crate) fn none() -> KeptLists
        ensures { result ≡ record { members = None; bots = None; rects = None; tags = None; units = None } }
    {
        KeptLists {
            members: None,
            bots: None,
            rects: None,
            tags: None,
            units: None,
        }
    }

    /// A room with the lists as they were.
    pub(crate) fn in_room(self, room: Option<OwnRoom>) -> Option<OwnRoom>
        ensures { result ≡ option_map (restored self) room }
    {
        match room {
            Some(mut own) => {
                self.put_back(&mut own);
                Some(own)
            }
            None => None,
        }
    }

    /// The lists stand in a room again.
    fn put_back(self, own: &mut OwnRoom)
        ensures { own.new ≡ restored self own.old }
    {
        let KeptLists {
            members,
            bots,
            rects,
            tags,
            units,
        } = self;
        put_back(members, &mut own.members);
        put_back(bots, &mut own.bots);
        put_back(rects, &mut own.rects);
        put_back(tags, &mut own.tags);
        put_back(units, &mut own.units);
    }
}

impl Before {
    /// How a room was, once another stands in its place, or none: the room is kept whole, if it was noted.
    pub(crate) fn of(self, last: Option<OwnRoom>) -> Before
        ensures before { is_noted self ≡ true → (next : Option OwnRoom) → was result next ≡ was self last }
        ensures noted { is_noted result ≡ is_noted self }
    {
        match self {
            Before::Unnoted => Before::Unnoted,
            Before::Lists(kept) => Before::Replaced(kept.in_room(last)),
            Before::Replaced(room) => Before::Replaced(room),
        }
    }

    /// The members are about to change. Where memory is refused, nothing changes; while nothing is noted, none is asked
    /// for.
    pub(crate) fn keep_members(
        &mut self,
        alloc: Global,
        members: &Members,
    ) -> Result<(), AllocError>
        ensures ok { OnOk result (self.new ≡ keeping (keep_members members.now) self.old) }
        ensures err { OnErr result (self.new ≡ self.old) }
        ensures sure { is_noted self.old ≡ false → IsOk result }
    {
        match self {
            Before::Lists(kept) => keep(&mut kept.members, members, alloc),
            _ => Ok(()),
        }
    }

    /// The bots are about to change. Where memory is refused, nothing changes.
    pub(crate) fn keep_bots(&mut self, alloc: Global, bots: &Bots<u32>) -> Result<(), AllocError>
        ensures ok { OnOk result (self.new ≡ keeping (keep_bots bots.now) self.old) }
        ensures err { OnErr result (self.new ≡ self.old) }
    {
        match self {
            Before::Lists(kept) => keep(&mut kept.bots, bots, alloc),
            _ => Ok(()),
        }
    }

    /// The start rectangles are about to change. Where memory is refused, nothing changes.
    pub(crate) fn keep_rects(&mut self, alloc: Global, rects: &Rects) -> Result<(), AllocError>
        ensures ok { OnOk result (self.new ≡ keeping (keep_rects rects.now) self.old) }
        ensures err { OnErr result (self.new ≡ self.old) }
    {
        match self {
            Before::Lists(kept) => keep(&mut kept.rects, rects, alloc),
            _ => Ok(()),
        }
    }

    /// The script tags are about to change. Where memory is refused, nothing changes.
    pub(crate) fn keep_tags(&mut self, alloc: Global, tags: &Tags) -> Result<(), AllocError>
        ensures ok { OnOk result (self.new ≡ keeping (keep_tags tags.now) self.old) }
        ensures err { OnErr result (self.new ≡ self.old) }
    {
        match self {
            Before::Lists(kept) => keep(&mut kept.tags, tags, alloc),
            _ => Ok(()),
        }
    }

    /// The disabled units are about to change. Where memory is refused, nothing changes.
    pub(crate) fn keep_units(&mut self, alloc: Global, units: &Units) -> Result<(), AllocError>
        ensures ok { OnOk result (self.new ≡ keeping (keep_units units.now) self.old) }
        ensures err { OnErr result (self.new ≡ self.old) }
    {
        match self {
            Before::Lists(kept) => keep(&mut kept.units, units, alloc),
            _ => Ok(()),
        }
    }
}
