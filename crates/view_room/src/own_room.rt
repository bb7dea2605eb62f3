//! The room of the battle that the client is in.

ghost use Rattle.std.specs.Prelude.{◌≡◌, IfOk, length};
ghost use Rattle.line_words.specs.Table.{at_number, same_number};
ghost use Rattle.lobby_view.specs.View.{room_of};

use crate::members::{Member, Members};
use crate::rects::Rects;
use line_words::{NameBuf, Pair, WordBuf};
use room_lists::{Bots, HashSeed, Rect, Tags, Units};
use std::alloc::{AllocError, Global};
use std::marker::Model;

/// A bot of the client's room. Its status is a word, of which `status_bits` tells the fields.
pub type Bot = room_lists::Bot<u32>;

/// The room of the battle that the client is in: what its members share.
pub struct OwnRoom {
    battle: u32,
    pub(crate) members: Members,
    pub(crate) bots: Bots<u32>,
    pub(crate) rects: Rects,
    pub(crate) tags: Tags,
    pub(crate) units: Units,
}

impl Drop for OwnRoom {
    /// Who lets a room go calls this, and need not know what it is made of.
    fn drop(self) {
        let OwnRoom {
            battle: _,
            members,
            bots,
            rects,
            tags,
            units,
        } = self;
        drop(members);
        drop(bots);
        drop(rects);
        drop(tags);
        drop(units);
    }
}

impl Model for OwnRoom {
    ghost use Rattle.std.specs.Prelude.{[]};
    ghost use Rattle.lobby_view.specs.View.{OwnRoom};

    ghost Value = { OwnRoom };

    ghost view = { λ o. record {
      battle = o.battle;
      room = record
          { members = o.members; bots = o.bots; rects = o.rects; tags = o.tags; units = o.units; askers = [] };
    } };
}

impl OwnRoom {
    /// The room of a battle that the client enters. Its members are known by these names, and nothing else is told of
    /// them yet.
    pub(crate) fn entered(
        alloc: Global,
        number: u32,
        names: &[NameBuf],
    ) -> Result<OwnRoom, AllocError>
        ensures { IfOk result (λ own. own ≡ record { battle = number; room = room_of names.now }) }
    {
        let members = Members::of(alloc, names)?;
        let seed = HashSeed::known();
        Ok(OwnRoom {
            battle: number,
            members,
            bots: Bots::new(alloc),
            rects: Rects::new(alloc),
            tags: Tags::new(alloc, seed),
            units: Units::new(alloc, seed),
        })
    }

    /// The number of the battle, 1 to 2147483647.
    pub fn battle(&self) -> u32
        ensures { result ≡ self.now.battle }
    {
        self.battle
    }

    /// Whether it is the room of this battle.
    pub(crate) fn is_of(&self, number: u32) -> bool
        ensures { result ≡ same_number number self.now.battle }
    {
        number.cmp(&self.battle).is_eq()
    }

    /// The members in order of joining.
    pub fn members(&self) -> &[Member]
        ensures { result.now ≡ self.now.room.members }
    {
        self.members.as_slice()
    }

    /// The bots in order of adding.
    pub fn bots(&self) -> &[Bot]
        ensures { result.now ≡ self.now.room.bots }
    {
        self.bots.as_slice()
    }

    /// The start rectangle of an ally number, 0 to 15, if it has one.
    pub fn rect_at(&self, ally: u8) -> Option<Rect>
        ensures { result ≡ at_number self.now.room.rects ally }
    {
        self.rects.at(ally)
    }

    /// How many ally numbers have a start rectangle.
    pub fn rect_count(&self) -> usize
        ensures { result ≡ length self.now.room.rects }
    {
        self.rects.len()
    }

    /// The script tags in order of first setting.
    pub fn tags(&self) -> &[Pair]
        ensures { result.now ≡ self.now.room.tags }
    {
        self.tags.as_slice()
    }

    /// The disabled units in order of first disabling.
    pub fn units(&self) -> &[WordBuf]
        ensures { result.now ≡ self.now.room.units }
    {
        self.units.as_slice()
    }
}
