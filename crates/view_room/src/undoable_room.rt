//! The client's own room, if it is in one, and how it was before the changes that are noted. Where a battle is
//! named, only its room changes.

ghost use Rattle.std.specs.Prelude.{◌≡◌, ℕ, List, Option, Some, None, true, false, IsOk, OnOk, OnErr, option_copied};
ghost use Rattle.room_lists.specs.Room as room;
ghost use Rattle.lobby_view.specs.View.{OwnRoom, room_of, if_of, in_own_room, in_room_of};
ghost use Rattle.noted_map.specs.Undoable.{Changes};

use crate::before::{Before, KeptLists};
use crate::own_room::{Bot, OwnRoom};
use line_words::{NameBuf, PairList, WordBuf, WordList};
use room_lists::Rect;
use std::alloc::{AllocError, Global};
use std::marker::Model;
use std::mem::replace;

/// The client's own room, if it is in one, which can be as it was before some changes.
pub struct UndoableRoom {
    alloc: Global,
    own: Option<OwnRoom>,
    before: Before,
}

impl Drop for UndoableRoom {
    /// Who lets a room go calls this, and need not know what it is made of.
    fn drop(self) {
        let UndoableRoom {
            alloc: _,
            own,
            before,
        } = self;
        drop(own);
        drop(before);
    }
}

impl Model for UndoableRoom {
    ghost use Rattle.std.specs.Prelude.{Option};
    ghost use Rattle.lobby_view.specs.View.{OwnRoom};
    ghost use Rattle.noted_map.specs.Undoable.{Undoable};
    ghost use Rattle.view_room.specs.Kept.{was, is_noted};

    ghost Value = { Undoable (Option OwnRoom) };

    ghost view = { λ u. record { now = u.own; before = was u.before u.own; noting = is_noted u.before } };
}

impl UndoableRoom {
    /// In no room. It takes no memory, and notes nothing.
    pub fn new(alloc: Global) -> UndoableRoom
        ensures now { result.now ≡ None }
        ensures noting { result.noting ≡ false }
    {
        UndoableRoom {
            alloc,
            own: None,
            before: Before::Unnoted,
        }
    }

    /// The room, if the client is in one.
    pub fn room(&self) -> Option<&OwnRoom>
        ensures { option_copied result ≡ self.now.now }
    {
        self.own.as_ref()
    }

    /// Whether changes are noted.
    pub fn is_noting(&self) -> bool
        ensures { result ≡ self.now.noting }
    {
        match &self.before {
            Before::Unnoted => false,
            Before::Lists(_) | Before::Replaced(_) => true,
        }
    }

    /// Changes are noted from now on.
    pub fn begin(&mut self)
        ensures now { self.new.now ≡ self.old.now }
        ensures before { self.new.before ≡ self.old.now }
        ensures noting { self.new.noting ≡ true }
    {
        self.before = Before::Lists(KeptLists::none());
    }

    /// What was noted stands for good, and changes are noted no more.
    pub fn settle(&mut self)
        ensures now { self.new.now ≡ self.old.now }
        ensures noting { self.new.noting ≡ false }
    {
        self.before = Before::Unnoted;
    }

    /// All is as it was when changes began to be noted, and they are noted no more.
    pub fn take_back(&mut self)
        ensures now { self.new.now ≡ self.old.before }
        ensures noting { self.new.noting ≡ false }
    {
        match replace(&mut self.before, Before::Unnoted) {
            Before::Unnoted => {}
            Before::Lists(kept) => self.own = kept.in_room(self.own.take()),
            Before::Replaced(own) => self.own = own,
        }
    }

    /// The client enters a battle. Its members are known by these names, none where the battle is not known, and
    /// nothing else is told of them yet. Where memory is refused, nothing changes.
    pub fn enter(&mut self, number: u32, names: &[NameBuf]) -> Result<(), AllocError>
        ensures ok { OnOk result (Changes (λ o. Some (record { battle = number; room = room_of names.now })) self.old
            self.new) }
        ensures err { OnErr result (self.new ≡ self.old) }
    {
        let own = OwnRoom::entered(self.alloc, number, names)?;
        self.replace(Some(own));
        Ok(())
    }

    /// The client is in this battle no more.
    pub fn leave(&mut self, number: u32)
        ensures { Changes (if_of number (λ o. None)) self.old self.new }
    {
        if let Some(own) = &self.own {
            if own.is_of(number) {
                self.replace(None);
            }
        }
    }

    /// Another room, or none, in place of the one that there is, which is kept whole.
    fn replace(&mut self, next: Option<OwnRoom>)
        ensures { Changes (λ o. next) self.old self.new }
    {
        let last = replace(&mut self.own, next);
        self.before = replace(&mut self.before, Before::Unnoted).of(last);
    }

    /// One joins, of whom nothing is told yet. Where memory is refused, nothing changes.
    pub fn add_member(&mut self, number: u32, name: NameBuf) -> Result<(), AllocError>
        ensures ok { OnOk result (Changes (in_room_of number (room.with_member name)) self.old self.new) }
        ensures err { OnErr result (self.new ≡ self.old) }
    {
        if let Some(own) = &mut self.own {
            if own.is_of(number) {
                self.before.keep_members(self.alloc, &own.members)?;
                own.members.add(name)?;
            }
        }
        Ok(())
    }

    /// Without the last member, who has just been added, where changes are not noted. Those that are noted can be
    /// taken back.
    pub fn drop_unnoted(&mut self, number: u32)
        ensures now { self.old.noting ≡ false → (before : Option OwnRoom) (name : List ℕ)
            → self.old.now ≡ in_room_of number (room.with_member name) before → self.new.now ≡ before }
        ensures before { self.old.noting ≡ true → self.new.before ≡ self.old.before }
        ensures noting { self.new.noting ≡ self.old.noting }
    {
        if self.is_noting() {
            return;
        }
        if let Some(own) = &mut self.own {
            if own.is_of(number) {
                own.members.drop_last();
            }
        }
    }

    /// One leaves. Where memory is refused, nothing changes; while nothing is noted, none is asked for.
    pub fn remove_member(&mut self, number: u32, name: &NameBuf) -> Result<(), AllocError>
        ensures ok { OnOk result (Changes (in_room_of number (room.all_members_but name.now)) self.old self.new) }
        ensures err { OnErr result (self.new ≡ self.old) }
        ensures sure { self.old.noting ≡ false → IsOk result }
    {
        if let Some(own) = &mut self.own {
            if own.is_of(number) {
                self.before.keep_members(self.alloc, &own.members)?;
                own.members.remove(name);
            }
        }
        Ok(())
    }

    /// A status and a colour for the member of a name. Where memory is refused, nothing changes.
    pub fn put_status(&mut self, name: &NameBuf, status: u32, colour: i64) -> Result<(), AllocError>
        ensures ok { OnOk result (Changes (in_own_room (room.with_status name.now status colour)) self.old self.new) }
        ensures err { OnErr result (self.new ≡ self.old) }
    {
        if let Some(own) = &mut self.own {
            self.before.keep_members(self.alloc, &own.members)?;
            own.members.put_status(name, status, colour);
        }
        Ok(())
    }

    /// A bot comes. Where memory is refused, nothing changes.
    pub fn add_bot(&mut self, number: u32, bot: Bot) -> Result<(), AllocError>
        ensures ok { OnOk result (Changes (in_room_of number (room.with_bot bot)) self.old self.new) }
        ensures err { OnErr result (self.new ≡ self.old) }
    {
        match &mut self.own {
            Some(own) if own.is_of(number) => {
                self.before.keep_bots(self.alloc, &own.bots)?;
                own.bots.add(bot)
            }
            _ => {
                drop(bot);
                Ok(())
            }
        }
    }

    /// A status and a colour for the bot of a name. Where memory is refused, nothing changes.
    pub fn put_bot_status(
        &mut self,
        number: u32,
        name: &WordBuf,
        status: u32,
        colour: i64,
    ) -> Result<(), AllocError>
        ensures ok { OnOk result (Changes (in_room_of number (room.with_bot_status name.now status colour)) self.old
            self.new) }
        ensures err { OnErr result (self.new ≡ self.old) }
    {
        if let Some(own) = &mut self.own {
            if own.is_of(number) {
                self.before.keep_bots(self.alloc, &own.bots)?;
                own.bots.put_status(name, status, colour);
            }
        }
        Ok(())
    }

    /// A bot goes. Where memory is refused, nothing changes.
    pub fn remove_bot(&mut self, number: u32, name: &WordBuf) -> Result<(), AllocError>
        ensures ok { OnOk result (Changes (in_room_of number (room.without_bot name.now)) self.old self.new) }
        ensures err { OnErr result (self.new ≡ self.old) }
    {
        if let Some(own) = &mut self.own {
            if own.is_of(number) {
                self.before.keep_bots(self.alloc, &own.bots)?;
                own.bots.remove(name);
            }
        }
        Ok(())
    }

    /// A start rectangle for an ally number. Where memory is refused, nothing changes.
    pub fn put_rect(&mut self, ally: u8, rect: Rect) -> Result<(), AllocError>
        ensures ok { OnOk result (Changes (in_own_room (room.with_rect ally rect)) self.old self.new) }
        ensures err { OnErr result (self.new ≡ self.old) }
    {
        if let Some(own) = &mut self.own {
            self.before.keep_rects(self.alloc, &own.rects)?;
            own.rects.put(ally, rect)?;
        }
        Ok(())
    }

    /// No start rectangle for an ally number. Where memory is refused, nothing changes.
    pub fn remove_rect(&mut self, ally: u8) -> Result<(), AllocError>
        ensures ok { OnOk result (Changes (in_own_room (room.without_rect ally)) self.old self.new) }
        ensures err { OnErr result (self.new ≡ self.old) }
    {
        if let Some(own) = &mut self.own {
            self.before.keep_rects(self.alloc, &own.rects)?;
            own.rects.remove(ally);
        }
        Ok(())
    }

    /// Script tags are set. Where memory is refused, nothing changes.
    pub fn put_tags(&mut self, pairs: PairList) -> Result<(), AllocError>
        ensures ok { OnOk result (Changes (in_own_room (room.set_tags pairs)) self.old self.new) }
        ensures err { OnErr result (self.new ≡ self.old) }
    {
        if let Some(own) = &mut self.own {
            self.before.keep_tags(self.alloc, &own.tags)?;
            own.tags.put(self.alloc, pairs)?;
        }
        Ok(())
    }

    /// The script tags of some keys go. Where memory is refused, nothing changes.
    pub fn remove_tags(&mut self, keys: &[WordBuf]) -> Result<(), AllocError>
        ensures ok { OnOk result (Changes (in_own_room (room.remove_tags keys.now)) self.old self.new) }
        ensures err { OnErr result (self.new ≡ self.old) }
    {
        if let Some(own) = &mut self.own {
            self.before.keep_tags(self.alloc, &own.tags)?;
            own.tags.remove(keys);
        }
        Ok(())
    }

    /// Units are disabled. Where memory is refused, nothing changes.
    pub fn put_units(&mut self, units: WordList) -> Result<(), AllocError>
        ensures ok { OnOk result (Changes (in_own_room (room.disable_units units)) self.old self.new) }
        ensures err { OnErr result (self.new ≡ self.old) }
    {
        if let Some(own) = &mut self.own {
            self.before.keep_units(self.alloc, &own.units)?;
            own.units.put(self.alloc, units)?;
        }
        Ok(())
    }

    /// Units are enabled. Where memory is refused, nothing changes.
    pub fn remove_units(&mut self, units: &[WordBuf]) -> Result<(), AllocError>
        ensures ok { OnOk result (Changes (in_own_room (room.enable_units units.now)) self.old self.new) }
        ensures err { OnErr result (self.new ≡ self.old) }
    {
        if let Some(own) = &mut self.own {
            self.before.keep_units(self.alloc, &own.units)?;
            own.units.remove(units);
        }
        Ok(())
    }

    /// All units are enabled. Where memory is refused, nothing changes.
    pub fn clear_units(&mut self) -> Result<(), AllocError>
        ensures ok { OnOk result (Changes (in_own_room room.enable_all) self.old self.new) }
        ensures err { OnErr result (self.new ≡ self.old) }
    {
        if let Some(own) = &mut self.own {
            self.before.keep_units(self.alloc, &own.units)?;
            own.units.clear();
        }
        Ok(())
    }
}
