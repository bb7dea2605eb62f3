//! The channels that the client is in.

ghost use Rattle.std.specs.Prelude.{◌≡◌, [], ◌∷◌, true, false, OnOk, OnErr, length, slice_get, option_copied};
ghost use Rattle.std.specs.List.Sorted.{IsStrictlySortedBy};
ghost use Rattle.std.specs.Map.{keys_of};
ghost use Rattle.line_words.specs.Table.{name_cmp, at_name, put_name, without_name, change_name, all_but};
ghost use Rattle.noted_map.specs.Undoable.{Changes};
ghost use Rattle.lobby_view.specs.View.{at_end};

use crate::lists::names::{Names, NamesChange, NamesWere};
use line_words::{NameBuf, NameList};
use noted_map::{Entries, NotedMap};
use std::alloc::{AllocError, Global};
use std::marker::Model;

/// The channels that the client is in, by their names, and in each the names of those who are in it, in order of
/// joining.
#[derive(Drop)]
pub struct Channels<'a> {
    by_name: Entries<'a, NameBuf, Names>,
}

impl<'a> Model for Channels<'a> {
    ghost use Rattle.channel_book.specs.Channels.{Channels};

    ghost Value = { Channels };

    ghost view = { λ c. c.by_name };
}

impl<'a> Channels<'a> {
    /// Who is in a channel, in order of joining. None where the client is not in it.
    pub fn get(&self, channel: &NameBuf) -> Option<&'a [NameBuf]>
        ensures { option_copied result ≡ at_name self.now channel.now }
    {
        match self.by_name.get(channel) {
            Some(names) => Some(names.as_slice()),
            None => None,
        }
    }

    /// How many channels the client is in.
    pub fn len(&self) -> usize
        ensures { result ≡ length self.now }
    {
        self.by_name.len()
    }

    /// The name of the channel with `k` of them before it, in the order of the bytes of names; None where there
    /// are no more than `k`.
    pub fn name_at(&self, k: usize) -> Option<&'a NameBuf>
        ensures name { option_copied result ≡ slice_get (keys_of self.now) k }
        ensures ordered { IsStrictlySortedBy name_cmp (keys_of self.now) }
    {
        match self.by_name.iter().nth(k) {
            Some((name, _)) => Some(name),
            None => None,
        }
    }
}

/// The channels that the client is in, whose changes can be taken back.
pub struct UndoableChannels {
    alloc: Global,
    by_name: NotedMap<NameBuf, Names, NamesWere>,
}

impl Drop for UndoableChannels {
    /// Who lets channels go calls this, and need not know what they are made of.
    fn drop(self) {
        let UndoableChannels { alloc: _, by_name } = self;
        drop(by_name);
    }
}

impl Model for UndoableChannels {
    ghost use Rattle.noted_map.specs.Undoable.{Undoable};
    ghost use Rattle.channel_book.specs.Channels.{Channels};

    ghost Value = { Undoable Channels };

    ghost view = { λ c. c.by_name };
}

impl UndoableChannels {
    /// In no channel, and nothing is noted. It takes no memory yet.
    pub fn new(alloc: Global) -> UndoableChannels
        ensures now { result.now ≡ [] }
        ensures before { result.before ≡ [] }
        ensures noting { result.noting ≡ false }
    {
        UndoableChannels {
            alloc,
            by_name: NotedMap::new(alloc),
        }
    }

    /// The channels as they are now.
    pub fn channels(&self) -> Channels<'_>
        ensures { result ≡ self.now.now }
    {
        Channels {
            by_name: self.by_name.entries(),
        }
    }

    /// The client joins a channel, of whose names it knows none yet. Where memory is refused, nothing changes.
    pub fn open(&mut self, alloc: Global, channel: NameBuf) -> Result<(), AllocError>
        ensures ok { OnOk result (Changes (λ channels. put_name channels channel []) self.old self.new) }
        ensures err { OnErr result (self.new ≡ self.old) }
    {
        self.by_name.put(channel, Names::new(alloc))
    }

    /// Names of those who are in a channel, behind those that are known. Where memory is refused, nothing changes.
    pub fn add_all(&mut self, channel: &NameBuf, names: NameList) -> Result<(), AllocError>
        ensures ok { OnOk result (Changes (λ channels.
            change_name channels channel.now (at_end names)) self.old self.new) }
        ensures err { OnErr result (self.new ≡ self.old) }
    {
        self.by_name.edit(channel, NamesChange::AddAll(names))
    }

    /// One joins a channel. Where memory is refused, nothing changes.
    pub fn add(&mut self, channel: &NameBuf, name: NameBuf) -> Result<(), AllocError>
        ensures ok { OnOk result (Changes (λ channels.
            change_name channels channel.now (at_end (name ∷ []))) self.old self.new) }
        ensures err { OnErr result (self.new ≡ self.old) }
    {
        self.by_name.edit(channel, NamesChange::Add(name))
    }

    /// One leaves a channel. Where memory is refused, nothing changes.
    pub fn remove(&mut self, channel: &NameBuf, name: &NameBuf) -> Result<(), AllocError>
        ensures ok { OnOk result (Changes (λ channels.
            change_name channels channel.now (all_but name.now)) self.old self.new) }
        ensures err { OnErr result (self.new ≡ self.old) }
    {
        let leaves = NamesChange::Remove {
            name,
            alloc: self.alloc,
        };
        self.by_name.edit(channel, leaves)
    }

    /// The client leaves a channel. Where memory is refused, nothing changes.
    pub fn close(&mut self, channel: &NameBuf) -> Result<(), AllocError>
        ensures ok { OnOk result (Changes (λ channels. without_name channels channel.now) self.old self.new) }
        ensures err { OnErr result (self.new ≡ self.old) }
    {
        self.by_name.remove(channel)
    }

    /// From now on changes are noted.
    pub fn begin(&mut self)
        ensures now { self.new.now ≡ self.old.now }
        ensures before { self.new.before ≡ self.old.now }
        ensures noting { self.new.noting ≡ true }
    {
        self.by_name.begin();
    }

    /// The changes stay, and no more are noted.
    pub fn settle(&mut self)
        ensures now { self.new.now ≡ self.old.now }
        ensures noting { self.new.noting ≡ false }
    {
        self.by_name.settle();
    }

    /// The channels are again as they were when noting began, and changes are not noted any more.
    pub fn take_back(&mut self)
        ensures now { self.new.now ≡ self.old.before }
        ensures noting { self.new.noting ≡ false }
    {
        self.by_name.take_back();
    }
}
