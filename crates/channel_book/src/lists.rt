//! The members of the channels, by the channels' names.

ghost use Rattle.std.specs.Prelude.{◌≡◌, ◌^◌, ◌<◌, ℕ, List, [], length, slice_get, option_copied, OnOk, OnErr, false};
ghost use Rattle.std.specs.List.Sorted.{IsStrictlySortedBy};
ghost use Rattle.std.specs.Map.{keys_of};
ghost use Rattle.std.specs.Map.Iter.{ShowsInOrder, deref_pair};
ghost use Rattle.line_words.specs.Table.{name_cmp, is_among};
ghost use Rattle.channel_book.specs.Channels.{names_in, names_of, joined, left, all_left};
ghost use Rattle.channel_book.specs.Book.{AreLively};
ghost use Rattle.channel_book.specs.Places.{left_each};

use crate::members::Members;
use line_words::NameBuf;
use std::alloc::{AllocError, Global};
use std::collections::btree_map::Iter;
use std::collections::{BTreeMap, BTreeSet};
use std::marker::Model;

/// The members of each channel, in the order of the bytes of the channels' names. A channel is there
/// while somebody is in it.
#[derive(Drop)]
pub struct Lists<M: Copy = ()> {
    alloc: Global,
    channels: BTreeMap<NameBuf, Members<M>>,
}

impl<M: Copy> Model for Lists<M> {
    ghost use Rattle.channel_book.specs.Channels.{Channels};
    ghost use Rattle.channel_book.specs.Book.{AreLively};

    ghost Value = { Channels };

    ghost view = { λ l. l.channels.entries };

    ghost invariant = { λ l. AreLively l.channels.entries };
}

impl<M: Copy> Lists<M> {
    /// No channel. It takes no memory yet.
    pub fn new(alloc: Global) -> Lists<M>
        ensures { result ≡ [] }
    {
        Lists {
            alloc,
            channels: BTreeMap::new(alloc),
        }
    }

    /// A user who is not in a channel joins it under a key. Where memory is refused, nothing changes. The names of
    /// channels rose.
    pub fn add(&mut self, channel: NameBuf, user: NameBuf, key: M) -> Result<(), AllocError>
        requires { is_among user (names_in self.old channel) ≡ false }
        ensures ok { OnOk result (self.new ≡ joined channel user self.old) }
        ensures err { OnErr result (self.new ≡ self.old) }
        ensures ordered { IsStrictlySortedBy name_cmp (keys_of self.old) }
    {
        if let Some(members) = self.channels.get_mut(&channel) {
            members.add(self.alloc, user, key)?;
            return Ok(());
        }
        let members = Members::one(self.alloc, user, key)?;
        self.channels.insert(channel, members)?;
        Ok(())
    }

    /// A user is in a channel no more. Where it is not in it, nothing changes. The names of channels rose.
    pub fn remove(&mut self, channel: &NameBuf, user: &NameBuf)
        ensures left { self.new ≡ left channel.now user.now self.old }
        ensures ordered { IsStrictlySortedBy name_cmp (keys_of self.old) }
    {
        if let Some(members) = self.channels.get_mut(channel) {
            if !members.remove(user) {
                let _ = self.channels.remove(channel);
            }
        }
    }

    /// A user leaves every channel, by a walk over all.
    pub fn remove_from_all(&mut self, user: &NameBuf)
        ensures { self.new ≡ all_left user.now self.old }
    {
        self.channels.retain(|_, members| members.remove(user));
    }

    /// A user leaves those of the channels that are named.
    pub fn remove_each(&mut self, channels: &BTreeSet<NameBuf>, user: &NameBuf)
        ensures { self.new ≡ left_each user.now channels.now.keys self.old }
    {
        for channel in channels {
            self.remove(channel, user);
        }
    }

    /// The members of a channel, where there is one of that name.
    pub fn get(&self, channel: &NameBuf) -> Option<&Members<M>>
        ensures { names_of (option_copied result) ≡ names_in self.now channel.now }
    {
        self.channels.get(channel)
    }

    /// How many channels there are. Each has a member, and their names rise.
    pub fn len(&self) -> usize
        ensures count { result ≡ length self.now }
        ensures lively { AreLively self.now }
        ensures ordered { IsStrictlySortedBy name_cmp (keys_of self.now) }
    {
        self.channels.len()
    }

    /// The name of the channel with `k` channels before it.
    pub fn name_at(&self, k: usize) -> Option<&NameBuf>
        ensures { option_copied result ≡ slice_get (keys_of self.now) k }
    {
        self.channels.keys().nth(k)
    }

    /// The channels and their members.
    pub fn iter(&self) -> Iter<'_, NameBuf, Members<M>>
        ensures rest { result ≡ self.now }
        ensures runs { ShowsInOrder (deref_pair {K = List ℕ} {X = List (List ℕ)}) }
        ensures ordered { IsStrictlySortedBy name_cmp (keys_of self.now) }
        ensures fits { length self.now < 2 ^ 63 }
    {
        self.channels.iter()
    }
}
