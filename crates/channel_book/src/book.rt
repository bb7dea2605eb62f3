//! The channels by their names.

ghost use Rattle.std.specs.Prelude.{◌≡◌, ◌≢◌, ◌↔◌, ◌<◌, ◌^◌, ℕ, List, [], length, slice_get, option_copied, IsTrue};
ghost use Rattle.std.specs.Prelude.{OnOk, OnErr, IfErr, Err, false};
ghost use Rattle.std.specs.List.{IsDistinct};
ghost use Rattle.std.specs.List.Sorted.{IsStrictlySortedBy};
ghost use Rattle.std.specs.Map.{keys_of};
ghost use Rattle.std.specs.Map.Iter.{ShowsInOrder, deref_pair};
ghost use Rattle.line_words.specs.Table.{name_cmp, same_name, is_among};
ghost use Rattle.channel_book.specs.Channels.{names_in, names_of, channels_of, joined, left, all_left};
ghost use Rattle.channel_book.specs.Book.{AreLively};
ghost use Rattle.channel_book.specs.Places.{listed};

use crate::error::ChannelError;
use crate::lists::Lists;
use crate::members::Members;
use crate::places::Places;
use line_words::NameBuf;
use std::alloc::{AllocError, Global};
use std::collections::BTreeSet;
use std::collections::btree_map::Iter;
use std::marker::Model;

/// One who is in more than one of so many channels leaves by a walk over all, so no more than so many are looked at for
/// each of its own.
const WALKED: usize = 4;

/// The channels of a lobby by their names, and in each the names of its members in order of
/// joining. A channel is there while somebody is in it.
///
/// Beside each name the book keeps a key, a value of the caller's own. The book does not read it, and
/// its contracts say nothing of it. A book whose callers have no use for keys keeps none: `M` is `()`.
///
/// It keeps an index of the channels of each user, so that what it costs to leave all grows with the user's own
/// channels alone.
pub struct ChannelBook<M: Copy = ()> {
    lists: Lists<M>,
    places: Places,
}

impl<M: Copy> Drop for ChannelBook<M> {
    /// Who lets a book go calls this, and need not know what it is made of.
    fn drop(self) {
        let ChannelBook { lists, places } = self;
        drop(lists);
        drop(places);
    }
}

impl<M: Copy> Model for ChannelBook<M> {
    ghost use Rattle.std.specs.Prelude.{◌≡◌};
    ghost use Rattle.channel_book.specs.Channels.{Channels};
    ghost use Rattle.channel_book.specs.Places.{places_in, places_of};

    ghost Value = { Channels };

    ghost view = { λ b. b.lists };

    // A user's channels in the index are just those whose members it is among.
    ghost invariant = { λ b. places_of b.places.by_user.entries ≡ places_in b.lists };
}

impl ChannelBook {
    /// Not run by the server, which uses `with_keys`: a book without channels and without keys. It takes no memory
    /// yet.
    pub fn new(alloc: Global) -> ChannelBook
        ensures { result ≡ [] }
    {
        ChannelBook::with_keys(alloc)
    }

    /// Not run by the server, which uses `add_member`: a user joins a channel, behind those who are in it. The first
    /// who joins makes the channel.
    ///
    /// `AlreadyIn` where the user is in it, else `Memory` where memory for one more is refused.
    /// The names of a refused call are let go, and the book stays as it was.
    pub fn join(&mut self, channel: NameBuf, user: NameBuf) -> Result<(), ChannelError>
        ensures ok { OnOk result (self.new ≡ joined channel user self.old) }
        ensures already { (result ≡ Err ChannelError.AlreadyIn) ↔ IsTrue (is_among user (names_in self.old channel)) }
        ensures errors { IfErr result (λ e. e ≢ ChannelError.Memory → e ≡ ChannelError.AlreadyIn) }
        ensures err { OnErr result (self.new ≡ self.old) }
    {
        if self.has_member(&channel, &user) {
            return Err(ChannelError::AlreadyIn);
        }
        match self.add_member(channel, user, ()) {
            Ok(()) => Ok(()),
            Err(AllocError) => Err(ChannelError::Memory),
        }
    }
}

impl<M: Copy> ChannelBook<M> {
    /// A book without channels, for members with keys. It takes no memory yet.
    pub fn with_keys(alloc: Global) -> ChannelBook<M>
        ensures { result ≡ [] }
    {
        ChannelBook {
            lists: Lists::new(alloc),
            places: Places::new(alloc),
        }
    }

    /// A user who is not in a channel joins it under a key, behind those who are in it; the first makes
    /// the channel. Fails only where memory is refused; then nothing changes.
    pub fn add_member(&mut self, channel: NameBuf, user: NameBuf, key: M) -> Result<(), AllocError>
        requires { is_among user (names_in self.old channel) ≡ false }
        ensures ok { OnOk result (self.new ≡ joined channel user self.old) }
        ensures err { OnErr result (self.new ≡ self.old) }
    {
        let (place, member) = (channel.copy(), user.copy());
        self.places.add(&place, &member)?;
        if let Err(refused) = self.lists.add(channel, user, key) {
            self.places.remove(&place, &member);
            return Err(refused);
        }
        Ok(())
    }

    /// Not run by the server, which uses `remove_member`: a user leaves a channel, which goes with the last of its
    /// members.
    ///
    /// `NotIn` where the user is not in it: the book stays as it was.
    pub fn leave(&mut self, channel: &NameBuf, user: &NameBuf) -> Result<(), ChannelError>
        ensures ok { OnOk result (self.new ≡ left channel.now user.now self.old) }
        ensures not_in { (result ≡ Err ChannelError.NotIn)
            ↔ (is_among user.now (names_in self.old channel.now) ≡ false) }
        ensures errors { IfErr result (λ e. e ≡ ChannelError.NotIn) }
        ensures err { OnErr result (self.new ≡ self.old) }
    {
        if !self.has_member(channel, user) {
            return Err(ChannelError::NotIn);
        }
        self.remove_member(channel, user);
        Ok(())
    }

    /// A user is in a channel no more, which goes with the last of its members. Where the user is not in it,
    /// nothing changes.
    pub fn remove_member(&mut self, channel: &NameBuf, user: &NameBuf)
        ensures { self.new ≡ left channel.now user.now self.old }
    {
        self.lists.remove(channel, user);
        self.places.remove(channel, user);
    }

    /// A user leaves every channel. Channels go with the last of their members. The others are not looked
    /// at, unless the user is in more than a quarter of all.
    pub fn leave_all(&mut self, user: &NameBuf)
        ensures { self.new ≡ all_left user.now self.old }
    {
        let count = self.lists.len();
        if let Some(channels) = self.places.take(user) {
            if channels.len() > count / WALKED {
                self.lists.remove_from_all(user);
            } else {
                self.lists.remove_each(&channels, user);
            }
        }
    }

    /// The members of a channel in order of joining, and their keys; nobody, where there is none of that
    /// name. No contract speaks of the keys.
    pub fn roster(&self, channel: &NameBuf) -> (&[NameBuf], &[M])
        ensures names { result.0.now ≡ names_in self.now channel.now }
        ensures distinct { IsDistinct same_name result.0.now }
    {
        match self.lists.get(channel) {
            Some(members) => (members.as_slice(), members.keys()),
            None => (&[], &[]),
        }
    }

    /// The members of a channel in order of joining; nobody, where there is none of that name.
    pub fn names_in(&self, channel: &NameBuf) -> &[NameBuf]
        ensures names { result.now ≡ names_in self.now channel.now }
        ensures distinct { IsDistinct same_name result.now }
    {
        self.roster(channel).0
    }

    /// The keys of the members of a channel, in the order of joining; none, where there is none of that name.
    /// No contract speaks of them.
    pub fn keys_in(&self, channel: &NameBuf) -> &[M] {
        self.roster(channel).1
    }

    /// The members of a channel; None where there is none of that name.
    pub fn members_in(&self, channel: &NameBuf) -> Option<&Members<M>>
        ensures { names_of (option_copied result) ≡ names_in self.now channel.now }
    {
        self.lists.get(channel)
    }

    /// The names of the channels that a user is in, in the order of their bytes; None where it is in none.
    pub fn channels_of(&self, user: &NameBuf) -> Option<&BTreeSet<NameBuf>>
        ensures { listed (option_copied result) ≡ keys_of (channels_of user.now self.now) }
    {
        self.places.get(user)
    }

    /// Whether a user is in a channel.
    pub fn has_member(&self, channel: &NameBuf, user: &NameBuf) -> bool
        ensures { result ≡ is_among user.now (names_in self.now channel.now) }
    {
        match self.members_in(channel) {
            Some(members) => members.has_member(user),
            None => false,
        }
    }

    /// Not run by the server, which uses `roster`: how many are in a channel; 0 where there is none of that name.
    pub fn member_count(&self, channel: &NameBuf) -> usize
        ensures { result ≡ length (names_in self.now channel.now) }
    {
        self.names_in(channel).len()
    }

    /// Not run by the server, which uses `roster`: the member with `k` of the members of a channel before it, in
    /// order of joining; None where there are no more than `k`.
    pub fn member_at(&self, channel: &NameBuf, k: usize) -> Option<&NameBuf>
        ensures { option_copied result ≡ slice_get (names_in self.now channel.now) k }
    {
        self.names_in(channel).get(k)
    }

    /// How many channels there are. Each has a member, and their names rise.
    pub fn channel_count(&self) -> usize
        ensures count { result ≡ length self.now }
        ensures lively { AreLively self.now }
        ensures ordered { IsStrictlySortedBy name_cmp (keys_of self.now) }
    {
        self.lists.len()
    }

    /// Not run by the server, which uses `iter`: the name of the channel with `k` channels before it, where
    /// `channel_count` says in which order names stand; None where there are no more than `k`.
    pub fn channel_at(&self, k: usize) -> Option<&NameBuf>
        ensures { option_copied result ≡ slice_get (keys_of self.now) k }
    {
        self.lists.name_at(k)
    }

    /// The channels and their members, in the order of the bytes of the channels' names.
    pub fn iter(&self) -> Iter<'_, NameBuf, Members<M>>
        ensures rest { result ≡ self.now }
        ensures runs { ShowsInOrder (deref_pair {K = List ℕ} {X = List (List ℕ)}) }
        ensures ordered { IsStrictlySortedBy name_cmp (keys_of self.now) }
        ensures fits { length self.now < 2 ^ 63 }
    {
        self.lists.iter()
    }
}

impl<'a, M: Copy> IntoIterator for &'a ChannelBook<M> {
    ghost use Rattle.std.specs.Prelude.{◌≡◌, ◌^◌, ◌<◌, ℕ, List, length};
    ghost use Rattle.std.specs.List.Sorted.{IsStrictlySortedBy};
    ghost use Rattle.std.specs.Map.{keys_of};
    ghost use Rattle.std.specs.Map.Iter.{ShowsInOrder, deref_pair};
    ghost use Rattle.line_words.specs.Table.{name_cmp};

    type Item = (&'a NameBuf, &'a Members<M>);

    type IntoIter = Iter<'a, NameBuf, Members<M>>;

    ghost into_iter_gives = { λ book r. (r ≡ book.now) × (length book.now < 2 ^ 63)
        × ShowsInOrder (deref_pair {K = List ℕ} {X = List (List ℕ)}) × IsStrictlySortedBy name_cmp (keys_of book.now) };

    fn into_iter(self) -> Iter<'a, NameBuf, Members<M>> {
        self.iter()
    }
}
