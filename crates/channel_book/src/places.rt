//! The channels of each user.

ghost use Rattle.std.specs.Prelude.{◌≡◌, [], OnOk, OnErr, option_copied};
ghost use Rattle.channel_book.specs.Places.{listed, places_of, with_place, without_place, without_user};

use indexmap::IndexMap;
use line_words::NameBuf;
use std::alloc::{AllocError, Global};
use std::collections::BTreeSet;

/// The names of the channels that each user is in, in the order of their bytes. Who is in none has no
/// set here.
///
/// A user is found in the same time however many there are, and however many channels.
#[derive(Drop)]
pub struct Places {
    alloc: Global,
    by_user: IndexMap<NameBuf, BTreeSet<NameBuf>>,
}

impl Places {
    /// Nobody is in a channel. It takes no memory yet.
    pub fn new(alloc: Global) -> Places
        ensures { result.by_user.entries ≡ [] }
    {
        Places {
            alloc,
            by_user: IndexMap::new(alloc),
        }
    }

    /// One channel more of a user's. Where memory is refused, nothing changes.
    pub fn add(&mut self, channel: &NameBuf, user: &NameBuf) -> Result<(), AllocError>
        ensures ok { OnOk result (places_of self.new.by_user.entries
            ≡ with_place channel.now user.now (places_of self.old.by_user.entries)) }
        ensures err { OnErr result (places_of self.new.by_user.entries ≡ places_of self.old.by_user.entries) }
    {
        if let Some(names) = self.by_user.get_mut(user) {
            names.insert(channel.copy())?;
            return Ok(());
        }
        let mut names = BTreeSet::new(self.alloc);
        names.insert(channel.copy())?;
        self.by_user.insert(user.copy(), names)?;
        Ok(())
    }

    /// A channel is no more one of a user's. With its last one goes the memory that was its own.
    pub fn remove(&mut self, channel: &NameBuf, user: &NameBuf)
        ensures { places_of self.new.by_user.entries
            ≡ without_place channel.now user.now (places_of self.old.by_user.entries) }
    {
        if let Some(names) = self.by_user.get_mut(user) {
            let _ = names.remove(channel);
            if names.is_empty() {
                let _ = self.by_user.swap_remove(user);
            }
        }
    }

    /// All channels of a user, who then has none.
    pub fn take(&mut self, user: &NameBuf) -> Option<BTreeSet<NameBuf>>
        ensures names { listed result ≡ places_of self.old.by_user.entries user.now }
        ensures rest { places_of self.new.by_user.entries ≡ without_user user.now (places_of self.old.by_user.entries) }
    {
        self.by_user.swap_remove(user)
    }

    /// The channels of a user; None where it has none.
    pub fn get(&self, user: &NameBuf) -> Option<&BTreeSet<NameBuf>>
        ensures { listed (option_copied result) ≡ places_of self.now.by_user.entries user.now }
    {
        self.by_user.get(user)
    }
}
