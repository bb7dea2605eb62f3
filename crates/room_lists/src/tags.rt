//! The script tags of a room.

ghost use Rattle.std.specs.Prelude.{◌≡◌, not, [], OnOk, OnErr, IfOk, IfSome, is_some};
ghost use Rattle.room_lists.specs.Room.{has_too_many_tags};
ghost use Rattle.room_lists.specs.Tags as tags;

use crate::hash_seed::HashSeed;
use crate::keyed::KeyedList;
use line_words::{Pair, PairList, WordBuf, WordList};
use std::alloc::{AllocError, Global};
use std::marker::Model;

/// The most script tags of a room. The options of a game and of a map and a few tags for each player come to
/// less. There is a limit because a room keeps its tags in memory and who joins is sent them all.
pub const TAG_LIMIT: usize = 512;

/// Script tags in order of first setting, no two of one key. They may be more than `TAG_LIMIT`: the rules
/// of a room ask `has_room_for` before they set any.
///
/// A look-up by key takes the same time however many there are. The index has a copy of each key.
#[derive(Drop)]
pub struct Tags {
    tags: KeyedList<Pair>,
}

impl Model for Tags {
    ghost use Rattle.std.specs.Prelude.{List};
    ghost use Rattle.line_words.specs.declared.lists.Pair.{Pair};

    ghost Value = { List Pair };

    ghost view = { λ t. t.tags };
}

impl Tags {
    /// No tags, whose keys are hashed by this seed. It takes no memory yet.
    pub fn new(alloc: Global, seed: HashSeed) -> Tags
        ensures { result ≡ [] }
    {
        Tags {
            tags: KeyedList::new(alloc, seed),
        }
    }

    /// A copy. Fails only where memory is refused.
    pub fn copy(&self, alloc: Global) -> Result<Tags, AllocError>
        ensures { IfOk result (λ copy. copy ≡ self.now) }
    {
        Ok(Tags {
            tags: self.tags.copy(alloc)?,
        })
    }

    /// The tags, in order of first setting.
    pub fn as_slice(&self) -> &[Pair]
        ensures { result.now ≡ self.now }
    {
        self.tags.as_slice()
    }

    /// Whether there would be at most 512 tags (`TAG_LIMIT`), if these were set.
    pub fn has_room_for(&self, pairs: &[Pair]) -> bool
        ensures { result ≡ not (has_too_many_tags (tags.with_tags self.now pairs.now)) }
    {
        self.tags.has_room_for(pairs, TAG_LIMIT)
    }

    /// The last of these pairs of each key, in the order of their first ones; None where there would be more
    /// than 512 tags (`TAG_LIMIT`), if these were set. To set the last alone comes to the same. Fails only
    /// where memory is refused.
    pub fn last_pairs(&self, alloc: Global, pairs: &[Pair]) -> Result<Option<PairList>, AllocError>
        ensures last { IfOk result (λ last. IfSome last (λ last. last ≡ tags.with_tags [] pairs.now)) }
        ensures alike { IfOk result (λ last.
            IfSome last (λ last. tags.with_tags self.now last ≡ tags.with_tags self.now pairs.now)) }
        ensures room { IfOk result (λ last.
            is_some last ≡ not (has_too_many_tags (tags.with_tags self.now pairs.now))) }
    {
        match self.tags.last_items(alloc, pairs, TAG_LIMIT)? {
            Some(last) => Ok(Some(PairList::new(last))),
            None => Ok(None),
        }
    }

    /// Sets tags one by one: a key that is set keeps its place and has the new value, another comes last.
    /// However many there are then, it fails only where memory is refused, and then nothing changes.
    pub fn put(&mut self, alloc: Global, pairs: PairList) -> Result<(), AllocError>
        ensures ok { OnOk result (self.new ≡ tags.with_tags self.old pairs) }
        ensures err { OnErr result (self.new ≡ self.old) }
    {
        self.tags.put(alloc, pairs.into_vec())
    }

    /// Removes the tags of these keys. Keys that are not set change nothing.
    pub fn remove(&mut self, keys: &[WordBuf])
        ensures { self.new ≡ tags.without_tags self.old keys.now }
    {
        self.tags.remove(keys);
    }

    /// Those of the keys that are set, each once, in the order of the list of keys. To remove them alone
    /// comes to the same. Fails only where memory is refused.
    pub fn keys_there(&self, alloc: Global, keys: &[WordBuf]) -> Result<WordList, AllocError>
        ensures there { IfOk result (λ there. there ≡ tags.keys_there self.now keys.now) }
        ensures alike { IfOk result (λ there. tags.without_tags self.now there ≡ tags.without_tags self.now keys.now) }
    {
        self.tags.keys_there(alloc, keys)
    }
}
