//! The disabled units of a room.

ghost use Rattle.std.specs.Prelude.{◌≡◌, not, [], OnOk, OnErr, IfOk, IfSome, is_some};
ghost use Rattle.room_lists.specs.Room.{has_too_many_units};
ghost use Rattle.room_lists.specs.Units as units;

use crate::hash_seed::HashSeed;
use crate::keyed::{KeyedList, copies_of_lent};
use line_words::{WordBuf, WordList};
use std::alloc::{AllocError, Global};
use std::marker::Model;

/// The most disabled units of a room. A game has some hundred units, seldom a thousand, so that a founder
/// can disable nearly all. There is a limit because who joins is sent a line for each: with names of a game
/// that are some 20 kB.
pub const UNIT_LIMIT: usize = 1024;

/// Units in order of first disabling, none of them twice. They may be more than `UNIT_LIMIT`: the rules of
/// a room ask `has_room_for` before they disable any.
///
/// A look-up takes the same time however many there are. Each word lies in memory once.
#[derive(Drop)]
pub struct Units {
    units: KeyedList<WordBuf>,
}

impl Model for Units {
    ghost use Rattle.std.specs.Prelude.{List, ℕ};

    ghost Value = { List (List ℕ) };

    ghost view = { λ u. u.units };
}

impl Units {
    /// No units, whose words are hashed by this seed. It takes no memory yet.
    pub fn new(alloc: Global, seed: HashSeed) -> Units
        ensures { result ≡ [] }
    {
        Units {
            units: KeyedList::new(alloc, seed),
        }
    }

    /// A copy. Fails only where memory is refused.
    pub fn copy(&self, alloc: Global) -> Result<Units, AllocError>
        ensures { IfOk result (λ copy. copy ≡ self.now) }
    {
        Ok(Units {
            units: self.units.copy(alloc)?,
        })
    }

    /// The units, in order of first disabling.
    pub fn as_slice(&self) -> &[WordBuf]
        ensures { result.now ≡ self.now }
    {
        self.units.as_slice()
    }

    /// Whether there would be at most 1,024 units (`UNIT_LIMIT`), if these were disabled.
    pub fn has_room_for(&self, words: &[WordBuf]) -> bool
        ensures { result ≡ not (has_too_many_units (units.with_units self.now words.now)) }
    {
        self.units.has_room_for(words, UNIT_LIMIT)
    }

    /// Units are disabled: one that is keeps its place, another comes last. However many there are then, it
    /// fails only where memory is refused, and then nothing changes.
    pub fn put(&mut self, alloc: Global, words: WordList) -> Result<(), AllocError>
        ensures ok { OnOk result (self.new ≡ units.with_units self.old words) }
        ensures err { OnErr result (self.new ≡ self.old) }
    {
        self.units.put(alloc, words.into_vec())
    }

    /// Units are enabled again. Words that are no disabled units change nothing.
    pub fn remove(&mut self, words: &[WordBuf])
        ensures { self.new ≡ units.without_units self.old words.now }
    {
        self.units.remove(words);
    }

    /// No unit is disabled any more.
    pub fn clear(&mut self)
        ensures { self.new ≡ [] }
    {
        self.units.clear();
    }

    /// Those of the words that are no disabled units, each once, in the order of the list of words; None
    /// where there would be more than 1,024 units (`UNIT_LIMIT`), if these were disabled. To disable them
    /// alone comes to the same. Fails only where memory is refused.
    pub fn words_new(
        &self,
        alloc: Global,
        words: &[WordBuf],
    ) -> Result<Option<WordList>, AllocError>
        ensures new { IfOk result (λ new. IfSome new (λ new. new ≡ units.words_new self.now words.now)) }
        ensures alike { IfOk result (λ new.
            IfSome new (λ new. units.with_units self.now new ≡ units.with_units self.now words.now)) }
        ensures room { IfOk result (λ new.
            is_some new ≡ not (has_too_many_units (units.with_units self.now words.now))) }
    {
        match self.units.new_items(alloc, words, UNIT_LIMIT)? {
            Some(new) => Ok(Some(WordList::new(copies_of_lent(alloc, &new)?))),
            None => Ok(None),
        }
    }

    /// Those of the words that are disabled units, each once, in the order of the list of words. To enable
    /// them alone comes to the same. Fails only where memory is refused.
    pub fn words_there(&self, alloc: Global, words: &[WordBuf]) -> Result<WordList, AllocError>
        ensures there { IfOk result (λ there. there ≡ units.words_there self.now words.now) }
        ensures alike { IfOk result (λ there.
            units.without_units self.now there ≡ units.without_units self.now words.now) }
    {
        self.units.keys_there(alloc, words)
    }
}
