//! Items that are found by their keys, as the script tags and the disabled units of a room are.

ghost use Rattle.std.specs.Prelude.{◌≡◌, ◌<◌, ◌≤◌, ◌^◌, ℕ, List, Vec, not, nat_lt, map, filter, length, [], true};
ghost use Rattle.std.specs.Prelude.{false, OnOk, OnErr, IfOk, IfSome, is_some};
ghost use Rattle.room_lists.specs.Keyed as keyed;
ghost use Rattle.room_lists.specs.Units.{words_new};
ghost use Rattle.line_words.specs.Table.{is_among};

use crate::hash_seed::HashSeed;
use crate::names::is_same;
use indexmap::{IndexMap, IndexSet};
use line_words::{KeyBuf, Pair, SentenceBuf, WordBuf, WordList};
use std::alloc::{AllocError, Global};
use std::marker::Model;

/// An item that is found by its key. It is kept as that key and what there is beside it.
pub trait Keyed: Drop {
    /// What is kept beside the key.
    type Kept: Drop;

    ghost key_of: { Self → List ℕ };

    // The item that is kept so.
    ghost whole: { List ℕ → Self.Kept → Self };

    /// The key.
    fn key(&self) -> &WordBuf
        ensures { result.now ≡ key_of self.now };

    /// A copy. Fails only where memory is refused.
    fn copy(&self, alloc: Global) -> Result<Self, AllocError>
        ensures { IfOk result (λ copy. copy ≡ self.now) };

    /// The key, and what is kept beside it. Fails only where memory is refused.
    fn into_entry(self, alloc: Global) -> Result<(WordBuf, Self::Kept), AllocError>
        ensures whole { IfOk result (λ entry. whole entry.0 entry.1 ≡ self) }
        ensures key { IfOk result (λ entry. entry.0 ≡ key_of self) };

    /// The items that are kept.
    fn items(index: &IndexMap<WordBuf, Self::Kept, HashSeed>) -> &[Self]
        ensures { result.now ≡ map (λ entry. whole entry.0 entry.1) index.now.entries };
}

/// A tag is kept whole, behind a copy of its key.
impl Keyed for Pair {
    type Kept = Pair;

    ghost key_of = { λ pair. pair.key };

    ghost whole = { λ key pair. pair };

    fn key(&self) -> &WordBuf {
        self.key.as_word()
    }

    fn copy(&self, alloc: Global) -> Result<Pair, AllocError> {
        Ok(Pair {
            key: KeyBuf::copy_of(alloc, self.key.as_slice())?,
            value: SentenceBuf::copy_of(alloc, self.value.as_slice())?,
        })
    }

    fn into_entry(self, alloc: Global) -> Result<(WordBuf, Pair), AllocError> {
        let key = WordBuf::copy_of(alloc, self.key.as_word().as_slice())?;
        Ok((key, self))
    }

    fn items(index: &IndexMap<WordBuf, Pair, HashSeed>) -> &[Pair] {
        index.values().as_slice()
    }
}

/// A word is its own key.
impl Keyed for WordBuf {
    type Kept = ();

    ghost key_of = { λ word. word };

    ghost whole = { λ word kept. word };

    fn key(&self) -> &WordBuf {
        self
    }

    fn copy(&self, alloc: Global) -> Result<WordBuf, AllocError> {
        WordBuf::copy_of(alloc, self.as_slice())
    }

    fn into_entry(self, _alloc: Global) -> Result<(WordBuf, ()), AllocError> {
        Ok((self, ()))
    }

    fn items(index: &IndexMap<WordBuf, (), HashSeed>) -> &[WordBuf] {
        index.keys().as_slice()
    }
}

/// Items in order of first putting, no two of one key.
///
/// A look-up takes the same time however many there are.
#[derive(Drop)]
pub struct KeyedList<T: Keyed> {
    by_key: IndexMap<WordBuf, T::Kept, HashSeed>,
}

impl<T: Keyed> Model for KeyedList<T> {
    ghost use Rattle.std.specs.Prelude.{List, ℕ};
    ghost use Rattle.room_lists.specs.Index.{AreApart};
    ghost use Rattle.room_lists.specs.Keyed.{items_of, AreKept};

    ghost Value = { List T };

    ghost view = { λ l. items_of T.whole l.by_key.entries };

    // Each item stands behind its own key, and no key stands twice.
    ghost invariant = { λ l. AreKept T.key_of T.whole l.by_key.entries × AreApart l.by_key.entries };
}

/// So few keys are looked for one by one, since an index costs a walk of all items.
const FEW_KEYS: usize = 8;

/// An index of keys.
fn index_of(
    alloc: Global,
    seed: HashSeed,
    keys: &[WordBuf],
) -> Result<IndexSet<&WordBuf, HashSeed>, AllocError>
    ensures { IfOk result (λ index. (key : List ℕ)
        → is_among key (map (λ key. key.now) index.keys) ≡ is_among key keys.now) }
{
    let mut index = IndexSet::with_capacity_and_hasher(alloc, keys.len(), seed)?;
    for key in keys {
        let _ = index.insert(key)?;
    }
    Ok(index)
}

/// Whether a key is among those of items.
fn has_key<T: Keyed>(key: &WordBuf, items: &[T]) -> bool
    ensures { result ≡ keyed.has_key T.key_of key.now items.now }
{
    items
        .iter()
        .any(|item| is_same(key.as_slice(), item.key().as_slice()))
}

/// Each item as it is kept.
fn entries_of<T: Keyed>(alloc: Global, items: Vec<T>) -> Result<Vec<(WordBuf, T::Kept)>, AllocError>
    ensures items { IfOk result (λ entries. keyed.items_of T.whole entries.items ≡ items.items) }
    ensures keys { IfOk result (λ entries. keyed.AreKept T.key_of T.whole entries.items) }
{
    let mut entries = Vec::with_capacity(alloc, items.len())?;
    for item in items {
        let entry = item.into_entry(alloc)?;
        entries.push(entry)?;
    }
    Ok(entries)
}

/// Copies of items.
fn copies_of<T: Keyed>(alloc: Global, items: &[T]) -> Result<Vec<T>, AllocError>
    ensures { IfOk result (λ copies. copies.items ≡ items.now) }
{
    let mut copies = Vec::with_capacity(alloc, items.len())?;
    for item in items {
        copies.push(item.copy(alloc)?)?;
    }
    Ok(copies)
}

/// Copies of items that are lent one by one.
pub(crate) fn copies_of_lent<T: Keyed>(alloc: Global, items: &[&T]) -> Result<Vec<T>, AllocError>
    ensures { IfOk result (λ copies. copies.items ≡ map (λ item. item.now) items.now) }
{
    let mut copies = Vec::with_capacity(alloc, items.len())?;
    for item in items {
        copies.push(item.copy(alloc)?)?;
    }
    Ok(copies)
}

impl<T: Keyed> KeyedList<T> {
    /// No items, whose keys are hashed by this seed. It takes no memory yet.
    pub fn new(alloc: Global, seed: HashSeed) -> KeyedList<T>
        ensures { result ≡ [] }
    {
        KeyedList {
            by_key: IndexMap::with_hasher(alloc, seed),
        }
    }

    /// The items.
    pub fn as_slice(&self) -> &[T]
        ensures { result.now ≡ self.now }
    {
        T::items(&self.by_key)
    }

    /// A copy. Fails only where memory is refused.
    pub fn copy(&self, alloc: Global) -> Result<KeyedList<T>, AllocError>
        ensures { IfOk result (λ copy. copy ≡ self.now) }
    {
        let items = copies_of(alloc, self.as_slice())?;
        let mut copy = KeyedList::new(alloc, *self.by_key.hasher());
        copy.put(alloc, items)?;
        Ok(copy)
    }

    /// Whether an item of this key is there.
    fn has(&self, key: &WordBuf) -> bool
        ensures { result ≡ keyed.has_key T.key_of key.now self.now }
    {
        self.by_key.contains_key(key)
    }

    /// Where the item of this key stands, from 0 on; None where it is not there.
    fn place_of(&self, key: &WordBuf) -> Option<usize>
        ensures there { is_some result ≡ keyed.has_key T.key_of key.now self.now }
        ensures place { IfSome result (λ place.
            (place < length self.now) × (place ≡ keyed.place_of T.key_of key.now self.now)) }
    {
        self.by_key.get_index_of(key)
    }

    /// Whether there would be at most `limit` items, if these were put. Where memory for an index of those
    /// that are new is refused, it walks for each of them those before it.
    pub fn has_room_for(&self, items: &[T], limit: usize) -> bool
        requires { limit < 2 ^ 63 }
        ensures { result ≡ not (nat_lt limit (length (keyed.with_items T.key_of self.now items.now))) }
    {
        if self.has_ample_room_for(items, limit) {
            return true;
        }
        match self.new_items(*self.by_key.allocator(), items, limit) {
            Ok(new) => new.is_some(),
            Err(AllocError) => self.has_room_for_distinct(items, limit),
        }
    }

    /// Whether there is room even if each item whose key is not there yet is counted, also where its key
    /// stands twice. That is one look-up an item, takes no memory, and nearly always it is so.
    fn has_ample_room_for(&self, items: &[T], limit: usize) -> bool
        requires { limit < 2 ^ 63 }
        ensures { result ≡ true → length (keyed.with_items T.key_of self.now items.now) ≤ limit }
    {
        let mut most = self.by_key.len();
        for item in items {
            if most > limit {
                return false;
            }
            if !self.has(item.key()) {
                most += 1;
            }
        }
        most <= limit
    }

    /// Whether there is room if each key is counted once. For each item whose key is not there yet that
    /// is a walk of those before it, so that it takes no memory.
    fn has_room_for_distinct(&self, items: &[T], limit: usize) -> bool
        requires { limit < 2 ^ 63 }
        ensures { result ≡ not (nat_lt limit (length (keyed.with_items T.key_of self.now items.now))) }
    {
        let mut count = self.by_key.len();
        for k in 0..items.len() {
            if count > limit {
                return false;
            }
            let key = items[k].key();
            if !self.has(key) && !has_key(key, &items[..k]) {
                count += 1;
            }
        }
        count <= limit
    }

    /// The items whose keys are not there, the first of each key, in their order; None where there would be
    /// more than `limit` items, if these were put. Fails only where memory is refused.
    pub fn new_items<'a>(
        &self,
        alloc: Global,
        items: &'a [T],
        limit: usize,
    ) -> Result<Option<Vec<&'a T>>, AllocError>
        requires { limit < 2 ^ 63 }
        ensures new { IfOk result (λ new.
            IfSome new (λ firsts. map (λ first. T.key_of first.now) firsts.items
            ≡ words_new (map T.key_of self.now) (map T.key_of items.now))) }
        ensures room { IfOk result (λ new.
            is_some new ≡ not (nat_lt limit (length (keyed.with_items T.key_of self.now items.now)))) }
    {
        match limit.checked_sub(self.by_key.len()) {
            Some(most) => self.firsts_new(alloc, items, most),
            None => Ok(None),
        }
    }

    /// Copies of the last item of each key, in the order of their first ones; None where there would be more than
    /// `limit` items, if these were put. One look-up an item, and one for each key, and an index of those.
    /// Fails only where memory is refused, and asks for none where the list is full.
    pub fn last_items(
        &self,
        alloc: Global,
        items: &[T],
        limit: usize,
    ) -> Result<Option<Vec<T>>, AllocError>
        requires { limit < 2 ^ 63 }
        ensures last { IfOk result (λ last. IfSome last (λ last. last.items ≡ keyed.with_items T.key_of [] items.now)) }
        ensures room { IfOk result (λ last.
            is_some last ≡ not (nat_lt limit (length (keyed.with_items T.key_of self.now items.now)))) }
    {
        let Some(most) = limit.checked_sub(self.by_key.len()) else {
            return Ok(None);
        };
        let capacity = items.len().min(limit);
        let mut last = IndexMap::with_capacity_and_hasher(alloc, capacity, *self.by_key.hasher())?;
        let mut new = 0;
        for item in items {
            let key = item.key();
            if last.insert(key, item)?.is_none() && !self.has(key) {
                if new >= most {
                    return Ok(None);
                }
                new += 1;
            }
        }
        Ok(Some(copies_of_lent(alloc, last.values().as_slice())?))
    }

    /// Puts items. Where memory is refused, nothing changes.
    pub fn put(&mut self, alloc: Global, items: Vec<T>) -> Result<(), AllocError>
        ensures ok { OnOk result (self.new ≡ keyed.with_items T.key_of self.old items.items) }
        ensures err { OnErr result (self.new ≡ self.old) }
    {
        let entries = entries_of(alloc, items)?;
        self.by_key.reserve(entries.len())?;
        for (key, kept) in entries {
            self.by_key.insert(key, kept)?; // there is room
        }
        Ok(())
    }

    /// Removes the items of these keys. Many are removed in one walk by an index of the keys; where memory
    /// for that is refused, they go one by one.
    pub fn remove(&mut self, keys: &[WordBuf])
        ensures { self.new ≡ keyed.without_keys T.key_of self.old keys.now }
    {
        if keys.len() <= FEW_KEYS {
            self.remove_each(keys);
            return;
        }
        match index_of(*self.by_key.allocator(), *self.by_key.hasher(), keys) {
            Ok(index) => self.remove_indexed(&index),
            Err(AllocError) => self.remove_each(keys),
        }
    }

    /// Removes the items of the keys of an index, in one walk of all items.
    fn remove_indexed(&mut self, index: &IndexSet<&WordBuf, HashSeed>)
        ensures { self.new ≡ filter (λ item.
            not (is_among (T.key_of item) (map (λ key. key.now) index.now.keys))) self.old }
    {
        self.by_key.retain(
            |key: &WordBuf, kept: &mut T::Kept| -> bool
                ensures { (result ≡ not (is_among key.now (map (λ key. key.now) index.entry.now.keys)))
                    × (kept.new ≡ kept.old) }
            { !index.contains(&key) },
        );
    }

    /// Removes the items of these keys one by one, each of which moves the items behind it.
    fn remove_each(&mut self, keys: &[WordBuf])
        ensures { self.new ≡ keyed.without_keys T.key_of self.old keys.now }
    {
        for key in keys {
            let _ = self.by_key.shift_remove(key);
        }
    }

    /// Removes all items.
    pub fn clear(&mut self)
        ensures { self.new ≡ [] }
    {
        self.by_key.clear();
    }

    /// Those of the keys that are there, each once.
    pub fn keys_there(&self, alloc: Global, keys: &[WordBuf]) -> Result<WordList, AllocError>
        ensures { IfOk result (λ there. there ≡ keyed.keys_there T.key_of self.now keys.now) }
    {
        let firsts = self.firsts_there(alloc, keys)?;
        Ok(WordList::new(copies_of_lent(alloc, &firsts)?))
    }

    /// Each of the keys that is there, once, in the order of the list of keys. One look-up a key: where it
    /// stands says whether it was met before.
    fn firsts_there<'a>(
        &self,
        alloc: Global,
        keys: &'a [WordBuf],
    ) -> Result<Vec<&'a WordBuf>, AllocError>
        ensures { IfOk result (λ firsts. map (λ first. first.now) firsts.items
            ≡ keyed.keys_there T.key_of self.now keys.now) }
    {
        let mut is_met = Vec::from_elem(alloc, false, self.by_key.len())?;
        let mut firsts = Vec::new(alloc);
        for key in keys {
            if let Some(place) = self.place_of(key)
                && !is_met[place]
            {
                is_met[place] = true;
                firsts.push(key)?;
            }
        }
        Ok(firsts)
    }

    /// The first item of each key that is not there, in their order; None where these are more than `most`.
    /// One look-up an item, one for each key, and an index of those.
    fn firsts_new<'a>(
        &self,
        alloc: Global,
        items: &'a [T],
        most: usize,
    ) -> Result<Option<Vec<&'a T>>, AllocError>
        ensures { IfOk result (keyed.AreFirsts T.key_of most
            (words_new (map T.key_of self.now) (map T.key_of items.now))) }
    {
        let distinct = items.len().min(self.by_key.len().saturating_add(most));
        let mut seen = IndexSet::with_capacity_and_hasher(alloc, distinct, *self.by_key.hasher())?;
        let mut firsts = Vec::new(alloc);
        for item in items {
            let key = item.key();
            if seen.insert(key)? && !self.has(key) {
                if firsts.len() >= most {
                    return Ok(None);
                }
                firsts.push(item)?;
            }
        }
        Ok(Some(firsts))
    }
}
