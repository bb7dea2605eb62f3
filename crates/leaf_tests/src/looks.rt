//! How often keys are looked at, where many are asked for: in proportion to them. No contract says it.

ghost use Rattle.std.specs.Prelude.{◌≡◌, IfOk};

use indexmap::IndexMap;
use line_words::WordBuf;
use room_lists::{HashSeed, Keyed, KeyedList};
use std::alloc::{AllocError, Global};
use std::cell::Cell;
use std::marker::Model;
use std::test::*;

/// A word that counts how often it is looked at. Contracts see the word.
#[derive(Drop)]
struct Looked {
    word: WordBuf,
    looks: Cell<u64>,
}

impl Model for Looked {
    ghost use Rattle.std.specs.Prelude.{List, ℕ};

    ghost Value = { List ℕ };

    ghost view = { λ l. l.word };
}

/// It is kept whole, behind a copy of its word.
impl Keyed for Looked {
    type Kept = Looked;

    ghost key_of = { λ looked. looked };

    ghost whole = { λ word looked. looked };

    fn key(&self) -> &WordBuf {
        self.looks.set(self.looks.get().wrapping_add(1));
        &self.word
    }

    fn copy(&self, alloc: Global) -> Result<Looked, AllocError> {
        Ok(Looked {
            word: WordBuf::copy_of(alloc, self.word.as_slice())?,
            looks: Cell::new(self.looks.get()),
        })
    }

    fn into_entry(self, alloc: Global) -> Result<(WordBuf, Looked), AllocError> {
        let word = WordBuf::copy_of(alloc, self.word.as_slice())?;
        Ok((word, self))
    }

    fn items(index: &IndexMap<WordBuf, Looked, HashSeed>) -> &[Looked] {
        index.values().as_slice()
    }
}

fn word(alloc: Global, front: &str, number: u32) -> Option<WordBuf> {
    let text = format!(in alloc; "{front}{number}").ok()?;
    WordBuf::of(Vec::from_slice(alloc, text.as_bytes()).ok()?)
}

/// So many words that begin alike, the second half of them the same.
fn words(alloc: Global, front: &str, count: u32) -> Option<Vec<WordBuf>> {
    let mut words = Vec::new(alloc);
    for place in 0..count {
        words.push(word(alloc, front, place.min(count / 2))?).ok()?;
    }
    Some(words)
}

/// The same words, each looked at by nobody yet.
fn to_look_at(alloc: Global, words: &[WordBuf]) -> Option<Vec<Looked>> {
    let mut looked = Vec::new(alloc);
    for word in words {
        let word = WordBuf::copy_of(alloc, word.as_slice()).ok()?;
        let looks = Cell::new(0);
        looked.push(Looked { word, looks }).ok()?;
    }
    Some(looked)
}

/// How often they were looked at.
fn looks_of(words: &[Looked]) -> u64 {
    let mut looks: u64 = 0;
    for word in words {
        looks = looks.wrapping_add(word.looks.get());
    }
    looks
}

/// Asks a list for room for so many words, for one place too few and for enough, which of them are new, which are the
/// last, and which are there.
fn ask(
    alloc: Global,
    list: &KeyedList<Looked>,
    keys: &[WordBuf],
    words: &[Looked],
) -> Result<(), AllocError> {
    let most = words.len() / 2;
    let _ = list.has_room_for(words, most);
    let _ = list.has_room_for(words, most + 1);
    drop(list.new_items(alloc, words, most + 1)?);
    drop(list.last_items(alloc, words, most + 1)?);
    drop(list.keys_there(alloc, keys)?);
    Ok(())
}

/// Asks for all that a change of tags or units asks, and puts the words where they are new. Gives how often they and
/// those of the list were looked at; None where memory is refused.
fn looks_at_words(
    alloc: Global,
    list: &mut KeyedList<Looked>,
    keys: &[WordBuf],
    are_new: bool,
) -> Option<u64> {
    let words = to_look_at(alloc, keys)?;
    let asked = ask(alloc, list, keys, &words);
    let looks = looks_of(&words).wrapping_add(looks_of(list.as_slice()));
    let put = if are_new {
        list.put(alloc, words)
    } else {
        drop(words);
        Ok(())
    };
    asked.and(put).ok().map(|()| looks)
}

/// Asks while the words are new and while they are known, and removes others.
fn looks_of_a_list(
    list: &mut KeyedList<Looked>,
    alloc: Global,
    keys: &[WordBuf],
    others: &[WordBuf],
) -> Option<u64> {
    let new = looks_at_words(alloc, list, keys, true)?;
    list.remove(others);
    Some(new.wrapping_add(looks_at_words(alloc, list, keys, false)?))
}

fn looks_at(alloc: Global, count: u32) -> Option<u64> {
    let keys = words(alloc, "unit", count)?;
    let others = words(alloc, "other", count)?;
    let mut list = KeyedList::new(alloc, HashSeed::known());
    let looks = looks_of_a_list(&mut list, alloc, &keys, &others);
    drop(list);
    looks
}

#[test]
fn twice_the_words_take_twice_the_looks(rt: HostRuntime) -> Result<(), Fail> {
    let few = looks_at(rt.alloc(), 500).unwrap_or(0);
    let many = looks_at(rt.alloc(), 1_000).unwrap_or(0);
    assert!(rt; few >= 1_000 && few < 1_000_000 && many > few && many <= 2 * few + 100);
    Ok(())
}
