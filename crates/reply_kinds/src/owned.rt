//! Copies of what arguments keep, for who keeps it longer.

ghost use Rattle.std.specs.Prelude.{◌≡◌, IfOk};

use crate::kept::{Country, Name, Names, NextSentence, Opened, Pairs, Sentence, Word, Words};
use crate::opened_battle::OpenedBattle;
use line_words::{KeyBuf, NameBuf, NameList, Pair, PairList, SentenceBuf, WordBuf, WordList};
use std::alloc::{AllocError, Global};

impl<'a> Name<'a> {
    /// A copy of the name, which takes no memory.
    pub fn to_name(&self) -> NameBuf
        ensures { result ≡ self.now }
    {
        self.get().copy()
    }
}

impl<'a> Word<'a> {
    /// A copy of the word. Fails only where memory is refused.
    pub fn to_word(&self, alloc: Global) -> Result<WordBuf, AllocError>
        ensures { IfOk result (λ word. word ≡ self.now) }
    {
        WordBuf::copy_of(alloc, self.get().as_slice())
    }
}

impl<'a> Country<'a> {
    /// A copy of the country, which is a word. Fails only where memory is refused.
    pub fn to_word(&self, alloc: Global) -> Result<WordBuf, AllocError>
        ensures { IfOk result (λ word. word ≡ self.now) }
    {
        WordBuf::copy_of(alloc, self.as_slice())
    }
}

impl<'a> Sentence<'a> {
    /// A copy of the sentence. Fails only where memory is refused.
    pub fn to_sentence(&self, alloc: Global) -> Result<SentenceBuf, AllocError>
        ensures { IfOk result (λ sentence. sentence ≡ self.now) }
    {
        SentenceBuf::copy_of(alloc, self.get().as_slice())
    }
}

impl<'a> NextSentence<'a> {
    /// A copy of the sentence. Fails only where memory is refused.
    pub fn to_sentence(&self, alloc: Global) -> Result<SentenceBuf, AllocError>
        ensures { IfOk result (λ sentence. sentence ≡ self.now) }
    {
        SentenceBuf::copy_of(alloc, self.get().as_slice())
    }
}

impl<'a> Names<'a> {
    /// A copy of the names. Fails only where memory is refused.
    pub fn to_list(&self, alloc: Global) -> Result<NameList, AllocError>
        ensures { IfOk result (λ names. names ≡ self.now) }
    {
        let (names, last) = self.parts();
        let mut copied = copied_names(alloc, names)?;
        if let Some(last) = last {
            copied.push(last.copy())?;
        }
        Ok(NameList::new(copied))
    }
}

impl<'a> Words<'a> {
    /// A copy of the words. Fails only where memory is refused.
    pub fn to_list(&self, alloc: Global) -> Result<WordList, AllocError>
        ensures { IfOk result (λ words. words ≡ self.now) }
    {
        Ok(WordList::new(copied_words(alloc, self.as_slice())?))
    }
}

impl<'a> Pairs<'a> {
    /// A copy of the script tags. Fails only where memory is refused.
    pub fn to_list(&self, alloc: Global) -> Result<PairList, AllocError>
        ensures { IfOk result (λ pairs. pairs ≡ self.now) }
    {
        Ok(PairList::new(copied_pairs(alloc, self.as_slice())?))
    }
}

impl<'a> Opened<'a> {
    /// A copy of what is told. Fails only where memory is refused.
    pub fn to_opened(&self, alloc: Global) -> Result<OpenedBattle, AllocError>
        ensures { IfOk result (λ opened. opened ≡ self.now) }
    {
        let opened = self.get();
        Ok(OpenedBattle {
            battle_type: opened.battle_type,
            nat_type: opened.nat_type,
            founder: opened.founder.copy(),
            ip: WordBuf::copy_of(alloc, opened.ip.as_slice())?,
            port: opened.port,
            max_players: opened.max_players,
            passworded: opened.passworded,
            rank: opened.rank,
            map_hash: opened.map_hash,
            engine_name: SentenceBuf::copy_of(alloc, opened.engine_name.as_slice())?,
            engine_version: SentenceBuf::copy_of(alloc, opened.engine_version.as_slice())?,
            map: SentenceBuf::copy_of(alloc, opened.map.as_slice())?,
            title: SentenceBuf::copy_of(alloc, opened.title.as_slice())?,
            game_name: SentenceBuf::copy_of(alloc, opened.game_name.as_slice())?,
        })
    }
}

fn copied_names(alloc: Global, names: &[NameBuf]) -> Result<Vec<NameBuf>, AllocError>
    ensures { IfOk result (λ copied. copied.items ≡ names.now) }
{
    let mut copied = Vec::new(alloc);
    for name in names {
        copied.push(name.copy())?;
    }
    Ok(copied)
}

fn copied_words(alloc: Global, words: &[WordBuf]) -> Result<Vec<WordBuf>, AllocError>
    ensures { IfOk result (λ copied. copied.items ≡ words.now) }
{
    let mut copied = Vec::new(alloc);
    for word in words {
        copied.push(WordBuf::copy_of(alloc, word.as_slice())?)?;
    }
    Ok(copied)
}

fn copied_pairs(alloc: Global, pairs: &[Pair]) -> Result<Vec<Pair>, AllocError>
    ensures { IfOk result (λ copied. copied.items ≡ pairs.now) }
{
    let mut copied = Vec::new(alloc);
    for pair in pairs {
        copied.push(copied_pair(alloc, pair)?)?;
    }
    Ok(copied)
}

fn copied_pair(alloc: Global, pair: &Pair) -> Result<Pair, AllocError>
    ensures { IfOk result (λ copied. copied ≡ pair.now) }
{
    Ok(Pair {
        key: KeyBuf::copy_of(alloc, pair.key.as_slice())?,
        value: SentenceBuf::copy_of(alloc, pair.value.as_slice())?,
    })
}
