//! Arguments that are lists. A list is checked whole before any of it is copied, so that a fault takes
//! no memory.

ghost use Rattle.std.specs.Prelude.{◌≡◌, ◌==◌, Err, IfErr, IfNone, IfOk, IfSome, IsTrue, Ok, OnOk, is_ok};
ghost use Rattle.std.specs.List.{list_all};
ghost use Rattle.line_words.specs.Bytes.{is_key, is_sentence, is_text};
ghost use Rattle.line_words.specs.Sentences.{between_tabs};
ghost use Rattle.command_grammar.specs.declared.command.ReadFault.TheVariants as fault;
ghost use Rattle.command_grammar.specs.Readers.{is_pair_or_empty, pair, pair_in, pair_of, pairs_of, words_at};

use crate::arguments::has_tab;
use crate::command::ReadFault;
use line_words::{
    KeyBuf, Pair, PairList, SentenceBuf, WordBuf, WordList, Words, is_key, split_at_byte,
    split_sentences,
};
use std::alloc::{AllocError, Global};

/// Whether the sentences of the text are pairs, empty ones aside, and at least one.
#[tactic(auto, using(crate::proofs::Checks::bad_pairs, crate::proofs::Checks::no_pairs, crate::proofs::Checks::some_pairs))]
pub(crate) fn check_pairs(text: &[u8]) -> Result<(), ReadFault>
    ensures ok { OnOk result (IsTrue (is_ok (pairs_of text.now))) }
    ensures err { IfErr result (λ fault. pairs_of text.now ≡ Err fault) }
{
    if !has_only_pairs(text) {
        return Err(ReadFault::BadPair);
    }
    if has_only_tabs(text) {
        return Err(ReadFault::MissingArgument);
    }
    Ok(())
}

fn has_only_pairs(text: &[u8]) -> bool
    ensures { result ≡ list_all is_pair_or_empty (between_tabs text.now) }
{
    split_sentences(text).all(|sentence| sentence.is_empty() || is_pair(sentence))
}

fn has_only_tabs(text: &[u8]) -> bool
    ensures { result ≡ list_all (λ b. b == 9) text.now }
{
    text.iter().all(|b| *b == b'\t')
}

fn is_pair(sentence: &[u8]) -> bool
    ensures { result ≡ is_ok (pair_in sentence.now) }
{
    pair_in(sentence).is_some()
}

/// The key and the value of a pair.
#[tactic(auto, unfolding(crate::specs::Readers::pair_in), using(crate::proofs::Slices::sentence_behind))]
fn pair_in(sentence: &[u8]) -> Option<(&[u8], &[u8])>
    ensures some { IfSome result (λ x. pair_in sentence.now ≡ Ok (pair x.0.now x.1.now)) }
    ensures none { IfNone result (pair_in sentence.now ≡ Err fault.BadPair) }
    ensures key { IfSome result (λ x. IsTrue (is_key x.0.now)) }
    ensures value { IfSome result (λ x. IsTrue (is_sentence sentence.now)
        → IsTrue (is_sentence x.1.now)) }
{
    let (key, behind) = split_at_byte(sentence, b'=');
    pair_of(key, behind)
}

fn pair_of<'a>(key: &'a [u8], behind: &'a [u8]) -> Option<(&'a [u8], &'a [u8])>
    ensures some { IfSome result (λ x. pair_of key.entry.now behind.entry.now
        ≡ Ok (pair x.0.now x.1.now)) }
    ensures none { IfNone result (pair_of key.entry.now behind.entry.now ≡ Err fault.BadPair) }
    ensures key { IfSome result (λ x. IsTrue (is_key x.0.now)) }
    ensures value { IfSome result (λ x. IsTrue (is_sentence behind.entry.now)
        → IsTrue (is_sentence x.1.now)) }
{
    match behind {
        [] => None,
        [_, value @ ..] => {
            if !is_key(key) {
                return None;
            }
            Some((key, value))
        }
    }
}

/// A copy of the pairs of a text that was checked.
pub(crate) fn copy_of_pairs(alloc: Global, text: &[u8]) -> Result<PairList, AllocError>
    requires text { IsTrue (is_text text.now) }
    requires pairs { IsTrue (is_ok (pairs_of text.now)) }
    ensures { IfOk result (λ pairs. pairs_of text.now ≡ Ok pairs) }
{
    let mut pairs = Vec::new(alloc);
    let mut sentences = split_sentences(text);
    while let Some(sentence) = sentences.next() {
        if let Some((key, value)) = pair_in(sentence) {
            pairs.push(copy_of_pair(alloc, key, value)?)?;
        }
    }
    Ok(PairList::new(pairs))
}

fn copy_of_pair(alloc: Global, key: &[u8], value: &[u8]) -> Result<Pair, AllocError>
    requires key { IsTrue (is_key key.now) }
    requires value { IsTrue (is_sentence value.now) }
    ensures { IfOk result (λ copy. copy ≡ pair key.now value.now) }
{
    Ok(Pair {
        key: KeyBuf::copy_of(alloc, key)?,
        value: SentenceBuf::copy_of(alloc, value)?,
    })
}

/// Whether the rest has words, and no tab in one of them.
#[tactic(auto, unfolding(crate::specs::Readers::words_at), using(crate::proofs::Checks::no_words_at, crate::proofs::Checks::some_words_at))]
pub(crate) fn check_words(rest: &[u8]) -> Result<(), ReadFault>
    ensures ok { OnOk result (IsTrue (is_ok (words_at rest.now))) }
    ensures err { IfErr result (λ fault. words_at rest.now ≡ Err fault) }
{
    if has_tab(rest) {
        return Err(ReadFault::BadByte);
    }
    match Words::new(rest).next_word() {
        Some(_) => Ok(()),
        None => Err(ReadFault::MissingArgument),
    }
}

/// A copy of the words of a rest that was checked.
pub(crate) fn copy_of_words(alloc: Global, rest: &[u8]) -> Result<WordList, AllocError>
    requires text { IsTrue (is_text rest.now) }
    requires words { IsTrue (is_ok (words_at rest.now)) }
    ensures { IfOk result (λ words. words_at rest.now ≡ Ok words) }
{
    let mut words = Vec::new(alloc);
    let mut left = Words::new(rest);
    while let Some(word) = left.next_word() {
        words.push(WordBuf::copy_of(alloc, word)?)?;
    }
    Ok(WordList::new(words))
}
