//! The arguments: how a field of each type is read. What is read is owned.

ghost use Rattle.std.specs.Prelude.{◌≡◌};
ghost use Rattle.reply_grammar.specs.Reading.{field};
ghost use Rattle.reply_fields.specs.Fields.{Gives};
ghost use Rattle.reply_kinds.specs.Kinds as kinds;
ghost use Rattle.reply_kinds.specs.Kinds.{Kind, Value};
ghost use Rattle.reply_kinds.specs.Replies.{battle_number, port_number, status_word};

use crate::{
    ReadError, battle_at, flag_at, name_at, names_at, optional_at, pairs_at, sentence_at, small_at,
    text_at, u16_at, u32_at, wide_at, word_at, words_at,
};
use reply_kinds::{
    BattleNumber, Country, Held, HeldNames, HeldPairs, HeldText, HeldWord, HeldWords, Name, Names,
    NextSentence, Pairs, Sentence, Text, UpTo, Wide, Word, Words,
};
use std::alloc::Global;

/// An argument that can be read: it, and the bytes behind it.
pub(crate) trait Readable: Sized + Drop {
    ghost kind: { Kind };

    ghost value: { Self → Value kind };

    fn read(alloc: Global, bytes: &[u8]) -> Result<(Self, &[u8]), ReadError>
        ensures { Gives (λ x. (value x.0, x.1.now)) result (field kind bytes.now) };
}

impl Readable for Name<'static> {
    ghost kind = { kinds.Name };

    ghost value = { λ x. x };

    fn read(alloc: Global, bytes: &[u8]) -> Result<(Name<'static>, &[u8]), ReadError> {
        let (name, rest) = name_at(alloc, bytes)?;
        Ok((Name(Held::Owned(name)), rest))
    }
}

impl Readable for Word<'static> {
    ghost kind = { kinds.Word };

    ghost value = { λ x. x };

    fn read(alloc: Global, bytes: &[u8]) -> Result<(Word<'static>, &[u8]), ReadError> {
        let (word, rest) = word_at(alloc, bytes)?;
        Ok((Word(Held::Owned(word)), rest))
    }
}

impl Readable for Country<'static> {
    ghost kind = { kinds.Word };

    ghost value = { λ x. x };

    fn read(alloc: Global, bytes: &[u8]) -> Result<(Country<'static>, &[u8]), ReadError> {
        let (word, rest) = word_at(alloc, bytes)?;
        Ok((Country(HeldWord::Owned(word)), rest))
    }
}

impl Readable for Option<Word<'static>> {
    ghost kind = { kinds.OptionalWord };

    ghost value = { λ x. x };

    fn read(alloc: Global, bytes: &[u8]) -> Result<(Option<Word<'static>>, &[u8]), ReadError> {
        let (word, rest) = optional_at(alloc, bytes)?;
        match word {
            None => Ok((None, rest)),
            Some(word) => Ok((Some(Word(Held::Owned(word))), rest)),
        }
    }
}

impl Readable for Words<'static> {
    ghost kind = { kinds.Words };

    ghost value = { λ x. x };

    fn read(alloc: Global, bytes: &[u8]) -> Result<(Words<'static>, &[u8]), ReadError> {
        let (words, rest) = words_at(alloc, bytes)?;
        Ok((Words(HeldWords::Owned(words)), rest))
    }
}

impl Readable for Names<'static> {
    ghost kind = { kinds.Names };

    ghost value = { λ x. x };

    fn read(alloc: Global, bytes: &[u8]) -> Result<(Names<'static>, &[u8]), ReadError> {
        let (names, rest) = names_at(alloc, bytes)?;
        Ok((Names(HeldNames::Owned(names)), rest))
    }
}

impl Readable for Sentence<'static> {
    ghost kind = { kinds.Sentence };

    ghost value = { λ x. x };

    fn read(alloc: Global, bytes: &[u8]) -> Result<(Sentence<'static>, &[u8]), ReadError> {
        let (sentence, rest) = sentence_at(alloc, bytes, b' ')?;
        Ok((Sentence(Held::Owned(sentence)), rest))
    }
}

impl Readable for NextSentence<'static> {
    ghost kind = { kinds.NextSentence };

    ghost value = { λ x. x };

    fn read(alloc: Global, bytes: &[u8]) -> Result<(NextSentence<'static>, &[u8]), ReadError> {
        let (sentence, rest) = sentence_at(alloc, bytes, b'\t')?;
        Ok((NextSentence(Held::Owned(sentence)), rest))
    }
}

impl Readable for Text<'static> {
    ghost kind = { kinds.Text };

    ghost value = { λ x. x };

    fn read(alloc: Global, bytes: &[u8]) -> Result<(Text<'static>, &[u8]), ReadError> {
        let (text, rest) = text_at(alloc, bytes)?;
        Ok((Text(HeldText::Owned(text)), rest))
    }
}

impl Readable for Pairs<'static> {
    ghost kind = { kinds.Pairs };

    ghost value = { λ x. x };

    fn read(alloc: Global, bytes: &[u8]) -> Result<(Pairs<'static>, &[u8]), ReadError> {
        let (pairs, rest) = pairs_at(alloc, bytes)?;
        Ok((Pairs(HeldPairs::Owned(pairs)), rest))
    }
}

impl Readable for BattleNumber {
    ghost kind = { battle_number };

    ghost value = { λ x. x };

    fn read(_alloc: Global, bytes: &[u8]) -> Result<(BattleNumber, &[u8]), ReadError> {
        let (number, rest) = battle_at(bytes)?;
        Ok((BattleNumber(number), rest))
    }
}

impl<const HIGH: u8> Readable for UpTo<HIGH> {
    ghost kind = { kinds.Number 0 HIGH };

    ghost value = { λ x. x };

    fn read(_alloc: Global, bytes: &[u8]) -> Result<(UpTo<HIGH>, &[u8]), ReadError> {
        let (number, rest) = small_at(bytes, HIGH)?;
        Ok((UpTo(number), rest))
    }
}

impl Readable for u16 {
    ghost kind = { port_number };

    ghost value = { λ x. x };

    fn read(_alloc: Global, bytes: &[u8]) -> Result<(u16, &[u8]), ReadError> {
        u16_at(bytes)
    }
}

impl Readable for u32 {
    ghost kind = { status_word };

    ghost value = { λ x. x };

    fn read(_alloc: Global, bytes: &[u8]) -> Result<(u32, &[u8]), ReadError> {
        u32_at(bytes)
    }
}

impl Readable for usize {
    ghost kind = { status_word };

    ghost value = { λ x. x };

    fn read(_alloc: Global, bytes: &[u8]) -> Result<(usize, &[u8]), ReadError> {
        let (count, rest) = u32_at(bytes)?;
        Ok((count as usize, rest))
    }
}

impl Readable for Wide {
    ghost kind = { kinds.Wide };

    ghost value = { λ x. x };

    fn read(_alloc: Global, bytes: &[u8]) -> Result<(Wide, &[u8]), ReadError> {
        let (number, rest) = wide_at(bytes)?;
        Ok((Wide(number), rest))
    }
}

impl Readable for bool {
    ghost kind = { kinds.Flag };

    ghost value = { λ x. x };

    fn read(_alloc: Global, bytes: &[u8]) -> Result<(bool, &[u8]), ReadError> {
        flag_at(bytes)
    }
}
