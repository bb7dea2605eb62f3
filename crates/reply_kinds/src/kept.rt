//! The kinds of argument that take memory, each lent or owned. Contracts see what is kept, and so does who
//! makes one: `Name(Held::Lent(name))` is the name.

ghost use Rattle.std.specs.Prelude.{◌≡◌, IsTrue, option_copied};
ghost use Rattle.line_words.specs.Bytes.{is_word};
ghost use Rattle.reply_kinds.specs.Keeping.{with_last};

use crate::held::{Held, HeldNames, HeldOpened, HeldPairs, HeldText, HeldWord, HeldWords};
use crate::opened_battle::OpenedBattle;
use line_words::{NameBuf, Pair, SentenceBuf, WordBuf};
use std::marker::Model;

/// A name: 1 to 20 ASCII letters, digits, `_`, `[` and `]`.
#[derive(Drop)]
pub struct Name<'a>(pub Held<'a, NameBuf>);

impl<'a> Model for Name<'a> {
    ghost use Rattle.std.specs.Prelude.{List, ℕ};

    ghost Value = { List ℕ };

    ghost use Rattle.reply_kinds.specs.Keeping.{kept};

    ghost view = { λ x. kept x.0 };
}

impl<'a> Name<'a> {
    /// The name.
    #[inline(always)]
    pub fn get(&self) -> &NameBuf
        ensures { result.now ≡ self.now }
    {
        match &self.0 {
            Held::Lent(name) => name,
            Held::Owned(name) => name,
        }
    }
}

/// A word: one or more bytes other than space, tab, CR and LF.
#[derive(Drop)]
pub struct Word<'a>(pub Held<'a, WordBuf>);

impl<'a> Model for Word<'a> {
    ghost use Rattle.std.specs.Prelude.{List, ℕ};

    ghost Value = { List ℕ };

    ghost use Rattle.reply_kinds.specs.Keeping.{kept};

    ghost view = { λ x. kept x.0 };
}

impl<'a> Word<'a> {
    /// The word.
    pub fn get(&self) -> &WordBuf
        ensures { result.now ≡ self.now }
    {
        match &self.0 {
            Held::Lent(word) => word,
            Held::Owned(word) => word,
        }
    }
}

/// A sentence: zero or more bytes other than tab, CR and LF.
#[derive(Drop)]
pub struct Sentence<'a>(pub Held<'a, SentenceBuf>);

impl<'a> Model for Sentence<'a> {
    ghost use Rattle.std.specs.Prelude.{List, ℕ};

    ghost Value = { List ℕ };

    ghost use Rattle.reply_kinds.specs.Keeping.{kept};

    ghost view = { λ x. kept x.0 };
}

impl<'a> Sentence<'a> {
    /// The sentence.
    pub fn get(&self) -> &SentenceBuf
        ensures { result.now ≡ self.now }
    {
        match &self.0 {
            Held::Lent(sentence) => sentence,
            Held::Owned(sentence) => sentence,
        }
    }
}

/// A sentence behind another one, parted from it by a tab.
#[derive(Drop)]
pub struct NextSentence<'a>(pub Held<'a, SentenceBuf>);

impl<'a> Model for NextSentence<'a> {
    ghost use Rattle.std.specs.Prelude.{List, ℕ};

    ghost Value = { List ℕ };

    ghost use Rattle.reply_kinds.specs.Keeping.{kept};

    ghost view = { λ x. kept x.0 };
}

impl<'a> NextSentence<'a> {
    /// The sentence.
    pub fn get(&self) -> &SentenceBuf
        ensures { result.now ≡ self.now }
    {
        match &self.0 {
            Held::Lent(sentence) => sentence,
            Held::Owned(sentence) => sentence,
        }
    }
}

/// A country as ADDUSER tells it, which is a word.
#[derive(Drop)]
pub struct Country<'a>(pub HeldWord<'a>);

impl<'a> Model for Country<'a> {
    ghost use Rattle.std.specs.Prelude.{List, ℕ};

    ghost Value = { List ℕ };

    ghost use Rattle.reply_kinds.specs.Keeping.{word_of};

    ghost view = { λ x. word_of x.0 };
}

impl<'a> Country<'a> {
    /// The bytes.
    pub fn as_slice(&self) -> &[u8]
        ensures value { result.now ≡ self.now }
        ensures kind { IsTrue (is_word result.now) }
    {
        match &self.0 {
            HeldWord::Lent(word) => word.as_slice(),
            HeldWord::Owned(word) => word.as_slice(),
        }
    }
}

/// A text: zero or more bytes other than CR and LF.
#[derive(Drop)]
pub struct Text<'a>(pub HeldText<'a>);

impl<'a> Model for Text<'a> {
    ghost use Rattle.std.specs.Prelude.{List, ℕ};

    ghost Value = { List ℕ };

    ghost use Rattle.reply_kinds.specs.Keeping.{text_of};

    ghost view = { λ x. text_of x.0 };
}

impl<'a> Text<'a> {
    /// The bytes.
    #[inline(always)]
    pub fn as_slice(&self) -> &[u8]
        ensures { result.now ≡ self.now }
    {
        match &self.0 {
            HeldText::Fixed(text) => text.as_slice(),
            HeldText::Lent(text) => text.as_slice(),
            HeldText::Owned(text) => text.as_slice(),
        }
    }
}

/// Names.
#[derive(Drop)]
pub struct Names<'a>(pub HeldNames<'a>);

impl<'a> Model for Names<'a> {
    ghost use Rattle.std.specs.Prelude.{List, ℕ};

    ghost Value = { List (List ℕ) };

    ghost use Rattle.reply_kinds.specs.Keeping.{names_of};

    ghost view = { λ x. names_of x.0 };
}

impl<'a> Names<'a> {
    /// The names: those that lie side by side, and the one behind them, where it lies elsewhere.
    pub fn parts(&self) -> (&[NameBuf], Option<&NameBuf>)
        ensures { with_last result.0.now (option_copied result.1) ≡ self.now }
    {
        match &self.0 {
            HeldNames::Lent(names) => (*names, None),
            HeldNames::LentAndLast(names, last) => (*names, Some(*last)),
            HeldNames::Owned(names) => (names.as_slice(), None),
        }
    }
}

/// Words.
#[derive(Drop)]
pub struct Words<'a>(pub HeldWords<'a>);

impl<'a> Model for Words<'a> {
    ghost use Rattle.std.specs.Prelude.{List, ℕ};

    ghost Value = { List (List ℕ) };

    ghost use Rattle.reply_kinds.specs.Keeping.{words_of};

    ghost view = { λ x. words_of x.0 };
}

impl<'a> Words<'a> {
    /// The words.
    pub fn as_slice(&self) -> &[WordBuf]
        ensures { result.now ≡ self.now }
    {
        match &self.0 {
            HeldWords::Lent(words) => words,
            HeldWords::Owned(words) => words.as_slice(),
        }
    }
}

/// Script tags.
#[derive(Drop)]
pub struct Pairs<'a>(pub HeldPairs<'a>);

impl<'a> Model for Pairs<'a> {
    ghost use Rattle.std.specs.Prelude.{List};
    ghost use Rattle.line_words.specs.declared.lists.Pair.{Pair};

    ghost Value = { List Pair };

    ghost use Rattle.reply_kinds.specs.Keeping.{pairs_of};

    ghost view = { λ x. pairs_of x.0 };
}

impl<'a> Pairs<'a> {
    /// The script tags.
    pub fn as_slice(&self) -> &[Pair]
        ensures { result.now ≡ self.now }
    {
        match &self.0 {
            HeldPairs::Lent(pairs) => pairs,
            HeldPairs::Owned(pairs) => pairs.as_slice(),
        }
    }
}

/// What BATTLEOPENED tells of a battle besides its number. It is the largest by far, so it lies elsewhere.
#[derive(Drop)]
pub struct Opened<'a>(pub HeldOpened<'a>);

impl<'a> Model for Opened<'a> {
    ghost use Rattle.reply_kinds.specs.declared.opened_battle.OpenedBattle.{OpenedBattle};

    ghost Value = { OpenedBattle };

    ghost use Rattle.reply_kinds.specs.Keeping.{opened_of};

    ghost view = { λ x. opened_of x.0 };
}

impl<'a> Opened<'a> {
    /// What is told.
    pub fn get(&self) -> &OpenedBattle
        ensures { result.now ≡ self.now }
    {
        match &self.0 {
            HeldOpened::Lent(opened) => opened,
            HeldOpened::Owned(opened) => opened,
        }
    }
}
