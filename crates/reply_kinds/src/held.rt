//! What is lent, or owned.

use crate::opened_battle::OpenedBattle;
use line_words::{NameBuf, NameList, Pair, PairList, Text, TextBuf, Word, WordBuf, WordList};

/// A value: lent, or owned.
#[derive(Drop)]
pub enum Held<'a, T> {
    Lent(&'a T),
    Owned(T),
}

/// A word: lent as bytes that are one, or owned.
#[derive(Drop)]
pub enum HeldWord<'a> {
    Lent(Word<'a>),
    Owned(WordBuf),
}

/// A text: lent, as a fixed one is or as one that is owned elsewhere, or owned.
#[derive(Drop)]
pub enum HeldText<'a> {
    Fixed(&'a Text<'a>),
    Lent(&'a TextBuf),
    Owned(TextBuf),
}

/// Names: lent, lent with one more behind them, or owned.
#[derive(Drop)]
pub enum HeldNames<'a> {
    Lent(&'a [NameBuf]),
    LentAndLast(&'a [NameBuf], &'a NameBuf),
    Owned(NameList),
}

/// Words: lent, or owned.
#[derive(Drop)]
pub enum HeldWords<'a> {
    Lent(&'a [WordBuf]),
    Owned(WordList),
}

/// Script tags: lent, or owned.
#[derive(Drop)]
pub enum HeldPairs<'a> {
    Lent(&'a [Pair]),
    Owned(PairList),
}

/// What all are told of a battle: lent, or owned.
#[derive(Drop)]
pub enum HeldOpened<'a> {
    Lent(&'a OpenedBattle),
    Owned(Box<OpenedBattle>),
}
