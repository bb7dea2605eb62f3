//! Readers of the rows of arguments that several commands have. A row is the kinds of a command's
//! arguments from left to right, and has its name in `specs/Table.antt`; the caller says which command
//! the arguments are for. All are read before one is copied, so that a fault takes no memory,
//! and nothing behind the last is looked at.

ghost use Rattle.std.specs.Prelude.{IsTrue};
ghost use Rattle.line_words.specs.Bytes.{is_text};
ghost use Rattle.command_grammar.specs.Readers.{GivesRow};
ghost use Rattle.command_grammar.specs.Table.{one_name, name_and_number, name_and_text, one_text, some_words};

use crate::arguments::{name_at, natural_at, text_at};
use crate::fault::ReadError;
use crate::lists::{check_words, copy_of_words};
use line_words::{NameBuf, TextBuf, WordList};
use std::alloc::Global;

/// The next word, which is to be a name.
pub fn one_name(alloc: Global, rest: &[u8]) -> Result<NameBuf, ReadError>
    requires { IsTrue (is_text rest.now) }
    ensures { GivesRow one_name (λ maker name. maker name) result rest.now }
{
    let (name, _) = name_at(rest)?;
    Ok(NameBuf::copy_of(alloc, name)?)
}

/// A name, and the next word, which is to be a number from 0 to `high`.
pub fn name_and_number(alloc: Global, rest: &[u8], high: u8) -> Result<(NameBuf, u8), ReadError>
    requires { IsTrue (is_text rest.now) }
    ensures { GivesRow (name_and_number high) (λ maker x. maker x.0 x.1) result rest.now }
{
    let (name, rest) = name_at(rest)?;
    let (number, _) = natural_at(rest, high as u32)?;
    Ok((NameBuf::copy_of(alloc, name)?, number as u8))
}

/// A name, and all behind one space, which may be empty.
pub fn name_and_text(alloc: Global, rest: &[u8]) -> Result<(NameBuf, TextBuf), ReadError>
    requires { IsTrue (is_text rest.now) }
    ensures { GivesRow name_and_text (λ maker x. maker x.0 x.1) result rest.now }
{
    let (name, rest) = name_at(rest)?;
    let text = text_at(rest)?;
    Ok((
        NameBuf::copy_of(alloc, name)?,
        TextBuf::copy_of(alloc, text)?,
    ))
}

/// All behind one space, which may be empty.
pub fn one_text(alloc: Global, rest: &[u8]) -> Result<TextBuf, ReadError>
    requires { IsTrue (is_text rest.now) }
    ensures { GivesRow one_text (λ maker text. maker text) result rest.now }
{
    let text = text_at(rest)?;
    Ok(TextBuf::copy_of(alloc, text)?)
}

/// All words, at least one.
#[tactic(auto, using(crate::proofs::Checks::words_need_memory))]
pub fn some_words(alloc: Global, rest: &[u8]) -> Result<WordList, ReadError>
    requires { IsTrue (is_text rest.now) }
    ensures { GivesRow some_words (λ maker words. maker words) result rest.now }
{
    check_words(rest)?;
    Ok(copy_of_words(alloc, rest)?)
}
