//! One reader for each kind of argument. Each is given the rest of a line, from the end of the command
//! word or of the last argument on, and gives the argument and its own rest; nothing is copied.

ghost use Rattle.std.specs.Prelude.{◌≡◌, ◌≤◌, ℤ, ◌≤ℤ◌, IfOk, IfSome, IsTrue, codes};
ghost use Rattle.std.specs.Option.{option_map};
ghost use Rattle.line_words.specs.Bytes.{has_byte, is_name, is_sentence, is_text, is_word};
ghost use Rattle.line_words.specs.Table.{same_name};
ghost use Rattle.command_grammar.specs.Arguments.{flagged, has_flag};
ghost use Rattle.command_grammar.specs.Readers.{seen, word_at, optional_at, name_at, number_in, number_at, natural_at};
ghost use Rattle.command_grammar.specs.Readers.{wide_at, flag_at, text_at, optional_text_at, login_flags_at};
ghost use Rattle.command_grammar.specs.Readers.{sentence_at};

use crate::command::ReadFault;
use line_words::{Words, is_name, read_number, split_at_byte};

/// The next word.
#[tactic(auto, unfolding(crate::specs::Readers::word_at))]
pub(crate) fn word_at(rest: &[u8]) -> Result<(&[u8], &[u8]), ReadFault>
    requires { IsTrue (is_text rest.now) }
    ensures value { word_at rest.now ≡ seen (λ x. (x.0.now, x.1.now)) result }
    ensures word { IfOk result (λ x. IsTrue (is_word x.0.now)) }
    ensures text { IfOk result (λ x. IsTrue (is_text x.1.now)) }
{
    let mut words = Words::new(rest);
    let Some(word) = words.next_word() else {
        return Err(ReadFault::MissingArgument);
    };
    if has_tab(word) {
        return Err(ReadFault::BadByte);
    }
    Ok((word, words.rest()))
}

/// Whether a tab stands in the bytes.
pub(crate) fn has_tab(bytes: &[u8]) -> bool
    ensures { result ≡ has_byte 9 bytes.now }
{
    bytes.contains(&b'\t')
}

/// The next word, if there is one.
#[tactic(auto, unfolding(crate::specs::Readers::optional_at))]
pub(crate) fn optional_at(rest: &[u8]) -> Result<(Option<&[u8]>, &[u8]), ReadFault>
    requires { IsTrue (is_text rest.now) }
    ensures value { optional_at rest.now
        ≡ seen (λ x. (option_map (λ w. w.now) x.0, x.1.now)) result }
    ensures word { IfOk result (λ x. IfSome x.0 (λ w. IsTrue (is_word w.now))) }
    ensures text { IfOk result (λ x. IsTrue (is_text x.1.now)) }
{
    match word_at(rest) {
        Ok((word, rest)) => Ok((Some(word), rest)),
        Err(ReadFault::MissingArgument) => Ok((None, &[])),
        Err(fault) => Err(fault),
    }
}

/// The next word, which is to be a name.
#[tactic(auto, unfolding(crate::specs::Readers::name_at))]
pub(crate) fn name_at(rest: &[u8]) -> Result<(&[u8], &[u8]), ReadFault>
    requires { IsTrue (is_text rest.now) }
    ensures value { name_at rest.now ≡ seen (λ x. (x.0.now, x.1.now)) result }
    ensures name { IfOk result (λ x. IsTrue (is_name x.0.now)) }
    ensures text { IfOk result (λ x. IsTrue (is_text x.1.now)) }
{
    let (name, rest) = word_at(rest)?;
    if !is_name(name) {
        return Err(ReadFault::BadName);
    }
    Ok((name, rest))
}

/// The number that a word is.
fn number_in(word: &[u8], low: i64, high: i64) -> Result<i64, ReadFault>
    ensures value { number_in low high word.now ≡ seen (λ z. z) result }
    ensures low { IfOk result (λ z. low ≤ℤ z) }
    ensures high { IfOk result (λ z. z ≤ℤ high) }
{
    read_number(word, low, high).ok_or(ReadFault::BadNumber)
}

/// The next word, which is to be a number from low to high.
#[tactic(auto, unfolding(crate::specs::Readers::number_at))]
pub(crate) fn number_at(rest: &[u8], low: i64, high: i64) -> Result<(i64, &[u8]), ReadFault>
    requires { IsTrue (is_text rest.now) }
    ensures value { number_at low high rest.now ≡ seen (λ x. (x.0, x.1.now)) result }
    ensures low { IfOk result (λ x. low ≤ℤ x.0) }
    ensures high { IfOk result (λ x. x.0 ≤ℤ high) }
    ensures text { IfOk result (λ x. IsTrue (is_text x.1.now)) }
{
    let (word, rest) = word_at(rest)?;
    let number = number_in(word, low, high)?;
    Ok((number, rest))
}

/// The next word, which is to be a number from 0 to high.
#[tactic(auto, unfolding(crate::specs::Readers::natural_at))]
pub(crate) fn natural_at(rest: &[u8], high: u32) -> Result<(u32, &[u8]), ReadFault>
    requires { IsTrue (is_text rest.now) }
    ensures value { natural_at high rest.now ≡ seen (λ x. (x.0, x.1.now)) result }
    ensures range { IfOk result (λ x. x.0 ≤ high) }
    ensures text { IfOk result (λ x. IsTrue (is_text x.1.now)) }
{
    let (number, rest) = number_at(rest, 0, high as i64)?;
    Ok((number as u32, rest))
}

/// The next word, which is to be a number from -2147483648 to 4294967295.
#[tactic(auto, unfolding(crate::specs::Readers::wide_at))]
pub(crate) fn wide_at(rest: &[u8]) -> Result<(i64, &[u8]), ReadFault>
    requires { IsTrue (is_text rest.now) }
    ensures value { wide_at rest.now ≡ seen (λ x. (x.0, x.1.now)) result }
    ensures text { IfOk result (λ x. IsTrue (is_text x.1.now)) }
{
    number_at(rest, -2147483648, 4294967295)
}

/// The next word, which is to be 0 or 1.
#[tactic(auto, unfolding(crate::specs::Readers::flag_at))]
pub(crate) fn flag_at(rest: &[u8]) -> Result<(bool, &[u8]), ReadFault>
    requires { IsTrue (is_text rest.now) }
    ensures value { flag_at rest.now ≡ seen (λ x. (x.0, x.1.now)) result }
    ensures text { IfOk result (λ x. IsTrue (is_text x.1.now)) }
{
    let (number, rest) = natural_at(rest, 1)?;
    Ok((number == 1, rest))
}

/// All behind one space.
#[tactic(auto, unfolding(crate::specs::Readers::text_at))]
pub(crate) fn text_at(rest: &[u8]) -> Result<&[u8], ReadFault>
    requires { IsTrue (is_text rest.now) }
    ensures value { text_at rest.now ≡ seen (λ x. x.now) result }
    ensures text { IfOk result (λ x. IsTrue (is_text x.now)) }
{
    match rest {
        [] => Err(ReadFault::MissingArgument),
        [_, text @ ..] => Ok(text),
    }
}

/// All behind one byte, the space or the tab before it, up to the next tab, and the rest from there on.
#[tactic(auto, unfolding(crate::specs::Readers::sentence_at), using(crate::proofs::Slices::sentence_front, crate::proofs::Slices::text_behind))]
pub(crate) fn sentence_at(rest: &[u8]) -> Result<(&[u8], &[u8]), ReadFault>
    requires { IsTrue (is_text rest.now) }
    ensures value { sentence_at rest.now ≡ seen (λ x. (x.0.now, x.1.now)) result }
    ensures sentence { IfOk result (λ x. IsTrue (is_sentence x.0.now)) }
    ensures text { IfOk result (λ x. IsTrue (is_text x.1.now)) }
{
    let text = text_at(rest)?;
    Ok(split_at_byte(text, b'\t'))
}

/// All behind one space, if that space is there.
#[tactic(auto, unfolding(crate::specs::Readers::optional_text_at))]
pub(crate) fn optional_text_at(rest: &[u8]) -> Option<&[u8]>
    requires { IsTrue (is_text rest.now) }
    ensures value { optional_text_at rest.now ≡ option_map (λ t. t.now) result }
    ensures text { IfSome result (λ t. IsTrue (is_text t.now)) }
{
    match rest {
        [] => None,
        [_, text @ ..] => Some(text),
    }
}

/// Whether a login's flags, behind its user id, have `b` among them.
#[tactic(auto, unfolding(crate::specs::Readers::login_flags_at))]
pub(crate) fn login_flags_at(rest: &[u8]) -> bool
    ensures { login_flags_at rest.now ≡ result }
{
    match rest {
        [] => false,
        [_, text @ ..] => {
            let (_, behind) = split_at_byte(text, b'\t');
            flagged(behind)
        }
    }
}

fn flagged(rest: &[u8]) -> bool
    ensures { result ≡ flagged rest.now }
{
    match rest {
        [] => false,
        [_, text @ ..] => {
            let (flags, _) = split_at_byte(text, b'\t');
            has_flag(flags)
        }
    }
}

fn has_flag(flags: &[u8]) -> bool
    ensures { result ≡ has_flag flags.now }
{
    let mut left = Words::new(flags);
    while let Some(flag) = left.next_word() {
        if is_flag(flag) {
            return true;
        }
    }
    false
}

fn is_flag(word: &[u8]) -> bool
    ensures { result ≡ same_name (codes "b") word.now }
{
    b"b".as_slice().cmp(word).is_eq()
}
