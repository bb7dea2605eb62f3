//! Reading one number, and the bytes behind it.

ghost use Rattle.std.specs.Prelude.{◌≡◌, ◌≤◌, ℤ, ◌≤ℤ◌, IfErr, IfOk, Some, ◌==◌};
ghost use Rattle.reply_fields.specs.Fields.{Gives, begins_with, flag_at, is_canonical, number_at, number_in, wide_at};
ghost use Rattle.reply_fields.specs.Fields.{whole};

use crate::error::ReadError;
use crate::fields::piece_at;
use line_words::read_number;

/// The number of a battle, 1 to 2,147,483,647, behind one space.
pub fn battle_at(bytes: &[u8]) -> Result<(u32, &[u8]), ReadError>
    ensures { Gives (λ x. (x.0, x.1.now)) result (number_at 1 2147483647 bytes.now) }
{
    number_at(bytes, 1, 2147483647)
}

/// A number of 32 bits, 0 to 4,294,967,295, behind one space.
pub fn u32_at(bytes: &[u8]) -> Result<(u32, &[u8]), ReadError>
    ensures { Gives (λ x. (x.0, x.1.now)) result (number_at 0 4294967295 bytes.now) }
{
    number_at(bytes, 0, u32::MAX)
}

/// A number of 16 bits, 0 to 65,535, behind one space.
pub fn u16_at(bytes: &[u8]) -> Result<(u16, &[u8]), ReadError>
    ensures { Gives (λ x. (x.0, x.1.now)) result (number_at 0 65535 bytes.now) }
{
    let (number, rest) = number_at(bytes, 0, 65535)?;
    Ok((number as u16, rest))
}

/// A number from 0 to `high`, behind one space.
pub fn small_at(bytes: &[u8], high: u8) -> Result<(u8, &[u8]), ReadError>
    ensures { Gives (λ x. (x.0, x.1.now)) result (number_at 0 high bytes.now) }
{
    let (number, rest) = number_at(bytes, 0, high as u32)?;
    Ok((number as u8, rest))
}

/// The message id, 0 to 2,147,483,647, that the whole word is, in decimal without needless zeros; `None` where it is
/// none.
pub fn id_of(word: &[u8]) -> Option<u32>
    ensures { result ≡ number_in 0 2147483647 word.now }
{
    match number_in(word, 0, 2147483647) {
        Ok(id) => Some(id),
        Err(_) => None,
    }
}

#[tactic(auto, unfolding(crate::specs::Fields::number_at))]
fn number_at(bytes: &[u8], low: u32, high: u32) -> Result<(u32, &[u8]), ReadError>
    ensures value { Gives (λ x. (x.0, x.1.now)) result (number_at low high bytes.now) }
    ensures range { IfOk result (λ x. (low ≤ x.0) × (x.0 ≤ high)) }
{
    let (word, rest) = piece_at(bytes, b' ', b' ')?;
    Ok((number_in(word, low, high)?, rest))
}

fn number_in(word: &[u8], low: u32, high: u32) -> Result<u32, ReadError>
    ensures value { Gives (λ x. x) result (number_in low high word.now) }
    ensures range { IfOk result (λ x. (low ≤ x) × (x ≤ high)) }
    ensures refused { IfErr result (λ e. e ≡ ReadError.Unread) }
{
    let number = canonical(word, low as i64, high as i64)?;
    Ok(number as u32)
}

/// A number of either sign and 32 bits, from -2,147,483,648 to 4,294,967,295, behind one space.
#[tactic(auto, unfolding(crate::specs::Fields::wide_at))]
pub fn wide_at(bytes: &[u8]) -> Result<(i64, &[u8]), ReadError>
    ensures { Gives (λ x. (x.0, x.1.now)) result (wide_at bytes.now) }
{
    let (word, rest) = piece_at(bytes, b' ', b' ')?;
    let number = canonical(word, -2147483648, 4294967295)?;
    Ok((number, rest))
}

/// A flag, 0 or 1, behind one space.
#[tactic(auto, unfolding(crate::specs::Fields::flag_at))]
pub fn flag_at(bytes: &[u8]) -> Result<(bool, &[u8]), ReadError>
    ensures { Gives (λ x. (x.0, x.1.now)) result (flag_at bytes.now) }
{
    let (number, rest) = number_at(bytes, 0, 1)?;
    Ok((number == 1, rest))
}

/// The number that prints as this word.
fn canonical(word: &[u8], low: i64, high: i64) -> Result<i64, ReadError>
    ensures some { IfOk result (λ z. (whole word.now ≡ Some z) × (low ≤ℤ z) × (z ≤ℤ high)) }
    ensures none { IfErr result (λ e. (e ≡ ReadError.Unread)
        × ((z : ℤ) → whole word.now ≡ Some z → low ≤ℤ z → z ≤ℤ high → ⊥)) }
{
    if !is_canonical(word) {
        return Err(ReadError::Unread);
    }
    match read_number(word, low, high) {
        Some(number) => Ok(number),
        None => Err(ReadError::Unread),
    }
}

/// No needless zero: neither `007` nor `-0`.
fn is_canonical(word: &[u8]) -> bool
    ensures { result ≡ is_canonical word.now }
{
    match word {
        [] => true,
        [first, rest @ ..] => {
            if *first == b'-' {
                !begins_with(rest, b'0')
            } else {
                *first != b'0' || rest.is_empty()
            }
        }
    }
}

fn begins_with(bytes: &[u8], byte: u8) -> bool
    ensures { result ≡ begins_with byte bytes.now }
{
    match bytes {
        [] => false,
        [first, ..] => *first == byte,
    }
}
