//! What one field gives: bytes, a number or nothing.

ghost use Rattle.std.specs.Prelude.{◌≡◌, ◌==◌};
ghost use Rattle.std.specs.Option.{option_map};
ghost use Rattle.lobby_lines.specs.Requests.{bytes_in, first, flag_of, natural_of, number_of, seen, text_of, wide_of};
ghost use Rattle.line_words.specs.Bytes.{is_key, is_name, is_sentence, is_text, is_word};

use crate::error::RequestError;
use crate::fields::{ABSENT, FieldRow, NUMBER, TEXT};
use line_words::{is_key, is_name, is_sentence, is_text, is_word};

/// The first of the fields, and the others.
pub(crate) fn first<'a>(
    fields: &'a [FieldRow],
) -> Result<(&'a FieldRow, &'a [FieldRow]), RequestError>
    ensures { seen (λ x. (x.0.now, x.1.now)) result ≡ first fields.entry.now }
{
    match fields {
        [] => Err(RequestError::BadFields),
        [field, others @ ..] => Ok((field, others)),
    }
}

/// The bytes of a field that holds a text, if its place lies in the text.
pub(crate) fn bytes_in<'a>(field: &FieldRow, text: &'a [u8]) -> Option<&'a [u8]>
    ensures { option_map (λ b. b.now) result ≡ bytes_in text.entry.now field.now }
{
    let start = field.text.start;
    let length = field.text.length;
    if field.holds != TEXT || text.len() < start || text.len() - start < length {
        return None;
    }
    Some(&text[start..start + length])
}

/// A word.
pub(crate) fn word_of<'a>(field: &FieldRow, text: &'a [u8]) -> Result<&'a [u8], RequestError>
    ensures { seen (λ w. w.now) result ≡ text_of is_word text.entry.now field.now }
{
    match bytes_in(field, text) {
        Some(bytes) if is_word(bytes) => Ok(bytes),
        _ => Err(RequestError::BadFields),
    }
}

/// A name.
pub(crate) fn name_of<'a>(field: &FieldRow, text: &'a [u8]) -> Result<&'a [u8], RequestError>
    ensures { seen (λ b. b.now) result ≡ text_of is_name text.entry.now field.now }
{
    match bytes_in(field, text) {
        Some(bytes) if is_name(bytes) => Ok(bytes),
        _ => Err(RequestError::BadFields),
    }
}

/// A key.
pub(crate) fn key_of<'a>(field: &FieldRow, text: &'a [u8]) -> Result<&'a [u8], RequestError>
    ensures { seen (λ b. b.now) result ≡ text_of is_key text.entry.now field.now }
{
    match bytes_in(field, text) {
        Some(bytes) if is_key(bytes) => Ok(bytes),
        _ => Err(RequestError::BadFields),
    }
}

/// A sentence.
pub(crate) fn sentence_of<'a>(field: &FieldRow, text: &'a [u8]) -> Result<&'a [u8], RequestError>
    ensures { seen (λ b. b.now) result ≡ text_of is_sentence text.entry.now field.now }
{
    match bytes_in(field, text) {
        Some(bytes) if is_sentence(bytes) => Ok(bytes),
        _ => Err(RequestError::BadFields),
    }
}

/// A text.
pub(crate) fn line_of<'a>(field: &FieldRow, text: &'a [u8]) -> Result<&'a [u8], RequestError>
    ensures { seen (λ b. b.now) result ≡ text_of is_text text.entry.now field.now }
{
    match bytes_in(field, text) {
        Some(bytes) if is_text(bytes) => Ok(bytes),
        _ => Err(RequestError::BadFields),
    }
}

/// A number.
fn number_of(field: &FieldRow) -> Result<i64, RequestError>
    ensures { result ≡ number_of field.now }
{
    if field.holds == NUMBER {
        Ok(field.number)
    } else {
        Err(RequestError::BadFields)
    }
}

/// A number from 0 to `high`.
pub(crate) fn natural_of(field: &FieldRow, high: u32) -> Result<u32, RequestError>
    ensures { result ≡ natural_of high field.now }
{
    let number = number_of(field)?;
    if number < 0 || i64::from(high) < number {
        return Err(RequestError::OutOfRange);
    }
    Ok(number as u32)
}

/// A number from -2147483648 to 4294967295.
pub(crate) fn wide_of(field: &FieldRow) -> Result<i64, RequestError>
    ensures { result ≡ wide_of field.now }
{
    let number = number_of(field)?;
    if number < -2147483648 || 4294967295 < number {
        return Err(RequestError::OutOfRange);
    }
    Ok(number)
}

/// 0 or 1.
pub(crate) fn flag_of(field: &FieldRow) -> Result<bool, RequestError>
    ensures { result ≡ flag_of field.now }
{
    Ok(natural_of(field, 1)? == 1)
}

/// Whether a field holds nothing.
pub(crate) fn is_absent(field: &FieldRow) -> bool
    ensures { result ≡ (field.now.holds == 0) }
{
    field.holds == ABSENT
}
