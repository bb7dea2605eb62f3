//! The arguments of a request, written one behind the other from its fields.
//!
//! Each function takes its fields from the front, and tells the fields that are left and whether the argument is
//! absent. Where it fails a part may be written.

ghost use Rattle.std.specs.Prelude.{◌≡◌, ◌||◌, [], IfErr, IfOk, Ok, false, map};
ghost use Rattle.command_grammar.specs.Table as kind;
ghost use Rattle.request_printer.specs.Writing.{separator_behind};
ghost use Rattle.lobby_lines.specs.Requests.{kind_of, unless_skipped};
ghost use Rattle.lobby_lines.specs.Writing.{Blames, Put, PutAll, pair_part, pairs_put, part, parts, words_put};

use crate::error::RequestError;
use crate::fields::FieldRow;
use crate::given::{
    first, flag_of, is_absent, key_of, line_of, name_of, natural_of, sentence_of, wide_of, word_of,
};
use crate::request_table::RequestKind;
use reply_printer::pieces;

/// Writes arguments of these kinds, whose fields these are, all of them.
pub(crate) fn put_arguments(
    kinds: &[RequestKind],
    fields: &[FieldRow],
    text: &[u8],
    line: &mut Vec<u8>,
) -> Result<(), RequestError>
    ensures put { IfOk result (λ _. PutAll (parts false 32 text.now (map kind_of kinds.now) fields.now) line.old.items
        line.new.items) }
    ensures blamed { IfErr result (λ e. Blames e (parts false 32 text.now (map kind_of kinds.now) fields.now)) }
{
    let mut rest = fields;
    let mut separator = b' ';
    let mut is_missing = false;
    for kind in kinds {
        let (behind, is_absent) = put_argument(*kind, separator, rest, text, line)?;
        is_missing = none_skipped(is_missing, is_absent)?;
        separator = separator_behind(*kind, separator);
        rest = behind;
    }
    if !rest.is_empty() {
        return Err(RequestError::BadFields);
    }
    Ok(())
}

/// Whether an argument is missing so far. Nothing that is there may stand behind one.
fn none_skipped(is_missing: bool, is_absent: bool) -> Result<bool, RequestError>
    ensures { result ≡ unless_skipped is_missing is_absent (Ok (is_missing || is_absent)) }
{
    if is_missing && !is_absent {
        return Err(RequestError::Skipped);
    }
    Ok(is_missing || is_absent)
}

/// What stands before a sentence behind an argument of this kind.
fn separator_behind(kind: RequestKind, separator: u8) -> u8
    ensures { result ≡ separator_behind (kind_of kind) separator }
{
    if let RequestKind::Sentence = kind {
        b'\t'
    } else {
        separator
    }
}

fn put_argument<'a>(
    kind: RequestKind,
    separator: u8,
    fields: &'a [FieldRow],
    text: &[u8],
    line: &mut Vec<u8>,
) -> Result<(&'a [FieldRow], bool), RequestError>
    ensures put { IfOk result
        (λ x. Put (part separator text.now (kind_of kind) fields.entry.now) x.0.now x.1 line.old.items line.new.items) }
    ensures blamed { IfErr result (λ e. Blames e (part separator text.now (kind_of kind) fields.entry.now)) }
{
    match kind {
        RequestKind::Word => put_word(fields, text, line),
        RequestKind::OptionalWord => put_optional_word(fields, text, line),
        RequestKind::Name => put_name(fields, text, line),
        RequestKind::Natural(high) => put_natural(high, fields, line),
        RequestKind::Wide => put_wide(fields, line),
        RequestKind::Flag => put_flag(fields, line),
        RequestKind::Sentence => put_sentence(separator, fields, text, line),
        RequestKind::Text => put_text(fields, text, line),
        RequestKind::OptionalText => put_optional_text(fields, text, line),
        RequestKind::LoginFlags => put_login_flags(fields, line),
        RequestKind::Pairs => put_pairs(fields, text, line),
        RequestKind::Words => put_words(fields, text, line),
    }
}

fn put_word<'a>(
    fields: &'a [FieldRow],
    text: &[u8],
    line: &mut Vec<u8>,
) -> Result<(&'a [FieldRow], bool), RequestError>
    ensures put { IfOk result (λ x. Put (part 32 text.now kind.Word fields.entry.now) x.0.now x.1 line.old.items
        line.new.items) }
    ensures blamed { IfErr result (λ e. Blames e (part 32 text.now kind.Word fields.entry.now)) }
{
    let (field, behind) = first(fields)?;
    pieces::put_behind(line, b' ', word_of(field, text)?)?;
    Ok((behind, false))
}

fn put_optional_word<'a>(
    fields: &'a [FieldRow],
    text: &[u8],
    line: &mut Vec<u8>,
) -> Result<(&'a [FieldRow], bool), RequestError>
    ensures put { IfOk result (λ x. Put (part 32 text.now kind.OptionalWord fields.entry.now) x.0.now x.1
        line.old.items line.new.items) }
    ensures blamed { IfErr result (λ e. Blames e (part 32 text.now kind.OptionalWord fields.entry.now)) }
{
    let (field, behind) = first(fields)?;
    if is_absent(field) {
        return Ok((behind, true));
    }
    pieces::put_behind(line, b' ', word_of(field, text)?)?;
    Ok((behind, false))
}

fn put_name<'a>(
    fields: &'a [FieldRow],
    text: &[u8],
    line: &mut Vec<u8>,
) -> Result<(&'a [FieldRow], bool), RequestError>
    ensures put { IfOk result (λ x. Put (part 32 text.now kind.Name fields.entry.now) x.0.now x.1 line.old.items
        line.new.items) }
    ensures blamed { IfErr result (λ e. Blames e (part 32 text.now kind.Name fields.entry.now)) }
{
    let (field, behind) = first(fields)?;
    pieces::put_behind(line, b' ', name_of(field, text)?)?;
    Ok((behind, false))
}

fn put_natural<'a>(
    high: u32,
    fields: &'a [FieldRow],
    line: &mut Vec<u8>,
) -> Result<(&'a [FieldRow], bool), RequestError>
    ensures put { IfOk result (λ x. Put (part 32 [] (kind.Natural high) fields.entry.now) x.0.now x.1 line.old.items
        line.new.items) }
    ensures blamed { IfErr result (λ e. Blames e (part 32 [] (kind.Natural high) fields.entry.now)) }
{
    let (field, behind) = first(fields)?;
    pieces::put_number(line, natural_of(field, high)?)?;
    Ok((behind, false))
}

fn put_wide<'a>(
    fields: &'a [FieldRow],
    line: &mut Vec<u8>,
) -> Result<(&'a [FieldRow], bool), RequestError>
    ensures put { IfOk result (λ x. Put (part 32 [] kind.Wide fields.entry.now) x.0.now x.1 line.old.items
        line.new.items) }
    ensures blamed { IfErr result (λ e. Blames e (part 32 [] kind.Wide fields.entry.now)) }
{
    let (field, behind) = first(fields)?;
    pieces::put_wide(line, &wide_of(field)?)?;
    Ok((behind, false))
}

fn put_flag<'a>(
    fields: &'a [FieldRow],
    line: &mut Vec<u8>,
) -> Result<(&'a [FieldRow], bool), RequestError>
    ensures put { IfOk result (λ x. Put (part 32 [] kind.Flag fields.entry.now) x.0.now x.1 line.old.items
        line.new.items) }
    ensures blamed { IfErr result (λ e. Blames e (part 32 [] kind.Flag fields.entry.now)) }
{
    let (field, behind) = first(fields)?;
    pieces::put_flag(line, flag_of(field)?)?;
    Ok((behind, false))
}

fn put_sentence<'a>(
    separator: u8,
    fields: &'a [FieldRow],
    text: &[u8],
    line: &mut Vec<u8>,
) -> Result<(&'a [FieldRow], bool), RequestError>
    ensures put { IfOk result
        (λ x. Put (part separator text.now kind.Sentence fields.entry.now) x.0.now x.1 line.old.items line.new.items) }
    ensures blamed { IfErr result (λ e. Blames e (part separator text.now kind.Sentence fields.entry.now)) }
{
    let (field, behind) = first(fields)?;
    pieces::put_behind(line, separator, sentence_of(field, text)?)?;
    Ok((behind, false))
}

fn put_text<'a>(
    fields: &'a [FieldRow],
    text: &[u8],
    line: &mut Vec<u8>,
) -> Result<(&'a [FieldRow], bool), RequestError>
    ensures put { IfOk result (λ x. Put (part 32 text.now kind.Text fields.entry.now) x.0.now x.1 line.old.items
        line.new.items) }
    ensures blamed { IfErr result (λ e. Blames e (part 32 text.now kind.Text fields.entry.now)) }
{
    let (field, behind) = first(fields)?;
    pieces::put_behind(line, b' ', line_of(field, text)?)?;
    Ok((behind, false))
}

fn put_optional_text<'a>(
    fields: &'a [FieldRow],
    text: &[u8],
    line: &mut Vec<u8>,
) -> Result<(&'a [FieldRow], bool), RequestError>
    ensures put { IfOk result (λ x. Put (part 32 text.now kind.OptionalText fields.entry.now) x.0.now x.1
        line.old.items line.new.items) }
    ensures blamed { IfErr result (λ e. Blames e (part 32 text.now kind.OptionalText fields.entry.now)) }
{
    let (field, behind) = first(fields)?;
    if is_absent(field) {
        return Ok((behind, true));
    }
    pieces::put_behind(line, b' ', line_of(field, text)?)?;
    Ok((behind, false))
}

fn put_login_flags<'a>(
    fields: &'a [FieldRow],
    line: &mut Vec<u8>,
) -> Result<(&'a [FieldRow], bool), RequestError>
    ensures put { IfOk result (λ x. Put (part 32 [] kind.LoginFlags fields.entry.now) x.0.now x.1 line.old.items
        line.new.items) }
    ensures blamed { IfErr result (λ e. Blames e (part 32 [] kind.LoginFlags fields.entry.now)) }
{
    let (field, behind) = first(fields)?;
    let authorises = flag_of(field)?;
    if authorises {
        pieces::put_behind(line, b'\t', b"\tb")?;
    }
    Ok((behind, !authorises))
}

fn put_pairs<'a>(
    fields: &'a [FieldRow],
    text: &[u8],
    line: &mut Vec<u8>,
) -> Result<(&'a [FieldRow], bool), RequestError>
    ensures put { IfOk result (λ x. Put (part 32 text.now kind.Pairs fields.entry.now) x.0.now x.1 line.old.items
        line.new.items) }
    ensures blamed { IfErr result (λ e. Blames e (part 32 text.now kind.Pairs fields.entry.now)) }
{
    if fields.is_empty() {
        return Err(RequestError::NothingListed);
    }
    add_pairs(fields, text, line)?;
    Ok((&[], false))
}

fn put_words<'a>(
    fields: &'a [FieldRow],
    text: &[u8],
    line: &mut Vec<u8>,
) -> Result<(&'a [FieldRow], bool), RequestError>
    ensures put { IfOk result (λ x. Put (part 32 text.now kind.Words fields.entry.now) x.0.now x.1 line.old.items
        line.new.items) }
    ensures blamed { IfErr result (λ e. Blames e (part 32 text.now kind.Words fields.entry.now)) }
{
    if fields.is_empty() {
        return Err(RequestError::NothingListed);
    }
    add_words(fields, text, line)?;
    Ok((&[], false))
}

/// A word for each field, each behind a space.
fn add_words(fields: &[FieldRow], text: &[u8], line: &mut Vec<u8>) -> Result<(), RequestError>
    ensures put { IfOk result (λ _. PutAll (words_put text.now fields.now) line.old.items line.new.items) }
    ensures blamed { IfErr result (λ e. Blames e (words_put text.now fields.now)) }
{
    for field in fields {
        pieces::put_behind(line, b' ', word_of(field, text)?)?;
    }
    Ok(())
}

/// A pair for each two fields, the first behind a space and the others behind tabs.
fn add_pairs(fields: &[FieldRow], text: &[u8], line: &mut Vec<u8>) -> Result<(), RequestError>
    ensures put { IfOk result (λ _. PutAll (pairs_put 32 text.now fields.now) line.old.items line.new.items) }
    ensures blamed { IfErr result (λ e. Blames e (pairs_put 32 text.now fields.now)) }
{
    let mut rest = fields;
    let mut separator = b' ';
    while !rest.is_empty() {
        rest = put_pair(separator, rest, text, line)?;
        separator = b'\t';
    }
    Ok(())
}

/// The pair of the first two fields.
fn put_pair<'a>(
    separator: u8,
    fields: &'a [FieldRow],
    text: &[u8],
    line: &mut Vec<u8>,
) -> Result<&'a [FieldRow], RequestError>
    ensures put { IfOk result
        (λ behind. Put (pair_part separator text.now fields.entry.now) behind.now false line.old.items line.new.items) }
    ensures blamed { IfErr result (λ e. Blames e (pair_part separator text.now fields.entry.now)) }
{
    let (key, others) = first(fields)?;
    let (value, behind) = first(others)?;
    pieces::put_behind(line, separator, key_of(key, text)?)?;
    pieces::put_behind(line, b'=', sentence_of(value, text)?)?;
    Ok(behind)
}
