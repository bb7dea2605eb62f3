//! The arguments of a reply, read one behind the other: each is added to the fields.

ghost use Rattle.std.specs.Prelude.{IfErr, IfOk, [], flat_map, map};
ghost use Rattle.reply_kinds.specs.Kinds as kind;
ghost use Rattle.reply_kinds.specs.Replies.{battle_number, port_number, status_word};
ghost use Rattle.reply_fields.specs.Fields.{Fails};
ghost use Rattle.lobby_lines.specs.Fields.{Adds};
ghost use Rattle.lobby_lines.specs.Reading.{field_seen, seen_from, Took, TookAll};
ghost use Rattle.lobby_lines.specs.Replies.{kind_of, one_text, two_texts};

use crate::fields::Fields;
use crate::reply_table::ReplyKind;
use line_words::{NameBuf, Pair, WordBuf};
use reply_grammar::{
    ReadError, battle_at, ended, flag_at, name_at, names_at, optional_at, pairs_at, sentence_at,
    small_at, text_at, u16_at, u32_at, wide_at, word_at, words_at,
};
use std::alloc::{AllocError, Global};

/// Reads arguments of these kinds, to the end of the bytes.
pub(crate) fn put_arguments(
    alloc: Global,
    kinds: &[ReplyKind],
    bytes: &[u8],
    fields: &mut Fields,
) -> Result<(), ReadError>
    ensures read { IfOk result (λ _. TookAll (seen_from [] (map kind_of kinds.now) bytes.now) fields.old fields.new) }
    ensures unread { IfErr result (λ e. Fails e (seen_from [] (map kind_of kinds.now) bytes.now)) }
{
    let mut rest = bytes;
    for kind in kinds {
        rest = put_argument(alloc, *kind, rest, fields)?;
    }
    ended(rest)
}

/// Reads one, and gives the bytes behind it.
fn put_argument<'a>(
    alloc: Global,
    kind: ReplyKind,
    bytes: &'a [u8],
    fields: &mut Fields,
) -> Result<&'a [u8], ReadError>
    ensures read { IfOk result (λ rest. Took (field_seen (kind_of kind) bytes.entry.now) rest.now fields.old
        fields.new) }
    ensures unread { IfErr result (λ e. Fails e (field_seen (kind_of kind) bytes.entry.now)) }
{
    match kind {
        ReplyKind::Word => put_word(alloc, bytes, fields),
        ReplyKind::Name => put_name(alloc, bytes, fields),
        ReplyKind::Battle => put_battle(bytes, fields),
        ReplyKind::Status => put_status(bytes, fields),
        ReplyKind::Port => put_port(bytes, fields),
        ReplyKind::Small(high) => put_small(bytes, high, fields),
        ReplyKind::Wide => put_wide(bytes, fields),
        ReplyKind::Flag => put_flag(bytes, fields),
        ReplyKind::OptionalWord => put_optional(alloc, bytes, fields),
        ReplyKind::Words => put_words(alloc, bytes, fields),
        ReplyKind::Names => put_names(alloc, bytes, fields),
        ReplyKind::Sentence => put_sentence(alloc, bytes, fields),
        ReplyKind::NextSentence => put_next_sentence(alloc, bytes, fields),
        ReplyKind::Text => put_text(alloc, bytes, fields),
        ReplyKind::Pairs => put_pairs(alloc, bytes, fields),
    }
}

fn put_word<'a>(alloc: Global, bytes: &'a [u8], fields: &mut Fields) -> Result<&'a [u8], ReadError>
    ensures read { IfOk result (λ rest. Took (field_seen kind.Word bytes.entry.now) rest.now fields.old fields.new) }
    ensures unread { IfErr result (λ e. Fails e (field_seen kind.Word bytes.entry.now)) }
{
    let (word, rest) = word_at(alloc, bytes)?;
    fields.put_text(word.as_slice())?;
    Ok(rest)
}

fn put_name<'a>(alloc: Global, bytes: &'a [u8], fields: &mut Fields) -> Result<&'a [u8], ReadError>
    ensures read { IfOk result (λ rest. Took (field_seen kind.Name bytes.entry.now) rest.now fields.old fields.new) }
    ensures unread { IfErr result (λ e. Fails e (field_seen kind.Name bytes.entry.now)) }
{
    let (name, rest) = name_at(alloc, bytes)?;
    fields.put_text(name.as_slice())?;
    Ok(rest)
}

fn put_battle<'a>(bytes: &'a [u8], fields: &mut Fields) -> Result<&'a [u8], ReadError>
    ensures read { IfOk result (λ rest.
        Took (field_seen battle_number bytes.entry.now) rest.now fields.old fields.new) }
    ensures unread { IfErr result (λ e. Fails e (field_seen battle_number bytes.entry.now)) }
{
    let (battle, rest) = battle_at(bytes)?;
    fields.put_number(i64::from(battle))?;
    Ok(rest)
}

fn put_status<'a>(bytes: &'a [u8], fields: &mut Fields) -> Result<&'a [u8], ReadError>
    ensures read { IfOk result (λ rest. Took (field_seen status_word bytes.entry.now) rest.now fields.old fields.new) }
    ensures unread { IfErr result (λ e. Fails e (field_seen status_word bytes.entry.now)) }
{
    let (status, rest) = u32_at(bytes)?;
    fields.put_number(i64::from(status))?;
    Ok(rest)
}

fn put_port<'a>(bytes: &'a [u8], fields: &mut Fields) -> Result<&'a [u8], ReadError>
    ensures read { IfOk result (λ rest. Took (field_seen port_number bytes.entry.now) rest.now fields.old fields.new) }
    ensures unread { IfErr result (λ e. Fails e (field_seen port_number bytes.entry.now)) }
{
    let (port, rest) = u16_at(bytes)?;
    fields.put_number(i64::from(port))?;
    Ok(rest)
}

fn put_small<'a>(bytes: &'a [u8], high: u8, fields: &mut Fields) -> Result<&'a [u8], ReadError>
    ensures read { IfOk result (λ rest. Took (field_seen (kind.Number 0 high) bytes.entry.now) rest.now fields.old
        fields.new) }
    ensures unread { IfErr result (λ e. Fails e (field_seen (kind.Number 0 high) bytes.entry.now)) }
{
    let (number, rest) = small_at(bytes, high)?;
    fields.put_number(i64::from(number))?;
    Ok(rest)
}

fn put_wide<'a>(bytes: &'a [u8], fields: &mut Fields) -> Result<&'a [u8], ReadError>
    ensures read { IfOk result (λ rest. Took (field_seen kind.Wide bytes.entry.now) rest.now fields.old fields.new) }
    ensures unread { IfErr result (λ e. Fails e (field_seen kind.Wide bytes.entry.now)) }
{
    let (number, rest) = wide_at(bytes)?;
    fields.put_number(number)?;
    Ok(rest)
}

fn put_flag<'a>(bytes: &'a [u8], fields: &mut Fields) -> Result<&'a [u8], ReadError>
    ensures read { IfOk result (λ rest. Took (field_seen kind.Flag bytes.entry.now) rest.now fields.old fields.new) }
    ensures unread { IfErr result (λ e. Fails e (field_seen kind.Flag bytes.entry.now)) }
{
    let (flag, rest) = flag_at(bytes)?;
    fields.put_number(i64::from(u8::from(flag)))?;
    Ok(rest)
}

fn put_optional<'a>(
    alloc: Global,
    bytes: &'a [u8],
    fields: &mut Fields,
) -> Result<&'a [u8], ReadError>
    ensures read { IfOk result (λ rest. Took (field_seen kind.OptionalWord bytes.entry.now) rest.now fields.old
        fields.new) }
    ensures unread { IfErr result (λ e. Fails e (field_seen kind.OptionalWord bytes.entry.now)) }
{
    let (word, rest) = optional_at(alloc, bytes)?;
    match word {
        Some(word) => fields.put_text(word.as_slice())?,
        None => fields.put_absent()?,
    }
    Ok(rest)
}

fn put_sentence<'a>(
    alloc: Global,
    bytes: &'a [u8],
    fields: &mut Fields,
) -> Result<&'a [u8], ReadError>
    ensures read { IfOk result (λ rest.
        Took (field_seen kind.Sentence bytes.entry.now) rest.now fields.old fields.new) }
    ensures unread { IfErr result (λ e. Fails e (field_seen kind.Sentence bytes.entry.now)) }
{
    let (sentence, rest) = sentence_at(alloc, bytes, b' ')?;
    fields.put_text(sentence.as_slice())?;
    Ok(rest)
}

fn put_next_sentence<'a>(
    alloc: Global,
    bytes: &'a [u8],
    fields: &mut Fields,
) -> Result<&'a [u8], ReadError>
    ensures read { IfOk result (λ rest. Took (field_seen kind.NextSentence bytes.entry.now) rest.now fields.old
        fields.new) }
    ensures unread { IfErr result (λ e. Fails e (field_seen kind.NextSentence bytes.entry.now)) }
{
    let (sentence, rest) = sentence_at(alloc, bytes, b'\t')?;
    fields.put_text(sentence.as_slice())?;
    Ok(rest)
}

fn put_text<'a>(alloc: Global, bytes: &'a [u8], fields: &mut Fields) -> Result<&'a [u8], ReadError>
    ensures read { IfOk result (λ rest. Took (field_seen kind.Text bytes.entry.now) rest.now fields.old fields.new) }
    ensures unread { IfErr result (λ e. Fails e (field_seen kind.Text bytes.entry.now)) }
{
    let (text, rest) = text_at(alloc, bytes)?;
    fields.put_text(text.as_slice())?;
    Ok(rest)
}

fn put_words<'a>(alloc: Global, bytes: &'a [u8], fields: &mut Fields) -> Result<&'a [u8], ReadError>
    ensures read { IfOk result (λ rest. Took (field_seen kind.Words bytes.entry.now) rest.now fields.old fields.new) }
    ensures unread { IfErr result (λ e. Fails e (field_seen kind.Words bytes.entry.now)) }
{
    let (words, rest) = words_at(alloc, bytes)?;
    add_words(words.as_slice(), fields)?;
    Ok(rest)
}

fn put_names<'a>(alloc: Global, bytes: &'a [u8], fields: &mut Fields) -> Result<&'a [u8], ReadError>
    ensures read { IfOk result (λ rest. Took (field_seen kind.Names bytes.entry.now) rest.now fields.old fields.new) }
    ensures unread { IfErr result (λ e. Fails e (field_seen kind.Names bytes.entry.now)) }
{
    let (names, rest) = names_at(alloc, bytes)?;
    add_names(names.as_slice(), fields)?;
    Ok(rest)
}

fn put_pairs<'a>(alloc: Global, bytes: &'a [u8], fields: &mut Fields) -> Result<&'a [u8], ReadError>
    ensures read { IfOk result (λ rest. Took (field_seen kind.Pairs bytes.entry.now) rest.now fields.old fields.new) }
    ensures unread { IfErr result (λ e. Fails e (field_seen kind.Pairs bytes.entry.now)) }
{
    let (pairs, rest) = pairs_at(alloc, bytes)?;
    add_pairs(pairs.as_slice(), fields)?;
    Ok(rest)
}

fn add_words(words: &[WordBuf], fields: &mut Fields) -> Result<(), AllocError>
    ensures { IfOk result (λ _. Adds (flat_map one_text words.now) fields.old fields.new) }
{
    for word in words {
        fields.put_text(word.as_slice())?;
    }
    Ok(())
}

fn add_names(names: &[NameBuf], fields: &mut Fields) -> Result<(), AllocError>
    ensures { IfOk result (λ _. Adds (flat_map one_text names.now) fields.old fields.new) }
{
    for name in names {
        fields.put_text(name.as_slice())?;
    }
    Ok(())
}

fn add_pairs(pairs: &[Pair], fields: &mut Fields) -> Result<(), AllocError>
    ensures { IfOk result (λ _. Adds (flat_map two_texts pairs.now) fields.old fields.new) }
{
    for pair in pairs {
        fields.put_text(pair.key.as_slice())?;
        fields.put_text(pair.value.as_slice())?;
    }
    Ok(())
}
