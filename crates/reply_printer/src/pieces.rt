//! The pieces of a line, each appended behind the ones before it. Memory is refused only where the Vec
//! lacks room for the piece; the piece may then be there in part, and what stood before it stays.
#![tactic(auto, using(crate::proofs::Kept::front_more, crate::proofs::Kept::front_all))]

ghost use Rattle.std.specs.Prelude.{◌≡◌, [], ◌∷◌, ◌++◌, ◌≤◌, IfOk, OnErr, is_ok, take, if◌then◌else◌, decimal};
ghost use Rattle.std.specs.Prelude.{vec_capacity};
ghost use Rattle.std.specs.Prelude.{option_copied, option_to_list};
ghost use Rattle.reply_printer.specs.Fronts.{Keeps, LacksRoom};
ghost use Rattle.std.specs.Fmt.{signed_decimal};
ghost use Rattle.reply_kinds.specs.Kinds.{words_text, pair_text, pairs_text, optional_text};
ghost use Rattle.reply_kinds.specs.Replies.{id_text, word_of};

use itoa::{Buffer, Integer};
use line_words::{NameBuf, Pair, SentenceBuf, Text, WordBuf, write_number};
use reply_kinds::CommandWord;
use std::alloc::AllocError;

#[inline(always)]
pub fn put_behind(out: &mut Vec<u8>, separator: u8, bytes: &[u8]) -> Result<(), AllocError>
    ensures ok { IfOk result (λ _. out.new.items ≡ out.old.items ++ (separator ∷ bytes.now)) }
    ensures wanted { OnErr result (LacksRoom out.old (separator ∷ bytes.now)) }
    ensures kept { Keeps out.old.items out.new.items }
    ensures room { vec_capacity out.old ≤ vec_capacity out.new }
{
    out.push(separator)?;
    out.extend_from_slice(bytes)
}

/// Appends a number in decimal behind a separator.
fn put_decimal<N: Integer>(out: &mut Vec<u8>, separator: u8, n: N) -> Result<(), AllocError>
    ensures ok { IfOk result (λ _. out.new.items ≡ out.old.items ++ (separator ∷ N.text n)) }
    ensures wanted { OnErr result (LacksRoom out.old (separator ∷ N.text n)) }
    ensures kept { Keeps out.old.items out.new.items }
    ensures room { vec_capacity out.old ≤ vec_capacity out.new }
{
    let mut buffer = Buffer::new();
    put_behind(out, separator, buffer.format(n).as_bytes())
}

pub fn put_number(out: &mut Vec<u8>, n: u32) -> Result<(), AllocError>
    ensures ok { IfOk result (λ _. out.new.items ≡ out.old.items ++ (32 ∷ decimal n)) }
    ensures wanted { OnErr result (LacksRoom out.old (32 ∷ decimal n)) }
    ensures kept { Keeps out.old.items out.new.items }
    ensures room { vec_capacity out.old ≤ vec_capacity out.new }
{
    put_decimal(out, b' ', n)
}

pub fn put_count(out: &mut Vec<u8>, n: usize) -> Result<(), AllocError>
    ensures ok { IfOk result (λ _. out.new.items ≡ out.old.items ++ (32 ∷ decimal n)) }
    ensures wanted { OnErr result (LacksRoom out.old (32 ∷ decimal n)) }
    ensures kept { Keeps out.old.items out.new.items }
    ensures room { vec_capacity out.old ≤ vec_capacity out.new }
{
    put_decimal(out, b' ', n)
}

pub fn put_wide(out: &mut Vec<u8>, n: &i64) -> Result<(), AllocError>
    ensures ok { IfOk result (λ _. out.new.items ≡ out.old.items ++ (32 ∷ signed_decimal n.now)) }
    ensures wanted { OnErr result (LacksRoom out.old (32 ∷ signed_decimal n.now)) }
    ensures kept { Keeps out.old.items out.new.items }
    ensures room { vec_capacity out.old ≤ vec_capacity out.new }
{
    let mut digits = [0u8; 20];
    let count = write_number(*n, &mut digits);
    put_behind(out, b' ', &digits[..count])
}

pub fn put_words(out: &mut Vec<u8>, words: &[WordBuf]) -> Result<(), AllocError>
    ensures ok { IfOk result (λ _. out.new.items ≡ out.old.items ++ words_text words.now) }
    ensures wanted { OnErr result (LacksRoom out.old (words_text words.now)) }
    ensures kept { Keeps out.old.items out.new.items }
    ensures room { vec_capacity out.old ≤ vec_capacity out.new }
{
    for word in words {
        put_behind(out, b' ', word.as_slice())?;
    }
    Ok(())
}

pub fn put_names(out: &mut Vec<u8>, names: &[NameBuf]) -> Result<(), AllocError>
    ensures ok { IfOk result (λ _. out.new.items ≡ out.old.items ++ words_text names.now) }
    ensures wanted { OnErr result (LacksRoom out.old (words_text names.now)) }
    ensures kept { Keeps out.old.items out.new.items }
    ensures room { vec_capacity out.old ≤ vec_capacity out.new }
{
    for name in names {
        put_behind(out, b' ', name.as_slice())?;
    }
    Ok(())
}

/// Nothing where there is no name.
pub(crate) fn put_last_name(out: &mut Vec<u8>, name: Option<&NameBuf>) -> Result<(), AllocError>
    ensures ok { IfOk result (λ _. out.new.items
        ≡ out.old.items ++ words_text (option_to_list (option_copied name.entry))) }
    ensures wanted { OnErr result (LacksRoom out.old (words_text (option_to_list (option_copied name.entry)))) }
    ensures kept { Keeps out.old.items out.new.items }
    ensures room { vec_capacity out.old ≤ vec_capacity out.new }
{
    match name {
        None => Ok(()),
        Some(name) => put_behind(out, b' ', name.as_slice()),
    }
}

fn put_pair(out: &mut Vec<u8>, separator: u8, pair: &Pair) -> Result<(), AllocError>
    ensures ok { IfOk result (λ _. out.new.items ≡ out.old.items ++ (separator ∷ pair_text pair.now)) }
    ensures wanted { OnErr result (LacksRoom out.old (separator ∷ pair_text pair.now)) }
    ensures kept { Keeps out.old.items out.new.items }
    ensures room { vec_capacity out.old ≤ vec_capacity out.new }
{
    put_behind(out, separator, pair.key.as_slice())?;
    put_behind(out, b'=', pair.value.as_slice())
}

pub fn put_pairs(out: &mut Vec<u8>, pairs: &[Pair]) -> Result<(), AllocError>
    ensures ok { IfOk result (λ _. out.new.items ≡ out.old.items ++ pairs_text 32 pairs.now) }
    ensures wanted { OnErr result (LacksRoom out.old (pairs_text 32 pairs.now)) }
    ensures kept { Keeps out.old.items out.new.items }
    ensures room { vec_capacity out.old ≤ vec_capacity out.new }
{
    let mut separator = b' ';
    for pair in pairs {
        put_pair(out, separator, pair)?;
        separator = b'\t';
    }
    Ok(())
}

pub fn put_flag(out: &mut Vec<u8>, b: bool) -> Result<(), AllocError>
    ensures ok { IfOk result (λ _. out.new.items ≡ out.old.items ++ (32 ∷ (if b then 49 else 48) ∷ [])) }
    ensures wanted { OnErr result (LacksRoom out.old (32 ∷ (if b then 49 else 48) ∷ [])) }
    ensures kept { Keeps out.old.items out.new.items }
    ensures room { vec_capacity out.old ≤ vec_capacity out.new }
{
    if b {
        put_behind(out, b' ', b"1")
    } else {
        put_behind(out, b' ', b"0")
    }
}

pub fn put_optional(out: &mut Vec<u8>, word: Option<&WordBuf>) -> Result<(), AllocError>
    ensures ok { IfOk result (λ _. out.new.items ≡ out.old.items ++ optional_text (option_copied word.entry)) }
    ensures wanted { OnErr result (LacksRoom out.old (optional_text (option_copied word.entry))) }
    ensures kept { Keeps out.old.items out.new.items }
    ensures room { vec_capacity out.old ≤ vec_capacity out.new }
{
    match word {
        None => Ok(()),
        Some(word) => put_behind(out, b' ', word.as_slice()),
    }
}

pub fn put_id(out: &mut Vec<u8>, id: Option<u32>) -> Result<(), AllocError>
    ensures ok { IfOk result (λ _. out.new.items ≡ out.old.items ++ id_text id) }
    ensures wanted { OnErr result (LacksRoom out.old (id_text id)) }
    ensures kept { Keeps out.old.items out.new.items }
    ensures room { vec_capacity out.old ≤ vec_capacity out.new }
{
    if let Some(id) = id {
        put_decimal(out, b'#', id)?;
        out.push(b' ')?;
    }
    Ok(())
}

pub fn put_command(
    out: &mut Vec<u8>,
    id: Option<u32>,
    command: CommandWord,
) -> Result<(), AllocError>
    ensures ok { IfOk result (λ _. out.new.items ≡ out.old.items ++ (id_text id ++ word_of command)) }
    ensures wanted { OnErr result (LacksRoom out.old (id_text id ++ word_of command)) }
    ensures kept { Keeps out.old.items out.new.items }
    ensures room { vec_capacity out.old ≤ vec_capacity out.new }
{
    put_id(out, id)?;
    out.extend_from_slice(command.text())
}

pub fn put_word(out: &mut Vec<u8>, word: &WordBuf) -> Result<(), AllocError>
    ensures ok { IfOk result (λ _. out.new.items ≡ out.old.items ++ (32 ∷ word.now)) }
    ensures wanted { OnErr result (LacksRoom out.old (32 ∷ word.now)) }
    ensures kept { Keeps out.old.items out.new.items }
    ensures room { vec_capacity out.old ≤ vec_capacity out.new }
{
    put_behind(out, b' ', word.as_slice())
}

pub fn put_name(out: &mut Vec<u8>, name: &NameBuf) -> Result<(), AllocError>
    ensures ok { IfOk result (λ _. out.new.items ≡ out.old.items ++ (32 ∷ name.now)) }
    ensures wanted { OnErr result (LacksRoom out.old (32 ∷ name.now)) }
    ensures kept { Keeps out.old.items out.new.items }
    ensures room { vec_capacity out.old ≤ vec_capacity out.new }
{
    put_behind(out, b' ', name.as_slice())
}

pub fn put_text(out: &mut Vec<u8>, text: &Text) -> Result<(), AllocError>
    ensures ok { IfOk result (λ _. out.new.items ≡ out.old.items ++ (32 ∷ text.now)) }
    ensures wanted { OnErr result (LacksRoom out.old (32 ∷ text.now)) }
    ensures kept { Keeps out.old.items out.new.items }
    ensures room { vec_capacity out.old ≤ vec_capacity out.new }
{
    put_behind(out, b' ', text.as_slice())
}

pub fn put_sentence(out: &mut Vec<u8>, sentence: &SentenceBuf) -> Result<(), AllocError>
    ensures ok { IfOk result (λ _. out.new.items ≡ out.old.items ++ (32 ∷ sentence.now)) }
    ensures wanted { OnErr result (LacksRoom out.old (32 ∷ sentence.now)) }
    ensures kept { Keeps out.old.items out.new.items }
    ensures room { vec_capacity out.old ≤ vec_capacity out.new }
{
    put_behind(out, b' ', sentence.as_slice())
}

pub fn put_next_sentence(out: &mut Vec<u8>, sentence: &SentenceBuf) -> Result<(), AllocError>
    ensures ok { IfOk result (λ _. out.new.items ≡ out.old.items ++ (9 ∷ sentence.now)) }
    ensures wanted { OnErr result (LacksRoom out.old (9 ∷ sentence.now)) }
    ensures kept { Keeps out.old.items out.new.items }
    ensures room { vec_capacity out.old ≤ vec_capacity out.new }
{
    put_behind(out, b'\t', sentence.as_slice())
}

/// Ends the line.
pub fn put_end(out: &mut Vec<u8>) -> Result<(), AllocError>
    ensures ok { IfOk result (λ _. out.new.items ≡ out.old.items ++ 10 ∷ []) }
    ensures wanted { OnErr result (LacksRoom out.old (10 ∷ [])) }
    ensures kept { Keeps out.old.items out.new.items }
    ensures room { vec_capacity out.old ≤ vec_capacity out.new }
{
    out.push(b'\n')?;
    Ok(())
}

/// Leaves what was put behind `start` where all of it was, and takes it back where memory was refused.
pub fn whole(
    out: &mut Vec<u8>,
    start: usize,
    done: Result<(), AllocError>,
) -> Result<(), AllocError>
    ensures result { result ≡ done }
    ensures items { out.new.items ≡ (if is_ok done then out.old.items else take start out.old.items) }
    ensures room { vec_capacity out.new ≡ vec_capacity out.old }
{
    if done.is_err() {
        out.truncate(start);
    }
    done
}
