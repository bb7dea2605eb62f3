//! Words, sentences, numbers and the kinds of argument: each public call once on values of the protocol.

use crate::rooms::pairs;
use crate::verdict::{same, same_for};
use line_words::{
    Name, NameBuf, Sentence, Text, Word, Words, is_key, read_number, split_at_byte, split_sentences,
};

#[test]
fn words_end_at_spaces(rt: HostRuntime) {
    let mut words = Words::new(b"  JOINBATTLE  7 pw\t9  ");
    words.skip_spaces();
    same(&rt, words.rest(), b"JOINBATTLE  7 pw\t9  ".as_slice());
    same(
        &rt,
        (words.next_word(), words.rest()),
        (Some(b"JOINBATTLE".as_slice()), b"  7 pw\t9  ".as_slice()),
    );
    same(
        &rt,
        (
            words.next_word(),
            words.next_word(),
            words.next_word(),
            words.rest(),
        ),
        (
            Some(b"7".as_slice()),
            Some(b"pw\t9".as_slice()),
            None,
            b"".as_slice(),
        ),
    );
}

#[test]
fn sentences_end_at_tabs(rt: HostRuntime) {
    let mut sentences = split_sentences(b"\ta b\t");
    same(
        &rt,
        (
            sentences.next(),
            sentences.next(),
            sentences.next(),
            sentences.next(),
        ),
        (
            Some(b"".as_slice()),
            Some(b"a b".as_slice()),
            Some(b"".as_slice()),
            None,
        ),
    );
    same(
        &rt,
        split_at_byte(b"a=b=c", b'='),
        (b"a".as_slice(), b"=b=c".as_slice()),
    );
}

static NUMBERS: [(&[u8], Option<i64>); 14] = [
    (b"0", Some(0)),
    (b"-0", Some(0)),
    (b"007", Some(7)),
    (b"0000000001", Some(1)),
    (b"00000000001", None),
    (b"4294967295", Some(4294967295)),
    (b"4294967296", None),
    (b"-2147483648", Some(-2147483648)),
    (b"-2147483649", None),
    (b"-", None),
    (b"", None),
    (b"+1", None),
    (b"1x", None),
    (b"--1", None),
];

#[test]
fn numbers_are_read(rt: HostRuntime) {
    for (word, number) in &NUMBERS {
        same_for(
            &rt,
            word,
            read_number(word, -2147483648, 4294967295),
            *number,
        );
    }
    same(&rt, read_number(b"1", 0, 0), None);
}

fn is_name(bytes: &[u8]) -> bool {
    match Name::of(bytes) {
        Some(name) => name.as_slice() == bytes,
        None => false,
    }
}

fn is_word(bytes: &[u8]) -> bool {
    match Word::of(bytes) {
        Some(word) => word.as_slice() == bytes,
        None => false,
    }
}

fn is_sentence(bytes: &[u8]) -> bool {
    match Sentence::of(bytes) {
        Some(sentence) => sentence.as_slice() == bytes,
        None => false,
    }
}

fn is_text(bytes: &[u8]) -> bool {
    match Text::of(bytes) {
        Some(text) => text.as_slice() == bytes,
        None => false,
    }
}

/// A kind of argument.
#[derive(Clone, Copy)]
enum Kind {
    Name,
    Word,
    Sentence,
    Text,
    Key,
}

fn is_of(kind: Kind, bytes: &[u8]) -> bool {
    match kind {
        Kind::Name => is_name(bytes),
        Kind::Word => is_word(bytes),
        Kind::Sentence => is_sentence(bytes),
        Kind::Text => is_text(bytes),
        Kind::Key => is_key(bytes),
    }
}

/// A kind, bytes, and whether they are of it.
static KINDS: [(Kind, &[u8], bool); 17] = [
    (Kind::Name, b"[Az]_09", true),
    (Kind::Name, b"u2345678901234567890", true),
    (Kind::Name, b"", false),
    (Kind::Name, b"a-b", false),
    (Kind::Name, b"u23456789012345678901", false),
    (Kind::Word, b"*", true),
    (Kind::Word, b"", false),
    (Kind::Word, b"a b", false),
    (Kind::Sentence, b" a ", true),
    (Kind::Sentence, b"", true),
    (Kind::Sentence, b"a\tb", false),
    (Kind::Text, b"a\tb", true),
    (Kind::Text, b"", true),
    (Kind::Text, b"a\rb", false),
    (Kind::Key, b"game/a", true),
    (Kind::Key, b"a=b", false),
    (Kind::Key, b"", false),
];

#[test]
fn kinds_keep_their_rules(rt: HostRuntime) {
    for (k, (kind, bytes, is_so)) in KINDS.iter().enumerate() {
        same_for(&rt, &k, is_of(*kind, bytes), *is_so);
    }
}

#[test]
fn lists_are_made_and_given_back(rt: HostRuntime) {
    let counts = match pairs(rt.alloc(), &[(b"a", b"1 2")]) {
        Some(pairs) => (pairs.as_slice().len(), pairs.into_vec().len()),
        None => (0, 0),
    };
    same(&rt, counts, (1, 1));
}

fn keeps(bytes: &[u8]) -> bool {
    match NameBuf::of(bytes) {
        Some(name) => name.as_slice() == bytes && name.copy().as_slice() == bytes,
        None => false,
    }
}

/// Whether two names stand in this order.
fn rises(first: &[u8], second: &[u8]) -> bool {
    match (NameBuf::of(first), NameBuf::of(second)) {
        (Some(first), Some(second)) => first < second && first != second,
        _ => false,
    }
}

#[test]
fn names_are_kept_and_ordered_by_their_bytes(rt: HostRuntime) {
    same(&rt, (keeps(b"Anna"), keeps(b"a b")), (true, false));
    same(
        &rt,
        (rises(b"Ann", b"Anna"), rises(b"Anna", b"anna")),
        (true, true),
    );
}
