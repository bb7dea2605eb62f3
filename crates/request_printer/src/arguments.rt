//! The arguments: how a field of each kind is printed.
#![tactic(auto, using(reply_printer::proofs::Kept::front_more, reply_printer::proofs::Kept::front_all))]

ghost use Rattle.std.specs.Prelude.{◌≡◌, [], ◌∷◌, ◌++◌, ◌≤◌, IfOk, OnErr, true, vec_capacity};
ghost use Rattle.command_grammar.specs.Table as kinds;
ghost use Rattle.command_grammar.specs.Table.{Kind, Value};
ghost use Rattle.reply_printer.specs.Fronts.{Keeps, LacksRoom};
ghost use Rattle.request_printer.specs.Faults.{all_listed, has_gap, in_range, is_absent};
ghost use Rattle.request_printer.specs.Writing.{separator_behind, written};

use line_words::{NameBuf, PairList, SentenceBuf, TextBuf, WordBuf, WordList};
use reply_printer::pieces::{
    put_behind, put_flag, put_name, put_number, put_optional, put_pairs, put_text, put_wide,
    put_word, put_words,
};
use std::alloc::AllocError;

/// What is found of one argument.
#[derive(Drop)]
pub(crate) struct Found {
    /// It is in its range, if it is a number.
    pub(crate) is_in_range: bool,
    /// It has something in it, if it is a list.
    pub(crate) is_listed: bool,
    pub(crate) is_absent: bool,
    /// An argument that is there may not stand behind it.
    pub(crate) leaves_gap: bool,
}

const PRESENT: Found = Found {
    is_in_range: true,
    is_listed: true,
    is_absent: false,
    leaves_gap: false,
};

/// An argument that can be printed.
pub(crate) trait Written {
    ghost kind: { Kind };

    ghost value: { Self → Value kind };

    /// Appends the argument with what stands before it: a sentence stands behind this separator. Gives the separator of
    /// a sentence behind it.
    fn put(&self, out: &mut Vec<u8>, separator: u8) -> Result<u8, AllocError>
        ensures ok { IfOk result (λ _. out.new.items ≡ out.old.items ++ written separator kind (value self.now)) }
        ensures separator { IfOk result (λ behind. behind ≡ separator_behind kind separator) }
        ensures wanted { OnErr result (LacksRoom out.old (written separator kind (value self.now))) }
        ensures kept { Keeps out.old.items out.new.items }
        ensures room { vec_capacity out.old ≤ vec_capacity out.new };

    /// What is found of the argument, whatever stands beside it.
    fn find(&self) -> Found
        ensures range { result.is_in_range ≡ in_range true (kind ∷ []) (value self.now, tt) }
        ensures listed { result.is_listed ≡ all_listed true (kind ∷ []) (value self.now, tt) }
        ensures absent { result.is_absent ≡ is_absent kind (value self.now) }
        ensures gap { result.leaves_gap ≡ has_gap (kind ∷ kinds.Word ∷ []) (value self.now, ([], tt)) };
}

impl<'a, A: Written> Written for &'a A {
    ghost kind = { A.kind };

    ghost value = { λ x. A.value x.now };

    #[inline(always)]
    fn put(&self, out: &mut Vec<u8>, separator: u8) -> Result<u8, AllocError> {
        A::put(self, out, separator)
    }

    #[inline(always)]
    fn find(&self) -> Found {
        A::find(self)
    }
}

impl Written for WordBuf {
    ghost kind = { kinds.Word };

    ghost value = { λ x. x };

    fn put(&self, out: &mut Vec<u8>, separator: u8) -> Result<u8, AllocError> {
        put_word(out, self)?;
        Ok(separator)
    }

    fn find(&self) -> Found {
        PRESENT
    }
}

impl Written for Option<WordBuf> {
    ghost kind = { kinds.OptionalWord };

    ghost value = { λ x. x };

    fn put(&self, out: &mut Vec<u8>, separator: u8) -> Result<u8, AllocError> {
        put_optional(out, self.as_ref())?;
        Ok(separator)
    }

    fn find(&self) -> Found {
        match self {
            None => Found {
                is_in_range: true,
                is_listed: true,
                is_absent: true,
                leaves_gap: true,
            },
            Some(_) => PRESENT,
        }
    }
}

impl Written for NameBuf {
    ghost kind = { kinds.Name };

    ghost value = { λ x. x };

    fn put(&self, out: &mut Vec<u8>, separator: u8) -> Result<u8, AllocError> {
        put_name(out, self)?;
        Ok(separator)
    }

    fn find(&self) -> Found {
        PRESENT
    }
}

/// A number that is to be 0 to `HIGH`.
#[derive(Drop)]
pub(crate) struct Natural<const HIGH: u32>(pub(crate) u32);

impl<const HIGH: u32> Written for Natural<HIGH> {
    ghost kind = { kinds.Natural HIGH };

    ghost value = { λ x. x.0 };

    fn put(&self, out: &mut Vec<u8>, separator: u8) -> Result<u8, AllocError> {
        put_number(out, self.0)?;
        Ok(separator)
    }

    fn find(&self) -> Found {
        Found {
            is_in_range: self.0 <= HIGH,
            is_listed: true,
            is_absent: false,
            leaves_gap: false,
        }
    }
}

impl Written for i64 {
    ghost kind = { kinds.Wide };

    ghost value = { λ x. x };

    fn put(&self, out: &mut Vec<u8>, separator: u8) -> Result<u8, AllocError> {
        put_wide(out, self)?;
        Ok(separator)
    }

    fn find(&self) -> Found {
        Found {
            is_in_range: -2147483648 <= *self && *self <= 4294967295,
            is_listed: true,
            is_absent: false,
            leaves_gap: false,
        }
    }
}

impl Written for bool {
    ghost kind = { kinds.Flag };

    ghost value = { λ x. x };

    fn put(&self, out: &mut Vec<u8>, separator: u8) -> Result<u8, AllocError> {
        put_flag(out, *self)?;
        Ok(separator)
    }

    fn find(&self) -> Found {
        PRESENT
    }
}

impl Written for SentenceBuf {
    ghost kind = { kinds.Sentence };

    ghost value = { λ x. x };

    fn put(&self, out: &mut Vec<u8>, separator: u8) -> Result<u8, AllocError> {
        put_behind(out, separator, self.as_slice())?;
        Ok(b'\t')
    }

    fn find(&self) -> Found {
        PRESENT
    }
}

impl Written for TextBuf {
    ghost kind = { kinds.Text };

    ghost value = { λ x. x };

    fn put(&self, out: &mut Vec<u8>, separator: u8) -> Result<u8, AllocError> {
        put_text(out, &self.as_text())?;
        Ok(separator)
    }

    fn find(&self) -> Found {
        PRESENT
    }
}

impl Written for Option<TextBuf> {
    ghost kind = { kinds.OptionalText };

    ghost value = { λ x. x };

    fn put(&self, out: &mut Vec<u8>, separator: u8) -> Result<u8, AllocError> {
        if let Some(text) = self {
            put_text(out, &text.as_text())?;
        }
        Ok(separator)
    }

    fn find(&self) -> Found {
        match self {
            None => Found {
                is_in_range: true,
                is_listed: true,
                is_absent: true,
                leaves_gap: false,
            },
            Some(_) => PRESENT,
        }
    }
}

/// Whether the user decides who joins its battles. The user id before it is left empty: the lobby does not keep it.
#[derive(Drop)]
pub(crate) struct LoginFlags(pub(crate) bool);

impl Written for LoginFlags {
    ghost kind = { kinds.LoginFlags };

    ghost value = { λ x. x.0 };

    fn put(&self, out: &mut Vec<u8>, separator: u8) -> Result<u8, AllocError> {
        if self.0 {
            put_behind(out, b'\t', b"\tb")?;
        }
        Ok(separator)
    }

    fn find(&self) -> Found {
        Found {
            is_in_range: true,
            is_listed: true,
            is_absent: !self.0,
            leaves_gap: false,
        }
    }
}

impl Written for PairList {
    ghost kind = { kinds.Pairs };

    ghost value = { λ x. x };

    fn put(&self, out: &mut Vec<u8>, separator: u8) -> Result<u8, AllocError> {
        put_pairs(out, self.as_slice())?;
        Ok(separator)
    }

    fn find(&self) -> Found {
        Found {
            is_in_range: true,
            is_listed: 1 <= self.as_slice().len(),
            is_absent: false,
            leaves_gap: false,
        }
    }
}

impl Written for WordList {
    ghost kind = { kinds.Words };

    ghost value = { λ x. x };

    fn put(&self, out: &mut Vec<u8>, separator: u8) -> Result<u8, AllocError> {
        put_words(out, self.as_slice())?;
        Ok(separator)
    }

    fn find(&self) -> Found {
        Found {
            is_in_range: true,
            is_listed: 1 <= self.as_slice().len(),
            is_absent: false,
            leaves_gap: false,
        }
    }
}
