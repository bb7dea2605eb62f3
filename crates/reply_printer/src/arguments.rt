//! The arguments: how a field of each type is printed.
#![tactic(auto, using(crate::proofs::Kept::front_more, crate::proofs::Kept::front_all))]

ghost use Rattle.std.specs.Prelude.{◌≡◌, ◌++◌, ◌≤◌, IfOk, OnErr, vec_capacity};
ghost use Rattle.reply_printer.specs.Fronts.{Keeps, LacksRoom};
ghost use Rattle.reply_kinds.specs.Kinds as kinds;
ghost use Rattle.reply_kinds.specs.Kinds.{Kind, Value, printed};
ghost use Rattle.reply_kinds.specs.Replies.{battle_number, port_number, status_word};

use crate::pieces::{
    put_behind, put_count, put_flag, put_last_name, put_names, put_next_sentence, put_number,
    put_pairs, put_sentence, put_wide, put_word, put_words,
};
use reply_kinds::{
    BattleNumber, Country, Name, Names, NextSentence, Pairs, Sentence, Text, UpTo, Wide, Word,
    Words,
};
use std::alloc::AllocError;

/// An argument that can be printed, with what stands before it.
pub(crate) trait Printed {
    ghost kind: { Kind };

    ghost value: { Self → Value kind };

    fn put(&self, out: &mut Vec<u8>) -> Result<(), AllocError>
        ensures ok { IfOk result (λ _. out.new.items ≡ out.old.items ++ printed kind (value self.now)) }
        ensures wanted { OnErr result (LacksRoom out.old (printed kind (value self.now))) }
        ensures kept { Keeps out.old.items out.new.items }
        ensures room { vec_capacity out.old ≤ vec_capacity out.new };
}

impl<'a, A: Printed> Printed for &'a A {
    ghost kind = { A.kind };

    ghost value = { λ x. A.value x.now };

    #[inline(always)]
    fn put(&self, out: &mut Vec<u8>) -> Result<(), AllocError> {
        A::put(self, out)
    }
}

impl<'a> Printed for Name<'a> {
    ghost kind = { kinds.Name };

    ghost value = { λ x. x };

    // Most lines have a name or a text: a call for each is a tenth of the line.
    #[inline(always)]
    fn put(&self, out: &mut Vec<u8>) -> Result<(), AllocError> {
        put_behind(out, b' ', self.get().as_slice())
    }
}

impl<'a> Printed for Text<'a> {
    ghost kind = { kinds.Text };

    ghost value = { λ x. x };

    #[inline(always)]
    fn put(&self, out: &mut Vec<u8>) -> Result<(), AllocError> {
        put_behind(out, b' ', self.as_slice())
    }
}

impl<'a> Printed for Word<'a> {
    ghost kind = { kinds.Word };

    ghost value = { λ x. x };

    fn put(&self, out: &mut Vec<u8>) -> Result<(), AllocError> {
        put_word(out, self.get())
    }
}

impl<'a> Printed for Country<'a> {
    ghost kind = { kinds.Word };

    ghost value = { λ x. x };

    fn put(&self, out: &mut Vec<u8>) -> Result<(), AllocError> {
        put_behind(out, b' ', self.as_slice())
    }
}

impl<'a> Printed for Option<Word<'a>> {
    ghost kind = { kinds.OptionalWord };

    ghost value = { λ x. x };

    fn put(&self, out: &mut Vec<u8>) -> Result<(), AllocError> {
        match self {
            None => Ok(()),
            Some(word) => put_word(out, word.get()),
        }
    }
}

impl<'a> Printed for Words<'a> {
    ghost kind = { kinds.Words };

    ghost value = { λ x. x };

    fn put(&self, out: &mut Vec<u8>) -> Result<(), AllocError> {
        put_words(out, self.as_slice())
    }
}

impl<'a> Printed for Names<'a> {
    ghost kind = { kinds.Names };

    ghost value = { λ x. x };

    fn put(&self, out: &mut Vec<u8>) -> Result<(), AllocError> {
        let (names, last) = self.parts();
        put_names(out, names)?;
        put_last_name(out, last)
    }
}

impl<'a> Printed for Sentence<'a> {
    ghost kind = { kinds.Sentence };

    ghost value = { λ x. x };

    fn put(&self, out: &mut Vec<u8>) -> Result<(), AllocError> {
        put_sentence(out, self.get())
    }
}

impl<'a> Printed for NextSentence<'a> {
    ghost kind = { kinds.NextSentence };

    ghost value = { λ x. x };

    fn put(&self, out: &mut Vec<u8>) -> Result<(), AllocError> {
        put_next_sentence(out, self.get())
    }
}

impl<'a> Printed for Pairs<'a> {
    ghost kind = { kinds.Pairs };

    ghost value = { λ x. x };

    fn put(&self, out: &mut Vec<u8>) -> Result<(), AllocError> {
        put_pairs(out, self.as_slice())
    }
}

impl Printed for BattleNumber {
    ghost kind = { battle_number };

    ghost value = { λ x. x };

    fn put(&self, out: &mut Vec<u8>) -> Result<(), AllocError> {
        put_number(out, self.0)
    }
}

impl<const HIGH: u8> Printed for UpTo<HIGH> {
    ghost kind = { kinds.Number 0 HIGH };

    ghost value = { λ x. x };

    fn put(&self, out: &mut Vec<u8>) -> Result<(), AllocError> {
        put_number(out, u32::from(self.0))
    }
}

impl Printed for u16 {
    ghost kind = { port_number };

    ghost value = { λ x. x };

    fn put(&self, out: &mut Vec<u8>) -> Result<(), AllocError> {
        put_number(out, u32::from(*self))
    }
}

impl Printed for u32 {
    ghost kind = { status_word };

    ghost value = { λ x. x };

    fn put(&self, out: &mut Vec<u8>) -> Result<(), AllocError> {
        put_number(out, *self)
    }
}

impl Printed for usize {
    ghost kind = { status_word };

    ghost value = { λ x. x };

    fn put(&self, out: &mut Vec<u8>) -> Result<(), AllocError> {
        put_count(out, *self)
    }
}

impl Printed for Wide {
    ghost kind = { kinds.Wide };

    ghost value = { λ x. x };

    fn put(&self, out: &mut Vec<u8>) -> Result<(), AllocError> {
        put_wide(out, &self.0)
    }
}

impl Printed for bool {
    ghost kind = { kinds.Flag };

    ghost value = { λ x. x };

    fn put(&self, out: &mut Vec<u8>) -> Result<(), AllocError> {
        put_flag(out, *self)
    }
}
