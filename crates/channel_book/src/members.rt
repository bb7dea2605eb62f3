//! The members of one channel.

ghost use Rattle.std.specs.Prelude.{◌≡◌, [], ◌∷◌, ◌++◌, OnOk, OnErr, IfOk, false};
ghost use Rattle.std.specs.List.{IsDistinct};
ghost use Rattle.line_words.specs.Table.{same_name, is_among, all_but};
ghost use Rattle.channel_book.specs.Channels.{has_names};

use crate::lone::Lone;
use crate::many::Many;
use line_words::NameBuf;
use std::alloc::{AllocError, Global};
use std::marker::Model;
use std::slice;

/// How the members of a channel are kept. In most channels one is alone, who takes little. Where there were two, the
/// index stays until the channel goes.
#[derive(Drop)]
enum Kept<M: Copy> {
    Nobody,
    One(Lone<M>),
    /// Any number, with an index.
    Many(Box<Many<M>>),
}

/// The names of those who are in a channel, in order of joining, none of them twice; beside each the
/// key that its caller gave with it, of which no contract speaks.
///
/// Whether a name is among them takes the same time however many there are.
#[derive(Drop)]
pub struct Members<M: Copy = ()> {
    kept: Kept<M>,
}

impl<M: Copy> Model for Members<M> {
    ghost use Rattle.std.specs.Prelude.{List, ℕ};
    ghost use Rattle.channel_book.specs.Kept.{names_kept};

    ghost Value = { List (List ℕ) };

    ghost view = { λ m. names_kept m.kept };
}

impl<M: Copy> Members<M> {
    /// The names, in order of joining.
    pub fn as_slice(&self) -> &[NameBuf]
        ensures names { result.now ≡ self.now }
        ensures distinct { IsDistinct same_name result.now }
    {
        match &self.kept {
            Kept::Nobody => &[],
            Kept::One(lone) => slice::from_ref(lone.name()),
            Kept::Many(many) => many.as_slice(),
        }
    }

    /// The keys of the members, in the order of joining. No contract speaks of them.
    pub fn keys(&self) -> &[M] {
        match &self.kept {
            Kept::Nobody => &[],
            Kept::One(lone) => lone.keys(),
            Kept::Many(many) => many.keys(),
        }
    }

    /// Whether a user is one of them.
    pub fn has_member(&self, user: &NameBuf) -> bool
        ensures { result ≡ is_among user.now self.now }
    {
        match &self.kept {
            Kept::Nobody => false,
            Kept::One(lone) => lone.has_name(user),
            Kept::Many(many) => many.has_member(user),
        }
    }

    /// One alone.
    pub(crate) fn one(alloc: Global, name: NameBuf, key: M) -> Result<Members<M>, AllocError>
        ensures { IfOk result (λ members. members ≡ name ∷ []) }
    {
        Ok(Members {
            kept: Kept::One(Lone::new(alloc, name, key)?),
        })
    }

    /// One more, who is not among them. Where memory is refused, nothing changes.
    pub(crate) fn add(&mut self, alloc: Global, name: NameBuf, key: M) -> Result<(), AllocError>
        requires { is_among name self.old ≡ false }
        ensures ok { OnOk result (self.new ≡ self.old ++ name ∷ []) }
        ensures err { OnErr result (self.new ≡ self.old) }
    {
        match &mut self.kept {
            Kept::Nobody => self.kept = Kept::One(Lone::new(alloc, name, key)?),
            Kept::One(lone) => {
                let first = (lone.name().copy(), lone.key());
                let both = both_of(alloc, first, (name, key))?;
                self.kept = Kept::Many(both);
            }
            Kept::Many(many) => many.add(name, key)?,
        }
        Ok(())
    }

    /// Without one. Gives whether somebody is left.
    pub(crate) fn remove(&mut self, name: &NameBuf) -> bool
        ensures names { self.new ≡ all_but name.now self.old }
        ensures rest { result ≡ has_names (all_but name.now self.old) }
    {
        self.take_out(name);
        !self.as_slice().is_empty()
    }

    /// Without one.
    fn take_out(&mut self, name: &NameBuf)
        ensures { self.new ≡ all_but name.now self.old }
    {
        match &mut self.kept {
            Kept::Nobody => {}
            Kept::One(lone) => {
                if lone.has_name(name) {
                    self.kept = Kept::Nobody;
                }
            }
            Kept::Many(many) => many.remove(name),
        }
    }
}

/// Two with an index.
fn both_of<M: Copy>(
    alloc: Global,
    first: (NameBuf, M),
    second: (NameBuf, M),
) -> Result<Box<Many<M>>, AllocError>
    requires { is_among second.0 (first.0 ∷ []) ≡ false }
    ensures { IfOk result (λ both. both.value ≡ first.0 ∷ second.0 ∷ []) }
{
    let mut many = Many::new(alloc);
    many.add(first.0, first.1)?;
    many.add(second.0, second.1)?;
    match Box::new(alloc, many) {
        Ok(both) => Ok(both),
        Err(failed) => {
            drop(failed);
            Err(AllocError)
        }
    }
}
