//! What a client knows, which lines change and which can be as it was before them.

ghost use Rattle.std.specs.Prelude.{◌≡◌, [], true, false, OnOk, OnErr};
ghost use Rattle.reply_kinds.specs.declared.Reply.TheVariants as reply;
ghost use Rattle.lobby_view.specs.View.{new_view, shown};
ghost use Rattle.noted_map.specs.Undoable.{Changes};
ghost use Rattle.client_view.specs.Refused.{Refused};

use crate::known::Known;
use reply_kinds::{Name, Reply};
use std::alloc::{AllocError, Global};
use std::marker::Model;
use std::mem::replace;

/// What a client knows, which can be as it was before some lines.
pub(crate) struct UndoableKnown {
    pub(crate) known: Known,
    // What was known when a login was accepted, the first of the lines that are noted. All begins anew then.
    earlier: Option<Known>,
}

impl Drop for UndoableKnown {
    /// Who lets this go calls this, and need not know what it is made of.
    fn drop(self) {
        let UndoableKnown { known, earlier } = self;
        drop(known);
        drop(earlier);
    }
}

impl Model for UndoableKnown {
    ghost use Rattle.lobby_view.specs.View.{View};
    ghost use Rattle.noted_map.specs.Undoable.{Undoable};
    ghost use Rattle.client_view.specs.Kept.{first_before};

    ghost Value = { Undoable View };

    ghost view = { λ u. record {
      now = u.known.now;
      before = first_before u.earlier u.known;
      noting = u.known.noting;
    } };
}

impl UndoableKnown {
    /// Nothing is known. It takes no memory, and nothing is noted.
    pub(crate) fn new(alloc: Global) -> UndoableKnown
        ensures now { result.now ≡ new_view [] }
        ensures noting { result.noting ≡ false }
    {
        UndoableKnown {
            known: Known::new(alloc, None),
            earlier: None,
        }
    }

    /// Changes are noted from now on.
    pub(crate) fn begin(&mut self)
        ensures now { self.new.now ≡ self.old.now }
        ensures before { self.new.before ≡ self.old.now }
        ensures noting { self.new.noting ≡ true }
    {
        self.earlier = None;
        self.known.begin();
    }

    /// What was noted stands for good, and changes are noted no more.
    pub(crate) fn settle(&mut self)
        ensures now { self.new.now ≡ self.old.now }
        ensures noting { self.new.noting ≡ false }
    {
        self.earlier = None;
        self.known.settle();
    }

    /// All is as it was when changes began to be noted, and they are noted no more.
    pub(crate) fn take_back(&mut self)
        ensures now { self.new.now ≡ self.old.before }
        ensures noting { self.new.noting ≡ false }
    {
        if let Some(earlier) = self.earlier.take() {
            self.known = earlier;
        }
        self.known.take_back();
    }

    /// Folds a reply.
    pub(crate) fn fold(&mut self, reply: &Reply) -> Result<(), AllocError>
        ensures ok { OnOk result (Changes (λ v. shown v reply.now) self.old self.new) }
        ensures err { OnErr result (Refused self.old self.new) }
    {
        match reply {
            Reply::Accepted { user } => {
                self.accepted(user);
                Ok(())
            }
            _ => self.known.fold(reply),
        }
    }

    /// The login was accepted: all begins anew.
    fn accepted(&mut self, name: &Name)
        ensures { Changes (λ v. shown v (reply.Accepted name.now)) self.old self.new }
    {
        let known = Known::new(self.known.alloc, Some(name.to_name()));
        if self.known.is_noting() {
            self.begin_anew(known);
        } else {
            self.known = known;
        }
    }

    /// From now on this is known, and what was before the changes that are noted stays.
    fn begin_anew(&mut self, mut known: Known)
        ensures now { self.new.now ≡ known.now }
        ensures before { self.new.before ≡ self.old.before }
        ensures noting { self.new.noting ≡ true }
    {
        known.begin();
        let last = replace(&mut self.known, known);
        match &self.earlier {
            Some(_) => {}
            None => self.earlier = Some(last),
        }
    }
}
