//! What a client knows under one login, and how it was before the changes that are noted.

ghost use Rattle.std.specs.Prelude.{◌≡◌, true, false, [], IsTrue, IfSome, None};
ghost use Rattle.line_words.specs.Bytes.{is_name};
ghost use Rattle.line_words.specs.Table.{same_name};
ghost use Rattle.lobby_view.specs.View.{new_view};
ghost use Rattle.client_view.specs.Kept.{own_name};

use crate::lists::{UndoableBattles, UndoableChannels, UndoableUsers};
use line_words::NameBuf;
use std::alloc::Global;
use std::marker::Model;
use view_room::UndoableRoom;

/// What a client knows under one login. Each part notes its own changes.
pub(crate) struct Known {
    pub(crate) alloc: Global,
    me: Option<NameBuf>,
    pub(crate) users: UndoableUsers,
    pub(crate) battles: UndoableBattles,
    pub(crate) channels: UndoableChannels,
    pub(crate) room: UndoableRoom,
}

impl Drop for Known {
    /// Who lets this go calls this, and need not know what it is made of.
    fn drop(self) {
        let Known {
            alloc: _,
            me,
            users,
            battles,
            channels,
            room,
        } = self;
        drop(me);
        drop(users);
        drop(battles);
        drop(channels);
        drop(room);
    }
}

impl Model for Known {
    ghost use Rattle.std.specs.Prelude.{◌≡◌};
    ghost use Rattle.lobby_view.specs.View.{View};
    ghost use Rattle.noted_map.specs.Undoable.{Undoable};
    ghost use Rattle.client_view.specs.Kept.{own_name};

    ghost Value = { Undoable View };

    ghost view = { λ k. record {
      now = record {
        me = own_name k.me;
        users = k.users.now;
        battles = k.battles.now;
        channels = k.channels.now;
        own = k.room.now;
      };
      before = record {
        me = own_name k.me;
        users = k.users.before;
        battles = k.battles.before;
        channels =
            k.channels.before;
        own = k.room.before;
      };
      noting = k.users.noting;
    } };

    ghost invariant = { λ k. (k.battles.noting ≡ k.users.noting) × (k.channels.noting ≡ k.users.noting)
        × (k.room.noting ≡ k.users.noting) };
}

impl Known {
    /// What is known right after a login under this name, or before a login. It takes no memory, and nothing
    /// is noted.
    pub(crate) fn new(alloc: Global, me: Option<NameBuf>) -> Known
        ensures now { result.now ≡ new_view (own_name me) }
        ensures noting { result.noting ≡ false }
    {
        Known {
            alloc,
            me,
            users: UndoableUsers::new(alloc),
            battles: UndoableBattles::new(alloc),
            channels: UndoableChannels::new(alloc),
            room: UndoableRoom::new(alloc),
        }
    }

    /// The own name, none before a login.
    pub(crate) fn me(&self) -> Option<&[u8]>
        ensures some { IfSome result (λ name. (name.now ≡ self.now.now.me) × IsTrue (is_name name.now)) }
        ensures none { result ≡ None → self.now.now.me ≡ [] }
    {
        match &self.me {
            Some(name) => Some(name.as_slice()),
            None => None,
        }
    }

    /// Whether this is the own name.
    pub(crate) fn is_me(&self, name: &NameBuf) -> bool
        ensures { result ≡ same_name self.now.now.me name.now }
    {
        let me: &[u8] = match &self.me {
            Some(me) => me.as_slice(),
            None => &[],
        };
        me.cmp(name.as_slice()).is_eq()
    }

    /// Whether changes are noted.
    pub(crate) fn is_noting(&self) -> bool
        ensures { result ≡ self.now.noting }
    {
        self.room.is_noting()
    }

    /// Changes are noted from now on.
    pub(crate) fn begin(&mut self)
        ensures now { self.new.now ≡ self.old.now }
        ensures before { self.new.before ≡ self.old.now }
        ensures noting { self.new.noting ≡ true }
    {
        self.users.begin();
        self.battles.begin();
        self.channels.begin();
        self.room.begin();
    }

    /// What was noted stands for good, and changes are noted no more.
    pub(crate) fn settle(&mut self)
        ensures now { self.new.now ≡ self.old.now }
        ensures noting { self.new.noting ≡ false }
    {
        self.users.settle();
        self.battles.settle();
        self.channels.settle();
        self.room.settle();
    }

    /// All is as it was when changes began to be noted, and they are noted no more.
    pub(crate) fn take_back(&mut self)
        ensures now { self.new.now ≡ self.old.before }
        ensures noting { self.new.noting ≡ false }
    {
        self.users.take_back();
        self.battles.take_back();
        self.channels.take_back();
        self.room.take_back();
    }
}
