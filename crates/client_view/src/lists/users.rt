//! The users who are logged in, as a client knows them.

ghost use Rattle.std.specs.Prelude.{◌≡◌, [], true, false, OnOk, OnErr};
ghost use Rattle.line_words.specs.Table.{put_name, without_name, change_name};
ghost use Rattle.noted_map.specs.Undoable.{Changes};
ghost use Rattle.lobby_view.specs.View.{known_with};

use line_words::{NameBuf, WordBuf};
use noted_map::{Edit, Entries, NotedMap, Undo};
use std::alloc::{AllocError, Global};
use std::marker::Model;

/// What is known of a user who is logged in.
#[derive(Drop)]
pub struct User {
    /// The country of its account, two letters, or `??`: any word, as the server tells it.
    pub country: WordBuf,
    /// What its login said of its processor, -2147483648 to 4294967295.
    pub cpu: i64,
    /// The number of its account, 0 to 4294967295.
    pub account: u32,
    /// Its status word, of which `status_bits` tells the fields.
    pub status: u32,
}

impl Model for User {
    ghost use Rattle.lobby_view.specs.View.{Known};

    ghost Value = { Known };

    ghost view = { λ u. record { country = u.country; cpu = u.cpu; account = u.account; status = u.status } };
}

impl User {
    /// A status in place of the one that it has.
    fn set_status(&mut self, status: u32)
        ensures { self.new ≡ known_with status self.old }
    {
        self.status = status;
    }
}

/// A status that a user is to have.
#[derive(Drop)]
struct Status {
    status: u32,
}

impl Undo<User> for Status {
    ghost back = { λ to user. known_with to.status user };

    fn undo(self, user: &mut User) {
        user.set_status(self.status);
    }
}

impl Edit<User, Status> for Status {
    ghost after = { λ to user. known_with to.status user };

    fn make(self, user: &mut User) -> Result<(), AllocError> {
        user.set_status(self.status);
        Ok(())
    }

    fn make_noted(self, user: &mut User) -> Result<Status, AllocError> {
        let was = Status {
            status: user.status,
        };
        user.set_status(self.status);
        Ok(was)
    }
}

/// The users who are logged in, by their names, in the order of the bytes of these.
pub type Users<'a> = Entries<'a, NameBuf, User>;

/// The users who are logged in, whose changes can be taken back.
pub struct UndoableUsers {
    by_name: NotedMap<NameBuf, User, Status>,
}

impl Drop for UndoableUsers {
    /// Who lets users go calls this, and need not know what they are made of.
    fn drop(self) {
        let UndoableUsers { by_name } = self;
        drop(by_name);
    }
}

impl Model for UndoableUsers {
    ghost use Rattle.line_words.specs.Table.{ByName};
    ghost use Rattle.noted_map.specs.Undoable.{Undoable};
    ghost use Rattle.lobby_view.specs.View.{Known};

    ghost Value = { Undoable (ByName Known) };

    ghost view = { λ u. u.by_name };
}

impl UndoableUsers {
    /// Nobody is known, and nothing is noted. It takes no memory yet.
    pub fn new(alloc: Global) -> UndoableUsers
        ensures now { result.now ≡ [] }
        ensures before { result.before ≡ [] }
        ensures noting { result.noting ≡ false }
    {
        UndoableUsers {
            by_name: NotedMap::new(alloc),
        }
    }

    /// The users as they are now.
    pub fn users(&self) -> Users<'_>
        ensures { result ≡ self.now.now }
    {
        self.by_name.entries()
    }

    /// A user logs in, in place of one of the name. Where memory is refused, nothing changes.
    pub fn put(&mut self, name: NameBuf, user: User) -> Result<(), AllocError>
        ensures ok { OnOk result (Changes (λ users. put_name users name user) self.old self.new) }
        ensures err { OnErr result (self.new ≡ self.old) }
    {
        self.by_name.put(name, user)
    }

    /// A status for a user. Where there is none of the name, or memory is refused, nothing changes.
    pub fn set_status(&mut self, name: &NameBuf, status: u32) -> Result<(), AllocError>
        ensures ok { OnOk result (Changes (λ users. change_name users name.now (known_with status)) self.old self.new) }
        ensures err { OnErr result (self.new ≡ self.old) }
    {
        self.by_name.edit(name, Status { status })
    }

    /// A user logs out. Where memory is refused, nothing changes.
    pub fn remove(&mut self, name: &NameBuf) -> Result<(), AllocError>
        ensures ok { OnOk result (Changes (λ users. without_name users name.now) self.old self.new) }
        ensures err { OnErr result (self.new ≡ self.old) }
    {
        self.by_name.remove(name)
    }

    /// From now on changes are noted.
    pub fn begin(&mut self)
        ensures now { self.new.now ≡ self.old.now }
        ensures before { self.new.before ≡ self.old.now }
        ensures noting { self.new.noting ≡ true }
    {
        self.by_name.begin();
    }

    /// The changes stay, and no more are noted.
    pub fn settle(&mut self)
        ensures now { self.new.now ≡ self.old.now }
        ensures noting { self.new.noting ≡ false }
    {
        self.by_name.settle();
    }

    /// The users are again as they were when noting began, and changes are not noted any more.
    pub fn take_back(&mut self)
        ensures now { self.new.now ≡ self.old.before }
        ensures noting { self.new.noting ≡ false }
    {
        self.by_name.take_back();
    }
}
