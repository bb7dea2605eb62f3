//! The members of the client's room.

ghost use Rattle.std.specs.Prelude.{◌≡◌, ℕ, List, ◌∷◌, [], ◌++◌, map, filter, not, if◌then◌else◌, OnOk, OnErr, IfOk};
ghost use Rattle.line_words.specs.Table.{same_name};
ghost use Rattle.room_lists.specs.Room as room;

use line_words::NameBuf;
use std::alloc::{AllocError, Global};
use std::marker::Model;

/// A member of the client's room.
#[derive(Drop)]
pub struct Member {
    /// Its name.
    pub name: NameBuf,
    /// Its battle status, of which `status_bits` tells the fields. 0 until the server tells it.
    pub status: u32,
    /// Its team colour, -2147483648 to 4294967295. 0 until the server tells it.
    pub colour: i64,
}

impl Model for Member {
    ghost use Rattle.room_lists.specs.Room as room;

    ghost Value = { room.Member };

    ghost view = { λ m. record { name = m.name; status = m.status; colour = m.colour } };
}

impl Member {
    /// One of whom nothing is told yet.
    fn new(name: NameBuf) -> Member
        ensures { result ≡ room.new_member name }
    {
        Member {
            name,
            status: 0,
            colour: 0,
        }
    }

    fn copy(&self) -> Member
        ensures { result ≡ self.now }
    {
        Member {
            name: self.name.copy(),
            status: self.status,
            colour: self.colour,
        }
    }

    /// A status and a colour for the member, if it has this name.
    fn put_status(&mut self, name: &NameBuf, status: u32, colour: i64)
        ensures { self.new ≡ (if same_name name.now self.old.name then room.member_with status colour self.old
            else self.old) }
    {
        if name.cmp(&self.name).is_eq() {
            self.status = status;
            self.colour = colour;
        }
    }
}

/// Members in order of joining. A server may send one twice.
#[derive(Drop)]
pub(crate) struct Members {
    members: Vec<Member>,
}

impl Model for Members {
    ghost use Rattle.std.specs.Prelude.{List};
    ghost use Rattle.room_lists.specs.Room as room;

    ghost Value = { List room.Member };

    ghost view = { λ m. m.members.items };
}

impl Members {
    /// A copy. Fails only where memory is refused.
    pub(crate) fn copy(&self, alloc: Global) -> Result<Members, AllocError>
        ensures { IfOk result (λ copy. copy ≡ self.now) }
    {
        let mut members = Vec::with_capacity(alloc, self.members.len())?;
        for member in self.as_slice() {
            members.push(member.copy())?;
        }
        Ok(Members { members })
    }

    /// Members of these names, of whom nothing is told yet.
    pub(crate) fn of(alloc: Global, names: &[NameBuf]) -> Result<Members, AllocError>
        ensures { IfOk result (λ members. members ≡ map room.new_member names.now) }
    {
        let mut members = Vec::new(alloc);
        for name in names {
            members.push(Member::new(name.copy()))?;
        }
        Ok(Members { members })
    }

    /// The members.
    pub(crate) fn as_slice(&self) -> &[Member]
        ensures { result.now ≡ self.now }
    {
        self.members.as_slice()
    }

    /// One more. Where memory is refused, nothing changes.
    pub(crate) fn add(&mut self, name: NameBuf) -> Result<(), AllocError>
        ensures ok { OnOk result (self.new ≡ self.old ++ room.new_member name ∷ []) }
        ensures err { OnErr result (self.new ≡ self.old) }
    {
        self.members.push(Member::new(name))?;
        Ok(())
    }

    /// Without the last, who has just been added.
    pub(crate) fn drop_last(&mut self)
        ensures { (before : List room.Member) (name : List ℕ) → self.old ≡ before ++ room.new_member name ∷ []
            → self.new ≡ before }
    {
        let _ = self.members.pop();
    }

    /// Without one.
    pub(crate) fn remove(&mut self, name: &NameBuf)
        ensures { self.new ≡ filter (λ m. not (same_name name.now m.name)) self.old }
    {
        self.members.retain(|m| !name.cmp(&m.name).is_eq());
    }

    /// A status and a colour for the member of a name.
    pub(crate) fn put_status(&mut self, name: &NameBuf, status: u32, colour: i64)
        ensures { self.new ≡ map (λ m. if same_name name.now m.name then room.member_with status colour m
            else m) self.old }
    {
        for member in self.members.iter_mut() {
            member.put_status(name, status, colour);
        }
    }
}
