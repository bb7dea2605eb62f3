//! The members of a room.

ghost use Rattle.std.specs.Prelude.{◌≡◌, ◌∷◌, [], ◌++◌, map, filter, find, not, if◌then◌else◌, false, OnOk, OnErr};
ghost use Rattle.std.specs.Prelude.{IfOk, option_copied};
ghost use Rattle.std.specs.List.{IsDistinct};
ghost use Rattle.line_words.specs.Table.{same_name, is_among};
ghost use Rattle.room_lists.specs.Room as room;
ghost use Rattle.battle_room.specs.Refusals.{is_first};

use indexmap::IndexMap;
use line_words::NameBuf;
use status_bits::BattleStatus;
use std::alloc::{AllocError, Global};
use std::marker::Model;

/// A member of a room, with the status and the colour that it shows.
///
/// It keeps the key with which it joined, a value of the caller's own. The room does not read it, and
/// no contract speaks of it.
#[derive(Drop)]
pub struct Member<M: Copy = ()> {
    name: NameBuf,
    key: M,
    status: BattleStatus,
    colour: i64,
}

impl<M: Copy> Model for Member<M> {
    ghost use Rattle.room_lists.specs.Room as room;

    ghost Value = { room.Member };

    ghost view = { λ m. record { name = m.name; status = m.status; colour = m.colour } };
}

impl<M: Copy> Member<M> {
    /// One who has just joined.
    fn new(name: NameBuf, key: M) -> Member<M>
        ensures { result ≡ room.new_member name }
    {
        Member {
            name,
            key,
            status: BattleStatus::zero(),
            colour: 0,
        }
    }

    /// The member's name.
    pub fn name(&self) -> &NameBuf
        ensures { result.now ≡ self.now.name }
    {
        &self.name
    }

    /// The key that was given with the member. No contract speaks of it.
    pub fn key(&self) -> M {
        self.key
    }

    /// The status that the member shows.
    pub fn status(&self) -> BattleStatus
        ensures { result ≡ self.now.status }
    {
        self.status
    }

    /// The colour that the member shows, as it was sent (`teamColor`): in the protocol -2147483648 to
    /// 4294967295, which is not checked here.
    pub fn colour(&self) -> i64
        ensures { result ≡ self.now.colour }
    {
        self.colour
    }

    /// A status and a colour for the member.
    fn put_status(&mut self, status: BattleStatus, colour: i64)
        ensures { self.new ≡ room.member_with status colour self.old }
    {
        self.status = status;
        self.colour = colour;
    }
}

/// Members in order of joining, none of them twice.
///
/// A look-up by name takes the same time however many there are. The index has each name once more as
/// its key, which takes no memory of its own.
#[derive(Drop)]
pub(crate) struct Members<M: Copy> {
    by_name: IndexMap<NameBuf, Member<M>>,
}

impl<M: Copy> Model for Members<M> {
    ghost use Rattle.std.specs.Prelude.{List, ℕ};
    ghost use Rattle.indexmap.specs.IndexMap.{values};
    ghost use Rattle.room_lists.specs.Room as room;
    ghost use Rattle.room_lists.specs.Index.{IsIndex, AreApart};

    ghost Value = { List room.Member };

    ghost view = { λ m. values m.by_name };

    // Each member stands behind its own name, and no name stands twice.
    ghost invariant = { λ m. IsIndex (λ (name : List ℕ). name) (λ (member : room.Member).
        member.name) m.by_name.entries × AreApart m.by_name.entries };
}

impl<M: Copy> Members<M> {
    /// The founder alone.
    pub(crate) fn one(alloc: Global, founder: NameBuf, key: M) -> Result<Members<M>, AllocError>
        ensures { IfOk result (λ members. members ≡ room.new_member founder ∷ []) }
    {
        let mut members = Members {
            by_name: IndexMap::new(alloc),
        };
        members.add(founder, key)?;
        Ok(members)
    }

    /// The members.
    pub(crate) fn as_slice(&self) -> &[Member<M>]
        ensures members { result.now ≡ self.now }
        ensures distinct { IsDistinct same_name (map (λ m. m.name) result.now) }
    {
        self.by_name.as_slice().values().as_slice()
    }

    /// The names of the members.
    pub(crate) fn names(&self) -> &[NameBuf]
        ensures { result.now ≡ map (λ m. m.name) self.now }
    {
        self.by_name.keys().as_slice()
    }

    /// The member of a name.
    pub(crate) fn member(&self, name: &NameBuf) -> Option<&Member<M>>
        ensures { option_copied result ≡ find (λ m. same_name name.now m.name) self.now }
    {
        self.by_name.get(name)
    }

    /// Whether one of this name is there.
    pub(crate) fn has(&self, name: &NameBuf) -> bool
        ensures { result ≡ is_among name.now (map (λ m. m.name) self.now) }
    {
        self.by_name.contains_key(name)
    }

    /// Whether the first has this name.
    pub(crate) fn is_first(&self, name: &NameBuf) -> bool
        ensures { result ≡ is_first name.now self.now }
    {
        match self.as_slice().first() {
            Some(founder) => name.cmp(founder.name()).is_eq(),
            None => false,
        }
    }

    /// One more, who is not among them. Where memory is refused, nothing changes.
    pub(crate) fn add(&mut self, name: NameBuf, key: M) -> Result<(), AllocError>
        requires { is_among name (map (λ m. m.name) self.old) ≡ false }
        ensures ok { OnOk result (self.new ≡ self.old ++ room.new_member name ∷ []) }
        ensures err { OnErr result (self.new ≡ self.old) }
    {
        self.by_name.insert(name.copy(), Member::new(name, key))?;
        Ok(())
    }

    /// Without one.
    pub(crate) fn remove(&mut self, name: &NameBuf)
        ensures { self.new ≡ filter (λ m. not (same_name name.now m.name)) self.old }
    {
        let _ = self.by_name.shift_remove(name);
    }

    /// A status and a colour for the member of a name.
    pub(crate) fn put_status(&mut self, name: &NameBuf, status: BattleStatus, colour: i64)
        ensures { self.new ≡ map (λ m. if same_name name.now m.name then room.member_with status colour m
            else m) self.old }
    {
        if let Some(member) = self.by_name.get_mut(name) {
            member.put_status(status, colour);
        }
    }
}
