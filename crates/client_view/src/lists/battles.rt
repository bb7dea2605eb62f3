//! The battles, as all see them.

ghost use Rattle.std.specs.Prelude.{◌≡◌, true, false, [], ◌∷◌, OnOk, OnErr};
ghost use Rattle.line_words.specs.Table.{at_number, put_number, without_number, change_number, all_but};
ghost use Rattle.noted_map.specs.Undoable.{Changes};
ghost use Rattle.lobby_model.specs.Opened.{info_of};
ghost use Rattle.lobby_model.specs.State.{updated};
ghost use Rattle.lobby_view.specs.View.{change_members, change_listed_info, at_end, members_of};
ghost use Rattle.client_view.specs.Battles.{with_update, battle_after, battle_back};

use crate::lists::names::{Names, NamesChange, NamesWere};
use line_words::{NameBuf, SentenceBuf};
use noted_map::{Edit, Entries, NotedMap, Undo};
use reply_kinds::OpenedBattle;
use std::alloc::{AllocError, Global};
use std::marker::Model;
use std::mem::replace;

/// A battle as it is listed.
pub struct Battle {
    /// What all were told of it as it opened; its map and the hash of that are those of now.
    pub opened: OpenedBattle,
    /// How many watch, 0 to 65535, as the founder says.
    pub spectators: u16,
    /// Whether nobody may join it now.
    pub locked: bool,
    pub(crate) members: Names,
}

impl Drop for Battle {
    /// Who lets a battle go calls this, and need not know what it is made of.
    fn drop(self) {
        let Battle {
            opened,
            spectators: _,
            locked: _,
            members,
        } = self;
        drop(opened);
        drop(members);
    }
}

impl Model for Battle {
    ghost use Rattle.lobby_model.specs.Opened.{info_of};
    ghost use Rattle.lobby_view.specs.View.{Listed};

    ghost Value = { Listed };

    ghost view = { λ b. record { info = info_of b.opened b.spectators b.locked; members = b.members } };
}

impl Battle {
    /// The names of its members in order of joining, the founder first.
    pub fn members(&self) -> &[NameBuf]
        ensures { result.now ≡ self.now.members }
    {
        self.members.as_slice()
    }

    /// What all know of it changes. Gives what that was.
    fn update(&mut self, update: Update) -> Update
        ensures now { self.new ≡ with_update update self.old }
        ensures was { with_update result self.new ≡ self.old }
    {
        Update {
            spectators: replace(&mut self.spectators, update.spectators),
            locked: replace(&mut self.locked, update.locked),
            map_hash: replace(&mut self.opened.map_hash, update.map_hash),
            map: replace(&mut self.opened.map, update.map),
        }
    }
}

/// What all know of a battle, as far as its founder changes it.
#[derive(Drop)]
pub(crate) struct Update {
    pub(crate) spectators: u16,
    pub(crate) locked: bool,
    pub(crate) map_hash: i64,
    pub(crate) map: SentenceBuf,
}

impl Update {
    /// Of its parts.
    fn of(spectators: u16, locked: bool, map_hash: i64, map: SentenceBuf) -> Update
        ensures { result ≡ (record { spectators = spectators; locked = locked; map_hash = map_hash; map = map }) }
    {
        Update {
            spectators,
            locked,
            map_hash,
            map,
        }
    }
}

/// A change of a battle.
#[derive(Drop)]
pub(crate) enum BattleChange<'a> {
    Info(Update),
    Members(NamesChange<'a>),
}

/// What a battle was before a change.
#[derive(Drop)]
pub(crate) enum BattleWas {
    Info(Update),
    Members(NamesWere),
}

impl<'a> Edit<Battle, BattleWas> for BattleChange<'a> {
    ghost after = { battle_after };

    fn make(self, battle: &mut Battle) -> Result<(), AllocError> {
        match self {
            BattleChange::Info(update) => {
                drop(battle.update(update));
                Ok(())
            }
            BattleChange::Members(names) => names.make(&mut battle.members),
        }
    }

    fn make_noted(self, battle: &mut Battle) -> Result<BattleWas, AllocError> {
        match self {
            BattleChange::Info(update) => Ok(BattleWas::Info(battle.update(update))),
            BattleChange::Members(names) => {
                let were = names.make_noted(&mut battle.members)?;
                Ok(BattleWas::Members(were))
            }
        }
    }
}

impl Undo<Battle> for BattleWas {
    ghost back = { battle_back };

    fn undo(self, battle: &mut Battle) {
        match self {
            BattleWas::Info(update) => drop(battle.update(update)),
            BattleWas::Members(names) => names.undo(&mut battle.members),
        }
    }
}

/// The battles by their numbers, in the order of these.
pub type Battles<'a> = Entries<'a, u32, Battle>;

/// The battles, whose changes can be taken back.
pub struct UndoableBattles {
    alloc: Global,
    by_number: NotedMap<u32, Battle, BattleWas>,
}

impl Drop for UndoableBattles {
    /// Who lets battles go calls this, and need not know what they are made of.
    fn drop(self) {
        let UndoableBattles {
            alloc: _,
            by_number,
        } = self;
        drop(by_number);
    }
}

impl Model for UndoableBattles {
    ghost use Rattle.line_words.specs.Table.{ByNumber};
    ghost use Rattle.noted_map.specs.Undoable.{Undoable};
    ghost use Rattle.lobby_view.specs.View.{Listed};

    ghost Value = { Undoable (ByNumber Listed) };

    ghost view = { λ b. b.by_number };
}

impl UndoableBattles {
    /// No battle, and nothing is noted. It takes no memory yet.
    pub fn new(alloc: Global) -> UndoableBattles
        ensures now { result.now ≡ [] }
        ensures before { result.before ≡ [] }
        ensures noting { result.noting ≡ false }
    {
        UndoableBattles {
            alloc,
            by_number: NotedMap::new(alloc),
        }
    }

    /// The battles as they are now.
    pub fn battles(&self) -> Battles<'_>
        ensures { result ≡ self.now.now }
    {
        self.by_number.entries()
    }

    /// The names of the members of a battle in order of joining, none where no battle has the number.
    pub(crate) fn members_of(&self, number: u32) -> &[NameBuf]
        ensures { result.now ≡ members_of (at_number self.now.now number) }
    {
        match self.battles().get(&number) {
            Some(battle) => battle.members(),
            None => &[],
        }
    }

    /// A battle opens, in place of one of the number: its founder alone is in it, nobody watches, and it is not
    /// locked. Where memory is refused, nothing changes.
    pub fn open(
        &mut self,
        alloc: Global,
        number: u32,
        opened: OpenedBattle,
    ) -> Result<(), AllocError>
        ensures ok { OnOk result (Changes (λ battles.
            put_number battles number (record {
              info = info_of opened 0 false;
              members = opened.founder
                  ∷ [];
            })) self.old self.new) }
        ensures err { OnErr result (self.new ≡ self.old) }
    {
        let members = Names::one(alloc, opened.founder.copy())?;
        let battle = Battle {
            spectators: 0,
            locked: false,
            opened,
            members,
        };
        self.by_number.put(number, battle)
    }

    /// What all know of a battle changes. Where memory is refused, nothing does.
    pub fn update(
        &mut self,
        number: u32,
        spectators: u16,
        locked: bool,
        map_hash: i64,
        map: SentenceBuf,
    ) -> Result<(), AllocError>
        ensures ok { OnOk result (Changes (λ battles.
            change_number battles number (change_listed_info (updated spectators locked map_hash map))) self.old
            self.new) }
        ensures err { OnErr result (self.new ≡ self.old) }
    {
        let update = Update::of(spectators, locked, map_hash, map);
        self.by_number.edit(&number, BattleChange::Info(update))
    }

    /// One joins a battle. Where memory is refused, nothing changes.
    pub fn add_member(&mut self, number: u32, name: NameBuf) -> Result<(), AllocError>
        ensures ok { OnOk result (Changes (λ battles.
            change_number battles number (change_members (at_end (name ∷ [])))) self.old self.new) }
        ensures err { OnErr result (self.new ≡ self.old) }
    {
        let joins = BattleChange::Members(NamesChange::Add(name));
        self.by_number.edit(&number, joins)
    }

    /// One leaves a battle. Where memory is refused, nothing changes.
    pub fn remove_member(&mut self, number: u32, name: &NameBuf) -> Result<(), AllocError>
        ensures ok { OnOk result (Changes (λ battles.
            change_number battles number (change_members (all_but name.now))) self.old self.new) }
        ensures err { OnErr result (self.new ≡ self.old) }
    {
        let leaves = NamesChange::Remove {
            name,
            alloc: self.alloc,
        };
        self.by_number.edit(&number, BattleChange::Members(leaves))
    }

    /// A battle closes. Where memory is refused, nothing changes.
    pub fn remove(&mut self, number: u32) -> Result<(), AllocError>
        ensures ok { OnOk result (Changes (λ battles. without_number battles number) self.old self.new) }
        ensures err { OnErr result (self.new ≡ self.old) }
    {
        self.by_number.remove(&number)
    }

    /// From now on changes are noted.
    pub fn begin(&mut self)
        ensures now { self.new.now ≡ self.old.now }
        ensures before { self.new.before ≡ self.old.now }
        ensures noting { self.new.noting ≡ true }
    {
        self.by_number.begin();
    }

    /// The changes stay, and no more are noted.
    pub fn settle(&mut self)
        ensures now { self.new.now ≡ self.old.now }
        ensures noting { self.new.noting ≡ false }
    {
        self.by_number.settle();
    }

    /// The battles are again as they were when noting began, and changes are not noted any more.
    pub fn take_back(&mut self)
        ensures now { self.new.now ≡ self.old.before }
        ensures noting { self.new.noting ≡ false }
    {
        self.by_number.take_back();
    }
}
