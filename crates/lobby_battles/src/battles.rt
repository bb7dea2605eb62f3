//! The battles, and what becomes of them.

ghost use Rattle.std.specs.Prelude.{◌≡◌, [], OnOk, OnErr, IfSome, Some, None, true, false};
ghost use Rattle.line_words.specs.Table.{ByNumber, at_number, change_number, put_number};
ghost use Rattle.lobby_model.specs.State.{Battle, Client, updated};
ghost use Rattle.room_lists.specs.Room.{has_asker, has_member, with_asker, with_member};
ghost use Rattle.lobby_battles.specs.Info.{info_changed};
ghost use Rattle.lobby_battles.specs.OnlineUsers.{Agree, users_of};
ghost use Rattle.lobby_battles.specs.Battles.{asks_at, battles_after, last_after, left_battle, let_in, unasked};
ghost use Rattle.lobby_battles.specs.Battles.{room_after, room_changed, KnowTheirBattles, CanChange, FitsRoom};
ghost use Rattle.lobby_battles.specs.Battles.{IsNowhere};

use crate::battle::Battle;
use crate::online_users::OnlineUsers;
use battle_room::{Bot, Rect};
use line_words::{NameBuf, PairList, SentenceBuf, WordBuf, WordList};
use lobby_post::ClientKey;
use status_bits::BattleStatus;
use std::alloc::{AllocError, Global};
use std::collections::BTreeMap;

/// The last battle number that may be given.
pub const LAST_NUMBER: u32 = 2_147_483_647;

/// What becomes of the battles.
#[derive(Drop)]
pub enum BattleChange {
    /// A battle opens with its founder as the only member. It is boxed, since it is many times as large as
    /// what other changes hold, and a change is moved at each event.
    Open {
        number: u32,
        name: NameBuf,
        battle: Box<Battle>,
    },
    /// A user joins a battle.
    Join {
        number: u32,
        name: NameBuf,
    },
    /// A user asks to join a battle, with the script password that it gave.
    Ask {
        number: u32,
        name: NameBuf,
        script_password: Option<WordBuf>,
    },
    /// One who asks to join a battle joins it.
    LetIn {
        number: u32,
        name: NameBuf,
    },
    /// One who may ask to join a battle asks no more.
    StopAsking {
        number: u32,
        name: NameBuf,
    },
    /// A member leaves a battle, which goes with its founder.
    Leave {
        number: u32,
        name: NameBuf,
    },
    /// What all know of a battle changes.
    Update {
        number: u32,
        spectators: u16,
        locked: bool,
        map_hash: i64,
        map: SentenceBuf,
    },
    /// What the members of a battle share changes.
    InRoom {
        number: u32,
        change: RoomChange,
    },
}

/// What becomes of what the members of a battle share.
#[derive(Drop)]
pub enum RoomChange {
    /// A member has this status and colour.
    Status {
        name: NameBuf,
        status: BattleStatus,
        colour: i64,
    },
    /// A bot is added.
    AddBot {
        bot: Bot,
    },
    /// A bot has this status and colour.
    BotStatus {
        name: WordBuf,
        status: BattleStatus,
        colour: i64,
    },
    /// A bot goes.
    RemoveBot {
        name: WordBuf,
    },
    /// An ally team, 0 to 15, starts here.
    SetRect {
        ally: u8,
        rect: Rect,
    },
    /// An ally team, 0 to 15, starts anywhere.
    RemoveRect {
        ally: u8,
    },
    /// Script tags are set.
    SetTags {
        pairs: PairList,
    },
    /// Script tags go.
    RemoveTags {
        keys: WordList,
    },
    /// Units are disabled.
    DisableUnits {
        words: WordList,
    },
    /// Units are disabled no more.
    EnableUnits {
        words: WordList,
    },
    /// No unit is disabled any more.
    EnableAllUnits,
}

/// The battles by their numbers.
#[derive(Drop)]
pub struct Battles {
    /// Each battle that is open, by its number.
    pub by_number: BTreeMap<u32, Battle>,
    /// The last number given, 0 at first.
    pub last: u32,
}

impl Battles {
    /// No battle.
    pub fn new(alloc: Global) -> Battles
        ensures battles { result.by_number.entries ≡ [] }
        ensures last { result.last ≡ 0 }
    {
        Battles {
            by_number: BTreeMap::new(alloc),
            last: 0,
        }
    }

    /// The battle of this number, where a user is one of its members.
    pub fn with_member(&self, number: u32, name: &NameBuf) -> Option<&Battle>
        ensures some { IfSome result (λ battle.
            (at_number self.now.by_number.entries number ≡ Some battle.now)
            × (has_member name.now battle.now.room ≡ true)) }
        ensures none { result ≡ None → (battle : Battle) → at_number self.now.by_number.entries number ≡ Some battle
            → has_member name.now battle.room ≡ false }
    {
        match self.by_number.get(&number) {
            Some(battle) if battle.room.has_member(name) => Some(battle),
            _ => None,
        }
    }

    /// Whether a user asks to join the battle of this number.
    pub fn asks_at(&self, number: u32, name: &NameBuf) -> bool
        ensures { result ≡ asks_at (at_number self.now.by_number.entries number) name.now }
    {
        match self.by_number.get(&number) {
            Some(battle) => battle.room.has_asker(name),
            None => false,
        }
    }

    /// Changes the battles, and where users sit. Where memory is refused, nothing changes.
    pub fn apply(
        &mut self,
        online: &mut OnlineUsers,
        client: u64,
        change: BattleChange,
    ) -> Result<(), AllocError>
        requires can { (clients : ByNumber Client) × Agree clients online.old.users.entries
            × CanChange clients self.old.by_number.entries client change }
        requires knowing { KnowTheirBattles self.old.by_number.entries online.old.users.entries }
        ensures battles { OnOk result (self.new.by_number.entries ≡ battles_after change self.old.by_number.entries) }
        ensures last { OnOk result (self.new.last ≡ last_after change self.old.last) }
        ensures users { users_of online.new.users.entries ≡ users_of online.old.users.entries }
        ensures numbers { online.new.clients.keys ≡ online.old.clients.keys }
        ensures agree { (clients : ByNumber Client) → Agree clients online.old.users.entries
            → Agree clients online.new.users.entries }
        ensures knowing { OnOk result (KnowTheirBattles self.new.by_number.entries online.new.users.entries) }
        ensures err { OnErr result ((self.new.by_number.entries ≡ self.old.by_number.entries)
            × (self.new.last ≡ self.old.last) × (online.new.users.entries ≡ online.old.users.entries)) }
    {
        match change {
            BattleChange::Open {
                number,
                name,
                battle,
            } => {
                self.add(number, battle)?;
                online.enter_battle(&name, number);
            }
            BattleChange::Join { number, name } => {
                self.add_member(number, &name, online.key_of(&name))?;
                online.enter_battle(&name, number);
            }
            BattleChange::Ask {
                number,
                name,
                script_password,
            } => {
                self.add_asker(number, &name, script_password)?;
                online.enter_battle(&name, number);
            }
            BattleChange::LetIn { number, name } => {
                self.let_in(number, &name, online.key_of(&name))?;
            }
            BattleChange::StopAsking { number, name } => self.stop_asking(number, &name),
            BattleChange::Leave { number, name } => self.leave(number, &name),
            BattleChange::Update {
                number,
                spectators,
                locked,
                map_hash,
                map,
            } => self.update(number, spectators, locked, map_hash, map),
            BattleChange::InRoom { number, change } => self.change_room(number, change)?,
        }
        Ok(())
    }

    /// A battle opens. Where memory is refused, nothing changes.
    fn add(&mut self, number: u32, battle: Box<Battle>) -> Result<(), AllocError>
        ensures battles { OnOk result (self.new.by_number.entries
            ≡ put_number self.old.by_number.entries number battle.value) }
        ensures last { OnOk result (self.new.last ≡ number) }
        ensures err { OnErr result ((self.new.by_number.entries ≡ self.old.by_number.entries)
            × (self.new.last ≡ self.old.last)) }
    {
        match self.by_number.insert(number, Box::into_inner(battle)) {
            Ok(old) => drop(old),
            Err(failed) => {
                drop(failed);
                return Err(AllocError);
            }
        }
        self.last = number;
        Ok(())
    }

    /// One who is no member of the battle of this number enters it, with the key of its client.
    /// Where memory is refused, nothing changes.
    fn add_member(&mut self, number: u32, name: &NameBuf, key: ClientKey) -> Result<(), AllocError>
        requires { IsNowhere (has_member name.now) self.old.by_number.entries }
        ensures battles { OnOk result (self.new.by_number.entries
            ≡ change_number self.old.by_number.entries number (room_changed (with_member name.now))) }
        ensures last { self.new.last ≡ self.old.last }
        ensures err { OnErr result (self.new.by_number.entries ≡ self.old.by_number.entries) }
    {
        if let Some(battle) = self.by_number.get_mut(&number) {
            battle.add_member(name.copy(), key)?;
        }
        Ok(())
    }

    /// One who neither is a member of the battle of this number nor asks to be asks to join it. Where
    /// memory is refused, nothing changes.
    fn add_asker(
        &mut self,
        number: u32,
        name: &NameBuf,
        script_password: Option<WordBuf>,
    ) -> Result<(), AllocError>
        requires member { IsNowhere (has_member name.now) self.old.by_number.entries }
        requires asker { IsNowhere (has_asker name.now) self.old.by_number.entries }
        ensures battles { OnOk result (self.new.by_number.entries
            ≡ change_number self.old.by_number.entries number (room_changed (with_asker name.now script_password))) }
        ensures last { self.new.last ≡ self.old.last }
        ensures err { OnErr result (self.new.by_number.entries ≡ self.old.by_number.entries) }
    {
        if let Some(battle) = self.by_number.get_mut(&number) {
            battle.add_asker(name.copy(), script_password)?;
        }
        Ok(())
    }

    /// One who asks to join the battle of this number, and is no member, enters it, with the key of its
    /// client. Where memory is refused, nothing changes.
    fn let_in(&mut self, number: u32, name: &NameBuf, key: ClientKey) -> Result<(), AllocError>
        requires { (battle : Battle) → at_number self.old.by_number.entries number ≡ Some battle
            → has_member name.now battle.room ≡ false }
        ensures battles { OnOk result (self.new.by_number.entries
            ≡ change_number self.old.by_number.entries number (room_changed (let_in name.now))) }
        ensures last { self.new.last ≡ self.old.last }
        ensures err { OnErr result (self.new.by_number.entries ≡ self.old.by_number.entries) }
    {
        if let Some(battle) = self.by_number.get_mut(&number) {
            battle.let_in(name, key)?;
        }
        Ok(())
    }

    /// What all know of the battle of this number changes.
    fn update(
        &mut self,
        number: u32,
        spectators: u16,
        locked: bool,
        map_hash: i64,
        map: SentenceBuf,
    )
        ensures battles { self.new.by_number.entries
            ≡ change_number self.old.by_number.entries number (info_changed (updated spectators locked map_hash map)) }
        ensures last { self.new.last ≡ self.old.last }
    {
        if let Some(battle) = self.by_number.get_mut(&number) {
            battle.update(spectators, locked, map_hash, map);
        }
    }

    /// What the members of the battle of this number share changes. Where memory is refused, nothing
    /// does.
    fn change_room(&mut self, number: u32, change: RoomChange) -> Result<(), AllocError>
        requires { FitsRoom change }
        ensures battles { OnOk result (self.new.by_number.entries
            ≡ change_number self.old.by_number.entries number (room_changed (room_after change))) }
        ensures last { self.new.last ≡ self.old.last }
        ensures err { OnErr result (self.new.by_number.entries ≡ self.old.by_number.entries) }
    {
        if let Some(battle) = self.by_number.get_mut(&number) {
            battle.change_room(change)?;
        }
        Ok(())
    }

    /// A user asks to join the battle of this number no more. It takes no memory.
    pub fn stop_asking(&mut self, number: u32, name: &NameBuf)
        ensures battles { self.new.by_number.entries ≡ unasked number name.now self.old.by_number.entries }
        ensures last { self.new.last ≡ self.old.last }
    {
        if let Some(battle) = self.by_number.get_mut(&number) {
            battle.room.drop_asker(name);
        }
    }

    /// A user leaves the battle of this number, which goes with its founder. It takes no memory.
    pub fn leave(&mut self, number: u32, name: &NameBuf)
        ensures battles { self.new.by_number.entries ≡ left_battle number name.now self.old.by_number.entries }
        ensures last { self.new.last ≡ self.old.last }
    {
        if let Some(battle) = self.by_number.get_mut(&number) {
            if battle.is_founder(name) {
                drop(self.by_number.remove(&number));
            } else {
                battle.room.drop_member(name);
            }
        }
    }
}

impl Battle {
    /// One who is no member enters, behind the others, with the key of its client. Where memory
    /// is refused, nothing changes.
    fn add_member(&mut self, name: NameBuf, key: ClientKey) -> Result<(), AllocError>
        requires { has_member name self.old.room ≡ false }
        ensures ok { OnOk result (self.new ≡ room_changed (with_member name) self.old) }
        ensures err { OnErr result (self.new ≡ self.old) }
    {
        self.room.add_keyed(name, key)
    }

    /// One who neither is a member nor asks to be asks to join, with the script password that it gave.
    /// Where memory is refused, nothing changes.
    fn add_asker(
        &mut self,
        name: NameBuf,
        script_password: Option<WordBuf>,
    ) -> Result<(), AllocError>
        requires member { has_member name self.old.room ≡ false }
        requires asker { has_asker name self.old.room ≡ false }
        ensures ok { OnOk result (self.new ≡ room_changed (with_asker name script_password) self.old) }
        ensures err { OnErr result (self.new ≡ self.old) }
    {
        self.room.put_asker(name, script_password)
    }

    /// One who asks, and is no member, enters, behind the others, with the key of its client.
    /// Where memory is refused, nothing changes.
    fn let_in(&mut self, name: &NameBuf, key: ClientKey) -> Result<(), AllocError>
        requires { has_member name.now self.old.room ≡ false }
        ensures ok { OnOk result (self.new ≡ room_changed (let_in name.now) self.old) }
        ensures err { OnErr result (self.new ≡ self.old) }
    {
        self.room.let_in_keyed(name, key)
    }

    /// What its members share changes. Where memory is refused, nothing does.
    fn change_room(&mut self, change: RoomChange) -> Result<(), AllocError>
        requires { FitsRoom change }
        ensures ok { OnOk result (self.new ≡ room_changed (room_after change) self.old) }
        ensures err { OnErr result (self.new ≡ self.old) }
    {
        match change {
            RoomChange::Status {
                name,
                status,
                colour,
            } => self.room.put_status(&name, status, colour),
            RoomChange::AddBot { bot } => self.room.put_bot(bot)?,
            RoomChange::BotStatus {
                name,
                status,
                colour,
            } => self.room.put_bot_status(&name, status, colour),
            RoomChange::RemoveBot { name } => self.room.drop_bot(&name),
            RoomChange::SetRect { ally, rect } => self.room.put_rect(ally, rect),
            RoomChange::RemoveRect { ally } => self.room.drop_rect(ally),
            RoomChange::SetTags { pairs } => self.room.put_tags(pairs)?,
            RoomChange::RemoveTags { keys } => self.room.drop_tags(keys.as_slice()),
            RoomChange::DisableUnits { words } => self.room.put_units(words)?,
            RoomChange::EnableUnits { words } => self.room.drop_units(words.as_slice()),
            RoomChange::EnableAllUnits => self.room.clear_units(),
        }
        Ok(())
    }
}
