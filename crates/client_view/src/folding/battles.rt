//! The lines of battles, as all see them.

ghost use Rattle.std.specs.Prelude.{◌≡◌, OnOk, OnErr};
ghost use Rattle.reply_kinds.specs.declared.Reply.TheVariants as reply;
ghost use Rattle.lobby_view.specs.View.{shown};
ghost use Rattle.noted_map.specs.Undoable.{Changes};
ghost use Rattle.client_view.specs.Refused.{Refused};

use crate::known::Known;
use reply_kinds::{BattleNumber, Name, Opened, Sentence, Wide, Word};
use std::alloc::AllocError;

impl Known {
    /// A battle opens.
    pub(crate) fn battle_opened(
        &mut self,
        battle: &BattleNumber,
        opened: &Opened,
    ) -> Result<(), AllocError>
        ensures ok { OnOk result (Changes (λ v.
            shown v (reply.BattleOpened battle.now opened.now)) self.old self.new) }
        ensures err { OnErr result (self.new ≡ self.old) }
    {
        let opened = opened.to_opened(self.alloc)?;
        self.battles.open(self.alloc, battle.0, opened)
    }

    /// The client enters a battle, as its founder or as one who joins.
    pub(crate) fn open_battle(&mut self, battle: &BattleNumber) -> Result<(), AllocError>
        ensures ok { OnOk result (Changes (λ v. shown v (reply.OpenBattle battle.now)) self.old self.new) }
        ensures err { OnErr result (self.new ≡ self.old) }
    {
        let number = battle.0;
        self.room.enter(number, self.battles.members_of(number))
    }

    /// Only a founder's client is told a script password, and no client keeps it.
    pub(crate) fn joined_battle(
        &mut self,
        battle: &BattleNumber,
        name: &Name,
        _script_password: &Option<Word>,
    ) -> Result<(), AllocError>
        ensures ok { OnOk result (Changes (λ v.
            shown v (reply.JoinedBattle battle.now name.now _script_password.now)) self.old self.new) }
        ensures err { OnErr result (Refused self.old self.new) }
    {
        let number = battle.0;
        self.room.add_member(number, name.to_name())?;
        match self.battles.add_member(number, name.to_name()) {
            Ok(()) => Ok(()),
            Err(refused) => {
                self.room.drop_unnoted(number);
                Err(refused)
            }
        }
    }

    pub(crate) fn update_battle_info(
        &mut self,
        battle: &BattleNumber,
        spectators: u16,
        locked: bool,
        map_hash: &Wide,
        map: &Sentence,
    ) -> Result<(), AllocError>
        ensures ok { OnOk result (Changes (λ v.
            shown v (reply.UpdateBattleInfo battle.now spectators locked map_hash.now map.now)) self.old self.new) }
        ensures err { OnErr result (self.new ≡ self.old) }
    {
        let map = map.to_sentence(self.alloc)?;
        self.battles
            .update(battle.0, spectators, locked, map_hash.0, map)
    }

    /// The room is left with the client itself.
    pub(crate) fn left_battle(
        &mut self,
        battle: &BattleNumber,
        name: &Name,
    ) -> Result<(), AllocError>
        ensures ok { OnOk result (Changes (λ v. shown v (reply.LeftBattle battle.now name.now)) self.old self.new) }
        ensures err { OnErr result (Refused self.old self.new) }
    {
        let number = battle.0;
        let name = name.get();
        self.battles.remove_member(number, name)?;
        if self.is_me(name) {
            self.room.leave(number);
            Ok(())
        } else {
            self.room.remove_member(number, name)
        }
    }

    pub(crate) fn battle_closed(&mut self, battle: &BattleNumber) -> Result<(), AllocError>
        ensures ok { OnOk result (Changes (λ v. shown v (reply.BattleClosed battle.now)) self.old self.new) }
        ensures err { OnErr result (self.new ≡ self.old) }
    {
        let number = battle.0;
        self.battles.remove(number)?;
        self.room.leave(number);
        Ok(())
    }
}
