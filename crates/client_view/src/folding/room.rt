//! The lines of the client's own room.

ghost use Rattle.std.specs.Prelude.{◌≡◌, OnOk, OnErr};
ghost use Rattle.reply_kinds.specs.declared.Reply.TheVariants as reply;
ghost use Rattle.lobby_view.specs.View.{shown};
ghost use Rattle.noted_map.specs.Undoable.{Changes};

use crate::known::Known;
use reply_kinds::{BattleNumber, Name, Pairs, Sentence, UpTo, Wide, Word, Words};
use room_lists::Rect;
use std::alloc::AllocError;
use view_room::Bot;

impl Known {
    pub(crate) fn client_battle_status(
        &mut self,
        name: &Name,
        status: u32,
        colour: &Wide,
    ) -> Result<(), AllocError>
        ensures ok { OnOk result (Changes (λ v.
            shown v (reply.ClientBattleStatus name.now status colour.now)) self.old self.new) }
        ensures err { OnErr result (self.new ≡ self.old) }
    {
        self.room.put_status(name.get(), status, colour.0)
    }

    pub(crate) fn add_bot(
        &mut self,
        battle: &BattleNumber,
        name: &Word,
        owner: &Name,
        status: u32,
        colour: &Wide,
        ai: &Sentence,
    ) -> Result<(), AllocError>
        ensures ok { OnOk result (Changes (λ v.
            shown v (reply.AddBot battle.now name.now owner.now status colour.now ai.now)) self.old self.new) }
        ensures err { OnErr result (self.new ≡ self.old) }
    {
        let name = name.to_word(self.alloc)?;
        let ai = ai.to_sentence(self.alloc)?;
        let bot = Bot::new(owner.to_name(), name, status, colour.0, ai);
        self.room.add_bot(battle.0, bot)
    }

    pub(crate) fn update_bot(
        &mut self,
        battle: &BattleNumber,
        name: &Word,
        status: u32,
        colour: &Wide,
    ) -> Result<(), AllocError>
        ensures ok { OnOk result (Changes (λ v.
            shown v (reply.UpdateBot battle.now name.now status colour.now)) self.old self.new) }
        ensures err { OnErr result (self.new ≡ self.old) }
    {
        self.room
            .put_bot_status(battle.0, name.get(), status, colour.0)
    }

    pub(crate) fn remove_bot(
        &mut self,
        battle: &BattleNumber,
        name: &Word,
    ) -> Result<(), AllocError>
        ensures ok { OnOk result (Changes (λ v. shown v (reply.RemoveBot battle.now name.now)) self.old self.new) }
        ensures err { OnErr result (self.new ≡ self.old) }
    {
        self.room.remove_bot(battle.0, name.get())
    }

    pub(crate) fn add_start_rect(
        &mut self,
        ally_no: &UpTo<15>,
        left: &UpTo<200>,
        top: &UpTo<200>,
        right: &UpTo<200>,
        bottom: &UpTo<200>,
    ) -> Result<(), AllocError>
        ensures ok { OnOk result (Changes (λ v.
            shown v (reply.AddStartRect ally_no.now left.now top.now right.now bottom.now)) self.old self.new) }
        ensures err { OnErr result (self.new ≡ self.old) }
    {
        let rect = Rect {
            left: left.0,
            top: top.0,
            right: right.0,
            bottom: bottom.0,
        };
        self.room.put_rect(ally_no.0, rect)
    }

    pub(crate) fn remove_start_rect(&mut self, ally_no: &UpTo<15>) -> Result<(), AllocError>
        ensures ok { OnOk result (Changes (λ v. shown v (reply.RemoveStartRect ally_no.now)) self.old self.new) }
        ensures err { OnErr result (self.new ≡ self.old) }
    {
        self.room.remove_rect(ally_no.0)
    }

    pub(crate) fn set_script_tags(&mut self, pairs: &Pairs) -> Result<(), AllocError>
        ensures ok { OnOk result (Changes (λ v. shown v (reply.SetScriptTags pairs.now)) self.old self.new) }
        ensures err { OnErr result (self.new ≡ self.old) }
    {
        let pairs = pairs.to_list(self.alloc)?;
        self.room.put_tags(pairs)
    }

    pub(crate) fn disable_units(&mut self, units: &Words) -> Result<(), AllocError>
        ensures ok { OnOk result (Changes (λ v. shown v (reply.DisableUnits units.now)) self.old self.new) }
        ensures err { OnErr result (self.new ≡ self.old) }
    {
        let units = units.to_list(self.alloc)?;
        self.room.put_units(units)
    }

    pub(crate) fn remove_script_tags(&mut self, keys: &Words) -> Result<(), AllocError>
        ensures ok { OnOk result (Changes (λ v. shown v (reply.RemoveScriptTags keys.now)) self.old self.new) }
        ensures err { OnErr result (self.new ≡ self.old) }
    {
        self.room.remove_tags(keys.as_slice())
    }

    pub(crate) fn enable_units(&mut self, units: &Words) -> Result<(), AllocError>
        ensures ok { OnOk result (Changes (λ v. shown v (reply.EnableUnits units.now)) self.old self.new) }
        ensures err { OnErr result (self.new ≡ self.old) }
    {
        self.room.remove_units(units.as_slice())
    }

    pub(crate) fn enable_all_units(&mut self) -> Result<(), AllocError>
        ensures ok { OnOk result (Changes (λ v. shown v reply.EnableAllUnits) self.old self.new) }
        ensures err { OnErr result (self.new ≡ self.old) }
    {
        self.room.clear_units()
    }
}
