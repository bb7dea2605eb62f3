//! How what a client knows changes: the function that folds each reply, and these functions by their subjects.

ghost use Rattle.std.specs.Prelude.{OnOk, OnErr};
ghost use Rattle.lobby_view.specs.View.{shown};
ghost use Rattle.noted_map.specs.Undoable.{Changes};
ghost use Rattle.client_view.specs.Refused.{Refused};
ghost use Rattle.client_view.specs.Told.{IsNoLogin};

use crate::known::Known;
use reply_kinds::Reply;
use std::alloc::AllocError;

mod battles;
mod channels;
mod room;
mod users;

impl Known {
    /// Folds a reply that begins no login. What is said, asked or refused changes nothing.
    #[rattlefmt::skip]
    pub(crate) fn fold(&mut self, reply: &Reply) -> Result<(), AllocError>
        requires { IsNoLogin reply.now }
        ensures ok { OnOk result (Changes (λ v. shown v reply.now) self.old self.new) }
        ensures err { OnErr result (Refused self.old self.new) }
    {
        match reply {
            Reply::AddUser { user, country, cpu, account } => self.add_user(user, country, cpu, *account),
            Reply::RemoveUser { user } => self.remove_user(user),
            Reply::ClientStatus { user, status } => self.client_status(user, *status),
            Reply::Join { channel } => self.join(channel),
            Reply::Clients { channel, names } => self.clients(channel, names),
            Reply::Joined { channel, user } => self.joined(channel, user),
            Reply::Left { channel, user } => self.left(channel, user),
            Reply::OpenBattle { battle } => self.open_battle(battle),
            Reply::BattleOpened { battle, opened } => self.battle_opened(battle, opened),
            Reply::BattleClosed { battle } => self.battle_closed(battle),
            Reply::JoinBattle { battle, .. } => self.open_battle(battle),
            Reply::JoinedBattle { battle, user, script_password } => self.joined_battle(battle, user, script_password),
            Reply::LeftBattle { battle, user } => self.left_battle(battle, user),
            Reply::UpdateBattleInfo { battle, spectator_count, locked, map_hash, map } =>
                self.update_battle_info(battle, *spectator_count, *locked, map_hash, map),
            Reply::ClientBattleStatus { user, battle_status, team_color } =>
                self.client_battle_status(user, *battle_status, team_color),
            Reply::AddBot { battle, bot, owner, battle_status, team_color, ai } =>
                self.add_bot(battle, bot, owner, *battle_status, team_color, ai),
            Reply::UpdateBot { battle, bot, battle_status, team_color } =>
                self.update_bot(battle, bot, *battle_status, team_color),
            Reply::RemoveBot { battle, bot } => self.remove_bot(battle, bot),
            Reply::AddStartRect { ally_no, left, top, right, bottom } =>
                self.add_start_rect(ally_no, left, top, right, bottom),
            Reply::RemoveStartRect { ally_no } => self.remove_start_rect(ally_no),
            Reply::SetScriptTags { pairs } => self.set_script_tags(pairs),
            Reply::RemoveScriptTags { keys } => self.remove_script_tags(keys),
            Reply::DisableUnits { units } => self.disable_units(units),
            Reply::EnableUnits { units } => self.enable_units(units),
            Reply::EnableAllUnits => self.enable_all_units(),
            _ => Ok(()),
        }
    }
}
