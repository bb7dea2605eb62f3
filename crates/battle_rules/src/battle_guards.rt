//! Guards of what is done with battles: each gives a thing, or the refusal of one who asks for it in
//! vain. The refusals are those of docs/PROTOCOL.md, "The texts".

ghost use Rattle.std.specs.Prelude.{◌≡◌, ◌≤◌, ◌+◌, ◌||◌, ◌==◌, true, false, None, Some, IfOk, IfErr, is_some};
ghost use Rattle.std.specs.Prelude.{option_copied};
ghost use Rattle.line_words.specs.Table.{at_number, same_name};
ghost use Rattle.room_lists.specs.Room.{asker_of, bot_of, disable_units, has_asker, has_member, has_too_many_tags};
ghost use Rattle.room_lists.specs.Room.{has_too_many_units, is_full_of_bots, member_of, set_tags};
ghost use Rattle.room_lists.specs.Tags.{with_tags};
ghost use Rattle.room_lists.specs.Units.{with_units, words_new};
ghost use Rattle.lobby_model.specs.State.{asked_by, battle_of};
ghost use Rattle.lobby_model.specs.Battles.{is_founder, lets_in};
ghost use Rattle.battle_rules.specs.Answers.{Refuses};
ghost use Rattle.lobby_battles.specs.Battles.{AskOutside, ChangesAlike};
ghost use Rattle.battle_rules.specs.declared.refusal.Refusal.TheVariants.{NoNumberLeft, NoSuchBattle, BattleIsLocked};
ghost use Rattle.battle_rules.specs.declared.refusal.Refusal.TheVariants.{WrongPassword, NotInBattle, NotTheFounder};
ghost use Rattle.battle_rules.specs.declared.refusal.Refusal.TheVariants.{NoSuchRequest, NoSuchMember};
ghost use Rattle.battle_rules.specs.declared.refusal.Refusal.TheVariants.{CannotKickYourself, NoSuchBot, NotYourBot};
ghost use Rattle.battle_rules.specs.declared.refusal.Refusal.TheVariants.{BotNameTaken, TooManyBots, TooManyTags};
ghost use Rattle.battle_rules.specs.declared.refusal.Refusal.TheVariants.{TooManyUnits};

use crate::{Refusal, Stop, or_refuse, refuse_if};
use battle_room::{Asker, Bot, Member, may_change_bot};
use line_words::{NameBuf, Pair, PairList, WordBuf, WordList};
use lobby_maps::{Battle, LAST_NUMBER, Maps};
use lobby_post::ClientKey;

/// A user is in no battle. Else its command is refused so.
pub fn in_no_battle(maps: &Maps, me: &NameBuf, refusal: Refusal) -> Result<(), Stop>
    ensures ok { IfOk result (λ _. battle_of maps.now.plain me.now ≡ None) }
    ensures err { IfErr result (Refuses refusal (is_some (battle_of maps.now.plain me.now) ≡ true)) }
{
    refuse_if(maps.battle_of(me).is_some(), refusal)
}

/// A user asks to join no battle. Else its command is refused so.
pub fn asks_nowhere(maps: &Maps, me: &NameBuf, refusal: Refusal) -> Result<(), Stop>
    ensures ok { IfOk result (λ _. asked_by maps.now.plain me.now ≡ None) }
    ensures err { IfErr result (Refuses refusal (is_some (asked_by maps.now.plain me.now) ≡ true)) }
{
    refuse_if(maps.asked_by(me).is_some(), refusal)
}

/// The number of the battle that is opened next.
pub fn next_number(maps: &Maps) -> Result<u32, Stop>
    ensures ok { IfOk result (λ number. (maps.now.plain.last_battle == 2147483647) ≡ false) }
    ensures number { IfOk result (λ number. number ≡ maps.now.plain.last_battle + 1) }
    ensures last { IfOk result (λ number. number ≤ 2147483647) }
    ensures err { IfErr result (Refuses NoNumberLeft ((maps.now.plain.last_battle == 2147483647) ≡ true)) }
{
    refuse_if(maps.last_battle() >= LAST_NUMBER, Refusal::NoNumberLeft)?;
    Ok(maps.last_battle() + 1)
}

/// The battle of a number.
pub fn battle_numbered(maps: &Maps, number: u32) -> Result<&Battle, Stop>
    ensures ok { IfOk result (λ battle. at_number maps.now.plain.battles number ≡ Some battle.now) }
    ensures err { IfErr result (Refuses NoSuchBattle (at_number maps.now.plain.battles number ≡ None)) }
{
    or_refuse(maps.battle(number), Refusal::NoSuchBattle)
}

/// The battle that a user is in, with its number.
pub fn own_battle<'a>(maps: &'a Maps, me: &NameBuf) -> Result<(u32, &'a Battle), Stop>
    ensures ok { IfOk result (λ own. battle_of maps.now.plain me.now ≡ Some (own.0, own.1.now)) }
    ensures there { IfOk result (λ own. at_number maps.now.plain.battles own.0 ≡ Some own.1.now) }
    ensures outside { IfOk result (λ own. AskOutside own.1.now.room) }
    ensures alike { IfOk result (λ own. ChangesAlike maps.now.plain.battles own.0 own.1.now) }
    ensures err { IfErr result (Refuses NotInBattle (battle_of maps.now.plain me.now ≡ None)) }
{
    or_refuse(maps.battle_of(me), Refusal::NotInBattle)
}

/// Users may join a battle now.
pub fn not_locked(battle: &Battle) -> Result<(), Stop>
    ensures ok { IfOk result (λ _. battle.now.info.locked ≡ false) }
    ensures err { IfErr result (Refuses BattleIsLocked (battle.now.info.locked ≡ true)) }
{
    refuse_if(battle.locked, Refusal::BattleIsLocked)
}

/// A password lets its giver into a battle.
pub fn right_password(battle: &Battle, password: Option<&WordBuf>) -> Result<(), Stop>
    ensures ok { IfOk result (λ _. lets_in battle.now.password (option_copied password.entry) ≡ true) }
    ensures err { IfErr result (Refuses WrongPassword (lets_in battle.now.password (option_copied password.entry)
        ≡ false)) }
{
    refuse_if(!battle.lets_in(password), Refusal::WrongPassword)
}

/// A user founded a battle.
pub fn founded_by(battle: &Battle, me: &NameBuf) -> Result<(), Stop>
    ensures ok { IfOk result (λ _. is_founder me.now battle.now ≡ true) }
    ensures err { IfErr result (Refuses NotTheFounder (is_founder me.now battle.now ≡ false)) }
{
    refuse_if(!battle.is_founder(me), Refusal::NotTheFounder)
}

/// The member of a battle who bears a name.
pub fn member_named<'a>(battle: &'a Battle, name: &NameBuf) -> Result<&'a Member<ClientKey>, Stop>
    ensures ok { IfOk result (λ member. member_of name.now battle.now.room ≡ Some member.now) }
    ensures has { IfOk result (λ _. has_member name.now battle.now.room ≡ true) }
    ensures err { IfErr result (Refuses NoSuchMember (has_member name.now battle.now.room ≡ false)) }
{
    or_refuse(battle.room.member(name), Refusal::NoSuchMember)
}

/// The one of a name who asks to join a battle.
pub fn asker_named<'a>(battle: &'a Battle, name: &NameBuf) -> Result<&'a Asker, Stop>
    ensures ok { IfOk result (λ asker. asker_of name.now battle.now.room ≡ Some asker.now) }
    ensures name { IfOk result (λ asker. asker.now.name ≡ name.now) }
    ensures has { IfOk result (λ _. has_asker name.now battle.now.room ≡ true) }
    ensures err { IfErr result (Refuses NoSuchRequest (asker_of name.now battle.now.room ≡ None)) }
{
    or_refuse(battle.room.asker(name), Refusal::NoSuchRequest)
}

/// One who kicks another is not that one.
pub fn not_oneself(me: &NameBuf, name: &NameBuf) -> Result<(), Stop>
    ensures ok { IfOk result (λ _. same_name me.now name.now ≡ false) }
    ensures err { IfErr result (Refuses CannotKickYourself (same_name me.now name.now ≡ true)) }
{
    refuse_if(me.cmp(name).is_eq(), Refusal::CannotKickYourself)
}

/// The bot of a battle that bears a name.
pub fn bot_named<'a>(battle: &'a Battle, name: &WordBuf) -> Result<&'a Bot, Stop>
    ensures ok { IfOk result (λ bot. bot_of name.now battle.now.room ≡ Some bot.now) }
    ensures err { IfErr result (Refuses NoSuchBot (bot_of name.now battle.now.room ≡ None)) }
{
    or_refuse(battle.room.bot(name), Refusal::NoSuchBot)
}

/// A user owns a bot, or founded its battle.
pub fn may_change(me: &NameBuf, battle: &Battle, bot: &Bot) -> Result<(), Stop>
    ensures ok { IfOk result (λ _. (same_name me.now bot.now.owner || is_founder me.now battle.now) ≡ true) }
    ensures err { IfErr result (Refuses NotYourBot ((same_name me.now bot.now.owner || is_founder me.now battle.now)
        ≡ false)) }
{
    let may = may_change_bot(me, battle.is_founder(me), bot);
    refuse_if(!may, Refusal::NotYourBot)
}

/// No bot of a battle bears a name.
pub fn free_bot_name(battle: &Battle, name: &WordBuf) -> Result<(), Stop>
    ensures ok { IfOk result (λ _. is_some (bot_of name.now battle.now.room) ≡ false) }
    ensures err { IfErr result (Refuses BotNameTaken (is_some (bot_of name.now battle.now.room) ≡ true)) }
{
    refuse_if(battle.room.bot(name).is_some(), Refusal::BotNameTaken)
}

/// There is room for one more bot in a battle.
pub fn room_for_bot(battle: &Battle) -> Result<(), Stop>
    ensures ok { IfOk result (λ _. is_full_of_bots battle.now.room ≡ false) }
    ensures err { IfErr result (Refuses TooManyBots (is_full_of_bots battle.now.room ≡ true)) }
{
    refuse_if(battle.room.is_full_of_bots(), Refusal::TooManyBots)
}

/// The last of these script tags of each key, where there is room for them in a battle.
pub fn last_tags(battle: &Battle, pairs: &[Pair]) -> Result<PairList, Stop>
    ensures ok { IfOk result (λ _. has_too_many_tags (with_tags battle.now.room.tags pairs.now) ≡ false) }
    ensures alike { IfOk result (λ last. set_tags last battle.now.room ≡ set_tags pairs.now battle.now.room) }
    ensures err { IfErr result (Refuses TooManyTags (has_too_many_tags (with_tags battle.now.room.tags pairs.now)
        ≡ true)) }
{
    or_refuse(battle.room.last_pairs(pairs)?, Refusal::TooManyTags)
}

/// Those of these units that are not disabled in a battle, each once, where there is room for them.
pub fn new_units(battle: &Battle, units: &[WordBuf]) -> Result<WordList, Stop>
    ensures ok { IfOk result (λ _. has_too_many_units (with_units battle.now.room.units units.now) ≡ false) }
    ensures new { IfOk result (λ new. new ≡ words_new battle.now.room.units units.now) }
    ensures alike { IfOk result (λ new. disable_units new battle.now.room ≡ disable_units units.now battle.now.room) }
    ensures err { IfErr result (Refuses TooManyUnits (has_too_many_units (with_units battle.now.room.units units.now)
        ≡ true)) }
{
    or_refuse(battle.room.units_new(units)?, Refusal::TooManyUnits)
}
