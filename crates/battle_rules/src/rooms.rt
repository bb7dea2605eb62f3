//! What members do in a battle's room: bots, start rectangles, script tags, disabled units, and what the
//! founder forces on members: docs/PROTOCOL.md, "What the server does", from "ADDBOT" to "RING".

ghost use Rattle.std.specs.Prelude.{◌≡◌, ◌<◌, [], ◌∷◌, OnOk};
ghost use Rattle.room_lists.specs.Room.{member_names};
ghost use Rattle.lobby_model.specs.Outcome.{tell, users};
ghost use Rattle.lobby_model.specs.Rooms.{add_bot, add_rect, disable, enable, enable_every, kick, new_bot, remove_bot};
ghost use Rattle.lobby_model.specs.Rooms.{remove_rect, remove_script_tags, ring, set_script_tags, update_bot};
ghost use Rattle.lobby_post.specs.Posted.{Told};
ghost use Rattle.battle_rules.specs.Answers.{Answers};
ghost use Rattle.battle_rules.specs.RoomTalk.{FitsForce, forced, forced_colour, forced_status, words_line, words_told};

use crate::battle_guards::{
    bot_named, founded_by, free_bot_name, last_tags, may_change, member_named, new_units,
    not_oneself, own_battle, room_for_bot,
};
use crate::battles::{Leaving, give_status, in_room, tell_leaving};
use crate::{Issuer, Stop};
use battle_room::{Bot, Member, Rect, Room};
use line_words::{NameBuf, PairList, SentenceBuf, WordBuf, WordList};
use lobby_maps::{BattleChange, Change, Maps, RoomChange};
use lobby_post::{ClientKey, Post};
use reply_kinds::{
    BattleNumber, Held, HeldPairs, HeldWords, Name, Pairs, Reply, Sentence, UpTo, Wide, Word, Words,
};
use status_bits::{BattleStatus, merge_battle};
use std::alloc::AllocError;

/// What the founder of a battle forces on a member.
#[derive(Clone, Copy)]
pub enum Force {
    /// A handicap, 0 to 100 percent.
    Handicap(u8),
    /// A team, 0 to 15.
    Team(u8),
    /// An ally team, 0 to 15.
    Ally(u8),
    /// A colour, -2147483648 to 4294967295.
    Colour(i64),
    /// To watch, and not to play.
    Spectator,
}

impl Force {
    /// The status of a member on whom it is forced.
    fn status(self, member: &Member<ClientKey>) -> BattleStatus
        requires { FitsForce self }
        ensures { result ≡ forced_status self member.now.status }
    {
        let status = member.status();
        match self {
            Force::Handicap(percent) => status.with_handicap(percent),
            Force::Team(number) => status.with_team(number),
            Force::Ally(number) => status.with_ally(number),
            Force::Colour(_) => status,
            Force::Spectator => status.as_spectator(),
        }
    }

    /// Its colour.
    fn colour(self, member: &Member<ClientKey>) -> i64
        ensures { result ≡ forced_colour self member.now.colour }
    {
        match self {
            Force::Colour(colour) => colour,
            Force::Handicap(_) | Force::Team(_) | Force::Ally(_) | Force::Spectator => {
                member.colour()
            }
        }
    }
}

/// What the members of a battle are told of words.
#[derive(Clone, Copy)]
pub enum Wording {
    /// The script tags of these keys go.
    TagsGone,
    /// These units are disabled.
    UnitsDisabled,
    /// These units are disabled no more.
    UnitsEnabled,
}

impl Wording {
    /// The line that says so of words.
    fn line(self, words: &[WordBuf]) -> Reply<'_>
        ensures { result ≡ words_line self words.now }
    {
        let words = Words(HeldWords::Lent(words));
        match self {
            Wording::TagsGone => Reply::RemoveScriptTags { keys: words },
            Wording::UnitsDisabled => Reply::DisableUnits { units: words },
            Wording::UnitsEnabled => Reply::EnableUnits { units: words },
        }
    }
}

/// `ADDBOT`: the user is in a battle; no bot has that name, and there is room for one more.
pub fn add_bot(
    by: &Issuer,
    name: &WordBuf,
    asked: u32,
    colour: i64,
    ai: &SentenceBuf,
    post: &mut Post,
) -> Result<Change, Stop>
    ensures { Answers by.now.maps.now.plain by.now.client post.old post.new
        (add_bot by.now.maps.now.plain by.now.me.now (new_bot name.now by.now.me.now asked colour ai.now)) result }
{
    let (number, battle) = own_battle(by.maps, by.me)?;
    free_bot_name(battle, name)?;
    room_for_bot(battle)?;
    let status = merge_battle(BattleStatus::zero(), asked);
    let line = Reply::AddBot {
        battle: BattleNumber(number),
        bot: Word(Held::Lent(name)),
        owner: Name(Held::Lent(by.me)),
        battle_status: status.word(),
        team_color: Wide(colour),
        ai: Sentence(Held::Lent(ai)),
    };
    by.maps.tell_room(&battle.room, line, post)?;
    let name = WordBuf::copy_of(by.maps.alloc(), name.as_slice())?;
    let ai = SentenceBuf::copy_of(by.maps.alloc(), ai.as_slice())?;
    let bot = Bot::new(by.me.copy(), name, status, colour, ai);
    Ok(in_room(number, RoomChange::AddBot { bot }))
}

/// `UPDATEBOT`: the user is in a battle; a bot has that name, and the user owns it or founded the
/// battle.
pub fn update_bot(
    by: &Issuer,
    name: &WordBuf,
    asked: u32,
    colour: i64,
    post: &mut Post,
) -> Result<Change, Stop>
    ensures { Answers by.now.maps.now.plain by.now.client post.old post.new
        (update_bot by.now.maps.now.plain by.now.me.now name.now asked colour) result }
{
    let (number, battle) = own_battle(by.maps, by.me)?;
    let bot = bot_named(battle, name)?;
    may_change(by.me, battle, bot)?;
    let status = merge_battle(bot.status(), asked);
    let line = Reply::UpdateBot {
        battle: BattleNumber(number),
        bot: Word(Held::Lent(name)),
        battle_status: status.word(),
        team_color: Wide(colour),
    };
    by.maps.tell_room(&battle.room, line, post)?;
    let name = WordBuf::copy_of(by.maps.alloc(), name.as_slice())?;
    let change = RoomChange::BotStatus {
        name,
        status,
        colour,
    };
    Ok(in_room(number, change))
}

/// `REMOVEBOT`: as `UPDATEBOT`.
pub fn remove_bot(by: &Issuer, name: &WordBuf, post: &mut Post) -> Result<Change, Stop>
    ensures { Answers by.now.maps.now.plain by.now.client post.old post.new
        (remove_bot by.now.maps.now.plain by.now.me.now name.now) result }
{
    let (number, battle) = own_battle(by.maps, by.me)?;
    let bot = bot_named(battle, name)?;
    may_change(by.me, battle, bot)?;
    let line = Reply::RemoveBot {
        battle: BattleNumber(number),
        bot: Word(Held::Lent(name)),
    };
    by.maps.tell_room(&battle.room, line, post)?;
    let name = WordBuf::copy_of(by.maps.alloc(), name.as_slice())?;
    Ok(in_room(number, RoomChange::RemoveBot { name }))
}

/// `ADDSTARTRECT`: the user is in a battle, which it founded.
pub fn add_rect(by: &Issuer, ally: u8, rect: Rect, post: &mut Post) -> Result<Change, Stop>
    requires { ally < 16 }
    ensures { Answers by.now.maps.now.plain by.now.client post.old post.new
        (add_rect by.now.maps.now.plain by.now.me.now ally rect) result }
{
    let (number, battle) = own_battle(by.maps, by.me)?;
    founded_by(battle, by.me)?;
    let line = Reply::AddStartRect {
        ally_no: UpTo(ally),
        left: UpTo(rect.left),
        top: UpTo(rect.top),
        right: UpTo(rect.right),
        bottom: UpTo(rect.bottom),
    };
    by.maps.tell_room(&battle.room, line, post)?;
    Ok(in_room(number, RoomChange::SetRect { ally, rect }))
}

/// `REMOVESTARTRECT`: the user is in a battle, which it founded.
pub fn remove_rect(by: &Issuer, ally: u8, post: &mut Post) -> Result<Change, Stop>
    requires { ally < 16 }
    ensures { Answers by.now.maps.now.plain by.now.client post.old post.new
        (remove_rect by.now.maps.now.plain by.now.me.now ally) result }
{
    let (number, battle) = own_battle(by.maps, by.me)?;
    founded_by(battle, by.me)?;
    let line = Reply::RemoveStartRect {
        ally_no: UpTo(ally),
    };
    by.maps.tell_room(&battle.room, line, post)?;
    Ok(in_room(number, RoomChange::RemoveRect { ally }))
}

/// `SETSCRIPTTAGS`: the user is in a battle, which it founded, and there is room for the tags.
pub fn set_script_tags(by: &Issuer, pairs: &PairList, post: &mut Post) -> Result<Change, Stop>
    ensures { Answers by.now.maps.now.plain by.now.client post.old post.new
        (set_script_tags by.now.maps.now.plain by.now.me.now pairs.now) result }
{
    let (number, battle) = own_battle(by.maps, by.me)?;
    founded_by(battle, by.me)?;
    let last = last_tags(battle, pairs.as_slice())?;
    let line = Reply::SetScriptTags {
        pairs: Pairs(HeldPairs::Lent(pairs.as_slice())),
    };
    by.maps.tell_room(&battle.room, line, post)?;
    Ok(in_room(number, RoomChange::SetTags { pairs: last }))
}

/// `REMOVESCRIPTTAGS`: the user is in a battle, which it founded. Keys that are not there are left
/// out.
pub fn remove_script_tags(by: &Issuer, keys: &WordList, post: &mut Post) -> Result<Change, Stop>
    ensures { Answers by.now.maps.now.plain by.now.client post.old post.new
        (remove_script_tags by.now.maps.now.plain by.now.me.now keys.now) result }
{
    let (number, battle) = own_battle(by.maps, by.me)?;
    founded_by(battle, by.me)?;
    let there = battle.room.keys_there(keys.as_slice())?;
    let wording = Wording::TagsGone;
    tell_words(by.maps, &battle.room, wording, there.as_slice(), post)?;
    Ok(in_room(number, RoomChange::RemoveTags { keys: there }))
}

/// `DISABLEUNITS`: the user is in a battle, which it founded, and there is room for the units. Those
/// that are disabled already are left out.
pub fn disable_units(by: &Issuer, units: &WordList, post: &mut Post) -> Result<Change, Stop>
    ensures { Answers by.now.maps.now.plain by.now.client post.old post.new
        (disable by.now.maps.now.plain by.now.me.now units.now) result }
{
    let (number, battle) = own_battle(by.maps, by.me)?;
    founded_by(battle, by.me)?;
    let new = new_units(battle, units.as_slice())?;
    let wording = Wording::UnitsDisabled;
    tell_words(by.maps, &battle.room, wording, new.as_slice(), post)?;
    Ok(in_room(number, RoomChange::DisableUnits { words: new }))
}

/// `ENABLEUNITS`: the user is in a battle, which it founded. Units that are not disabled are left out.
pub fn enable_units(by: &Issuer, units: &WordList, post: &mut Post) -> Result<Change, Stop>
    ensures { Answers by.now.maps.now.plain by.now.client post.old post.new
        (enable by.now.maps.now.plain by.now.me.now units.now) result }
{
    let (number, battle) = own_battle(by.maps, by.me)?;
    founded_by(battle, by.me)?;
    let there = battle.room.units_there(units.as_slice())?;
    let wording = Wording::UnitsEnabled;
    tell_words(by.maps, &battle.room, wording, there.as_slice(), post)?;
    Ok(in_room(number, RoomChange::EnableUnits { words: there }))
}

/// `ENABLEALLUNITS`: the user is in a battle, which it founded.
pub fn enable_all_units(by: &Issuer, post: &mut Post) -> Result<Change, Stop>
    ensures { Answers by.now.maps.now.plain by.now.client post.old post.new
        (enable_every by.now.maps.now.plain by.now.me.now) result }
{
    let (number, battle) = own_battle(by.maps, by.me)?;
    founded_by(battle, by.me)?;
    by.maps
        .tell_room(&battle.room, Reply::EnableAllUnits, post)?;
    Ok(in_room(number, RoomChange::EnableAllUnits))
}

/// Tells the members of a battle of words, or nothing where there are none.
fn tell_words(
    maps: &Maps,
    room: &Room<ClientKey>,
    wording: Wording,
    words: &[WordBuf],
    post: &mut Post,
) -> Result<(), AllocError>
    ensures { OnOk result (Told maps.now.plain post.old post.new
        (tell (users (member_names room.now)) (words_told wording words.now) ∷ [])) }
{
    if words.is_empty() {
        return Ok(());
    }
    maps.tell_room(room, wording.line(words), post)
}

/// `HANDICAP` and the four `FORCE` commands: the user is in a battle, which it founded, and so is the
/// one on whom it is forced.
pub fn force_on_member(
    by: &Issuer,
    name: &NameBuf,
    force: Force,
    post: &mut Post,
) -> Result<Change, Stop>
    requires { FitsForce force }
    ensures { Answers by.now.maps.now.plain by.now.client post.old post.new
        (forced by.now.maps.now.plain by.now.me.now name.now force) result }
{
    let (number, battle) = own_battle(by.maps, by.me)?;
    founded_by(battle, by.me)?;
    let member = member_named(battle, name)?;
    let status = force.status(member);
    let colour = force.colour(member);
    Ok(give_status(by.maps, number, battle, name, status, colour, post)?)
}

/// `KICKFROMBATTLE`: the user is in a battle, which it founded, and so is the other one who leaves.
pub fn kick(by: &Issuer, name: &NameBuf, post: &mut Post) -> Result<Change, Stop>
    ensures { Answers by.now.maps.now.plain by.now.client post.old post.new
        (kick by.now.maps.now.plain by.now.me.now name.now) result }
{
    let (number, battle) = own_battle(by.maps, by.me)?;
    founded_by(battle, by.me)?;
    not_oneself(by.me, name)?;
    member_named(battle, name)?;
    by.maps.tell_user(name, Reply::ForceQuitBattle, post)?;
    tell_leaving(by.maps, name, number, battle, Leaving::Seen, post)?;
    Ok(Change::InBattles(BattleChange::Leave {
        number,
        name: name.copy(),
    }))
}

/// `RING`: the user is in a battle, which it founded, and so is the one who hears it.
pub fn ring(by: &Issuer, name: &NameBuf, post: &mut Post) -> Result<Change, Stop>
    ensures { Answers by.now.maps.now.plain by.now.client post.old post.new
        (ring by.now.maps.now.plain by.now.me.now name.now) result }
{
    let (_, battle) = own_battle(by.maps, by.me)?;
    founded_by(battle, by.me)?;
    member_named(battle, name)?;
    by.maps.tell_user(
        name,
        Reply::Ring {
            user: Name(Held::Lent(by.me)),
        },
        post,
    )?;
    Ok(Change::Nothing)
}
