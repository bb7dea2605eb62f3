//! Battles: opening and leaving one, and what is said and shown in it: docs/PROTOCOL.md, "What the server
//! does", under "Battles".

ghost use Rattle.std.specs.Prelude.{◌≡◌, [], ◌∷◌, ◌++◌, decimal, OnOk, IfOk, true, Some, is_some};
ghost use Rattle.reply_kinds.specs.declared.Reply.TheVariants as reply;
ghost use Rattle.line_words.specs.Table.{at_number};
ghost use Rattle.room_lists.specs.Room.{asker_names, new_room, status_of};
ghost use Rattle.lobby_model.specs.State.{name_of, updated};
ghost use Rattle.lobby_model.specs.Outcome.{everyone, tell, user, users};
ghost use Rattle.lobby_model.specs.Battles.{address, ip_text, leave_battle, leaves_battle, member_has, open_battle};
ghost use Rattle.lobby_model.specs.Battles.{opened_line, say_in_battle, set_own_status, update_battle};
ghost use Rattle.lobby_model.specs.Texts.{battle_was_closed};
ghost use Rattle.lobby_model.specs.Commands.{answer};
ghost use Rattle.lobby_post.specs.Posted.{Told};
ghost use Rattle.battle_rules.specs.Answers.{Answers};
ghost use Rattle.lobby_maps.specs.declared.change.Change.TheVariants.{InBattles};
ghost use Rattle.lobby_battles.specs.declared.battles.BattleChange.TheVariants.{InRoom};
ghost use Rattle.lobby_battles.specs.Battles.{IsNew};
ghost use Rattle.battle_rules.specs.BattleTalk.{bots_gone, shown, shown_to, status_change, stops_asking};
ghost use Rattle.battle_rules.specs.Opening.{command_of, started, HasTexts};

use crate::battle_guards::{asks_nowhere, founded_by, in_no_battle, next_number, own_battle};
use crate::{Issuer, Refusal, Stop};
use battle_room::Room;
use itoa::Buffer;
use line_words::{NameBuf, SentenceBuf, Text, WordBuf};
use lobby_maps::{Battle, BattleChange, Change, Maps, NO_PASSWORD, RoomChange};
use lobby_post::{ClientKey, Post};
use reply_kinds::{BattleNumber, Held, HeldText, Name, OpenedBattle, Reply, Sentence, Wide, Word};
use status_bits::{BattleStatus, merge_battle};
use std::alloc::{AllocError, Global};

/// Who gets the lines of one who leaves.
#[derive(Clone, Copy)]
pub enum Leaving {
    /// The one whose event it is too.
    Seen,
    /// Others alone: it logs out.
    Unseen,
}

/// The battle that an `OPENBATTLE` asks for. Its fields are the command's, and what owns memory is lent.
#[derive(Clone, Copy)]
pub struct Opening<'a> {
    pub battle_type: u8,
    pub nat_type: u8,
    pub password: &'a WordBuf,
    pub port: u16,
    pub max_players: u16,
    pub game_hash: i64,
    pub rank: i64,
    pub map_hash: i64,
    pub engine_name: &'a SentenceBuf,
    pub engine_version: &'a SentenceBuf,
    pub map: &'a SentenceBuf,
    pub title: &'a SentenceBuf,
    pub game_name: &'a SentenceBuf,
}

/// The texts that all are told of a battle.
#[derive(Drop)]
struct Texts {
    ip: WordBuf,
    engine: Engine,
    labels: Labels,
}

/// The engine that a battle is played with.
#[derive(Drop)]
struct Engine {
    name: SentenceBuf,
    version: SentenceBuf,
}

/// What is played in a battle, and what its founder calls it.
#[derive(Drop)]
struct Labels {
    map: SentenceBuf,
    title: SentenceBuf,
    game_name: SentenceBuf,
}

/// What a battle keeps from those outside.
#[derive(Drop)]
struct Inside {
    password: WordBuf,
    game_hash: i64,
    room: Room<ClientKey>,
}

/// `OPENBATTLE`: the user is in no battle and asks to join none, and a number is left.
pub fn open_battle(by: &Issuer, opening: &Opening, post: &mut Post) -> Result<Change, Stop>
    requires me { name_of by.now.maps.now.plain by.now.client ≡ Some by.now.me.now }
    requires issuer { post.old.issuer ≡ by.now.client }
    ensures { Answers by.now.maps.now.plain by.now.client post.old post.new
        (answer by.now.maps.now.plain by.now.client (Some by.now.me.now) (command_of opening.now)) result }
{
    in_no_battle(by.maps, by.me, Refusal::OpensInBattle)?;
    asks_nowhere(by.maps, by.me, Refusal::OpensAsking)?;
    let number = next_number(by.maps)?;
    let battle = new_battle(by, opening)?;
    match tell_opening(by.maps, by.me, number, &battle, post) {
        Ok(()) => Ok(Change::InBattles(BattleChange::Open {
            number,
            name: by.me.copy(),
            battle,
        })),
        Err(refused) => {
            drop(battle);
            Err(Stop::from(refused))
        }
    }
}

/// Tells all that a user opens a battle, and the user what it has to know.
fn tell_opening(
    maps: &Maps,
    me: &NameBuf,
    number: u32,
    battle: &Battle,
    post: &mut Post,
) -> Result<(), AllocError>
    requires { name_of maps.now.plain post.old.issuer ≡ Some me.now }
    ensures { OnOk result (Told maps.now.plain post.old post.new (tell everyone (opened_line number battle.now.info
        ∷ []) ∷ tell (user me.now) (reply.OpenBattle number ∷ reply.RequestBattleStatus ∷ []) ∷ [])) }
{
    maps.tell_all(battle.opened.told(number), post)?;
    tell_opener(maps, me, number, post)?;
    Ok(())
}

/// The battle that a user opens.
fn new_battle(by: &Issuer, opening: &Opening) -> Result<Box<Battle>, AllocError>
    requires me { name_of by.now.maps.now.plain by.now.client ≡ Some by.now.me.now }
    ensures asked { IfOk result (λ battle.
        answer by.now.maps.now.plain by.now.client (Some by.now.me.now) (command_of opening.now)
        ≡ open_battle by.now.maps.now.plain by.now.me.now battle.value) }
    ensures alone { IfOk result (λ battle. IsNew battle.value by.now.me.now) }
{
    let opened = opened_by(by, opening)?;
    match inside_of(by.maps, by.me, opening) {
        Ok(inside) => boxed_battle(by.maps.alloc(), opened, inside),
        Err(refused) => {
            drop(opened);
            Err(refused)
        }
    }
}

/// A battle as it opens, which nobody watches and all may join, in memory of its own.
fn boxed_battle(
    alloc: Global,
    opened: OpenedBattle,
    inside: Inside,
) -> Result<Box<Battle>, AllocError>
    ensures { IfOk result (λ battle. battle.value ≡ started opened inside.password inside.game_hash inside.room) }
{
    let battle = Battle {
        opened,
        spectators: 0,
        locked: false,
        password: inside.password,
        game_hash: inside.game_hash,
        room: inside.room,
    };
    match Box::new(alloc, battle) {
        Ok(boxed) => Ok(boxed),
        Err(failed) => {
            drop(failed);
            Err(AllocError)
        }
    }
}

/// What all are told of the battle that a user opens.
fn opened_by(by: &Issuer, opening: &Opening) -> Result<OpenedBattle, AllocError>
    requires there { is_some (at_number by.now.maps.now.plain.clients by.now.client) ≡ true }
    ensures { IfOk result (λ opened.
        answer by.now.maps.now.plain by.now.client (Some by.now.me.now) (command_of opening.now)
        ≡ open_battle by.now.maps.now.plain by.now.me.now
        (started opened opening.now.password.now opening.now.game_hash (new_room by.now.me.now))) }
{
    let texts = texts_of(by.maps, by.client, opening)?;
    Ok(OpenedBattle {
        battle_type: opening.battle_type,
        nat_type: opening.nat_type,
        founder: by.me.copy(),
        ip: texts.ip,
        port: opening.port,
        max_players: opening.max_players,
        passworded: opening.password.as_slice() != NO_PASSWORD,
        rank: opening.rank,
        map_hash: opening.map_hash,
        engine_name: texts.engine.name,
        engine_version: texts.engine.version,
        map: texts.labels.map,
        title: texts.labels.title,
        game_name: texts.labels.game_name,
    })
}

/// What the battle that a user opens keeps from those outside.
fn inside_of(maps: &Maps, me: &NameBuf, opening: &Opening) -> Result<Inside, AllocError>
    ensures password { IfOk result (λ inside. inside.password ≡ opening.now.password.now) }
    ensures game_hash { IfOk result (λ inside. inside.game_hash ≡ opening.now.game_hash) }
    ensures room { IfOk result (λ inside. inside.room ≡ new_room me.now) }
{
    let password = WordBuf::copy_of(maps.alloc(), opening.password.as_slice())?;
    let room = Room::with_key(maps.alloc(), me.copy(), maps.user_key(me), maps.seed())?;
    Ok(Inside {
        password,
        game_hash: opening.game_hash,
        room,
    })
}

/// The texts that all are told of a battle which this client opens.
fn texts_of(maps: &Maps, client: u64, opening: &Opening) -> Result<Texts, AllocError>
    requires { is_some (at_number maps.now.plain.clients client) ≡ true }
    ensures ip { IfOk result (λ texts. texts.ip ≡ address (at_number maps.now.plain.clients client)) }
    ensures given { IfOk result (λ texts. HasTexts opening.now texts) }
{
    let ip = address_of(maps, client)?;
    let engine = copy_engine(maps.alloc(), opening.engine_name, opening.engine_version)?;
    match copy_labels(maps.alloc(), opening.map, opening.title, opening.game_name) {
        Ok(labels) => Ok(Texts { ip, engine, labels }),
        Err(refused) => {
            drop(ip);
            drop(engine);
            Err(refused)
        }
    }
}

/// The address of a client that is there, as it is printed.
pub fn address_of(maps: &Maps, client: u64) -> Result<WordBuf, AllocError>
    requires { is_some (at_number maps.now.plain.clients client) ≡ true }
    ensures { IfOk result (λ word. word ≡ address (at_number maps.now.plain.clients client)) }
{
    match maps.ip_of(client) {
        Some(ip) => ip_word(maps.alloc(), ip),
        None => unreachable!(),
    }
}

/// Tells one who opens a battle its number, and asks for its status.
fn tell_opener(maps: &Maps, me: &NameBuf, number: u32, post: &mut Post) -> Result<(), AllocError>
    requires { name_of maps.now.plain post.old.issuer ≡ Some me.now }
    ensures { OnOk result (Told maps.now.plain post.old post.new (tell (user me.now) (reply.OpenBattle number
        ∷ reply.RequestBattleStatus ∷ []) ∷ [])) }
{
    post.begin_own();
    post.write_own(Reply::OpenBattle {
        battle: BattleNumber(number),
    })?;
    post.write_own(Reply::RequestBattleStatus)?;
    maps.address_user(me, post)?;
    Ok(())
}

/// `LEAVEBATTLE`: the user is in a battle, or asks to join one, and asks no more.
pub fn leave_battle(by: &Issuer, post: &mut Post) -> Result<Change, Stop>
    ensures { Answers by.now.maps.now.plain by.now.client post.old post.new
        (leave_battle by.now.maps.now.plain by.now.me.now) result }
{
    if let Some(number) = by.maps.asked_by(by.me) {
        return Ok(stop_asking(number, by.me));
    }
    let (number, battle) = own_battle(by.maps, by.me)?;
    tell_leaving(by.maps, by.me, number, battle, Leaving::Seen, post)?;
    Ok(Change::InBattles(BattleChange::Leave {
        number,
        name: by.me.copy(),
    }))
}

/// Tells that a member leaves a battle: that the battle closes, where it is the founder, and else
/// that its bots go and that it leaves.
pub fn tell_leaving(
    maps: &Maps,
    name: &NameBuf,
    number: u32,
    battle: &Battle,
    leaving: Leaving,
    post: &mut Post,
) -> Result<(), AllocError>
    ensures { OnOk result (Told maps.now.plain post.old post.new
        (shown leaving (leaves_battle name.now number battle.now)).told) }
{
    if battle.is_founder(name) {
        return tell_closing(maps, number, &battle.room, leaving, post);
    }
    tell_bots_gone(maps, name, number, &battle.room, leaving, post)?;
    let line = Reply::LeftBattle {
        battle: BattleNumber(number),
        user: Name(Held::Lent(name)),
    };
    tell_leaving_all(maps, line, leaving, post)
}

/// Tells that a battle closes: those who ask to join it first, and then all.
fn tell_closing(
    maps: &Maps,
    number: u32,
    room: &Room<ClientKey>,
    leaving: Leaving,
    post: &mut Post,
) -> Result<(), AllocError>
    ensures { OnOk result (Told maps.now.plain post.old post.new
        (shown_to leaving (tell (users (asker_names room.now)) (reply.JoinBattleFailed battle_was_closed ∷ []))
        ∷ shown_to leaving (tell everyone (reply.BattleClosed number ∷ [])) ∷ [])) }
{
    let text = Text::lend(b"The battle was closed");
    let line = Reply::JoinBattleFailed {
        text: reply_kinds::Text(HeldText::Fixed(&text)),
    };
    match leaving {
        Leaving::Seen => maps.tell_askers(room, line, post)?,
        Leaving::Unseen => maps.tell_other_askers(room, line, post)?,
    }
    let line = Reply::BattleClosed {
        battle: BattleNumber(number),
    };
    tell_leaving_all(maps, line, leaving, post)
}

/// Tells the members of a battle that the bots of one of them go.
fn tell_bots_gone(
    maps: &Maps,
    owner: &NameBuf,
    number: u32,
    room: &Room<ClientKey>,
    leaving: Leaving,
    post: &mut Post,
) -> Result<(), AllocError>
    ensures { OnOk result (Told maps.now.plain post.old post.new (bots_gone leaving number owner.now room.now)) }
{
    for bot in room.bots() {
        if owner.cmp(bot.owner()).is_eq() {
            let line = Reply::RemoveBot {
                battle: BattleNumber(number),
                bot: Word(Held::Lent(bot.name())),
            };
            match leaving {
                Leaving::Seen => maps.tell_room(room, line, post)?,
                Leaving::Unseen => maps.tell_others_in_room(room, line, post)?,
            }
        }
    }
    Ok(())
}

/// Tells all users that one leaves, itself among them or not.
fn tell_leaving_all(
    maps: &Maps,
    line: Reply,
    leaving: Leaving,
    post: &mut Post,
) -> Result<(), AllocError>
    ensures { OnOk result (Told maps.now.plain post.old post.new (shown_to leaving (tell everyone (line.entry
        ∷ [])) ∷ [])) }
{
    match leaving {
        Leaving::Seen => maps.tell_all(line, post),
        Leaving::Unseen => maps.tell_others(line, post),
    }
}

/// `UPDATEBATTLEINFO`: the user is in a battle, which it founded.
pub fn update_battle(
    by: &Issuer,
    spectators: u16,
    locked: bool,
    map_hash: i64,
    map: &SentenceBuf,
    post: &mut Post,
) -> Result<Change, Stop>
    ensures { Answers by.now.maps.now.plain by.now.client post.old post.new
        (update_battle by.now.maps.now.plain by.now.me.now (updated spectators locked map_hash map.now)) result }
{
    let (number, battle) = own_battle(by.maps, by.me)?;
    founded_by(battle, by.me)?;
    let line = Reply::UpdateBattleInfo {
        battle: BattleNumber(number),
        spectator_count: spectators,
        locked,
        map_hash: Wide(map_hash),
        map: Sentence(Held::Lent(map)),
    };
    by.maps.tell_all(line, post)?;
    Ok(Change::InBattles(BattleChange::Update {
        number,
        spectators,
        locked,
        map_hash,
        map: SentenceBuf::copy_of(by.maps.alloc(), map.as_slice())?,
    }))
}

/// `MYBATTLESTATUS`: the user is in a battle. Its handicap stays.
pub fn my_battle_status(
    by: &Issuer,
    asked: u32,
    colour: i64,
    post: &mut Post,
) -> Result<Change, Stop>
    ensures { Answers by.now.maps.now.plain by.now.client post.old post.new
        (set_own_status by.now.maps.now.plain by.now.me.now asked colour) result }
{
    let (number, battle) = own_battle(by.maps, by.me)?;
    let status = merge_battle(shown_by(by.me, &battle.room), asked);
    Ok(give_status(by.maps, number, battle, by.me, status, colour, post)?)
}

/// The status that the member of a name shows, 0 where there is none.
fn shown_by(name: &NameBuf, room: &Room<ClientKey>) -> BattleStatus
    ensures { result ≡ status_of name.now room.now }
{
    match room.member(name) {
        Some(member) => member.status(),
        None => BattleStatus::zero(),
    }
}

/// A member of a battle has this status and colour from now on.
pub fn give_status(
    maps: &Maps,
    number: u32,
    battle: &Battle,
    name: &NameBuf,
    status: BattleStatus,
    colour: i64,
    post: &mut Post,
) -> Result<Change, AllocError>
    ensures told { IfOk result (λ _. Told maps.now.plain post.old post.new
        (member_has name.now status colour number battle.now).told) }
    ensures change { IfOk result (λ change. change ≡ status_change number name.now status colour) }
{
    let line = Reply::ClientBattleStatus {
        user: Name(Held::Lent(name)),
        battle_status: status.word(),
        team_color: Wide(colour),
    };
    maps.tell_room(&battle.room, line, post)?;
    Ok(in_room(
        number,
        RoomChange::Status {
            name: name.copy(),
            status,
            colour,
        },
    ))
}

/// `SAYBATTLE` and `SAYBATTLEEX`: the user is in a battle.
pub fn say_in_battle(by: &Issuer, line: Reply, post: &mut Post) -> Result<Change, Stop>
    ensures { Answers by.now.maps.now.plain by.now.client post.old post.new
        (say_in_battle by.now.maps.now.plain by.now.me.now line.entry) result }
{
    let (_, battle) = own_battle(by.maps, by.me)?;
    by.maps.tell_room(&battle.room, line, post)?;
    Ok(Change::Nothing)
}

/// Copies the engine of a battle.
fn copy_engine(
    alloc: Global,
    name: &SentenceBuf,
    version: &SentenceBuf,
) -> Result<Engine, AllocError>
    ensures name { IfOk result (λ engine. engine.name ≡ name.now) }
    ensures version { IfOk result (λ engine. engine.version ≡ version.now) }
{
    Ok(Engine {
        name: SentenceBuf::copy_of(alloc, name.as_slice())?,
        version: SentenceBuf::copy_of(alloc, version.as_slice())?,
    })
}

/// Copies the map, the title and the game of a battle.
fn copy_labels(
    alloc: Global,
    map: &SentenceBuf,
    title: &SentenceBuf,
    game_name: &SentenceBuf,
) -> Result<Labels, AllocError>
    ensures map { IfOk result (λ labels. labels.map ≡ map.now) }
    ensures title { IfOk result (λ labels. labels.title ≡ title.now) }
    ensures game_name { IfOk result (λ labels. labels.game_name ≡ game_name.now) }
{
    Ok(Labels {
        map: SentenceBuf::copy_of(alloc, map.as_slice())?,
        title: SentenceBuf::copy_of(alloc, title.as_slice())?,
        game_name: SentenceBuf::copy_of(alloc, game_name.as_slice())?,
    })
}

/// The change by which one who asks to join a battle asks no more.
pub fn stop_asking(number: u32, name: &NameBuf) -> Change
    ensures { result ≡ stops_asking number name.now }
{
    Change::InBattles(BattleChange::StopAsking {
        number,
        name: name.copy(),
    })
}

/// A change of what the members of a battle share.
pub fn in_room(number: u32, change: RoomChange) -> Change
    ensures { result ≡ InBattles (InRoom number change) }
{
    Change::InBattles(BattleChange::InRoom { number, change })
}

/// An IPv4 address as it is printed: four numbers with dots.
fn ip_word(alloc: Global, ip: [u8; 4]) -> Result<WordBuf, AllocError>
    ensures { IfOk result (λ word. word ≡ ip_text ip) }
{
    dotted(alloc, ip[0], ip[1], ip[2], ip[3])
}

/// Four numbers with dots.
fn dotted(alloc: Global, a: u8, b: u8, c: u8, d: u8) -> Result<WordBuf, AllocError>
    ensures { IfOk result (λ word. word ≡ ip_text (a ∷ b ∷ c ∷ d ∷ [])) }
{
    let mut text = Vec::new(alloc);
    put_number(&mut text, a)?;
    put_dotted(&mut text, b)?;
    put_dotted(&mut text, c)?;
    put_dotted(&mut text, d)?;
    Ok(WordBuf::copy_of(alloc, text.as_slice())?)
}

/// Puts a dot and a number behind a text.
fn put_dotted(text: &mut Vec<u8>, n: u8) -> Result<(), AllocError>
    ensures { OnOk result (text.new.items ≡ text.old.items ++ (46 ∷ decimal n)) }
{
    text.push(b'.')?;
    put_number(text, n)
}

/// Puts a number behind a text.
fn put_number(text: &mut Vec<u8>, n: u8) -> Result<(), AllocError>
    ensures { OnOk result (text.new.items ≡ text.old.items ++ decimal n) }
{
    let mut digits = Buffer::new();
    text.extend_from_slice(digits.format(n).as_bytes())?;
    Ok(())
}
