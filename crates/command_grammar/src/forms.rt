//! One reader for each command whose row of arguments no other command has: it takes an argument for
//! each kind of the row, from left to right. All are read first, and those that are kept are copied
//! then, so that a fault takes no memory.

ghost use Rattle.std.specs.Prelude.{◌≡◌, ◌∷◌, [], IfOk, IfSome, IsTrue, OnErr, is_some};
ghost use Rattle.std.specs.Option.{option_map};
ghost use Rattle.line_words.specs.Bytes.{is_sentence, is_text, is_word};
ghost use Rattle.command_grammar.specs.declared.command.Command.TheVariants as command;
ghost use Rattle.command_grammar.specs.Readers.{Gives, row_at};
ghost use Rattle.command_grammar.specs.Table.{Wide, battle_titles, add_bot_row, add_rectangle_row, battle_info_row};
ghost use Rattle.command_grammar.specs.Table.{battle_status_row, color_row, deny_row, join_battle_row, join_row};
ghost use Rattle.command_grammar.specs.Table.{login_row, one_word, open_battle_row, remove_rectangle_row, side_number};
ghost use Rattle.command_grammar.specs.Table.{some_pairs, status_row, update_bot_row};

use crate::arguments::{
    flag_at, login_flags_at, name_at, natural_at, optional_at, optional_text_at, sentence_at,
    text_at, wide_at, word_at,
};
use crate::command::Command;
use crate::fault::ReadError;
use crate::lists::{check_pairs, copy_of_pairs};
use line_words::{NameBuf, SentenceBuf, TextBuf, WordBuf};
use std::alloc::{AllocError, Global};

/// Reads the arguments of LOGIN.
pub fn login(alloc: Global, rest: &[u8]) -> Result<Command, ReadError>
    requires { IsTrue (is_text rest.now) }
    ensures { Gives result (row_at login_row command.Login rest.now) }
{
    let (user_name, rest) = word_at(rest)?;
    let (password, rest) = word_at(rest)?;
    let (cpu, rest) = wide_at(rest)?;
    let (local_ip, rest) = word_at(rest)?;
    let (lobby, rest) = sentence_at(rest)?;
    let login = LentLogin {
        user_name,
        password,
        cpu,
        local_ip,
        lobby,
        authorises: login_flags_at(rest),
    };
    Ok(copy_of_login(alloc, &login)?)
}

/// The arguments of LOGIN.
#[derive(Drop)]
struct LentLogin<'a> {
    user_name: &'a [u8],
    password: &'a [u8],
    cpu: i64,
    local_ip: &'a [u8],
    lobby: &'a [u8],
    authorises: bool,
}

/// Copies have functions of their own where there are many: each `?` that can leave a copy behind is
/// proved with what lets it go.
fn copy_of_login(alloc: Global, login: &LentLogin<'_>) -> Result<Command, AllocError>
    requires user_name { IsTrue (is_word login.now.user_name.now) }
    requires password { IsTrue (is_word login.now.password.now) }
    requires local_ip { IsTrue (is_word login.now.local_ip.now) }
    requires lobby { IsTrue (is_sentence login.now.lobby.now) }
    ensures { IfOk result (λ c. c ≡ command.Login login.now.user_name.now login.now.password.now login.now.cpu
        login.now.local_ip.now login.now.lobby.now login.now.authorises) }
{
    Ok(Command::Login {
        user_name: WordBuf::copy_of(alloc, login.user_name)?,
        password: WordBuf::copy_of(alloc, login.password)?,
        cpu: login.cpu,
        local_ip: WordBuf::copy_of(alloc, login.local_ip)?,
        lobby: SentenceBuf::copy_of(alloc, login.lobby)?,
        authorises: login.authorises,
    })
}

/// Reads the arguments of MYSTATUS.
pub fn my_status(_alloc: Global, rest: &[u8]) -> Result<Command, ReadError>
    requires { IsTrue (is_text rest.now) }
    ensures { Gives result (row_at status_row command.MyStatus rest.now) }
{
    let (status, _) = natural_at(rest, 4294967295)?;
    Ok(Command::MyStatus { status })
}

/// Reads the arguments of JOIN.
pub fn join(alloc: Global, rest: &[u8]) -> Result<Command, ReadError>
    requires { IsTrue (is_text rest.now) }
    ensures { Gives result (row_at join_row command.Join rest.now) }
{
    let (channel, rest) = name_at(rest)?;
    let (key, _) = optional_at(rest)?;
    Ok(Command::Join {
        channel: NameBuf::copy_of(alloc, channel)?,
        key: copy_of_optional(alloc, key)?,
    })
}

/// Reads the arguments of OPENBATTLE.
pub fn open_battle(alloc: Global, rest: &[u8]) -> Result<Command, ReadError>
    requires { IsTrue (is_text rest.now) }
    ensures { Gives result (row_at open_battle_row command.OpenBattle rest.now) }
{
    let (battle_type, rest) = natural_at(rest, 1)?;
    let (nat_type, rest) = natural_at(rest, 2)?;
    let (password, rest) = word_at(rest)?;
    let (port, rest) = natural_at(rest, 65535)?;
    let (max_players, rest) = natural_at(rest, 65535)?;
    let host = LentHost {
        battle_type: battle_type as u8,
        nat_type: nat_type as u8,
        password,
        port: port as u16,
        max_players: max_players as u16,
    };
    hashed_battle(alloc, &host, rest)
}

/// What stands before the hashes of OPENBATTLE.
#[derive(Drop)]
struct LentHost<'a> {
    battle_type: u8,
    nat_type: u8,
    password: &'a [u8],
    port: u16,
    max_players: u16,
}

/// The hashes and the rank of OPENBATTLE. They and the sentences have functions of their own, since one
/// over all its arguments is proved far slower.
fn hashed_battle(alloc: Global, host: &LentHost<'_>, rest: &[u8]) -> Result<Command, ReadError>
    requires text { IsTrue (is_text rest.now) }
    requires password { IsTrue (is_word host.now.password.now) }
    ensures { Gives result (row_at (Wide ∷ Wide ∷ Wide
        ∷ battle_titles) (command.OpenBattle host.now.battle_type host.now.nat_type host.now.password.now host.now.port
        host.now.max_players) rest.now) }
{
    let (game_hash, rest) = wide_at(rest)?;
    let (rank, rest) = wide_at(rest)?;
    let (map_hash, rest) = wide_at(rest)?;
    let hashes = Hashes {
        game_hash,
        rank,
        map_hash,
    };
    named_battle(alloc, host, &hashes, rest)
}

/// The hashes and the rank of OPENBATTLE.
#[derive(Drop)]
struct Hashes {
    game_hash: i64,
    rank: i64,
    map_hash: i64,
}

/// The sentences of OPENBATTLE.
fn named_battle(
    alloc: Global,
    host: &LentHost<'_>,
    hashes: &Hashes,
    rest: &[u8],
) -> Result<Command, ReadError>
    requires text { IsTrue (is_text rest.now) }
    requires password { IsTrue (is_word host.now.password.now) }
    ensures { Gives result (row_at battle_titles
        (command.OpenBattle host.now.battle_type host.now.nat_type host.now.password.now host.now.port
        host.now.max_players hashes.now.game_hash hashes.now.rank hashes.now.map_hash) rest.now) }
{
    let (engine_name, rest) = sentence_at(rest)?;
    let (engine_version, rest) = sentence_at(rest)?;
    let (map, rest) = sentence_at(rest)?;
    let (title, rest) = sentence_at(rest)?;
    let (game_name, _) = sentence_at(rest)?;
    let titles = LentTitles {
        engine_name,
        engine_version,
        map,
        title,
        game_name,
    };
    Ok(copy_of_battle(alloc, host, hashes, &titles)?)
}

/// The sentences of OPENBATTLE.
#[derive(Drop)]
struct LentTitles<'a> {
    engine_name: &'a [u8],
    engine_version: &'a [u8],
    map: &'a [u8],
    title: &'a [u8],
    game_name: &'a [u8],
}

fn copy_of_battle(
    alloc: Global,
    host: &LentHost<'_>,
    hashes: &Hashes,
    titles: &LentTitles<'_>,
) -> Result<Command, AllocError>
    requires password { IsTrue (is_word host.now.password.now) }
    requires engine_name { IsTrue (is_sentence titles.now.engine_name.now) }
    requires engine_version { IsTrue (is_sentence titles.now.engine_version.now) }
    requires map { IsTrue (is_sentence titles.now.map.now) }
    requires title { IsTrue (is_sentence titles.now.title.now) }
    requires game_name { IsTrue (is_sentence titles.now.game_name.now) }
    ensures { IfOk result (λ c. c ≡ command.OpenBattle host.now.battle_type host.now.nat_type host.now.password.now
        host.now.port host.now.max_players hashes.now.game_hash hashes.now.rank hashes.now.map_hash
        titles.now.engine_name.now titles.now.engine_version.now titles.now.map.now titles.now.title.now
        titles.now.game_name.now) }
{
    let password = WordBuf::copy_of(alloc, host.password)?;
    let (engine_name, engine_version) = copy_of_two(
        alloc,
        titles.engine_name,
        titles.engine_version,
    )?;
    let (map, title) = copy_of_two(alloc, titles.map, titles.title)?;
    Ok(Command::OpenBattle {
        battle_type: host.battle_type,
        nat_type: host.nat_type,
        password,
        port: host.port,
        max_players: host.max_players,
        game_hash: hashes.game_hash,
        rank: hashes.rank,
        map_hash: hashes.map_hash,
        engine_name,
        engine_version,
        map,
        title,
        game_name: SentenceBuf::copy_of(alloc, titles.game_name)?,
    })
}

fn copy_of_two(
    alloc: Global,
    first: &[u8],
    second: &[u8],
) -> Result<(SentenceBuf, SentenceBuf), AllocError>
    requires first { IsTrue (is_sentence first.now) }
    requires second { IsTrue (is_sentence second.now) }
    ensures first { IfOk result (λ x. x.0 ≡ first.now) }
    ensures second { IfOk result (λ x. x.1 ≡ second.now) }
{
    let first = SentenceBuf::copy_of(alloc, first)?;
    let second = SentenceBuf::copy_of(alloc, second)?;
    Ok((first, second))
}

/// Reads the arguments of JOINBATTLE.
pub fn join_battle(alloc: Global, rest: &[u8]) -> Result<Command, ReadError>
    requires { IsTrue (is_text rest.now) }
    ensures { Gives result (row_at join_battle_row command.JoinBattle rest.now) }
{
    let (battle, rest) = natural_at(rest, 2147483647)?;
    let (password, rest) = optional_at(rest)?;
    let (script_password, _) = optional_at(rest)?;
    Ok(Command::JoinBattle {
        battle,
        password: copy_of_optional(alloc, password)?,
        script_password: copy_of_optional(alloc, script_password)?,
    })
}

/// Reads the arguments of JOINBATTLEDENY.
pub fn join_battle_deny(alloc: Global, rest: &[u8]) -> Result<Command, ReadError>
    requires { IsTrue (is_text rest.now) }
    ensures { Gives result (row_at deny_row command.JoinBattleDeny rest.now) }
{
    let (user, rest) = name_at(rest)?;
    let reason = optional_text_at(rest);
    Ok(Command::JoinBattleDeny {
        user: NameBuf::copy_of(alloc, user)?,
        reason: copy_of_reason(alloc, reason)?,
    })
}

fn copy_of_reason(alloc: Global, reason: Option<&[u8]>) -> Result<Option<TextBuf>, AllocError>
    requires { IfSome reason (λ t. IsTrue (is_text t.now)) }
    ensures { IfOk result (λ copy. copy ≡ option_map (λ t. t.now) reason.entry) }
{
    match reason {
        Some(reason) => Ok(Some(TextBuf::copy_of(alloc, reason)?)),
        None => Ok(None),
    }
}

fn copy_of_optional(alloc: Global, word: Option<&[u8]>) -> Result<Option<WordBuf>, AllocError>
    requires { IfSome word (λ w. IsTrue (is_word w.now)) }
    ensures ok { IfOk result (λ copy. copy ≡ option_map (λ w. w.now) word.entry) }
    ensures err { OnErr result (IsTrue (is_some word.entry)) }
{
    match word {
        Some(word) => Ok(Some(WordBuf::copy_of(alloc, word)?)),
        None => Ok(None),
    }
}

/// Reads the arguments of UPDATEBATTLEINFO.
pub fn update_battle_info(alloc: Global, rest: &[u8]) -> Result<Command, ReadError>
    requires { IsTrue (is_text rest.now) }
    ensures { Gives result (row_at battle_info_row command.UpdateBattleInfo rest.now) }
{
    let (spectator_count, rest) = natural_at(rest, 65535)?;
    let (locked, rest) = flag_at(rest)?;
    let (map_hash, rest) = wide_at(rest)?;
    let (map, _) = sentence_at(rest)?;
    Ok(Command::UpdateBattleInfo {
        spectator_count: spectator_count as u16,
        locked,
        map_hash,
        map: SentenceBuf::copy_of(alloc, map)?,
    })
}

/// Reads the arguments of MYBATTLESTATUS.
pub fn my_battle_status(_alloc: Global, rest: &[u8]) -> Result<Command, ReadError>
    requires { IsTrue (is_text rest.now) }
    ensures { Gives result (row_at battle_status_row command.MyBattleStatus rest.now) }
{
    let (battle_status, rest) = natural_at(rest, 4294967295)?;
    let (team_color, _) = wide_at(rest)?;
    Ok(Command::MyBattleStatus {
        battle_status,
        team_color,
    })
}

/// Reads the arguments of ADDBOT.
pub fn add_bot(alloc: Global, rest: &[u8]) -> Result<Command, ReadError>
    requires { IsTrue (is_text rest.now) }
    ensures { Gives result (row_at add_bot_row command.AddBot rest.now) }
{
    let (bot, rest) = word_at(rest)?;
    let (battle_status, rest) = natural_at(rest, 4294967295)?;
    let (team_color, rest) = wide_at(rest)?;
    let (ai, _) = sentence_at(rest)?;
    Ok(copy_of_bot(alloc, bot, battle_status, team_color, ai)?)
}

fn copy_of_bot(
    alloc: Global,
    bot: &[u8],
    battle_status: u32,
    team_color: i64,
    ai: &[u8],
) -> Result<Command, AllocError>
    requires bot { IsTrue (is_word bot.now) }
    requires ai { IsTrue (is_sentence ai.now) }
    ensures { IfOk result (λ c. c ≡ command.AddBot bot.now battle_status team_color ai.now) }
{
    Ok(Command::AddBot {
        bot: WordBuf::copy_of(alloc, bot)?,
        battle_status,
        team_color,
        ai: SentenceBuf::copy_of(alloc, ai)?,
    })
}

/// Reads the arguments of UPDATEBOT.
pub fn update_bot(alloc: Global, rest: &[u8]) -> Result<Command, ReadError>
    requires { IsTrue (is_text rest.now) }
    ensures { Gives result (row_at update_bot_row command.UpdateBot rest.now) }
{
    let (bot, rest) = word_at(rest)?;
    let (battle_status, rest) = natural_at(rest, 4294967295)?;
    let (team_color, _) = wide_at(rest)?;
    Ok(Command::UpdateBot {
        bot: WordBuf::copy_of(alloc, bot)?,
        battle_status,
        team_color,
    })
}

/// Reads the arguments of REMOVEBOT.
pub fn remove_bot(alloc: Global, rest: &[u8]) -> Result<Command, ReadError>
    requires { IsTrue (is_text rest.now) }
    ensures { Gives result (row_at one_word command.RemoveBot rest.now) }
{
    let (bot, _) = word_at(rest)?;
    Ok(Command::RemoveBot {
        bot: WordBuf::copy_of(alloc, bot)?,
    })
}

/// Reads the arguments of ADDSTARTRECT.
pub fn add_start_rect(_alloc: Global, rest: &[u8]) -> Result<Command, ReadError>
    requires { IsTrue (is_text rest.now) }
    ensures { Gives result (row_at add_rectangle_row command.AddStartRect rest.now) }
{
    let (ally_no, rest) = natural_at(rest, 15)?;
    let (left, rest) = natural_at(rest, 200)?;
    let (top, rest) = natural_at(rest, 200)?;
    lower_right(ally_no as u8, left as u8, top as u8, rest)
}

/// The second corner of ADDSTARTRECT.
fn lower_right(ally_no: u8, left: u8, top: u8, rest: &[u8]) -> Result<Command, ReadError>
    requires { IsTrue (is_text rest.now) }
    ensures { Gives result (row_at (side_number ∷ side_number ∷ []) (command.AddStartRect ally_no left top) rest.now) }
{
    let (right, rest) = natural_at(rest, 200)?;
    let (bottom, _) = natural_at(rest, 200)?;
    Ok(Command::AddStartRect {
        ally_no,
        left,
        top,
        right: right as u8,
        bottom: bottom as u8,
    })
}

/// Reads the arguments of REMOVESTARTRECT.
pub fn remove_start_rect(_alloc: Global, rest: &[u8]) -> Result<Command, ReadError>
    requires { IsTrue (is_text rest.now) }
    ensures { Gives result (row_at remove_rectangle_row command.RemoveStartRect rest.now) }
{
    let (ally_no, _) = natural_at(rest, 15)?;
    Ok(Command::RemoveStartRect {
        ally_no: ally_no as u8,
    })
}

/// Reads the arguments of SETSCRIPTTAGS.
#[tactic(auto, unfolding(crate::specs::Readers::pairs_at), using(crate::proofs::Checks::pairs_need_memory))]
pub fn set_script_tags(alloc: Global, rest: &[u8]) -> Result<Command, ReadError>
    requires { IsTrue (is_text rest.now) }
    ensures { Gives result (row_at some_pairs command.SetScriptTags rest.now) }
{
    let text = text_at(rest)?;
    check_pairs(text)?;
    Ok(Command::SetScriptTags {
        pairs: copy_of_pairs(alloc, text)?,
    })
}

/// Reads the arguments of FORCETEAMCOLOR.
pub fn force_team_color(alloc: Global, rest: &[u8]) -> Result<Command, ReadError>
    requires { IsTrue (is_text rest.now) }
    ensures { Gives result (row_at color_row command.ForceTeamColor rest.now) }
{
    let (user, rest) = name_at(rest)?;
    let (team_color, _) = wide_at(rest)?;
    Ok(Command::ForceTeamColor {
        user: NameBuf::copy_of(alloc, user)?,
        team_color,
    })
}
