//! Joining a battle: at once, or by asking its founder, who lets one in or denies it: docs/PROTOCOL.md,
//! "What the server does", from "JOINBATTLE" to "JOINBATTLEDENY".

ghost use Rattle.std.specs.Prelude.{◌≡◌, [], ◌∷◌, ◌++◌, OnOk, IfOk, None, Some, option_copied};
ghost use Rattle.reply_kinds.specs.declared.Reply.TheVariants as reply;
ghost use Rattle.line_words.specs.Table.{at_number, same_name};
ghost use Rattle.lobby_model.specs.State.{name_of};
ghost use Rattle.lobby_model.specs.Outcome.{is_named, tell, user};
ghost use Rattle.lobby_model.specs.Battles.{accept, address, asks_to_join, deny, join_battle, joining};
ghost use Rattle.lobby_model.specs.Battles.{reason_or_default, room_lines};
ghost use Rattle.lobby_post.specs.Posted.{Told};
ghost use Rattle.battle_rules.specs.Answers.{Answers};
ghost use Rattle.lobby_battles.specs.Recipients.{is_issuer};
ghost use Rattle.lobby_maps.specs.declared.change.Change.TheVariants.{InBattles};
ghost use Rattle.lobby_battles.specs.declared.battles.BattleChange.TheVariants.{Ask};

use crate::battle_guards::{
    asker_named, asks_nowhere, battle_numbered, founded_by, in_no_battle, not_locked, own_battle,
    right_password,
};
use crate::battles::{address_of, stop_asking};
use crate::{Issuer, Refusal, Stop};
use line_words::{NameBuf, Text, TextBuf, WordBuf};
use lobby_battles::{Recipient, write_line, write_room};
use lobby_maps::{Battle, BattleChange, Change, Maps};
use lobby_post::Post;
use reply_kinds::{BattleNumber, Held, HeldText, Name, Reply, Wide, Word};
use std::alloc::{AllocError, Global};

/// `JOINBATTLE`: the user is in no battle and asks to join none; there is a battle of that number,
/// which is not locked and lets it in. It joins, or, where the founder authorises who does, it asks.
pub fn join_battle(
    by: &Issuer,
    number: u32,
    password: Option<&WordBuf>,
    script_password: Option<&WordBuf>,
    post: &mut Post,
) -> Result<Change, Stop>
    requires me { name_of by.now.maps.now.plain by.now.client ≡ Some by.now.me.now }
    requires issuer { post.old.issuer ≡ by.now.client }
    ensures { Answers by.now.maps.now.plain by.now.client post.old post.new
        (join_battle by.now.maps.now.plain by.now.me.now
        (address (at_number by.now.maps.now.plain.clients by.now.client)) number (option_copied password.entry)
        (option_copied script_password.entry)) result }
{
    in_no_battle(by.maps, by.me, Refusal::JoinsInBattle)?;
    asks_nowhere(by.maps, by.me, Refusal::JoinsAsking)?;
    let battle = battle_numbered(by.maps, number)?;
    not_locked(battle)?;
    right_password(battle, password)?;
    if by.maps.is_authorising(&battle.opened.founder) {
        return Ok(ask_to_join(by, number, battle, script_password, post)?);
    }
    tell_joining(
        by.maps,
        by.me,
        number,
        battle,
        script_password,
        Recipient::Issuer,
        post,
    )?;
    Ok(Change::InBattles(BattleChange::Join {
        number,
        name: by.me.copy(),
    }))
}

/// A user asks to join a battle, with the script password that it gave, and the founder is told.
fn ask_to_join(
    by: &Issuer,
    number: u32,
    battle: &Battle,
    script_password: Option<&WordBuf>,
    post: &mut Post,
) -> Result<Change, AllocError>
    requires { name_of by.now.maps.now.plain by.now.client ≡ Some by.now.me.now }
    ensures told { IfOk result (λ _. Told by.now.maps.now.plain post.old post.new
        (asks_to_join by.now.me.now number battle.now (option_copied script_password.entry)
        (address (at_number by.now.maps.now.plain.clients by.now.client))).told) }
    ensures change { IfOk result (λ change.
        change ≡ InBattles (Ask number by.now.me.now (option_copied script_password.entry))) }
{
    let ip = address_of(by.maps, by.client)?;
    let line = Reply::JoinBattleRequest {
        user: Name(Held::Lent(by.me)),
        ip: Word(Held::Lent(&ip)),
    };
    let told = by.maps.tell_user(&battle.opened.founder, line, post);
    drop(ip);
    told?;
    Ok(Change::InBattles(BattleChange::Ask {
        number,
        name: by.me.copy(),
        script_password: copy_word(by.maps.alloc(), script_password)?,
    }))
}

/// `JOINBATTLEACCEPT`: the user is in a battle, which it founded, and the one who joins asks to.
pub fn accept(by: &Issuer, name: &NameBuf, post: &mut Post) -> Result<Change, Stop>
    requires me { name_of by.now.maps.now.plain by.now.client ≡ Some by.now.me.now }
    requires issuer { post.old.issuer ≡ by.now.client }
    ensures { Answers by.now.maps.now.plain by.now.client post.old post.new
        (accept by.now.maps.now.plain by.now.me.now name.now) result }
{
    let (number, battle) = own_battle(by.maps, by.me)?;
    founded_by(battle, by.me)?;
    let asker = asker_named(battle, name)?;
    let script_password = asker.script_password();
    tell_joining(
        by.maps,
        name,
        number,
        battle,
        script_password,
        Recipient::Other,
        post,
    )?;
    Ok(Change::InBattles(BattleChange::LetIn {
        number,
        name: name.copy(),
    }))
}

/// `JOINBATTLEDENY`: the user is in a battle, which it founded, and the one who is denied it asks to
/// join. It is told the reason, or, where none is given, that the founder denied it.
pub fn deny(
    by: &Issuer,
    name: &NameBuf,
    reason: Option<&TextBuf>,
    post: &mut Post,
) -> Result<Change, Stop>
    ensures { Answers by.now.maps.now.plain by.now.client post.old post.new
        (deny by.now.maps.now.plain by.now.me.now name.now (option_copied reason.entry)) result }
{
    let (number, battle) = own_battle(by.maps, by.me)?;
    founded_by(battle, by.me)?;
    asker_named(battle, name)?;
    let reason = reason_given(reason);
    by.maps.tell_user(
        name,
        Reply::JoinBattleFailed {
            text: reply_kinds::Text(HeldText::Fixed(&reason)),
        },
        post,
    )?;
    Ok(stop_asking(number, name))
}

/// Tells that one joins a battle: itself, the founder, who gets the script password too, and all others.
fn tell_joining(
    maps: &Maps,
    name: &NameBuf,
    number: u32,
    battle: &Battle,
    script_password: Option<&WordBuf>,
    recipient: Recipient,
    post: &mut Post,
) -> Result<(), AllocError>
    requires { is_named (same_name name.now) (name_of maps.now.plain post.old.issuer) ≡ is_issuer recipient }
    ensures { OnOk result (Told maps.now.plain post.old post.new
        (joining name.now number battle.now (option_copied script_password.entry))) }
{
    tell_joiner(maps, name, number, battle, recipient, post)?;
    let founder = &battle.opened.founder;
    let line = Reply::JoinedBattle {
        battle: BattleNumber(number),
        user: Name(Held::Lent(name)),
        script_password: lent_word(script_password),
    };
    maps.tell_user(founder, line, post)?;
    let line = Reply::JoinedBattle {
        battle: BattleNumber(number),
        user: Name(Held::Lent(name)),
        script_password: None,
    };
    maps.tell_all_but(name, founder, line, post)
}

/// Tells one who joins a battle what its members share, and asks for its status.
fn tell_joiner(
    maps: &Maps,
    name: &NameBuf,
    number: u32,
    battle: &Battle,
    recipient: Recipient,
    post: &mut Post,
) -> Result<(), AllocError>
    requires { is_named (same_name name.now) (name_of maps.now.plain post.old.issuer) ≡ is_issuer recipient }
    ensures { OnOk result (Told maps.now.plain post.old post.new
        (tell (user name.now) (reply.JoinBattle number battle.now.game_hash ∷ reply.JoinedBattle number name.now None
        ∷ (room_lines number battle.now.room ++ reply.RequestBattleStatus ∷ [])) ∷ [])) }
{
    post.begin_own();
    let line = Reply::JoinBattle {
        battle: BattleNumber(number),
        game_hash: Wide(battle.game_hash),
    };
    write_line(recipient, line, post)?;
    let line = Reply::JoinedBattle {
        battle: BattleNumber(number),
        user: Name(Held::Lent(name)),
        script_password: None,
    };
    write_line(recipient, line, post)?;
    write_room(recipient, number, &battle.room, post)?;
    write_line(recipient, Reply::RequestBattleStatus, post)?;
    maps.address_user(name, post)?;
    Ok(())
}

/// Why one was denied a battle, in words.
fn reason_given(reason: Option<&TextBuf>) -> Text<'_>
    ensures { result ≡ reason_or_default (option_copied reason.entry) }
{
    match reason {
        Some(reason) => reason.as_text(),
        None => Text::lend(b"Denied by the founder"),
    }
}

/// Lends a word, where there is one.
fn lent_word(word: Option<&WordBuf>) -> Option<Word<'_>>
    ensures { result ≡ option_copied word.entry }
{
    match word {
        Some(word) => Some(Word(Held::Lent(word))),
        None => None,
    }
}

/// Copies a word, where there is one.
fn copy_word(alloc: Global, word: Option<&WordBuf>) -> Result<Option<WordBuf>, AllocError>
    ensures { IfOk result (λ copy. copy ≡ option_copied word.entry) }
{
    match word {
        Some(word) => Ok(Some(WordBuf::copy_of(alloc, word.as_slice())?)),
        None => Ok(None),
    }
}
