//! The rows of each table.

ghost use Rattle.std.specs.Prelude.{◌≡◌, ◌++◌, ℕ, List, IfOk, OnOk, length};
ghost use Rattle.lobby_lines.specs.Rows.{user_row, user_shown, battle_row, battle_shown, member_row, member_shown};
ghost use Rattle.lobby_lines.specs.Rows.{bot_row, bot_shown, tag_row, tag_shown, rect_row};

use crate::table::{Listed, Place, put_text};
use client_view::{Battle, Bot, Member, User};
use line_words::{NameBuf, Pair};
use room_lists::Rect;
use std::alloc::AllocError;

/// A user who is logged in. The fields are those of `User`.
#[repr(C)]
#[derive(Clone, Copy)]
pub struct UserRow {
    pub name: Place,
    pub country: Place,
    pub cpu: i64,
    pub account: u32,
    pub status: u32,
}

/// A battle, as all see it. The fields are those of `Battle`; what is so is 1, and 0 where it is not.
#[repr(C)]
#[derive(Clone, Copy)]
pub struct BattleRow {
    pub founder: Place,
    pub ip: Place,
    pub engine_name: Place,
    pub engine_version: Place,
    pub map: Place,
    pub title: Place,
    pub game_name: Place,
    pub rank: i64,
    pub map_hash: i64,
    pub number: u32,
    pub port: u16,
    pub max_players: u16,
    pub spectators: u16,
    pub battle_type: u8,
    pub nat_type: u8,
    pub passworded: u8,
    pub locked: u8,
    /// 0: it fills the row, so that no byte of lent memory stays as it was.
    pub unused: u16,
}

/// A member of the own room.
#[repr(C)]
#[derive(Clone, Copy)]
pub struct MemberRow {
    pub name: Place,
    pub colour: i64,
    pub status: u32,
    /// 0, as in a battle.
    pub unused: u32,
}

/// A bot of the own room.
#[repr(C)]
#[derive(Clone, Copy)]
pub struct BotRow {
    pub name: Place,
    pub owner: Place,
    pub ai: Place,
    pub colour: i64,
    pub status: u32,
    /// 0, as in a battle.
    pub unused: u32,
}

/// A script tag of the own room.
#[repr(C)]
#[derive(Clone, Copy)]
pub struct TagRow {
    pub key: Place,
    pub value: Place,
}

/// The row of a user of this name, as `Listed::put`.
pub(crate) fn put_user(
    text: &mut Vec<u8>,
    name: &NameBuf,
    user: &User,
) -> Result<UserRow, AllocError>
    ensures made { IfOk result (λ made. made ≡ user_row (length text.old.items) (name.now, user.now)) }
    ensures text { OnOk result (text.new.items ≡ text.old.items ++ user_shown (name.now, user.now)) }
{
    let name = put_text(text, name.as_slice())?;
    let country = put_text(text, user.country.as_slice())?;
    Ok(UserRow {
        name,
        country,
        cpu: user.cpu,
        account: user.account,
        status: user.status,
    })
}

/// The row of a battle of this number, as `Listed::put`.
pub(crate) fn put_battle(
    text: &mut Vec<u8>,
    number: u32,
    battle: &Battle,
) -> Result<BattleRow, AllocError>
    ensures made { IfOk result (λ made. made ≡ battle_row (length text.old.items) (number, battle.now)) }
    ensures text { OnOk result (text.new.items ≡ text.old.items ++ battle_shown (number, battle.now)) }
{
    let opened = &battle.opened;
    Ok(BattleRow {
        founder: put_text(text, opened.founder.as_slice())?,
        ip: put_text(text, opened.ip.as_slice())?,
        engine_name: put_text(text, opened.engine_name.as_slice())?,
        engine_version: put_text(text, opened.engine_version.as_slice())?,
        map: put_text(text, opened.map.as_slice())?,
        title: put_text(text, opened.title.as_slice())?,
        game_name: put_text(text, opened.game_name.as_slice())?,
        rank: opened.rank,
        map_hash: opened.map_hash,
        number,
        port: opened.port,
        max_players: opened.max_players,
        spectators: battle.spectators,
        battle_type: opened.battle_type,
        nat_type: opened.nat_type,
        passworded: u8::from(opened.passworded),
        locked: u8::from(battle.locked),
        unused: 0,
    })
}

impl Listed<MemberRow> for Member {
    ghost row_at = { member_row };

    ghost shown = { member_shown };

    fn put(&self, text: &mut Vec<u8>) -> Result<MemberRow, AllocError> {
        Ok(MemberRow {
            name: put_text(text, self.name.as_slice())?,
            colour: self.colour,
            status: self.status,
            unused: 0,
        })
    }
}

impl Listed<BotRow> for Bot {
    ghost row_at = { bot_row };

    ghost shown = { bot_shown };

    fn put(&self, text: &mut Vec<u8>) -> Result<BotRow, AllocError> {
        Ok(BotRow {
            name: put_text(text, self.name().as_slice())?,
            owner: put_text(text, self.owner().as_slice())?,
            ai: put_text(text, self.ai().as_slice())?,
            colour: self.colour(),
            status: self.status(),
            unused: 0,
        })
    }
}

impl Listed<TagRow> for Pair {
    ghost row_at = { tag_row };

    ghost shown = { tag_shown };

    fn put(&self, text: &mut Vec<u8>) -> Result<TagRow, AllocError> {
        Ok(TagRow {
            key: put_text(text, self.key.as_slice())?,
            value: put_text(text, self.value.as_slice())?,
        })
    }
}

/// A start rectangle of the own room. The fields are those of `Rect`.
#[repr(C)]
#[derive(Clone, Copy)]
pub struct RectRow {
    pub left: u8,
    pub top: u8,
    pub right: u8,
    pub bottom: u8,
}

impl RectRow {
    /// Of a rectangle.
    pub fn of(rect: Rect) -> RectRow
        ensures { result ≡ rect_row rect }
    {
        RectRow {
            left: rect.left,
            top: rect.top,
            right: rect.right,
            bottom: rect.bottom,
        }
    }
}
