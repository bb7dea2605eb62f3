//! What a login tells the user that logs in, part by part, behind what it was told before.

ghost use Rattle.std.specs.Prelude.{◌≡◌, map, flat_map, OnOk};
ghost use Rattle.line_words.specs.Table.{put_name};
ghost use Rattle.reply_kinds.specs.declared.Reply.TheVariants as reply;
ghost use Rattle.lobby_model.specs.Battles.{battle_lines};
ghost use Rattle.lobby_post.specs.Posted.{with_own};
ghost use Rattle.lobby_battles.specs.OnlineUsers.{plain_user, users_of};
ghost use Rattle.lobby_battles.specs.BurstParts.{guest_lines, part_of, parts_of};

use crate::battle::Battle;
use crate::battles::Battles;
use crate::online_users::OnlineUser;
use line_words::{NameBuf, TextBuf};
use lobby_post::Post;
use reply_kinds::Held::Lent;
use reply_kinds::{BattleNumber, Country, HeldText, HeldWord, Name, Reply, Sentence, Text, Wide};
use std::alloc::AllocError;
use std::cmp::Ordering;
use std::collections::BTreeMap;

/// Writes the battles, in the order of their numbers.
pub fn write_battles(battles: &Battles, post: &mut Post) -> Result<(), AllocError>
    ensures { OnOk result (post.new ≡ with_own post.old (flat_map (λ e.
        battle_lines e.0 e.1) battles.now.by_number.entries)) }
{
    for (number, battle) in &battles.by_number {
        write_battle(*number, battle, post)?;
    }
    Ok(())
}

/// Writes what all know of a battle, and who is in it besides its founder.
fn write_battle(number: u32, battle: &Battle, post: &mut Post) -> Result<(), AllocError>
    ensures { OnOk result (post.new ≡ with_own post.old (battle_lines number battle.now)) }
{
    post.write_own(battle.opened.told(number))?;
    post.write_own(Reply::UpdateBattleInfo {
        battle: BattleNumber(number),
        spectator_count: battle.spectators,
        locked: battle.locked,
        map_hash: Wide(battle.opened.map_hash),
        map: Sentence(Lent(&battle.opened.map)),
    })?;
    write_guests(number, battle, post)?;
    Ok(())
}

/// Writes who is in a battle besides its founder.
fn write_guests(number: u32, battle: &Battle, post: &mut Post) -> Result<(), AllocError>
    ensures { OnOk result (post.new ≡ with_own post.old (guest_lines number battle.now)) }
{
    for name in battle.room.names() {
        if !battle.is_founder(name) {
            post.write_own(Reply::JoinedBattle {
                battle: BattleNumber(number),
                user: Name(Lent(name)),
                script_password: None,
            })?;
        }
    }
    Ok(())
}

/// Writes the lines of the message of the day.
pub fn write_motd(motd: &[TextBuf], post: &mut Post) -> Result<(), AllocError>
    ensures { OnOk result (post.new ≡ with_own post.old (map (λ line. reply.Motd line) motd.now)) }
{
    for line in motd {
        post.write_own(Reply::Motd {
            text: Text(HeldText::Lent(line)),
        })?;
    }
    Ok(())
}

/// What is told of a user, one part of all users after the other.
#[derive(Clone, Copy)]
pub enum Part {
    /// The user is there.
    Presence,
    /// Its status, where that is not 0.
    Status,
}

/// Writes one part of what is told of each user, and of one more, in the order of names. That one
/// takes the place of a user of its name.
pub fn write_parts(
    users: &BTreeMap<NameBuf, OnlineUser>,
    name: &NameBuf,
    online_user: &OnlineUser,
    part: Part,
    post: &mut Post,
) -> Result<(), AllocError>
    ensures { OnOk result (post.new ≡ with_own post.old
        (parts_of part (put_name (users_of users.now.entries) name.now (plain_user online_user.now)))) }
{
    let mut is_told = false;
    for (user, other) in users {
        let order = if is_told {
            Ordering::Greater
        } else {
            name.cmp(user)
        };
        if order.is_le() {
            write_part(name, online_user, part, post)?;
            is_told = true;
        }
        if order.is_ne() {
            write_part(user, other, part, post)?;
        }
    }
    if !is_told {
        write_part(name, online_user, part, post)?;
    }
    Ok(())
}

/// Writes one part of what is told of a user. It stands in the loop over all users, so that a line is
/// printed from where its parts lie and is not handed over first.
#[inline(always)]
fn write_part(
    name: &NameBuf,
    online_user: &OnlineUser,
    part: Part,
    post: &mut Post,
) -> Result<(), AllocError>
    ensures { OnOk result (post.new ≡ with_own post.old (part_of part name.now (plain_user online_user.now))) }
{
    match part {
        Part::Presence => {
            post.write_own(Reply::AddUser {
                user: Name(Lent(name)),
                country: Country(HeldWord::Lent(online_user.country.as_word())),
                cpu: Wide(online_user.cpu),
                account: online_user.account,
            })
        }
        Part::Status if online_user.status.word() != 0 => {
            post.write_own(Reply::ClientStatus {
                user: Name(Lent(name)),
                status: online_user.status.word(),
            })
        }
        Part::Status => Ok(()),
    }
}
