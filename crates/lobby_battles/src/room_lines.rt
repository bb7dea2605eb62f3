//! What one who joins a battle is told of what its members share, line by line: docs/PROTOCOL.md, "What the
//! server does", under "JOINBATTLE".

ghost use Rattle.std.specs.Prelude.{◌≡◌, [], ◌∷◌, map, OnOk};
ghost use Rattle.reply_kinds.specs.declared.Reply.TheVariants as reply;
ghost use Rattle.lobby_model.specs.Battles.{bot_line, rect_line, room_lines, status_line};
ghost use Rattle.lobby_battles.specs.Recipients.{written};

use battle_room::{ALLY_COUNT, Room};
use lobby_post::{ClientKey, Post};
use reply_kinds::Held::Lent;
use reply_kinds::{
    BattleNumber, HeldPairs, HeldWords, Name, Pairs, Reply, Sentence, UpTo, Wide, Word, Words,
};
use std::alloc::AllocError;
use std::slice;

/// For whom lines are written.
#[derive(Clone, Copy)]
pub enum Recipient {
    /// The one whose event it is: each line has the id of its request.
    Issuer,
    /// Another one.
    Other,
}

/// Writes one more line for its recipient.
pub fn write_line(recipient: Recipient, line: Reply, post: &mut Post) -> Result<(), AllocError>
    ensures { OnOk result (post.new ≡ written recipient post.old (line.entry ∷ [])) }
{
    match recipient {
        Recipient::Issuer => post.write_own(line),
        Recipient::Other => post.write_more_for_others(line),
    }
}

/// Writes what the members of a battle share, behind a line.
pub fn write_room(
    recipient: Recipient,
    number: u32,
    room: &Room<ClientKey>,
    post: &mut Post,
) -> Result<(), AllocError>
    requires { written recipient post.old [] ≡ post.old }
    ensures { OnOk result (post.new ≡ written recipient post.old (room_lines number room.now)) }
{
    write_statuses(recipient, room, post)?;
    write_bots(recipient, number, room, post)?;
    write_rects(recipient, room, post)?;
    write_tags(recipient, room, post)?;
    write_units(recipient, room, post)
}

/// Writes the status of each member of a battle, behind a line.
fn write_statuses(
    recipient: Recipient,
    room: &Room<ClientKey>,
    post: &mut Post,
) -> Result<(), AllocError>
    requires { written recipient post.old [] ≡ post.old }
    ensures { OnOk result (post.new ≡ written recipient post.old (map status_line room.now.members)) }
{
    for member in room.members() {
        let status = member.status().word();
        let line = Reply::ClientBattleStatus {
            user: Name(Lent(member.name())),
            battle_status: status,
            team_color: Wide(member.colour()),
        };
        write_line(recipient, line, post)?;
    }
    Ok(())
}

/// Writes the bots of a battle, behind a line.
fn write_bots(
    recipient: Recipient,
    number: u32,
    room: &Room<ClientKey>,
    post: &mut Post,
) -> Result<(), AllocError>
    requires { written recipient post.old [] ≡ post.old }
    ensures { OnOk result (post.new ≡ written recipient post.old (map (bot_line number) room.now.bots)) }
{
    for bot in room.bots() {
        let status = bot.status().word();
        let line = Reply::AddBot {
            battle: BattleNumber(number),
            bot: Word(Lent(bot.name())),
            owner: Name(Lent(bot.owner())),
            battle_status: status,
            team_color: Wide(bot.colour()),
            ai: Sentence(Lent(bot.ai())),
        };
        write_line(recipient, line, post)?;
    }
    Ok(())
}

/// Writes the start rectangles of a battle, behind a line.
fn write_rects(
    recipient: Recipient,
    room: &Room<ClientKey>,
    post: &mut Post,
) -> Result<(), AllocError>
    requires { written recipient post.old [] ≡ post.old }
    ensures { OnOk result (post.new ≡ written recipient post.old (map (λ e. rect_line e.0 e.1) room.now.rects)) }
{
    let places = room.rects();
    for ally in 0..ALLY_COUNT as u8 {
        if let Some(rect) = places[usize::from(ally)] {
            let line = Reply::AddStartRect {
                ally_no: UpTo(ally),
                left: UpTo(rect.left),
                top: UpTo(rect.top),
                right: UpTo(rect.right),
                bottom: UpTo(rect.bottom),
            };
            write_line(recipient, line, post)?;
        }
    }
    Ok(())
}

/// Writes the script tags of a battle, each in a line, behind a line.
fn write_tags(
    recipient: Recipient,
    room: &Room<ClientKey>,
    post: &mut Post,
) -> Result<(), AllocError>
    requires { written recipient post.old [] ≡ post.old }
    ensures { OnOk result (post.new ≡ written recipient post.old (map (λ t.
        reply.SetScriptTags (t ∷ [])) room.now.tags)) }
{
    for pair in room.tags() {
        let line = Reply::SetScriptTags {
            pairs: Pairs(HeldPairs::Lent(slice::from_ref(pair))),
        };
        write_line(recipient, line, post)?;
    }
    Ok(())
}

/// Writes the disabled units of a battle, each in a line, behind a line.
fn write_units(
    recipient: Recipient,
    room: &Room<ClientKey>,
    post: &mut Post,
) -> Result<(), AllocError>
    requires { written recipient post.old [] ≡ post.old }
    ensures { OnOk result (post.new ≡ written recipient post.old (map (λ unit.
        reply.DisableUnits (unit ∷ [])) room.now.units)) }
{
    for unit in room.units() {
        let line = Reply::DisableUnits {
            units: Words(HeldWords::Lent(slice::from_ref(unit))),
        };
        write_line(recipient, line, post)?;
    }
    Ok(())
}
