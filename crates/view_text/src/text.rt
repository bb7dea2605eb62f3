//! The parts of a view as lines of text. What belongs to a battle, a channel or the room stands
//! below its line, behind two spaces.

use Word::{Flag, Number, Pair, Text};
use client_view::{Battle, Battles, Channels, OwnRoom, User, Users, View};
use itoa::Buffer;
use line_words::NameBuf;
use std::io;
use std::io::Write;

/// A word of a line.
#[derive(Clone, Copy)]
enum Word<'a> {
    Text(&'a [u8]),
    Number(i64),
    /// The word where something is so, and no word elsewhere.
    Flag(bool, &'a [u8]),
    /// A key, `=` and a value.
    Pair(&'a [u8], &'a [u8]),
}

/// Writes a line, a space before each word but the name that it begins with. A line is one call, since each `?` is
/// proved with what it leaves.
fn put_line<W: Write>(name: &[u8], words: &[Word<'_>], out: &mut W) -> io::Result<()> {
    out.write_all(name)?;
    for word in words {
        put_word(word, out)?;
    }
    out.write_all(b"\n")
}

fn put_word<W: Write>(word: &Word<'_>, out: &mut W) -> io::Result<()> {
    match word {
        Text(text) => put_text(*text, out),
        Number(number) => put_text(Buffer::new().format(*number).as_bytes(), out),
        Flag(true, text) => put_text(*text, out),
        Flag(false, _) => Ok(()),
        Pair(key, value) => {
            put_text(*key, out)?;
            out.write_all(b"=")?;
            out.write_all(*value)
        }
    }
}

fn put_text<W: Write>(text: &[u8], out: &mut W) -> io::Result<()> {
    out.write_all(b" ")?;
    out.write_all(text)
}

/// Writes all that a client knows.
pub fn show<W: Write>(view: &View, out: &mut W) -> io::Result<()> {
    put_line(b"me", &[Text(view.me().unwrap_or(&[]))], out)?;
    show_users(&view.users(), out)?;
    show_battles(&view.battles(), out)?;
    show_channels(&view.channels(), out)?;
    match view.room() {
        Some(room) => show_room(room, out),
        None => Ok(()),
    }
}

fn show_users<W: Write>(users: &Users<'_>, out: &mut W) -> io::Result<()> {
    for (name, user) in users.iter() {
        show_user(name, user, out)?;
    }
    Ok(())
}

fn show_user<'a, W: Write>(name: &'a NameBuf, user: &'a User, out: &mut W) -> io::Result<()> {
    let words = [
        Text(name.as_slice()),
        Text(user.country.as_slice()),
        Number(user.cpu),
        Number(i64::from(user.account)),
        Number(i64::from(user.status)),
    ];
    put_line(b"user", &words, out)
}

fn show_battles<W: Write>(battles: &Battles<'_>, out: &mut W) -> io::Result<()> {
    for (number, battle) in battles.iter() {
        show_battle(*number, battle, out)?;
        show_titles(battle, out)?;
        show_names(battle.members(), out)?;
    }
    Ok(())
}

/// The line of a battle: what opened it, in the order of that line, then how many spectators are told, and what else
/// is so.
fn show_battle<W: Write>(number: u32, battle: &Battle, out: &mut W) -> io::Result<()> {
    let opened = &battle.opened;
    let words = [
        Number(i64::from(number)),
        Number(i64::from(opened.battle_type)),
        Number(i64::from(opened.nat_type)),
        Text(opened.founder.as_slice()),
        Text(opened.ip.as_slice()),
        Number(i64::from(opened.port)),
        Number(i64::from(opened.max_players)),
        Number(opened.rank),
        Number(opened.map_hash),
        Number(i64::from(battle.spectators)),
        Flag(opened.passworded, b"passworded"),
        Flag(battle.locked, b"locked"),
    ];
    put_line(b"battle", &words, out)
}

fn show_titles<W: Write>(battle: &Battle, out: &mut W) -> io::Result<()> {
    let opened = &battle.opened;
    put_line(b"  title", &[Text(opened.title.as_slice())], out)?;
    put_line(b"  map", &[Text(opened.map.as_slice())], out)?;
    put_line(b"  game", &[Text(opened.game_name.as_slice())], out)?;
    put_line(b"  engine", &[Text(opened.engine_name.as_slice())], out)?;
    put_line(b"  version", &[Text(opened.engine_version.as_slice())], out)
}

fn show_names<W: Write>(names: &[NameBuf], out: &mut W) -> io::Result<()> {
    for name in names {
        put_line(b"  member", &[Text(name.as_slice())], out)?;
    }
    Ok(())
}

fn show_channels<W: Write>(channels: &Channels<'_>, out: &mut W) -> io::Result<()> {
    for k in 0..channels.len() {
        if let Some(name) = channels.name_at(k) {
            put_line(b"channel", &[Text(name.as_slice())], out)?;
            show_names(channels.get(name).unwrap_or(&[]), out)?;
        }
    }
    Ok(())
}

fn show_room<W: Write>(room: &OwnRoom, out: &mut W) -> io::Result<()> {
    put_line(b"room", &[Number(i64::from(room.battle()))], out)?;
    show_members(room, out)?;
    show_bots(room, out)?;
    show_rects(room, out)?;
    for tag in room.tags() {
        put_line(
            b"  tag",
            &[Pair(tag.key.as_slice(), tag.value.as_slice())],
            out,
        )?;
    }
    for unit in room.units() {
        put_line(b"  unit", &[Text(unit.as_slice())], out)?;
    }
    Ok(())
}

fn show_members<W: Write>(room: &OwnRoom, out: &mut W) -> io::Result<()> {
    for member in room.members() {
        let words = [
            Text(member.name.as_slice()),
            Number(i64::from(member.status)),
            Number(member.colour),
        ];
        put_line(b"  member", &words, out)?;
    }
    Ok(())
}

fn show_bots<W: Write>(room: &OwnRoom, out: &mut W) -> io::Result<()> {
    for bot in room.bots() {
        let words = [
            Text(bot.name().as_slice()),
            Text(bot.owner().as_slice()),
            Number(i64::from(bot.status())),
            Number(bot.colour()),
            Text(bot.ai().as_slice()),
        ];
        put_line(b"  bot", &words, out)?;
    }
    Ok(())
}

fn show_rects<W: Write>(room: &OwnRoom, out: &mut W) -> io::Result<()> {
    for ally in 0..16 {
        if let Some(rect) = room.rect_at(ally) {
            let words = [ally, rect.left, rect.top, rect.right, rect.bottom].map(|number| Number(
                i64::from(number),
            ));
            put_line(b"  rectangle", &words, out)?;
        }
    }
    Ok(())
}
