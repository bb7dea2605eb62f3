//! Channels and private talk: docs/PROTOCOL.md, "What the server does", from "JOIN" to "CHANNELS".

ghost use Rattle.std.specs.Prelude.{◌≡◌, [], ◌∷◌, ◌++◌, OnOk, true};
ghost use Rattle.channel_book.specs.Channels.{names_in};
ghost use Rattle.lobby_model.specs.Outcome.{tell, user};
ghost use Rattle.lobby_model.specs.Channels.{join, leave, name_lines, say_in_channel, say_private, list_channels};
ghost use Rattle.lobby_post.specs.Posted.{Told, with_own};
ghost use Rattle.battle_rules.specs.Answers.{Answers};
ghost use Rattle.lobby_maps.specs.Fit.{IsSole};
ghost use Rattle.lobby_machine.specs.Talk.{channel_lines, left_letter, left_letters};

use super::guards::{members_with, names_without, user_named};
use battle_rules::{Issuer, Stop};
use line_words::{NameBuf, TextBuf};
use lobby_maps::{Change, Maps};
use lobby_post::Post;
use reply_kinds::{Held, HeldNames, HeldText, Name, Names, Reply, Text};
use std::alloc::AllocError;

/// `JOIN`: the user is not in the channel.
pub fn join(by: &Issuer, channel: &NameBuf, post: &mut Post) -> Result<Change, Stop>
    ensures { Answers by.now.maps.now.plain by.now.client post.old post.new
        (join by.now.maps.now.plain by.now.me.now channel.now) result }
{
    let names = names_without(by.maps, by.me, channel)?;
    let keys = by.maps.channels().keys_in(channel);
    by.maps.tell_self(
        by.me,
        by.client,
        Reply::Join {
            channel: Name(Held::Lent(channel)),
        },
        post,
    )?;
    tell_members(by.maps, channel, names, by.me, by.client, post)?;
    by.maps.tell_users(
        names,
        keys,
        Reply::Joined {
            channel: Name(Held::Lent(channel)),
            user: Name(Held::Lent(by.me)),
        },
        post,
    )?;
    Ok(Change::Join {
        channel: channel.copy(),
        name: by.me.copy(),
    })
}

/// `LEAVE`: the user is in the channel.
pub fn leave(by: &Issuer, channel: &NameBuf, post: &mut Post) -> Result<Change, Stop>
    ensures { Answers by.now.maps.now.plain by.now.client post.old post.new
        (leave by.now.maps.now.plain by.now.me.now channel.now) result }
{
    let members = members_with(by.maps, by.me, channel)?;
    let (names, keys) = (members.as_slice(), members.keys());
    by.maps.tell_users(
        names,
        keys,
        Reply::Left {
            channel: Name(Held::Lent(channel)),
            user: Name(Held::Lent(by.me)),
        },
        post,
    )?;
    Ok(Change::Leave {
        channel: channel.copy(),
        name: by.me.copy(),
    })
}

/// `SAY` and `SAYEX`: the user is in the channel.
pub fn say_in_channel(
    by: &Issuer,
    channel: &NameBuf,
    line: Reply,
    post: &mut Post,
) -> Result<Change, Stop>
    ensures { Answers by.now.maps.now.plain by.now.client post.old post.new
        (say_in_channel by.now.maps.now.plain by.now.me.now channel.now line.entry) result }
{
    let members = members_with(by.maps, by.me, channel)?;
    let (names, keys) = (members.as_slice(), members.keys());
    by.maps.tell_users(names, keys, line, post)?;
    Ok(Change::Nothing)
}

/// `SAYPRIVATE`: somebody of that name is logged in.
pub fn say_private(
    by: &Issuer,
    target: &NameBuf,
    text: &TextBuf,
    post: &mut Post,
) -> Result<Change, Stop>
    ensures { Answers by.now.maps.now.plain by.now.client post.old post.new
        (say_private by.now.maps.now.plain by.now.me.now target.now text.now) result }
{
    user_named(by.maps, target)?;
    post.tell_issuer(Reply::SayPrivate {
        user: Name(Held::Lent(target)),
        text: Text(HeldText::Lent(text)),
    })?;
    by.maps.tell_user(
        target,
        Reply::SaidPrivate {
            user: Name(Held::Lent(by.me)),
            text: Text(HeldText::Lent(text)),
        },
        post,
    )?;
    Ok(Change::Nothing)
}

/// `CHANNELS`.
pub fn list_channels(by: &Issuer, post: &mut Post) -> Result<Change, Stop>
    ensures { Answers by.now.maps.now.plain by.now.client post.old post.new (list_channels by.now.maps.now.plain)
        result }
{
    post.begin_own();
    write_channels(by.maps, post)?;
    post.write_own(Reply::EndOfChannels)?;
    post.address_issuer()?;
    Ok(Change::Nothing)
}

/// Writes a line for each channel, with how many are in it.
fn write_channels(maps: &Maps, post: &mut Post) -> Result<(), AllocError>
    ensures { OnOk result (post.new ≡ with_own post.old (channel_lines maps.now.plain.channels)) }
{
    for (channel, members) in maps.channels() {
        post.write_own(Reply::Channel {
            channel: Name(Held::Lent(channel)),
            user_count: members.as_slice().len(),
        })?;
    }
    Ok(())
}

/// Tells the others of each channel that a user is in, channel by channel, that it leaves. For a channel in which
/// nobody else is, nothing is printed: what was kept for one who logs out is given back though memory is short.
pub fn tell_left(maps: &Maps, me: &NameBuf, post: &mut Post) -> Result<(), AllocError>
    ensures { OnOk result (Told maps.now.plain post.old post.new (left_letters me.now maps.now.plain.channels)) }
{
    let book = maps.channels();
    // Its contract says that the names of channels rise, so that each stands for one.
    let _ = book.channel_count();
    let is_own = is_issuer(maps, me, post);
    if let Some(channels) = book.channels_of(me) {
        for channel in channels {
            tell_others_left(maps, channel, me, is_own, post)?;
        }
    }
    Ok(())
}

// Whether the client that the lines are told for is the one at which this user is.
fn is_issuer(maps: &Maps, me: &NameBuf, post: &Post) -> bool
    ensures { result ≡ true → IsSole maps.now.plain post.now.issuer me.now }
{
    match maps.client_of(me) {
        Some(client) => client == post.issuer(),
        None => false,
    }
}

// Whether this user alone is in a channel with these names.
fn is_alone(names: &[NameBuf], me: &NameBuf) -> bool
    ensures { result ≡ true → names.now ≡ me.now ∷ [] }
{
    match names {
        [only] => only == me,
        _ => false,
    }
}

/// Tells the others of a channel that a user leaves it, whose own event it is, or not.
fn tell_others_left(
    maps: &Maps,
    channel: &NameBuf,
    me: &NameBuf,
    is_own: bool,
    post: &mut Post,
) -> Result<(), AllocError>
    requires { is_own ≡ true → IsSole maps.now.plain post.old.issuer me.now }
    ensures { OnOk result (Told maps.now.plain post.old post.new
        (left_letter me.now channel.now (names_in maps.now.plain.channels channel.now) ∷ [])) }
{
    let (names, keys) = maps.channels().roster(channel);
    if is_own && is_alone(names, me) {
        return Ok(());
    }
    let line = Reply::Left {
        channel: Name(Held::Lent(channel)),
        user: Name(Held::Lent(me)),
    };
    maps.tell_other_users(names, keys, line, post)
}

/// Tells one who joins a channel who is in it, itself the last, 32 names a line.
fn tell_members(
    maps: &Maps,
    channel: &NameBuf,
    names: &[NameBuf],
    me: &NameBuf,
    client: u64,
    post: &mut Post,
) -> Result<(), AllocError>
    ensures { OnOk result (Told maps.now.plain post.old post.new (tell (user me.now) (name_lines channel.now (names.now
        ++ me.now ∷ [])) ∷ [])) }
{
    let mut rest = names;
    while rest.len() >= 32 {
        let line = Reply::Clients {
            channel: Name(Held::Lent(channel)),
            names: Names(HeldNames::Lent(&rest[..32])),
        };
        maps.tell_self(me, client, line, post)?;
        rest = &rest[32..];
    }
    let line = Reply::Clients {
        channel: Name(Held::Lent(channel)),
        names: Names(HeldNames::LentAndLast(rest, me)),
    };
    maps.tell_self(me, client, line, post)?;
    Ok(())
}
