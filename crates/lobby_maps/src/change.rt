//! What an event changes, once there is room for all that is told.

ghost use Rattle.std.specs.Prelude.{◌≡◌, ℕ, ◌≤◌, List, OnOk, OnErr, option_copied};
ghost use Rattle.line_words.specs.Table.{ByNumber};
ghost use Rattle.channel_book.specs.Channels.{all_left};
ghost use Rattle.lobby_post.specs.Crowd.{waits, Known};
ghost use Rattle.lobby_post.specs.Mail.{AreDue, AreReady, plain};
ghost use Rattle.lobby_battles.specs.Battles.{KnowTheirBattles, left_own, unasked_own};
ghost use Rattle.lobby_maps.specs.Dirty.{those_there};
ghost use Rattle.lobby_battles.specs.OnlineUsers.{Agree, IsListed, users_of, where_some};
ghost use Rattle.lobby_maps.specs.Changes.{CanBe, clients_after, users_after, channels_after, battles_after};
ghost use Rattle.lobby_maps.specs.Changes.{last_after};

use channel_book::ChannelBook;
use line_words::NameBuf;
use lobby_battles::{BattleChange, Battles, OnlineUser, OnlineUsers};
use lobby_post::{ClientKey, Clients};
use status_bits::UserStatus;
use std::alloc::AllocError;

/// What becomes of the maps.
#[derive(Drop)]
pub enum Change {
    /// Nothing changes.
    Nothing,
    /// A user has this status from now on.
    Status {
        name: NameBuf,
        status: UserStatus,
    },
    /// The client is logged in under a name.
    LogIn {
        name: NameBuf,
        online_user: OnlineUser,
    },
    /// A user joins a channel.
    Join {
        channel: NameBuf,
        name: NameBuf,
    },
    /// A user leaves a channel.
    Leave {
        channel: NameBuf,
        name: NameBuf,
    },
    /// A user does something with a battle.
    InBattles(BattleChange),
    /// The user of the client, where there is one, logs out. It asks no more to join the battle of the one
    /// number, where it asks to join one, and leaves that of the other, where it is in one; the client
    /// ends, or, where it does not stay, is there no more.
    LogOut {
        name: Option<NameBuf>,
        asks: Option<u32>,
        battle: Option<u32>,
        stays: bool,
    },
}

/// Changes the maps. Where memory is refused, nothing changes.
pub fn apply(
    clients: &mut Clients,
    online: &mut OnlineUsers,
    channels: &mut ChannelBook<ClientKey>,
    battles: &mut Battles,
    client: u64,
    change: Change,
) -> Result<(), AllocError>
    requires can { CanBe (plain clients.old.slots) (users_of online.old.users.entries) channels.old
        battles.old.by_number.entries client change }
    requires agree { Agree (plain clients.old.slots) online.old.users.entries }
    requires knowing { KnowTheirBattles battles.old.by_number.entries online.old.users.entries }
    ensures clients { OnOk result (plain clients.new.slots ≡ clients_after (plain clients.old.slots) client change) }
    ensures users { OnOk result (users_of online.new.users.entries
        ≡ users_after (users_of online.old.users.entries) change) }
    ensures channels { OnOk result (channels.new ≡ channels_after channels.old change) }
    ensures battles { OnOk result (battles.new.by_number.entries ≡ battles_after battles.old.by_number.entries change) }
    ensures last { OnOk result (battles.new.last ≡ last_after battles.old.last change) }
    ensures agree { OnOk result (Agree (plain clients.new.slots) online.new.users.entries) }
    ensures knowing { OnOk result (KnowTheirBattles battles.new.by_number.entries online.new.users.entries) }
    ensures listed { IsListed online.old.clients.keys (plain clients.old.slots)
        → IsListed online.new.clients.keys (plain clients.new.slots) }
    ensures limit { clients.new.limit ≡ clients.old.limit }
    ensures due { (pieces : ByNumber (List ℕ)) → AreDue pieces clients.old.slots → AreDue pieces clients.new.slots }
    ensures ready { AreReady clients.old.slots → AreReady clients.new.slots }
    ensures known { (last : ℕ) → Known clients.old last → Known clients.new last }
    ensures waits { OnOk result ((home : ℕ) → home ≤ 63
        → waits clients.new home ≡ those_there (plain clients.new.slots) (waits clients.old home)) }
    ensures err { OnErr result ((clients.new ≡ clients.old) × (online.new.users.entries ≡ online.old.users.entries)
        × (channels.new ≡ channels.old)
        × (battles.new.by_number.entries ≡ battles.old.by_number.entries) × (battles.new.last ≡ battles.old.last)) }
{
    match change {
        Change::Nothing => {}
        Change::Status { name, status } => online.set_status(&name, status),
        Change::LogIn { name, online_user } => {
            online.add(name.copy(), online_user)?;
            clients.log_in(client, name);
        }
        Change::Join { channel, name } => {
            let key = clients.key_of(client);
            channels.add_member(channel, name, key)?;
        }
        Change::Leave { channel, name } => channels.remove_member(&channel, &name),
        Change::InBattles(change) => battles.apply(online, client, change)?,
        Change::LogOut {
            name,
            asks,
            battle,
            stays,
        } => {
            leave_all(channels, battles, name.as_ref(), asks, battle);
            online.remove(name, client);
            clients.part(client, stays);
        }
    }
    Ok(())
}

/// A user, where there is one, leaves all channels, asks no more to join the battle of the one number, and
/// leaves that of the other.
fn leave_all(
    channels: &mut ChannelBook<ClientKey>,
    battles: &mut Battles,
    name: Option<&NameBuf>,
    asks: Option<u32>,
    battle: Option<u32>,
)
    ensures channels { channels.new ≡ where_some all_left (option_copied name.entry) channels.old }
    ensures battles { battles.new.by_number.entries
        ≡ left_own (option_copied name.entry) battle
        (unasked_own (option_copied name.entry) asks battles.old.by_number.entries) }
    ensures last { battles.new.last ≡ battles.old.last }
{
    let Some(name) = name else {
        return;
    };
    channels.leave_all(name);
    if let Some(number) = asks {
        battles.stop_asking(number, name);
    }
    if let Some(number) = battle {
        battles.leave(number, name);
    }
}
