//! What rules look up in the maps.

ghost use Rattle.std.specs.Prelude.{◌≡◌, ℕ, ◌≤◌, IfSome, Some, true, is_some, option_copied};
ghost use Rattle.std.specs.Option.{option_map};
ghost use Rattle.line_words.specs.Table.{at_name, at_number};
ghost use Rattle.lobby_model.specs.State.{name_of};
ghost use Rattle.lobby_model.specs.Sessions.{status_in};
ghost use Rattle.lobby_model.specs.Battles.{is_authorising};

use crate::maps::Maps;
use account_book::AccountBook;
use battle_room::HashSeed;
use channel_book::ChannelBook;
use line_words::NameBuf;
use lobby_battles::Battle;
use lobby_post::ClientKey;
use status_bits::UserStatus;
use std::alloc::Global;

impl Maps {
    /// Where memory is taken: there is one such place, so it is that with which the maps were made.
    pub fn alloc(&self) -> Global
        ensures { (alloc : Global) → result ≡ alloc }
    {
        self.alloc
    }

    /// How the words of a room are hashed.
    pub fn seed(&self) -> HashSeed {
        self.seed
    }

    /// The accounts that let users in.
    pub fn accounts(&self) -> &AccountBook
        ensures { result.now ≡ self.now.plain.accounts }
    {
        &self.accounts
    }

    /// The channels, and who is in each.
    pub fn channels(&self) -> &ChannelBook<ClientKey>
        ensures { result.now ≡ self.now.plain.channels }
    {
        &self.channels
    }

    /// The name under which a client is logged in, whether it hears or not.
    pub fn name_of(&self, client: u64) -> Option<&NameBuf>
        ensures { option_copied result ≡ name_of self.now.plain client }
    {
        self.clients.name_of(client)
    }

    /// The IPv4 address from which a client connected.
    pub fn ip_of(&self, client: u64) -> Option<[u8; 4]>
        ensures { result ≡ option_map (λ c. c.ip) (at_number self.now.plain.clients client) }
    {
        self.clients.ip_of(client)
    }

    /// The key of a client.
    pub fn client_key(&self, client: u64) -> ClientKey
        ensures { result.number ≡ client }
    {
        self.clients.key_of(client)
    }

    /// The key of a user's client, for a listing.
    pub fn user_key(&self, name: &NameBuf) -> ClientKey {
        self.online.key_of(name)
    }

    /// Whether somebody of this name is logged in.
    pub fn has_user(&self, name: &NameBuf) -> bool
        ensures { result ≡ is_some (at_name self.now.plain.users name.now) }
    {
        self.online.users.contains_key(name)
    }

    /// The status of the user of this name; 0 where nobody of it is logged in.
    pub fn status_of(&self, name: &NameBuf) -> UserStatus
        ensures { result ≡ status_in (at_name self.now.plain.users name.now) }
    {
        match self.online.users.get(name) {
            Some(online_user) => online_user.status,
            None => UserStatus::of_account(0, false, false),
        }
    }

    /// Whether there is a user of this name who authorises who joins its battle.
    pub fn is_authorising(&self, name: &NameBuf) -> bool
        ensures { result ≡ is_authorising (at_name self.now.plain.users name.now) }
    {
        self.online.is_authorising(name)
    }

    /// The battle of this number.
    pub fn battle(&self, number: u32) -> Option<&Battle>
        ensures { option_copied result ≡ at_number self.now.plain.battles number }
    {
        self.battles.by_number.get(&number)
    }

    /// The last battle number given, 0 at first.
    pub fn last_battle(&self) -> u32
        ensures number { result ≡ self.now.plain.last_battle }
        ensures small { result ≤ 2147483647 }
    {
        self.battles.last
    }
}
