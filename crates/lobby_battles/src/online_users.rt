//! The users who are logged in.

ghost use Rattle.std.specs.Prelude.{◌≡◌, [], OnOk, OnErr, true, false};
ghost use Rattle.line_words.specs.Table.{at_name, change_name, put_name};
ghost use Rattle.lobby_model.specs.Battles.{is_authorising};
ghost use Rattle.lobby_battles.specs.Battles.{battle_at};
ghost use Rattle.lobby_battles.specs.OnlineUsers.{IsSet, client_number, online_user_in, online_user_with, users_of};
ghost use Rattle.lobby_battles.specs.OnlineUsers.{where_some};
ghost use Rattle.lobby_battles.specs.OnlineUsers.{without_one};

use account_book::Country;
use line_words::NameBuf;
use lobby_post::ClientKey;
use status_bits::UserStatus;
use std::alloc::{AllocError, Global};
use std::collections::{BTreeMap, BTreeSet};

/// What is known of a user who is logged in, and at which client that is.
#[derive(Drop)]
pub struct OnlineUser {
    pub client: ClientKey,
    /// Its account's country.
    pub country: Country,
    /// What its login said of its processor, -2147483648 to 4294967295.
    pub cpu: i64,
    /// The number of its account.
    pub account: u32,
    pub status: UserStatus,
    /// Whether it authorises who joins a battle of its own.
    pub authorises: bool,
    /// The number of the battle that it entered, or asked to join, last. It is in that battle while it is a
    /// member of it, asks to join it while it is among those who ask, and does neither at another one.
    pub battle: Option<u32>,
}

/// The users who are logged in, by their names, and the clients at which they are.
#[derive(Drop)]
pub struct OnlineUsers {
    /// Each user who is logged in, by its name.
    pub users: BTreeMap<NameBuf, OnlineUser>,
    /// The numbers of the clients. What all users get is told in their order, in which the clients
    /// themselves lie.
    pub clients: BTreeSet<u64>,
}

impl OnlineUsers {
    /// Nobody is logged in.
    pub fn new(alloc: Global) -> OnlineUsers
        ensures users { result.users.entries ≡ [] }
        ensures clients { result.clients.keys ≡ [] }
    {
        OnlineUsers {
            users: BTreeMap::new(alloc),
            clients: BTreeSet::new(alloc),
        }
    }

    /// The key of a user's client; of one who is not there, that of nobody.
    pub fn key_of(&self, name: &NameBuf) -> ClientKey
        ensures { result.number ≡ client_number (at_name self.now.users.entries name.now) }
    {
        match self.users.get(name) {
            Some(online_user) => online_user.client,
            None => ClientKey::nobody(),
        }
    }

    /// The number of the battle that a user entered, or asked to join, last.
    pub fn battle_of(&self, name: &NameBuf) -> Option<u32>
        ensures { result ≡ battle_at (at_name self.now.users.entries name.now) }
    {
        self.users.get(name)?.battle
    }

    /// Adds a user, whose client is not among these. Where memory is refused, nobody is added.
    pub fn add(&mut self, name: NameBuf, online_user: OnlineUser) -> Result<(), AllocError>
        ensures users { OnOk result (self.new.users.entries ≡ put_name self.old.users.entries name online_user) }
        ensures clients { OnOk result
            (IsSet online_user.client.number true self.old.clients.keys self.new.clients.keys) }
        ensures err_users { OnErr result (self.new.users.entries ≡ self.old.users.entries) }
        ensures err_clients { OnErr result
            (IsSet online_user.client.number false self.old.clients.keys self.new.clients.keys) }
    {
        let client = online_user.client.number;
        self.clients.insert(client)?;
        match self.users.insert(name, online_user) {
            Ok(_) => Ok(()),
            Err(refused) => {
                let _ = self.clients.remove(&client);
                Err(refused.into())
            }
        }
    }

    /// Removes a client, and its user, where there is one.
    pub fn remove(&mut self, name: Option<NameBuf>, client: u64)
        ensures users { self.new.users.entries ≡ where_some without_one name self.old.users.entries }
        ensures clients { IsSet client false self.old.clients.keys self.new.clients.keys }
    {
        let _ = self.clients.remove(&client);
        if let Some(name) = name {
            // Its contract says that the names rise, which the proof wants of the map as it was.
            let _ = self.users.len();
            let _ = self.users.remove(&name);
        }
    }

    /// Whether there is a user of this name who authorises who joins its battle.
    pub fn is_authorising(&self, name: &NameBuf) -> bool
        ensures { result ≡ is_authorising (at_name (users_of self.now.users.entries) name.now) }
    {
        match self.users.get(name) {
            Some(online_user) => online_user.authorises,
            None => false,
        }
    }

    /// A user enters a battle, or asks to, and stays at its client.
    pub(crate) fn enter_battle(&mut self, name: &NameBuf, number: u32)
        ensures users { self.new.users.entries ≡ change_name self.old.users.entries name.now (online_user_in number) }
        ensures clients { self.new.clients.keys ≡ self.old.clients.keys }
    {
        if let Some(online_user) = self.users.get_mut(name) {
            online_user.battle = Some(number);
        }
    }

    /// Gives a user a status, and leaves it at its client.
    pub fn set_status(&mut self, name: &NameBuf, status: UserStatus)
        ensures users { self.new.users.entries ≡ change_name self.old.users.entries name.now (online_user_with status) }
        ensures clients { self.new.clients.keys ≡ self.old.clients.keys }
    {
        if let Some(online_user) = self.users.get_mut(name) {
            online_user.status = status;
        }
    }
}
