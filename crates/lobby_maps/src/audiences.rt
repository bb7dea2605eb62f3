//! The audiences of lines, in the order of the definitions: all users, those of them whose event it is not,
//! all but some, one user, and the users of some names. The issuer alone is told by the post.
//!
//! To tell an audience is to write a line, and then to walk over its clients, each of which is addressed.
//! A walk finds a client by its key, where that is known.

ghost use Rattle.std.specs.Prelude.{◌≡◌, ℕ, [], ◌∷◌, ◌++◌, map, IfSome, OnOk, Some};
ghost use Rattle.std.specs.Ordering.{nat_cmp};
ghost use Rattle.std.specs.List.{IsDistinct};
ghost use Rattle.std.specs.List.Sorted.{IsStrictlySortedBy};
ghost use Rattle.line_words.specs.Table.{at_name, same_name};
ghost use Rattle.room_lists.specs.Room.{asker_names, member_names};
ghost use Rattle.lobby_model.specs.State.{name_of};
ghost use Rattle.lobby_model.specs.Outcome.{tell, everyone, everyone_but, others, user, users};
ghost use Rattle.lobby_post.specs.Mail.{plain};
ghost use Rattle.lobby_post.specs.Posted.{Sends, Told, addressed, but_issuer, has_number};
ghost use Rattle.lobby_battles.specs.OnlineUsers.{Agree, client_in};
ghost use Rattle.lobby_maps.specs.Fit.{IsOwn, IsSole, clients_of, is_some_number, numbers_but};

use crate::maps::Maps;
use battle_room::{Asker, Member, Room};
use line_words::NameBuf;
use lobby_battles::OnlineUsers;
use lobby_post::{ClientKey, Clients, Post};
use reply_kinds::Reply;
use std::alloc::AllocError;

impl Maps {
    /// The client at which a user is logged in: at no other one is it.
    pub fn client_of(&self, name: &NameBuf) -> Option<u64>
        ensures { IfSome result (λ client. IsSole self.now.plain client name.now) }
    {
        client_of(&self.online, name)
    }

    /// Tells all users.
    pub fn tell_all(&self, line: Reply, post: &mut Post) -> Result<(), AllocError>
        ensures { OnOk result (Told self.now.plain post.old post.new (tell everyone (line.entry ∷ []) ∷ [])) }
    {
        post.write(line)?;
        address_all(&self.online, &self.clients, post)
    }

    /// Tells all users but the issuer.
    pub fn tell_others(&self, line: Reply, post: &mut Post) -> Result<(), AllocError>
        ensures { OnOk result (Told self.now.plain post.old post.new (tell others (line.entry ∷ []) ∷ [])) }
    {
        post.write_for_others(line)?;
        address_all(&self.online, &self.clients, post)
    }

    /// Tells all users but those of two names.
    pub fn tell_all_but(
        &self,
        first: &NameBuf,
        second: &NameBuf,
        line: Reply,
        post: &mut Post,
    ) -> Result<(), AllocError>
        ensures { OnOk result (Told self.now.plain post.old post.new (tell (everyone_but (first.now ∷ second.now
            ∷ [])) (line.entry ∷ []) ∷ [])) }
    {
        post.write(line)?;
        address_all_but(&self.online, &self.clients, first, second, post)
    }

    /// Tells one user.
    pub fn tell_user(&self, name: &NameBuf, line: Reply, post: &mut Post) -> Result<(), AllocError>
        ensures { OnOk result (Told self.now.plain post.old post.new (tell (user name.now) (line.entry ∷ []) ∷ [])) }
    {
        post.write(line)?;
        address_user(&self.online, name, post)
    }

    /// Tells the user whose event it is. By the number of its client it is found without a search for
    /// its name.
    pub fn tell_self(
        &self,
        me: &NameBuf,
        client: u64,
        line: Reply,
        post: &mut Post,
    ) -> Result<(), AllocError>
        ensures { OnOk result (Told self.now.plain post.old post.new (tell (user me.now) (line.entry ∷ []) ∷ [])) }
    {
        post.write(line)?;
        let key = self.clients.likely_key_of(client);
        address_near(&self.online, &self.clients, me, key, post)
    }

    /// The user of this name, where there is one, gets the lines that were written. Where it is the one
    /// whose event it is, its own client alone does.
    pub fn address_user(&self, name: &NameBuf, post: &mut Post) -> Result<(), AllocError>
        ensures sent { OnOk result (Sends self.now.plain post.old post.new (user name.now)) }
        ensures own { OnOk result (name_of self.now.plain post.old.issuer ≡ Some name.now
            → IsOwn self.now.plain post.old post.new name.now) }
    {
        address_user(&self.online, name, post)
    }

    /// Tells the users of these names, the keys of whose clients these likely are.
    pub fn tell_users(
        &self,
        names: &[NameBuf],
        keys: &[ClientKey],
        line: Reply,
        post: &mut Post,
    ) -> Result<(), AllocError>
        requires { IsDistinct same_name names.now }
        ensures { OnOk result (Told self.now.plain post.old post.new (tell (users names.now) (line.entry ∷ []) ∷ [])) }
    {
        post.write(line)?;
        address_names(&self.online, &self.clients, names, keys, post)
    }

    /// Tells the users of these names, the keys of whose clients these likely are, but the issuer.
    pub fn tell_other_users(
        &self,
        names: &[NameBuf],
        keys: &[ClientKey],
        line: Reply,
        post: &mut Post,
    ) -> Result<(), AllocError>
        requires { IsDistinct same_name names.now }
        ensures { OnOk result (Told self.now.plain post.old post.new
            (tell (but_issuer (users names.now)) (line.entry ∷ []) ∷ [])) }
    {
        post.write_for_others(line)?;
        address_names(&self.online, &self.clients, names, keys, post)
    }

    /// Tells the members of a battle.
    pub fn tell_room(
        &self,
        room: &Room<ClientKey>,
        line: Reply,
        post: &mut Post,
    ) -> Result<(), AllocError>
        ensures { OnOk result (Told self.now.plain post.old post.new
            (tell (users (member_names room.now)) (line.entry ∷ []) ∷ [])) }
    {
        post.write(line)?;
        address_members(&self.online, &self.clients, room.members(), post)
    }

    /// Tells the members of a battle but the issuer.
    pub fn tell_others_in_room(
        &self,
        room: &Room<ClientKey>,
        line: Reply,
        post: &mut Post,
    ) -> Result<(), AllocError>
        ensures { OnOk result (Told self.now.plain post.old post.new
            (tell (but_issuer (users (member_names room.now))) (line.entry ∷ []) ∷ [])) }
    {
        post.write_for_others(line)?;
        address_members(&self.online, &self.clients, room.members(), post)
    }

    /// Tells those who ask to join a battle.
    pub fn tell_askers(
        &self,
        room: &Room<ClientKey>,
        line: Reply,
        post: &mut Post,
    ) -> Result<(), AllocError>
        ensures { OnOk result (Told self.now.plain post.old post.new
            (tell (users (asker_names room.now)) (line.entry ∷ []) ∷ [])) }
    {
        post.write(line)?;
        address_askers(&self.online, room.askers(), post)
    }

    /// Tells those who ask to join a battle but the issuer.
    pub fn tell_other_askers(
        &self,
        room: &Room<ClientKey>,
        line: Reply,
        post: &mut Post,
    ) -> Result<(), AllocError>
        ensures { OnOk result (Told self.now.plain post.old post.new
            (tell (but_issuer (users (asker_names room.now))) (line.entry ∷ []) ∷ [])) }
    {
        post.write_for_others(line)?;
        address_askers(&self.online, room.askers(), post)
    }
}

/// All who are logged in get the line that is told.
pub fn address_all(
    online: &OnlineUsers,
    clients: &Clients,
    post: &mut Post,
) -> Result<(), AllocError>
    ensures rising { IsStrictlySortedBy nat_cmp online.now.clients.keys }
    ensures sent { OnOk result (post.new ≡ addressed post.old online.now.clients.keys) }
{
    // Its contract says that the numbers rise, which callers want however this ends.
    let numbers = online.clients.iter();
    for client in numbers {
        post.address_key(clients.likely_key_of(*client))?;
    }
    Ok(())
}

/// All who are logged in get the line that is told, but the users of two names.
fn address_all_but(
    online: &OnlineUsers,
    clients: &Clients,
    first: &NameBuf,
    second: &NameBuf,
    post: &mut Post,
) -> Result<(), AllocError>
    ensures rising { IsStrictlySortedBy nat_cmp online.now.clients.keys }
    ensures sent { OnOk result (post.new
        ≡ addressed post.old (numbers_but (client_in (at_name online.now.users.entries first.now)
        ++ client_in (at_name online.now.users.entries second.now)) online.now.clients.keys)) }
{
    let first = client_of(online, first);
    let second = client_of(online, second);
    let numbers = online.clients.iter();
    for client in numbers {
        if !is_number(first, *client) && !is_number(second, *client) {
            post.address_key(clients.likely_key_of(*client))?;
        }
    }
    Ok(())
}

/// The user of this name, where there is one, gets the line that is told.
fn address_user(online: &OnlineUsers, name: &NameBuf, post: &mut Post) -> Result<(), AllocError>
    ensures { OnOk result (post.new ≡ addressed post.old (client_in (at_name online.now.users.entries name.now))) }
{
    if let Some(online_user) = online.users.get(name) {
        post.address_key(online_user.client)?;
    }
    Ok(())
}

/// The user of this name, where there is one, gets the line that is told. The key is likely that of
/// its client: another one costs searches, and no more.
fn address_near(
    online: &OnlineUsers,
    clients: &Clients,
    name: &NameBuf,
    key: ClientKey,
    post: &mut Post,
) -> Result<(), AllocError>
    requires { Agree (plain clients.now.slots) online.now.users.entries }
    ensures { OnOk result (post.new ≡ addressed post.old (client_in (at_name online.now.users.entries name.now))) }
{
    if clients.is_named_at(key, name) {
        post.address_key(key)?;
    } else {
        address_user(online, name, post)?;
    }
    Ok(())
}

/// The users of these names get the line that is told. The keys are likely those of their clients.
fn address_names(
    online: &OnlineUsers,
    clients: &Clients,
    names: &[NameBuf],
    keys: &[ClientKey],
    post: &mut Post,
) -> Result<(), AllocError>
    requires { Agree (plain clients.now.slots) online.now.users.entries }
    ensures { OnOk result (post.new ≡ addressed post.old (clients_of online.now.users.entries names.now)) }
{
    for i in 0..names.len() {
        let key = keys.get(i).copied().unwrap_or(ClientKey::nobody());
        address_near(online, clients, &names[i], key, post)?;
    }
    Ok(())
}

/// The members of a battle get the line that is told. Their keys are likely those of their
/// clients.
fn address_members(
    online: &OnlineUsers,
    clients: &Clients,
    members: &[Member<ClientKey>],
    post: &mut Post,
) -> Result<(), AllocError>
    requires { Agree (plain clients.now.slots) online.now.users.entries }
    ensures { OnOk result (post.new ≡ addressed post.old (clients_of online.now.users.entries (map (λ m.
        m.name) members.now))) }
{
    for member in members {
        address_near(online, clients, member.name(), member.key(), post)?;
    }
    Ok(())
}

/// Those who ask to join a battle get the line that is told.
fn address_askers(online: &OnlineUsers, askers: &[Asker], post: &mut Post) -> Result<(), AllocError>
    ensures { OnOk result (post.new ≡ addressed post.old (clients_of online.now.users.entries (map (λ a.
        a.name) askers.now))) }
{
    for asker in askers {
        address_user(online, asker.name(), post)?;
    }
    Ok(())
}

/// The number of the client at which a user is, where somebody of this name is logged in.
fn client_of(online: &OnlineUsers, name: &NameBuf) -> Option<u64>
    ensures { (c : ℕ) → is_some_number result c ≡ has_number (client_in (at_name online.now.users.entries name.now)) c }
{
    match online.users.get(name) {
        Some(online_user) => Some(online_user.client.number),
        None => None,
    }
}

/// Whether there is a number, and it is this one.
fn is_number(number: Option<u64>, client: u64) -> bool
    ensures { result ≡ is_some_number number client }
{
    match number {
        Some(number) => number == client,
        None => false,
    }
}
