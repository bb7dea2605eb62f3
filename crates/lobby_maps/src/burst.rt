//! What a login tells: a batch of lines to the user that logs in, and to the others that it is there.

ghost use Rattle.std.specs.Prelude.{◌≡◌, [], ◌∷◌, OnOk};
ghost use Rattle.line_words.specs.Table.{put_name};
ghost use Rattle.lobby_model.specs.Outcome.{tell, issuer, others};
ghost use Rattle.lobby_model.specs.Sessions.{arrival, burst};
ghost use Rattle.lobby_post.specs.Posted.{Told};
ghost use Rattle.lobby_battles.specs.OnlineUsers.{plain_user};

use crate::audiences::address_all;
use crate::maps::Maps;
use line_words::NameBuf;
use lobby_battles::{OnlineUser, Part, write_battles, write_motd, write_parts};
use lobby_post::Post;
use reply_kinds::Held::Lent;
use reply_kinds::{Country, HeldWord, Name, Reply, Wide};
use std::alloc::AllocError;

impl Maps {
    /// Tells the issuer, who logs in under a name, who is there, itself among them.
    pub fn tell_burst(
        &self,
        name: &NameBuf,
        online_user: &OnlineUser,
        post: &mut Post,
    ) -> Result<(), AllocError>
        ensures { OnOk result (Told self.now.plain post.old post.new
            (tell issuer (burst self.now.plain.settings.motd name.now
            (put_name self.now.plain.users name.now (plain_user online_user.now)) self.now.plain.battles) ∷ [])) }
    {
        post.begin_own();
        post.write_own(Reply::Accepted {
            user: Name(Lent(name)),
        })?;
        write_motd(self.settings.motd().as_slice(), post)?;
        write_parts(&self.online.users, name, online_user, Part::Presence, post)?;
        write_parts(&self.online.users, name, online_user, Part::Status, post)?;
        write_battles(&self.battles, post)?;
        post.write_own(Reply::LoginInfoEnd)?;
        post.address_issuer()
    }

    /// Tells the others that a user is there.
    pub fn tell_arrival(
        &self,
        name: &NameBuf,
        online_user: &OnlineUser,
        post: &mut Post,
    ) -> Result<(), AllocError>
        ensures { OnOk result
            (Told self.now.plain post.old post.new (tell others (arrival name.now (plain_user online_user.now)) ∷ [])) }
    {
        post.write_for_others(Reply::AddUser {
            user: Name(Lent(name)),
            country: Country(HeldWord::Lent(online_user.country.as_word())),
            cpu: Wide(online_user.cpu),
            account: online_user.account,
        })?;
        let status = online_user.status.word();
        if status != 0 {
            post.write_more_for_others(Reply::ClientStatus {
                user: Name(Lent(name)),
                status,
            })?;
        }
        address_all(&self.online, &self.clients, post)
    }
}
