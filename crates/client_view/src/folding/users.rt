//! The lines of users.

ghost use Rattle.std.specs.Prelude.{◌≡◌, OnOk, OnErr};
ghost use Rattle.reply_kinds.specs.declared.Reply.TheVariants as reply;
ghost use Rattle.lobby_view.specs.View.{shown};
ghost use Rattle.noted_map.specs.Undoable.{Changes};

use crate::known::Known;
use crate::lists::User;
use reply_kinds::{Country, Name, Wide};
use std::alloc::AllocError;

impl Known {
    pub(crate) fn add_user(
        &mut self,
        name: &Name,
        country: &Country,
        cpu: &Wide,
        account: u32,
    ) -> Result<(), AllocError>
        ensures ok { OnOk result (Changes (λ v.
            shown v (reply.AddUser name.now country.now cpu.now account)) self.old self.new) }
        ensures err { OnErr result (self.new ≡ self.old) }
    {
        let user = User {
            country: country.to_word(self.alloc)?,
            cpu: cpu.0,
            account,
            status: 0,
        };
        self.users.put(name.to_name(), user)
    }

    pub(crate) fn remove_user(&mut self, name: &Name) -> Result<(), AllocError>
        ensures ok { OnOk result (Changes (λ v. shown v (reply.RemoveUser name.now)) self.old self.new) }
        ensures err { OnErr result (self.new ≡ self.old) }
    {
        self.users.remove(name.get())
    }

    pub(crate) fn client_status(&mut self, name: &Name, status: u32) -> Result<(), AllocError>
        ensures ok { OnOk result (Changes (λ v. shown v (reply.ClientStatus name.now status)) self.old self.new) }
        ensures err { OnErr result (self.new ≡ self.old) }
    {
        self.users.set_status(name.get(), status)
    }
}
