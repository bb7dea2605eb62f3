//! The lines of channels.

ghost use Rattle.std.specs.Prelude.{◌≡◌, OnOk, OnErr};
ghost use Rattle.reply_kinds.specs.declared.Reply.TheVariants as reply;
ghost use Rattle.lobby_view.specs.View.{shown};
ghost use Rattle.noted_map.specs.Undoable.{Changes};

use crate::known::Known;
use reply_kinds::{Name, Names};
use std::alloc::AllocError;

impl Known {
    pub(crate) fn join(&mut self, channel: &Name) -> Result<(), AllocError>
        ensures ok { OnOk result (Changes (λ v. shown v (reply.Join channel.now)) self.old self.new) }
        ensures err { OnErr result (self.new ≡ self.old) }
    {
        self.channels.open(self.alloc, channel.to_name())
    }

    pub(crate) fn clients(&mut self, channel: &Name, names: &Names) -> Result<(), AllocError>
        ensures ok { OnOk result (Changes (λ v. shown v (reply.Clients channel.now names.now)) self.old self.new) }
        ensures err { OnErr result (self.new ≡ self.old) }
    {
        let names = names.to_list(self.alloc)?;
        self.channels.add_all(channel.get(), names)
    }

    pub(crate) fn joined(&mut self, channel: &Name, name: &Name) -> Result<(), AllocError>
        ensures ok { OnOk result (Changes (λ v. shown v (reply.Joined channel.now name.now)) self.old self.new) }
        ensures err { OnErr result (self.new ≡ self.old) }
    {
        self.channels.add(channel.get(), name.to_name())
    }

    /// The channel goes with the client itself.
    pub(crate) fn left(&mut self, channel: &Name, name: &Name) -> Result<(), AllocError>
        ensures ok { OnOk result (Changes (λ v. shown v (reply.Left channel.now name.now)) self.old self.new) }
        ensures err { OnErr result (self.new ≡ self.old) }
    {
        if self.is_me(name.get()) {
            self.channels.close(channel.get())
        } else {
            self.channels.remove(channel.get(), name.get())
        }
    }
}
