//! What a script sets before its first open.

ghost use Rattle.std.specs.Prelude.{◌≡◌, ◌↔◌, [], false, true, Err, IfOk, OnOk, OnErr};
ghost use Rattle.lobby_model.specs.Configuration.{is_configuration};
ghost use Rattle.lobby_model.specs.declared.settings.SettingsError.TheVariants as refused;
ghost use Rattle.lobby_model.specs.Schedule.{new_world};
ghost use Rattle.lobby_hall.specs.Standing.{Stands};
ghost use Rattle.lobby_script.specs.Prepared.{can_be_set, nothing_set, with_defaults, with_setting};
ghost use Rattle.lobby_script.specs.declared.action.Setting.TheVariants as setting;
ghost use Rattle.lobby_script.specs.declared.fault.LineFault.TheVariants as fault;

use crate::action::Setting;
use crate::fault::LineFault;
use account_book::AccountBook;
use line_words::TextBuf;
use lobby_hall::Hall;
use lobby_model::settings::DEFAULT_OUTBOX_LIMIT;
use lobby_model::{Settings, SettingsError};
use std::alloc::Global;
use std::marker::Model;
use std::mem;

/// The settings and the accounts of the lobby that the first open makes.
#[derive(Drop)]
pub struct Setup {
    alloc: Global,
    motd: Vec<TextBuf>,
    outbox_limit: usize,
    accounts: AccountBook,
}

impl Model for Setup {
    ghost use Rattle.std.specs.Prelude.{IsTrue};
    ghost use Rattle.lobby_model.specs.Configuration.{is_configuration};
    ghost use Rattle.lobby_script.specs.Prepared.{Prepared, with_defaults};

    ghost Value = { Prepared };

    ghost view = { λ s. record { settings = with_defaults s.motd.items s.outbox_limit; accounts = s.accounts } };

    ghost invariant = { λ s. IsTrue (is_configuration (with_defaults s.motd.items s.outbox_limit)) };
}

/// The default settings, with these lines of the day and this limit of an outbox.
fn settings(alloc: Global, motd: &[TextBuf], outbox_limit: usize) -> Result<Settings, SettingsError>
    ensures ok { IfOk result (λ settings. settings ≡ with_defaults motd.now outbox_limit) }
    ensures bounds { (result ≡ Err refused.OutOfBounds)
        ↔ (is_configuration (with_defaults motd.now outbox_limit) ≡ false) }
{
    Settings::new(alloc, b"0.38", b"*", 8201, 0, motd, outbox_limit)
}

impl Setup {
    /// The default settings, and no account.
    pub fn new(alloc: Global) -> Setup
        ensures { result ≡ nothing_set }
    {
        Setup {
            alloc,
            motd: Vec::new(alloc),
            outbox_limit: DEFAULT_OUTBOX_LIMIT,
            accounts: AccountBook::new(alloc),
        }
    }

    /// Sets this too. `BadStep` where a setting would be out of its bounds, or a name has an account
    /// already; after a fault nothing is changed.
    pub fn set(&mut self, setting: Setting) -> Result<(), LineFault>
        ensures ok { OnOk result ((can_be_set self.old setting ≡ true) × (self.new ≡ with_setting self.old setting)) }
        ensures bad { result ≡ Err fault.BadStep → can_be_set self.old setting ≡ false }
        ensures device { result ≡ Err fault.Device → ⊥ }
        ensures err { OnErr result (self.new ≡ self.old) }
    {
        match setting {
            Setting::Account { account } => Ok(self.accounts.add(account)?),
            Setting::Motd { line } => self.add_line(line),
            Setting::Limit { bytes } => self.limit(bytes),
        }
    }

    /// One more line of the day.
    fn add_line(&mut self, line: TextBuf) -> Result<(), LineFault>
        ensures ok { OnOk result ((can_be_set self.old (setting.Motd line) ≡ true)
            × (self.new ≡ with_setting self.old (setting.Motd line))) }
        ensures bad { result ≡ Err fault.BadStep → can_be_set self.old (setting.Motd line) ≡ false }
        ensures device { result ≡ Err fault.Device → ⊥ }
        ensures err { OnErr result (self.new ≡ self.old) }
    {
        self.motd.push(line)?;
        match settings(self.alloc, &self.motd, self.outbox_limit) {
            Ok(_) => Ok(()),
            Err(error) => {
                let _ = self.motd.pop();
                Err(LineFault::from(error))
            }
        }
    }

    /// The limit of an outbox.
    fn limit(&mut self, bytes: u32) -> Result<(), LineFault>
        ensures ok { OnOk result ((can_be_set self.old (setting.Limit bytes) ≡ true)
            × (self.new ≡ with_setting self.old (setting.Limit bytes))) }
        ensures bad { result ≡ Err fault.BadStep → can_be_set self.old (setting.Limit bytes) ≡ false }
        ensures device { result ≡ Err fault.Device → ⊥ }
        ensures err { OnErr result (self.new ≡ self.old) }
    {
        let outbox_limit = bytes as usize;
        let _ = settings(self.alloc, &self.motd, outbox_limit)?;
        self.outbox_limit = outbox_limit;
        Ok(())
    }

    /// A hall with these settings, which the accounts go into: none are left here. Fails only where
    /// memory is refused.
    pub fn open(&mut self) -> Result<Hall, LineFault>
        ensures ok { IfOk result (λ hall.
            Stands hall self.old.settings self.old.accounts [] (new_world self.old.settings self.old.accounts)) }
        ensures step { result ≡ Err fault.BadStep → ⊥ }
        ensures device { result ≡ Err fault.Device → ⊥ }
    {
        let settings = settings(self.alloc, &self.motd, self.outbox_limit)?;
        let accounts = mem::replace(&mut self.accounts, AccountBook::new(self.alloc));
        Ok(Hall::new(self.alloc, settings, accounts)?)
    }
}
