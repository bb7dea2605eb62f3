//! Plays the lines of a script, one after another.

use crate::action::{Action, Order, Setting, read_action};
use crate::fault::LineFault;
use crate::label::Label;
use crate::orders::{carry_out, connect};
use crate::setup::Setup;
use crate::show::show;
use lobby_hall::Hall;
use std::alloc::Global;
use std::collections::BTreeMap;
use std::io::Write;

/// A script so far: the clients that it opened, and the hall that they are in.
#[derive(Drop)]
pub struct Player {
    alloc: Global,
    /// What the first open makes the hall with.
    setup: Setup,
    /// There is one from the first open on.
    hall: Option<Hall>,
    labels: BTreeMap<u32, Label>,
}

impl Player {
    ghost use Rattle.std.specs.Prelude.{◌≡◌, List, ℕ, [], false, OnOk, Err};
    ghost use Rattle.std.specs.Io.KnownBytes.{Appends, Keeps};
    ghost use Rattle.lobby_script.specs.Prepared.{nothing_set};
    ghost use Rattle.lobby_script.specs.Scene.{Scene, is_allowed, unopened};
    ghost use Rattle.lobby_script.specs.Script.{IsBad, LinePlays};
    ghost use Rattle.lobby_script.specs.Player.{IsAt, IsSomewhere, Performed};
    ghost use Rattle.lobby_script.specs.declared.action.Action.TheVariants as action;
    ghost use Rattle.lobby_script.specs.declared.fault.LineFault.TheVariants as fault;
    ghost use Rattle.lobby_script.specs.Acts.{IsShow};
    ghost use Rattle.lobby_script.specs.Actions.{Says};
    ghost use Rattle.lobby_script.specs.declared.action.Action.{Action};

    /// Before the first line of a script.
    pub fn new(alloc: Global) -> Player
        ensures { IsAt result (unopened nothing_set) }
    {
        Player {
            alloc,
            setup: Setup::new(alloc),
            hall: None,
            labels: BTreeMap::new(alloc),
        }
    }

    /// Plays one line of a script. After a bad step, and where memory was refused, nothing was
    /// written.
    pub fn play_line<W: Write>(&mut self, line: &[u8], writer: &mut W) -> Result<(), LineFault>
        requires { IsSomewhere self.old }
        ensures ok { OnOk result ((scene : Scene) → IsAt self.old scene
            → (out : List ℕ) × ((new : Scene) × LinePlays scene line.now out new × IsAt self.new new)
            × Appends (W.contents writer.old) (W.contents writer.new) out) }
        ensures bad { result ≡ Err fault.BadStep → (scene : Scene) → IsAt self.old scene → IsBad scene line.now }
        ensures device { result ≡ Err fault.Device → (a : Action) × Says line.now a × IsShow a }
        ensures unwritten { result ≡ Err fault.BadStep → Keeps (W.contents writer.old) (W.contents writer.new) }
        ensures memory { result ≡ Err fault.Memory → Keeps (W.contents writer.old) (W.contents writer.new) }
    {
        if line.is_empty() {
            return Ok(());
        }
        match read_action(self.alloc, line)? {
            Some(action) => self.act(action, writer),
            None => Err(LineFault::BadStep),
        }
    }

    fn act<W: Write>(&mut self, action: Action, writer: &mut W) -> Result<(), LineFault>
        requires { IsSomewhere self.old }
        ensures ok { OnOk result ((scene : Scene) → IsAt self.old scene
            → (out : List ℕ) × Performed self.new scene action out
            × Appends (W.contents writer.old) (W.contents writer.new) out) }
        ensures bad { result ≡ Err fault.BadStep → (scene : Scene) → IsAt self.old scene
            → is_allowed scene action ≡ false }
        ensures device { result ≡ Err fault.Device → IsShow action }
        ensures unwritten { result ≡ Err fault.BadStep → Keeps (W.contents writer.old) (W.contents writer.new) }
        ensures memory { result ≡ Err fault.Memory → Keeps (W.contents writer.old) (W.contents writer.new) }
    {
        match action {
            Action::Set { setting } => self.set(setting),
            Action::Open { label, ip } => self.open(label, ip),
            Action::Client { label, order } => self.order(label, order, writer),
        }
    }

    /// Sets this, before the first open.
    fn set(&mut self, setting: Setting) -> Result<(), LineFault>
        ensures ok { OnOk result ((scene : Scene) → IsAt self.old scene
            → Performed self.new scene (action.Set setting) []) }
        ensures bad { result ≡ Err fault.BadStep → (scene : Scene) → IsAt self.old scene
            → is_allowed scene (action.Set setting) ≡ false }
        ensures device { result ≡ Err fault.Device → ⊥ }
    {
        if self.hall.is_some() {
            return Err(LineFault::BadStep);
        }
        self.setup.set(setting)
    }

    /// Connects a client from this address, which gets the label. The first one opens the hall.
    fn open(&mut self, label: u32, ip: [u8; 4]) -> Result<(), LineFault>
        ensures ok { OnOk result ((scene : Scene) → IsAt self.old scene
            → Performed self.new scene (action.Open label ip) []) }
        ensures bad { result ≡ Err fault.BadStep → (scene : Scene) → IsAt self.old scene
            → is_allowed scene (action.Open label ip) ≡ false }
        ensures device { result ≡ Err fault.Device → ⊥ }
    {
        if self.labels.contains_key(&label) {
            return Err(LineFault::BadStep);
        }
        let client = match &mut self.hall {
            Some(hall) => connect(hall, ip)?,
            None => connect(self.hall.insert(self.setup.open()?), ip)?,
        };
        self.labels.insert(label, Label { client, shown: 0 })?;
        Ok(())
    }

    /// Does this for the client of the label.
    fn order<W: Write>(&mut self, label: u32, order: Order, writer: &mut W) -> Result<(), LineFault>
        requires { IsSomewhere self.old }
        ensures ok { OnOk result ((scene : Scene) → IsAt self.old scene
            → (out : List ℕ) × Performed self.new scene (action.Client label order) out
            × Appends (W.contents writer.old) (W.contents writer.new) out) }
        ensures bad { result ≡ Err fault.BadStep → (scene : Scene) → IsAt self.old scene
            → is_allowed scene (action.Client label order) ≡ false }
        ensures device { result ≡ Err fault.Device → IsShow (action.Client label order) }
        ensures unwritten { result ≡ Err fault.BadStep → Keeps (W.contents writer.old) (W.contents writer.new) }
        ensures memory { result ≡ Err fault.Memory → Keeps (W.contents writer.old) (W.contents writer.new) }
    {
        let Some(entry) = self.labels.get(&label).copied() else {
            return Err(LineFault::BadStep);
        };
        let Some(client) = entry.client else {
            return Ok(());
        };
        let Some(hall) = &mut self.hall else {
            return Ok(());
        };
        if let Order::Show = order {
            let shown = show(hall, client, label, entry.shown, writer)?;
            self.labels.insert(label, Label { shown, ..entry })?;
        } else {
            carry_out(hall, client, order)?;
        }
        Ok(())
    }
}
