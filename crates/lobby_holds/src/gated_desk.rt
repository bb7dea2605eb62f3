//! Where a turn takes the lobby, and gives it back.

ghost use Rattle.std.specs.Prelude.{◌≡◌, [], true};
ghost use Rattle.lobby_lock.specs.Passes.{made_in, pass_after};
ghost use Rattle.lobby_holds.specs.Holds.{IsTaken, Stands};

use crate::gate::Gate;
use lobby_lock::{Desk, Held, Pass};
use std::sync::Wait;

/// The desk on which the lobby lies, behind the gate that a worker passes on its way there.
#[derive(Drop)]
pub struct GatedDesk<'a, G> {
    /// Where the lobby lies between holds.
    pub desk: &'a Desk,
    /// What is told of each take, and of the events that were made.
    pub gate: &'a G,
}

impl<G: Gate> GatedDesk<'_, G> {
    /// Passes the gate and takes the lobby.
    pub fn take<R: Wait>(&self, rt: &R, pass: Pass) -> Held
        requires { pass.desk ≡ self.now.desk.now }
        ensures taken { IsTaken pass result }
        ensures stands { Stands result }
        ensures fresh { result.events ≡ [] }
        ensures desk { result.pass.desk ≡ self.now.desk.now }
    {
        self.gate.before_take(pass.number());
        self.desk.take(rt, pass)
    }

    /// Gives the lobby back, and then hands the gate just the events of the hold, if it wants them and they were kept.
    pub fn give<R: Wait>(&self, rt: &R, held: Held) -> Pass
        requires { held.pass.desk ≡ self.now.desk.now }
        ensures pass { result ≡ pass_after held }
        ensures handed { G.wants self.now.gate.now ≡ true
            → G.handed self.now.gate.now (record { pass = pass_after held; events = made_in held }) }
    {
        if !self.gate.wants_events() {
            return held.give(rt, self.desk);
        }
        self.gate.made(held.lay_down(rt, self.desk))
    }
}
