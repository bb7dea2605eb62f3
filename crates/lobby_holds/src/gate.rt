//! Where a worker may be looked at from outside.

use lobby_lock::{Made, Pass};
use server_log::Happening;

/// Is told what a worker is about to do and what it did, and what operators may be told. Tests hold
/// a worker at a gate, or look whether it came by. No method takes a handle to wait.
pub trait Gate {
    ghost use Rattle.std.specs.Prelude.{◌≡◌, Bool};
    ghost use Rattle.lobby_lock.specs.Passes.{ShownMade};

    /// Whether it wants the events that workers make.
    ghost wants: { Self → Bool };

    /// That it was handed the events of a hold that is over, as `made` alone says.
    ghost handed: { Self → ShownMade → Type 0 };

    /// The worker of this number is about to take the lobby.
    fn before_take(&self, worker: u8);

    /// Whether it wants the events that workers make. A gate that records nothing does not.
    fn wants_events(&self) -> bool
        ensures { result ≡ wants self.now };

    /// A hold is over, the gate wants events, and here are those that the hold kept, if its pass keeps them. They are
    /// let go, and the pass goes on.
    fn made(&self, made: Made) -> Pass
        ensures pass { result ≡ made.pass }
        ensures handed { handed self.now made };

    /// The worker wrote these bytes to a link.
    fn after_write(&self, worker: u8, bytes: &[u8]);

    /// The worker gave a connection a turn, whose events told so much, as the lobby counts it. A gate that counts
    /// nothing does nothing.
    fn after_turn(&self, _worker: u8, _told: u64) {}

    /// The worker was woken.
    fn woken(&self, worker: u8);

    /// The server listens. A gate that tells nobody does nothing.
    fn listening(&self) {}

    /// This happened, of which operators may be told. It may be called in a hold. A gate that tells nobody does
    /// nothing.
    fn tell(&self, _happening: Happening) {}
}
