//! The events of a hold that is over.

ghost use Rattle.std.specs.Prelude.{◌≡◌};

use crate::kept::Kept;
use crate::pass::Pass;
use lobby_model::MadeEvent;
use std::marker::Model;

/// A hold that is over: others may take its lobby, and those of its events that were kept are here. Contracts see its
/// pass, and these events.
#[derive(Drop)]
pub struct Made {
    pub(crate) pass: Pass,
    pub(crate) kept: Kept,
}

impl Model for Made {
    ghost use Rattle.lobby_lock.specs.Passes.{ShownMade, shown_made};

    ghost Value = { ShownMade };

    ghost view = { λ m. shown_made m.pass m.kept };
}

impl Made {
    /// The number of the worker that made them.
    pub fn worker(&self) -> u8
        ensures { result ≡ self.now.pass.worker.number }
    {
        self.pass.number()
    }

    /// Its events.
    pub fn events(&self) -> &[MadeEvent]
        ensures { result.now ≡ self.now.events }
    {
        self.kept.events()
    }

    /// The pass, by which the lobby is taken again. The events are let go.
    pub fn pass(self) -> Pass
        ensures { result ≡ self.pass }
    {
        let Made { mut pass, mut kept } = self;
        kept.clear();
        pass.kept = kept;
        pass
    }
}
