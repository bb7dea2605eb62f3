//! A worker's pass.

ghost use Rattle.std.specs.Prelude.{◌≡◌, ◌<◌, true, OnOk, OnErr};

use crate::kept::Kept;
use crate::rule::PlacePass;
use lobby_model::WORKERS;
use std::alloc::{AllocError, Global};
use std::marker::Model;

/// How many events were made. A count stays at the last value of its type.
#[derive(Drop)]
pub(crate) struct Counts {
    // by the pass's worker
    pub(crate) made: u64,
    // worker 0's pass has a place for each number: by its worker, once the pass of that came back
    pub(crate) places: Vec<Option<u64>>,
}

/// A worker's pass to a desk. Contracts see the desk, the plain lobby with which it was opened, and
/// what the pass knows: its worker's number, the beginning of the history that the worker has seen,
/// and the events that it made; and whether its holds keep their events.
#[derive(Drop)]
pub struct Pass {
    pub(crate) inner: PlacePass,
    pub(crate) number: u8,
    // how many numbers were handed out; worker 0's pass alone counts them
    pub(crate) handed: u8,
    pub(crate) counts: Counts,
    // empty, with room for the events of a hold if these are kept
    pub(crate) kept: Kept,
}

impl Model for Pass {
    ghost use Rattle.lobby_lock.specs.Passes.{ShownPass, shown_pass, IsReady};

    ghost Value = { ShownPass };

    ghost view = { λ p. shown_pass p.inner p.kept.keeps };

    ghost invariant = { λ p. IsReady p.inner p.number p.handed p.counts.made p.counts.places.items p.kept };
}

impl Pass {
    /// The number of its worker, the home of that worker's clients.
    pub fn number(&self) -> u8
        ensures number { result ≡ self.now.worker.number }
        ensures below { result < WORKERS }
    {
        self.number
    }

    /// From now on each hold keeps its events, and shows them when it is over. Fails only where memory is refused,
    /// and then nothing changes.
    pub fn keep_events(&mut self, alloc: Global) -> Result<(), AllocError>
        ensures ok { OnOk result (self.new.keeps ≡ true) }
        ensures rest { self.new ≡ record self.old { keeps = self.new.keeps } }
        ensures err { OnErr result (self.new ≡ self.old) }
    {
        self.kept = Kept::with_room(alloc)?;
        Ok(())
    }
}
