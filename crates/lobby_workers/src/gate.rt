//! The gate of a server that tells operators what happens, and records it.

use crate::log_queue::LogQueue;
use crate::record::RecordQueue;
use lobby_lock::{Made, Pass};
use server_log::{Happening, ShortText};
use worker_loop::Gate;

/// Where a record waits to be written, and where it is written.
#[derive(Drop)]
pub struct Recording<'a> {
    /// Where what workers make is put.
    pub queue: &'a RecordQueue,
    /// The folder of the record.
    pub folder: &'a ShortText,
}

/// A gate that puts what operators are told into the queue of a log, and what workers make into that of a record. All
/// else, and what has no queue here, goes to the gate behind it.
#[derive(Drop)]
pub struct ServerGate<'a, G> {
    /// What is told what workers do.
    pub gate: &'a G,
    /// Where it puts what operators are told.
    pub log: Option<&'a LogQueue>,
    /// Where it puts what is recorded.
    pub record: Option<Recording<'a>>,
}

impl<G: Gate> Gate for ServerGate<'_, G> {
    ghost use Rattle.std.specs.Prelude.{◌||◌, is_some, IfNone};

    ghost wants = { λ gate. is_some gate.record || G.wants gate.gate.now };

    ghost handed = { λ gate made. IfNone gate.record (G.handed gate.gate.now made) };

    fn before_take(&self, worker: u8) {
        self.gate.before_take(worker);
    }

    fn wants_events(&self) -> bool {
        self.record.is_some() || self.gate.wants_events()
    }

    fn made(&self, made: Made) -> Pass {
        match &self.record {
            Some(record) => {
                record.queue.put(made.worker(), made.events());
                made.pass()
            }
            None => self.gate.made(made),
        }
    }

    fn after_write(&self, worker: u8, bytes: &[u8]) {
        self.gate.after_write(worker, bytes);
    }

    fn after_turn(&self, worker: u8, told: u64) {
        self.gate.after_turn(worker, told);
    }

    fn woken(&self, worker: u8) {
        self.gate.woken(worker);
    }

    fn listening(&self) {
        match self.log {
            Some(log) => log.put_started(),
            None => self.gate.listening(),
        }
        if let Some(record) = &self.record {
            self.tell(Happening::RecordStarted {
                folder: record.folder.copy(),
            });
        }
    }

    fn tell(&self, happening: Happening) {
        match self.log {
            Some(log) => log.put(happening),
            None => self.gate.tell(happening),
        }
    }
}
