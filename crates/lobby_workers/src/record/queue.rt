//! The lines that wait to be written.

use crate::record::end::End;
use crate::record::files::RecordFiles;
use crate::record::lines::Lines;
use crate::record::place::Place;
use crate::sleep::WriterSleep;
use crate::writer::{Looked, Writer, Writing};
use lobby_model::MadeEvent;
use record_lines::Masks;
use server_log::Happening;
use std::alloc::{AllocError, Global};
use std::fs::OpenFile;
use std::io::Write;
use std::sync::OnceLock;
use worker_loop::Gate;

/// The milliseconds for which the thread that writes lets lines gather: woken 50 times a second, in place of 10, it
/// took half of what a record costs.
const GATHERING: u64 = 100;

/// So many bytes of a worker wake a thread that gathers.
const MANY: usize = 65_536;

/// What waits to be written: for each worker the lines of what it made. A worker takes its lines, puts more behind them
/// and lays them down again; the thread that writes takes them where they lie. So neither waits for the other.
pub struct RecordQueue {
    alloc: Global,
    masks: Masks,
    waiting: Vec<Place>,
    /// Why the record ends, once it does.
    end: OnceLock<End>,
    sleep: WriterSleep,
}

impl Drop for RecordQueue {
    /// Who lets one go calls this, and need not know what it is made of.
    fn drop(self) {
        let RecordQueue {
            alloc: _,
            masks,
            waiting,
            end,
            sleep,
        } = self;
        drop(masks);
        drop(waiting);
        drop(end);
        drop(sleep);
    }
}

/// What the thread of a record writes, and where.
#[derive(Drop)]
pub struct RecordWriting<'a, W, G> {
    queue: &'a RecordQueue,
    files: RecordFiles<W>,
    // what is told why the record ends
    gate: &'a G,
    // why it does: by the end of the server, if by nothing else before
    end: End,
}

impl RecordQueue {
    /// Nothing yet, of so many workers. Fails only where memory is refused.
    pub fn new(alloc: Global, masks: Masks, workers: usize) -> Result<RecordQueue, AllocError> {
        match places(alloc, workers) {
            Ok(waiting) => Ok(RecordQueue {
                alloc,
                masks,
                waiting,
                end: OnceLock::new(),
                sleep: WriterSleep::new(),
            }),
            Err(AllocError) => {
                drop(masks);
                Err(AllocError)
            }
        }
    }

    /// Puts the lines of the events that a worker made, where the record goes on. A worker without a place is passed
    /// over.
    pub(crate) fn put(&self, worker: u8, events: &[MadeEvent]) {
        if events.is_empty() {
            return;
        }
        let waiting = self.waiting.get(usize::from(worker));
        let (Some(place), None) = (waiting, self.end.get()) else {
            return;
        };
        let count = match self.add(place, events) {
            Ok(count) => count,
            Err(end) => {
                self.end_by(end);
                MANY
            }
        };
        if self.sleep.is_asleep() || (count >= MANY && self.sleep.gathers()) {
            self.sleep.wake();
        }
    }

    /// Puts the lines of events behind those at a place. How many bytes wait there then.
    fn add(&self, place: &Place, events: &[MadeEvent]) -> Result<usize, End> {
        let mut lines = match place.take() {
            Some(lines) => lines,
            None => Lines::new(self.alloc),
        };
        let added = lines.add_made(self.alloc, &self.masks, events);
        let count = lines.bytes.len();
        if let Err(refused) = place.lay(lines) {
            // Only this worker lays lines there, and only one thread takes them.
            drop(refused);
            return Err(End::Full);
        }
        added?;
        Ok(count)
    }

    /// The record ends, for this cause if there is none yet.
    fn end_by(&self, end: End) {
        let _ = self.end.try_set(end);
    }

    /// The thread that writes what is put to the files of the workers, and once the record ends why it does, which the
    /// gate is told too.
    pub fn writer<'a, W, G>(
        &'a self,
        files: RecordFiles<W>,
        gate: &'a G,
    ) -> Writer<'a, RecordWriting<'a, W, G>> {
        let writing = RecordWriting {
            queue: self,
            files,
            gate,
            end: End::Stop,
        };
        Writer {
            sleep: &self.sleep,
            writing,
        }
    }
}

impl<W: Write + OpenFile + Drop, G> RecordWriting<'_, W, G> {
    /// Writes what waits.
    fn write_places(&mut self) -> Result<Looked, End> {
        let mut looked = Looked::Nothing;
        for (worker, place) in self.queue.waiting.iter().enumerate() {
            let Some(lines) = place.take() else {
                continue;
            };
            self.files.write(worker, lines)?;
            looked = Looked::Written;
        }
        Ok(looked)
    }
}

impl<W: Write + OpenFile + Drop, G: Gate> Writing for RecordWriting<'_, W, G> {
    fn write_waiting(&mut self) -> Looked {
        // What was put before the end is seen by the look.
        let end = self.queue.end.get().copied();
        match (self.write_places(), end) {
            (Err(end), _) | (Ok(Looked::Nothing), Some(end)) => {
                self.queue.end_by(end);
                self.end = end;
                Looked::Ended
            }
            (Ok(looked), _) => looked,
        }
    }

    fn gathers_for(&self) -> u64 {
        GATHERING
    }

    /// Writes why the record ends, and has operators told. What waits behind its end is let go.
    fn finish(&mut self) {
        self.files.finish(self.end);
        self.gate.tell(Happening::RecordEnded {
            reason: self.end.reason(),
            place: self.files.last_place(),
        });
        for place in self.queue.waiting.iter() {
            drop(place.take());
        }
    }
}

/// A place for the lines of each worker.
fn places(alloc: Global, workers: usize) -> Result<Vec<Place>, AllocError> {
    let mut places = Vec::with_capacity(alloc, workers)?;
    for _ in 0..workers {
        places.push(Place::new(alloc)?)?;
    }
    Ok(places)
}
