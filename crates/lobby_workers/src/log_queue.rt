//! What workers tell operators, on its way to a thread that writes it.
//!
//! A worker puts and never waits. The thread writes whole lines, many in a write where many wait.

use crate::log_lines::Lines;
use crate::sleep::WriterSleep;
use crate::writer::{Looked, Writer, Writing};
use server_log::{Happening, LogLevel, Started};
use std::alloc::{AllocError, Global};
use std::io::{ErrorKind, Write};
use std::sync::atomic::{AtomicU64, Ordering};
use worker_loop::StepQueue;

/// The most happenings that wait to be written. A burst of logins fits, as long as lines are written faster than users
/// log in; what comes while no line can be written is lost.
const WAITING: usize = 1_024;

/// The milliseconds for which the thread that writes lets lines gather, so that a burst wakes it a few times.
const GATHERING: u64 = 20;

/// So many wake a thread that gathers.
const MANY: u64 = WAITING as u64 / 2;

/// What operators are told.
#[derive(Drop)]
pub struct Log {
    /// How much.
    pub level: LogLevel,
    /// What server has started.
    pub started: Started,
}

/// What waits to be written. A worker puts and never waits: what finds no place is counted as lost, and its number is
/// written as soon as a line can be.
pub struct LogQueue {
    level: LogLevel,
    started: Started,
    waiting: StepQueue<Happening>,
    /// How many wait, or are about to.
    count: AtomicU64,
    lost: AtomicU64,
    sleep: WriterSleep,
}

impl Drop for LogQueue {
    /// Who lets one go calls this, and need not know what it is made of.
    fn drop(self) {
        let LogQueue {
            level: _,
            started,
            waiting,
            count,
            lost,
            sleep,
        } = self;
        drop(started);
        drop(waiting);
        drop(count);
        drop(lost);
        drop(sleep);
    }
}

/// What the thread of the log writes, and where.
#[derive(Drop)]
pub struct LogWriting<'a, E> {
    /// Where it waits.
    pub queue: &'a LogQueue,
    errors: E,
    lines: Lines,
}

impl LogQueue {
    /// Nothing yet. Fails only where memory is refused.
    pub fn new(alloc: Global, log: Log) -> Result<LogQueue, AllocError> {
        let Log { level, started } = log;
        let waiting = StepQueue::new(alloc, WAITING)?;
        Ok(LogQueue {
            level,
            started,
            waiting,
            count: AtomicU64::new(0),
            lost: AtomicU64::new(0),
            sleep: WriterSleep::new(),
        })
    }

    /// Puts a happening, where its level is told.
    pub(crate) fn put(&self, happening: Happening) {
        if !self.level.tells(&happening) {
            return;
        }
        let before = self.count.fetch_add(1, Ordering::SeqCst);
        if self.waiting.put(happening).is_err() {
            self.count.fetch_sub(1, Ordering::SeqCst);
            self.lost.fetch_add(1, Ordering::SeqCst);
        }
        if self.sleep.is_asleep() || (self.sleep.gathers() && before >= MANY) {
            self.sleep.wake();
        }
    }

    /// Puts which server has started.
    pub(crate) fn put_started(&self) {
        self.put(Happening::Started(self.started.copy()));
    }

    /// The thread that writes what is put on standard error, in pieces of whole lines. What standard error does not
    /// take it keeps for a later try, and gives up at the end.
    pub fn writer<E>(&self, errors: E, lines: Lines) -> Writer<'_, LogWriting<'_, E>> {
        let writing = LogWriting {
            queue: self,
            errors,
            lines,
        };
        Writer {
            sleep: &self.sleep,
            writing,
        }
    }

    /// Adds what waits to the lines of a write, as far as they have room, and behind all of it how many were lost. One
    /// whose line is refused memory is lost.
    fn fill(&self, lines: &mut Lines) {
        for _ in 0..WAITING {
            if !lines.has_room() {
                return;
            }
            let Some(happening) = self.waiting.take() else {
                break;
            };
            self.count.fetch_sub(1, Ordering::SeqCst);
            if !lines.add(&happening) {
                self.lost.fetch_add(1, Ordering::SeqCst);
            }
        }
        let lost = self.lost.load(Ordering::SeqCst);
        if lost > 0 && lines.has_room() && lines.add(&Happening::Lost(lost)) {
            self.lost.fetch_sub(lost, Ordering::SeqCst);
        }
    }
}

impl<E: Write> Writing for LogWriting<'_, E> {
    /// Writes what waits, and how many were lost.
    fn write_waiting(&mut self) -> Looked {
        let mut looked = Looked::Nothing;
        for _ in 0..WAITING {
            self.queue.fill(&mut self.lines);
            if self.lines.is_empty() {
                break;
            }
            looked = match self.lines.write(&mut self.errors) {
                Ok(()) => Looked::Written,
                Err(error) if error.kind() == ErrorKind::WouldBlock => return Looked::Full,
                Err(_) => return Looked::Nothing,
            };
        }
        looked
    }

    fn gathers_for(&self) -> u64 {
        if self.queue.count.load(Ordering::SeqCst) < MANY {
            GATHERING
        } else {
            0
        }
    }
}
