//! A thread that writes what others put.

use crate::error::ServerError;
use crate::sleep::WriterSleep;
use std::sync::Wait;
use std::thread::{JoinHandle, Scope, Threads};

/// What a look at what waits came to.
#[derive(Clone, Copy, PartialEq, Eq, Debug)]
pub enum Looked {
    /// All that waited was written.
    Written,
    /// Nothing waited, or what waited could not be written now.
    Nothing,
    /// What is written to takes nothing now, and was waited for.
    Full,
    /// Nothing is written any more.
    Ended,
}

/// What a thread writes.
pub trait Writing {
    /// Writes what waits.
    fn write_waiting(&mut self) -> Looked;

    /// For how many milliseconds more is to gather before the next look. 0 where much waits already.
    fn gathers_for(&self) -> u64;

    /// Nothing more will be put, or nothing is written any more.
    fn finish(&mut self) {}
}

/// A thread before it starts: what it writes, and how it sleeps.
#[derive(Drop)]
pub struct Writer<'a, W> {
    /// How it sleeps.
    pub sleep: &'a WriterSleep,
    /// What it writes.
    pub writing: W,
}

/// A thread that writes.
#[derive(Drop)]
pub struct WriterThread<'a> {
    sleep: &'a WriterSleep,
    thread: JoinHandle<()>,
}

/// Starts a thread that writes, if there is one to start. Fails where the system makes no thread.
pub fn start_writer<'s, 'e, R: Wait + Sync, W: Writing + Send + Drop + 'e>(
    scope: &Scope<'s, &'e ()>,
    rt: &'e R,
    writer: Option<Writer<'e, W>>,
) -> Result<Option<WriterThread<'e>>, ServerError> {
    let Some(Writer { sleep, writing }) = writer else {
        return Ok(None);
    };
    match scope.spawn(move || write_until_end(rt, sleep, writing)) {
        Ok(thread) => Ok(Some(WriterThread { sleep, thread })),
        Err(refused) => {
            drop(refused);
            Err(ServerError::Listener)
        }
    }
}

/// Nothing more will be put: waits until a thread has written all that it was given, or given it up.
pub fn end_writer<R: Threads>(rt: &R, thread: Option<WriterThread<'_>>) {
    if let Some(WriterThread { sleep, thread }) = thread {
        sleep.end();
        thread.join(rt);
    }
}

/// Writes what is put, until nothing more will be or nothing is written any more. It sleeps where nothing is there.
fn write_until_end<R: Wait, W: Writing + Drop>(rt: &R, sleep: &WriterSleep, writing: W) {
    let mut writing = writing;
    for _ in rt.forever() {
        let is_over = sleep.is_over();
        sleep.show();
        match writing.write_waiting() {
            Looked::Written if is_over => {}
            Looked::Written => gather(rt, sleep, &writing),
            Looked::Nothing | Looked::Full if is_over => break,
            Looked::Nothing => sleep.sleep(rt),
            Looked::Full => {}
            Looked::Ended => break,
        }
    }
    writing.finish();
    drop(writing);
}

/// Lets more gather for a while, until it is much or nothing more will be put.
fn gather<R: Wait, W: Writing>(rt: &R, sleep: &WriterSleep, writing: &W) {
    sleep.show_gathering();
    let milliseconds = writing.gathers_for();
    if milliseconds > 0 {
        sleep.gather(rt, milliseconds);
    }
}
