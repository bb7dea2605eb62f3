//! The server with a log for its operators and a record of what its workers make.

ghost use Rattle.std.specs.Prelude.{◌≤◌};
ghost use Rattle.lobby_workers.specs.Statuses.{IsEnd};

use crate::error::ServerError;
use crate::gate::{Recording, ServerGate};
use crate::log_lines::Lines;
use crate::log_queue::{Log, LogQueue, LogWriting};
use crate::record::{Record, RecordQueue, RecordWriting};
use crate::server::{Service, run_service};
use crate::writer::{Writer, Writing, end_writer, start_writer};
use lobby_model::WORKERS;
use mio::net::TcpListener;
use server_log::LogLevel;
use std::alloc::{AllocError, Global};
use std::fs::OpenFile;
use std::io::{Read, Write};
use std::net::Net;
use std::sync::Wait;
use std::thread::{self, Scope, Threads};
use worker_loop::Gate;

/// What the first thread listens with, reads and writes.
#[derive(Drop)]
struct Ends<'a, I, O> {
    listener: TcpListener,
    input: &'a mut I,
    output: &'a mut O,
}

/// Runs a server as [`run_service`](crate::run_service) does. It tells operators on `errors` what happens, a line
/// each, and has what its workers make written to the files of a record, if there is one. Each of the two is written
/// by a thread of its own. The status is 3 also where the system makes no thread for one of them, and 4 where there
/// is no memory for one.
///
/// Log lines are written whole and in their order. No worker waits for one: what comes while 1,024 wait is lost, and
/// its number is told. A write to `errors` that fails by `WouldBlock` is tried again at once, so it has to wait a while
/// before it does; any other that fails, behind what happens next. Once the server has ended, what a try does not write
/// is given up; else the thread has written all that it was given. With the level `None` there is no such thread, and
/// the gate is told in its place.
///
/// No worker waits for a file of the record: where 4 MiB of its lines wait, or a file takes nothing more, the record
/// ends there, its last line says why, and the server goes on. Once the server has ended, the thread has written all
/// that it was given. Operators are told that the record begins, and why it ends.
pub fn run_server_recorded<
    R: Threads + Wait + Net + Sync,
    I: Read,
    O: Write,
    E: Write + Send + Drop,
    W: Write + OpenFile + Send + Drop,
    G: Gate + Sync,
>(
    rt: &R,
    alloc: Global,
    service: Service,
    listener: TcpListener,
    input: &mut I,
    output: &mut O,
    errors: E,
    gate: &G,
    log: Log,
    record: Option<Record<W>>,
) -> u8
    requires { (1 ≤ service.workers) × (service.workers ≤ WORKERS) }
    ensures { IsEnd result }
{
    let ends = Ends {
        listener,
        input,
        output,
    };
    if log.level == LogLevel::None {
        drop(log);
        drop(errors);
        let no_log: Option<Writer<'_, LogWriting<'_, E>>> = None;
        return run_recorded(rt, alloc, service, ends, gate, no_log, record);
    }
    match new_log(alloc, log) {
        Ok((queue, lines)) => {
            let log = queue.writer(errors, lines);
            run_recorded(rt, alloc, service, ends, gate, Some(log), record)
        }
        Err(_) => {
            drop(record);
            drop(errors);
            give_up(service, ends, ServerError::Memory)
        }
    }
}

/// A log with nothing in it.
fn new_log(alloc: Global, log: Log) -> Result<(LogQueue, Lines), AllocError> {
    let queue = LogQueue::new(alloc, log)?;
    let lines = Lines::new(alloc)?;
    Ok((queue, lines))
}

/// Runs no server, for this cause.
fn give_up<I, O>(service: Service, ends: Ends<'_, I, O>, error: ServerError) -> u8
    ensures { IsEnd result }
{
    drop(service);
    drop(ends);
    error.status()
}

/// The thread that writes a record before it starts, if there is a record, or why there is none.
type Recorder<'a, W, G> = Result<
    Option<Writer<'a, RecordWriting<'a, W, ServerGate<'a, G>>>>,
    ServerError,
>;

/// Runs a server with a log, if there is one, and makes what it records wait for a thread, if there is a record.
fn run_recorded<
    'a,
    R: Threads + Wait + Net + Sync,
    I: Read,
    O: Write,
    E: Write + Send + Drop,
    W: Write + OpenFile + Send + Drop,
    G: Gate + Sync,
>(
    rt: &R,
    alloc: Global,
    service: Service,
    ends: Ends<'_, I, O>,
    gate: &'a G,
    log: Option<Writer<'a, LogWriting<'a, E>>>,
    record: Option<Record<W>>,
) -> u8
    requires { (1 ≤ service.workers) × (service.workers ≤ WORKERS) }
    ensures { IsEnd result }
{
    let log_queue = match &log {
        Some(log) => Some(log.writing.queue),
        None => None,
    };
    let unrecorded = ServerGate {
        gate,
        log: log_queue,
        record: None,
    };
    let Some(record) = record else {
        let none: Recorder<'_, W, G> = Ok(None);
        return run_scope(rt, alloc, service, ends, &unrecorded, log, none);
    };
    let Record {
        masks,
        folder,
        files,
    } = record;
    match RecordQueue::new(alloc, masks, service.workers as usize) {
        Ok(queue) => {
            let gate = ServerGate {
                gate,
                log: log_queue,
                record: Some(Recording {
                    queue: &queue,
                    folder: &folder,
                }),
            };
            let recorder = Ok(Some(queue.writer(files, &unrecorded)));
            run_scope(rt, alloc, service, ends, &gate, log, recorder)
        }
        Err(AllocError) => {
            drop(files);
            // The thread of the log is tried all the same: that none can be made is told before this.
            let refused: Recorder<'_, W, G> = Err(ServerError::Memory);
            run_scope(rt, alloc, service, ends, &unrecorded, log, refused)
        }
    }
}

/// Runs a server, and beside it the threads that write.
fn run_scope<
    R: Threads + Wait + Net + Sync,
    I: Read,
    O: Write,
    L: Writing + Send + Drop,
    F: Writing + Send + Drop,
    G: Gate + Sync,
>(
    rt: &R,
    alloc: Global,
    service: Service,
    ends: Ends<'_, I, O>,
    gate: &G,
    log: Option<Writer<'_, L>>,
    record: Result<Option<Writer<'_, F>>, ServerError>,
) -> u8
    requires { (1 ≤ service.workers) × (service.workers ≤ WORKERS) }
    ensures { IsEnd result }
{
    thread::scope(
        thread::scope_env(),
        rt,
        move |scope| -> u8
            requires { (1 ≤ service.workers) × (service.workers ≤ WORKERS) }
            ensures { IsEnd result }
        { run_beside(scope, rt, alloc, service, ends, gate, log, record) },
    )
}

/// Starts the threads that write, runs the server, and waits until all is written or given up. What is recorded ends
/// first, so that the log tells why.
fn run_beside<
    's,
    'e,
    R: Threads + Wait + Net + Sync,
    I: Read,
    O: Write,
    L: Writing + Send + Drop + 'e,
    F: Writing + Send + Drop + 'e,
    G: Gate + Sync,
>(
    scope: &Scope<'s, &'e ()>,
    rt: &'e R,
    alloc: Global,
    service: Service,
    ends: Ends<'_, I, O>,
    gate: &G,
    log: Option<Writer<'e, L>>,
    record: Result<Option<Writer<'e, F>>, ServerError>,
) -> u8
    requires { (1 ≤ service.workers) × (service.workers ≤ WORKERS) }
    ensures { IsEnd result }
{
    match start_writer(scope, rt, log) {
        Ok(log) => {
            let started = match record {
                Ok(record) => start_writer(scope, rt, record),
                Err(error) => Err(error),
            };
            let status = match started {
                Ok(record) => {
                    let Ends {
                        listener,
                        input,
                        output,
                    } = ends;
                    let status = run_service(rt, alloc, service, listener, input, output, gate);
                    end_writer(rt, record);
                    status
                }
                Err(error) => give_up(service, ends, error),
            };
            end_writer(rt, log);
            status
        }
        Err(error) => {
            drop(record);
            give_up(service, ends, error)
        }
    }
}
