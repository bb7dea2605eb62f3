//! The server: a lobby, its workers in threads of their own, and what ends them.

ghost use Rattle.std.specs.Prelude.{◌≡◌, ◌≤◌, [], IfOk, IfErr, vec_len, vec_capacity};
ghost use Rattle.std.specs.List.{All};
ghost use Rattle.lobby_workers.specs.Statuses.{IsEnd};

use crate::error::ServerError;
use crate::workers::{Handles, NewWorker, new_workers, open_desk};
use account_book::AccountBook;
use lobby_lock::{Closing, Count, Desk, Pass};
use lobby_machine::HashSeed;
use lobby_model::{Settings, WORKERS};
use mio::net::TcpListener;
use proxy_line::Proxies;
use server_log::Happening;
use std::alloc::Global;
use std::io::{ErrorKind, Read, Write};
use std::net::Net;
use std::snapshot::Snapshot;
use std::sync::Wait;
use std::thread::{self, Promise, PromisedHandle, Scope, Threads};
use worker_loop::{Gate, Shared, run_worker};

/// What a server serves, and how.
#[derive(Drop)]
pub struct Service {
    /// What its lobby is set to.
    pub settings: Settings,
    /// How many workers it has, 1 to 64.
    pub workers: u32,
    /// Whether it stops where its input ends.
    pub stop_at_input_end: bool,
    /// From where fronts connect.
    pub proxies: Proxies,
    /// Who may log in.
    pub accounts: AccountBook,
    /// How the words that clients choose are hashed.
    pub seed: HashSeed,
}

/// That a worker's pass comes back as that worker's.
#[derive(Drop)]
struct SamePass(Snapshot<Pass>);

impl Promise<Pass> for SamePass {
    ghost use Rattle.std.specs.Prelude.{◌≡◌};

    ghost kept_by = { λ p r. (r.desk ≡ p.0.value.desk) × (r.worker.number ≡ p.0.value.worker.number) };
}

type WorkerThread = PromisedHandle<Pass, SamePass>;

/// What the first thread reads and writes while the workers run.
#[derive(Drop)]
struct Streams<'a, I, O> {
    input: &'a mut I,
    /// Whether the server stops where the input ends.
    stop_at_input_end: bool,
    output: &'a mut O,
}

/// How the workers ended.
#[derive(Drop)]
struct Ended {
    /// Worker 0's pass, which has taken back those of the others.
    pass: Pass,
    /// Nothing where the input came to its end.
    reason: Result<(), ServerError>,
}

/// Runs a server on a listener, and gives the exit status of its program.
///
/// It makes what its workers need, starts them, each in a thread of its own, and prints `listening` once all run. The
/// status is 3 where a poll, a waker, a registration or a thread cannot be made, and 4 where memory is refused while
/// starting; workers that had started are stopped, and nothing is printed. With `stop_at_input_end` the first thread
/// then reads the input to its end and stops the workers: the status is 0, or 2 where a read failed. A worker that is
/// stopped shuts its clients, and its pass is taken back. Then the desk is closed, and for each worker a line is
/// printed: `worker W: N events`, or `worker W: full` for 18446744073709551615 and more. Without `stop_at_input_end`
/// the workers run until the program is killed. A print that fails is ignored. The words that clients choose are hashed
/// by the seed that everybody knows. The gate is told what the workers do, for tests. There are 1 to 64 workers. The
/// contract says of all this no more than which statuses there are.
pub fn run_server<R: Threads + Wait + Net + Sync, I: Read, O: Write, G: Gate + Sync>(
    rt: &R,
    alloc: Global,
    settings: Settings,
    workers: u32,
    stop_at_input_end: bool,
    accounts: AccountBook,
    listener: TcpListener,
    input: &mut I,
    output: &mut O,
    gate: &G,
) -> u8
    requires { (1 ≤ workers) × (workers ≤ WORKERS) }
    ensures { IsEnd result }
{
    let service = Service {
        settings,
        workers,
        stop_at_input_end,
        proxies: Proxies::new(),
        accounts,
        seed: HashSeed::known(),
    };
    run_service(rt, alloc, service, listener, input, output, gate)
}

/// Runs a server as [`run_server`] does, where fronts may connect: a connection from one of them begins with its line,
/// and its client is opened with the address that the line gives.
pub fn run_service<R: Threads + Wait + Net + Sync, I: Read, O: Write, G: Gate + Sync>(
    rt: &R,
    alloc: Global,
    service: Service,
    listener: TcpListener,
    input: &mut I,
    output: &mut O,
    gate: &G,
) -> u8
    requires { (1 ≤ service.workers) × (service.workers ≤ WORKERS) }
    ensures { IsEnd result }
{
    match serve_until_end(rt, alloc, service, listener, input, output, gate) {
        Ok(()) => 0,
        Err(error) => error.status(),
    }
}

fn serve_until_end<R: Threads + Wait + Net + Sync, I: Read, O: Write, G: Gate + Sync>(
    rt: &R,
    alloc: Global,
    service: Service,
    listener: TcpListener,
    input: &mut I,
    output: &mut O,
    gate: &G,
) -> Result<(), ServerError> {
    let Service {
        settings,
        workers,
        stop_at_input_end,
        proxies,
        accounts,
        seed,
    } = service;
    let keep_events = gate.wants_events();
    let (desk, pass) = open_desk(rt, alloc, settings, accounts, seed, keep_events)?;
    let mut handles = Handles::new(alloc, proxies)?;
    handles.keep_events = keep_events;
    let ended = match new_workers(rt, alloc, &desk, pass, workers, listener, &mut handles) {
        Ok((first, others)) => {
            let shared = Shared {
                desk: &desk,
                inboxes: &handles.inboxes,
                wakers: &handles.wakers,
                stop: &handles.stop,
                reserve: &handles.reserve,
                gate,
            };
            let streams = Streams {
                input: &mut *input,
                stop_at_input_end,
                output: &mut *output,
            };
            run_workers(rt, alloc, &shared, first, others, streams)
        }
        Err(error) => Err(error),
    };
    drop(handles);
    match ended {
        Ok(Ended { pass, reason }) => {
            close(rt, desk, pass, reason, output, gate);
            reason
        }
        Err(error) => {
            drop(desk);
            Err(error)
        }
    }
}

/// Closes a desk, and where its server was stopped by its input says what each worker did.
fn close<R: Wait, O: Write, G: Gate>(
    rt: &R,
    desk: Desk,
    pass: Pass,
    reason: Result<(), ServerError>,
    output: &mut O,
    gate: &G,
)
    requires { (pass.desk ≡ desk) × (pass.worker.number ≡ 0) }
{
    match desk.close(rt, pass) {
        Ok(closing) => {
            if reason != Err(ServerError::Listener) {
                tell_counts(&closing, output, gate);
            }
            drop(closing);
        }
        Err((desk, pass, _)) => {
            drop(pass);
            drop(desk);
        }
    }
}

/// Says how many events each worker made, in rising order. A print that fails is ignored.
fn tell_counts<O: Write, G: Gate>(closing: &Closing, output: &mut O, gate: &G) {
    for worker in 0..WORKERS {
        let events = match closing.events(worker) {
            Count::Made(events) => {
                let _ = writeln!(output, "worker {worker}: {events} events");
                Some(events)
            }
            Count::Full => {
                let _ = writeln!(output, "worker {worker}: full");
                None
            }
            Count::Never => continue,
        };
        gate.tell(Happening::Stopped { worker, events });
    }
    let _ = output.flush();
}

/// Says that the server listens. A print that fails is ignored.
fn announce<O: Write>(output: &mut O) {
    let _ = output.write_all(b"listening\n");
    let _ = output.flush();
}

/// Runs the workers until the input ends, where that stops the server. Fails only where memory is refused, and
/// then none was started.
fn run_workers<R: Threads + Wait + Sync, I: Read, O: Write, G: Gate + Sync>(
    rt: &R,
    alloc: Global,
    shared: &Shared<'_, G>,
    first: NewWorker,
    others: Vec<NewWorker>,
    streams: Streams<'_, I, O>,
) -> Result<Ended, ServerError>
    requires first { (first.pass.desk ≡ shared.now.desk.now) × (first.pass.worker.number ≡ 0) }
    requires others { All (λ worker. worker.pass.desk ≡ shared.now.desk.now) others.items }
    ensures { IfOk result (λ ended. (ended.pass.desk ≡ shared.now.desk.now) × (ended.pass.worker.number ≡ 0)) }
{
    let Ok(threads) = Vec::with_capacity(alloc, others.len()) else {
        drop(first);
        drop(others);
        return Err(ServerError::Memory);
    };
    let ended = thread::scope(
        thread::scope_env(),
        rt,
        move |scope| -> Ended
            requires { (first.pass.desk ≡ shared.now.desk.now) × (first.pass.worker.number ≡ 0)
                × All (λ worker. worker.pass.desk ≡ shared.now.desk.now) others.items × (threads.items ≡ [])
                × (vec_len others ≤ vec_capacity threads) }
            ensures { (result.pass.desk ≡ shared.entry.now.desk.now) × (result.pass.worker.number ≡ 0) }
        { run_threads(scope, rt, alloc, shared, first, others, threads, streams) },
    );
    Ok(ended)
}

/// Runs the workers in threads of a scope. There is room for the threads of all.
fn run_threads<'s, 'e, R: Threads + Wait + Sync, I: Read, O: Write, G: Gate + Sync>(
    scope: &Scope<'s, &'e ()>,
    rt: &'e R,
    alloc: Global,
    shared: &'e Shared<'e, G>,
    first: NewWorker,
    others: Vec<NewWorker>,
    threads: Vec<WorkerThread>,
    streams: Streams<'_, I, O>,
) -> Ended
    requires first { (first.pass.desk ≡ shared.now.desk.now) × (first.pass.worker.number ≡ 0) }
    requires others { All (λ worker. worker.pass.desk ≡ shared.now.desk.now) others.items }
    requires none { threads.items ≡ [] }
    requires room { vec_len others ≤ vec_capacity threads }
    ensures { (result.pass.desk ≡ shared.now.desk.now) × (result.pass.worker.number ≡ 0) }
{
    let Streams {
        input,
        stop_at_input_end,
        output,
    } = streams;
    let NewWorker { listener, pass } = first;
    let (pass, threads) = start_all(scope, rt, alloc, shared, pass, others, threads);
    let first = start(scope, rt, alloc, shared, NewWorker { listener, pass });
    let reason = announce_until_end(shared, input, stop_at_input_end, output);
    let pass = match first {
        Ok(thread) => thread.join(rt),
        Err(pass) => pass,
    };
    let pass = take_back(rt, shared.desk, pass, threads);
    Ended { pass, reason }
}

/// Says that the server listens, waits until the input ends, where that stops the server, and then stops the workers.
/// Says nothing and does not wait where a worker got no thread.
fn announce_until_end<I: Read, O: Write, G: Gate>(
    shared: &Shared<'_, G>,
    input: &mut I,
    stop_at_input_end: bool,
    output: &mut O,
) -> Result<(), ServerError> {
    if shared.is_stopped() {
        return Err(ServerError::Listener);
    }
    shared.gate.listening();
    announce(output);
    if !stop_at_input_end {
        // The workers run until the program is killed.
        return Ok(());
    }
    let reason = read_to_end(input);
    shared.stop_all();
    reason
}

/// Starts a worker's thread. Where none can be made all workers are stopped, and what the thread would
/// do is done here, which then ends at once and gives the pass back. The thread captures references and no `Shared`:
/// of a captured struct that holds references nothing is known in a promise.
fn start<'s, 'e, R: Wait + Sync, G: Gate + Sync>(
    scope: &Scope<'s, &'e ()>,
    rt: &'e R,
    alloc: Global,
    shared: &Shared<'e, G>,
    worker: NewWorker,
) -> Result<WorkerThread, Pass>
    requires { worker.pass.desk ≡ shared.now.desk.now }
    ensures desk { IfOk result (λ thread. thread.promise.0.value.desk ≡ shared.now.desk.now) }
    ensures number { IfOk result (λ thread. thread.promise.0.value.worker.number ≡ worker.pass.worker.number) }
    ensures back { IfErr result (λ pass. (pass.desk ≡ shared.now.desk.now)
        × (pass.worker.number ≡ worker.pass.worker.number)) }
{
    let promise = SamePass(Snapshot::of(&worker.pass));
    let NewWorker { listener, pass } = worker;
    let (desk, inboxes, wakers) = (shared.desk, shared.inboxes, shared.wakers);
    let (stop, reserve, gate) = (shared.stop, shared.reserve, shared.gate);
    let work = move || {
        run_worker(
            rt, alloc, desk, pass, listener, inboxes, wakers, stop, reserve, gate,
        )
    };
    match scope.spawn_with(promise, work) {
        Ok(thread) => Ok(thread),
        Err(refused) => {
            shared.stop_all();
            Err((refused.value)())
        }
    }
}

/// Starts the workers' threads one after another. The passes of those that got none are taken back.
fn start_all<'s, 'e, R: Wait + Sync, G: Gate + Sync>(
    scope: &Scope<'s, &'e ()>,
    rt: &'e R,
    alloc: Global,
    shared: &'e Shared<'e, G>,
    pass: Pass,
    workers: Vec<NewWorker>,
    threads: Vec<WorkerThread>,
) -> (Pass, Vec<WorkerThread>)
    requires pass { (pass.desk ≡ shared.now.desk.now) × (pass.worker.number ≡ 0) }
    requires workers { All (λ worker. worker.pass.desk ≡ shared.now.desk.now) workers.items }
    requires none { threads.items ≡ [] }
    requires room { vec_len workers ≤ vec_capacity threads }
    ensures pass { (result.0.desk ≡ shared.now.desk.now) × (result.0.worker.number ≡ 0) }
    ensures threads { All (λ thread. thread.promise.0.value.desk ≡ shared.now.desk.now) result.1.items }
{
    let mut pass = pass;
    let mut workers = workers;
    let mut threads = threads;
    while let Some(worker) = workers.pop() {
        match start(scope, rt, alloc, shared, worker) {
            Ok(thread) => threads.push_reserved(thread),
            Err(ended) => pass = shared.desk.take_back(pass, ended),
        }
    }
    (pass, threads)
}

/// Waits for all workers but the first, and takes their passes back.
fn take_back<R: Threads>(rt: &R, desk: &Desk, pass: Pass, threads: Vec<WorkerThread>) -> Pass
    requires pass { (pass.desk ≡ desk.now) × (pass.worker.number ≡ 0) }
    requires threads { All (λ thread. thread.promise.0.value.desk ≡ desk.now) threads.items }
    ensures { (result.desk ≡ desk.now) × (result.worker.number ≡ 0) }
{
    let mut pass = pass;
    let mut threads = threads;
    while let Some(thread) = threads.pop() {
        pass = desk.take_back(pass, thread.join(rt));
    }
    pass
}

/// Reads an input to its end.
fn read_to_end<I: Read>(input: &mut I) -> Result<(), ServerError> {
    let mut piece = [0u8; 4_096];
    for _ in 0..u64::MAX {
        match input.read(&mut piece) {
            Ok(0) => return Ok(()),
            Ok(_) => {}
            Err(error) if error.kind() == ErrorKind::Interrupted => {}
            Err(_) => return Err(ServerError::Input),
        }
    }
    Err(ServerError::Input)
}
