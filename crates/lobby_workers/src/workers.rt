//! The workers of a server before they start.

ghost use Rattle.std.specs.Prelude.{◌≡◌, IfOk, OnOk};
ghost use Rattle.std.specs.List.{All};

use crate::error::ServerError;
use account_book::AccountBook;
use lobby_lock::{Desk, DeskError, Pass};
use lobby_machine::{HashSeed, Lobby};
use lobby_model::Settings;
use mio::Waker;
use mio::net::TcpListener;
use proxy_line::Proxies;
use std::alloc::{AllocError, Global};
use std::net::Net;
use std::sync::Wait;
use std::sync::atomic::AtomicBool;
use worker_loop::{Inboxes, Reserve, Wakers, WorkerListener};

/// How the workers of a server are reached, whether they are to end, and from where fronts connect.
#[derive(Drop)]
pub struct Handles {
    /// Where connections wait for them.
    pub inboxes: Inboxes,
    /// How they are woken.
    pub wakers: Wakers,
    /// Whether all of them are to end.
    pub stop: AtomicBool,
    /// What they keep for log outs where memory is short.
    pub reserve: Reserve,
    /// From where fronts connect.
    pub proxies: Proxies,
    /// Whether they tell the gate what they make.
    pub keep_events: bool,
}

impl Handles {
    /// No worker yet. Fails only where memory is refused.
    pub fn new(alloc: Global, proxies: Proxies) -> Result<Handles, AllocError> {
        let reserve = Reserve::new(alloc)?;
        Ok(Handles {
            inboxes: Inboxes::new(alloc),
            wakers: Wakers::new(alloc),
            stop: AtomicBool::new(false),
            reserve,
            proxies,
            keep_events: false,
        })
    }

    /// The next worker gets its inbox, and is woken by this waker. Fails only where memory is refused.
    fn join(&mut self, alloc: Global, waker: Waker) -> Result<(), AllocError> {
        self.inboxes.add(alloc)?;
        self.wakers.add(waker)
    }
}

/// A worker before it starts.
#[derive(Drop)]
pub struct NewWorker {
    /// What it listens with.
    pub listener: WorkerListener,
    /// By which it takes the lobby.
    pub pass: Pass,
}

/// A desk with a new lobby, which hashes the words that clients choose by this seed, and worker 0's pass, which keeps
/// the events of its holds only if it is told to.
pub fn open_desk<R: Wait>(
    rt: &R,
    alloc: Global,
    settings: Settings,
    accounts: AccountBook,
    seed: HashSeed,
    keep_events: bool,
) -> Result<(Desk, Pass), ServerError>
    ensures { IfOk result (λ r. (r.1.desk ≡ r.0) × (r.1.worker.number ≡ 0)) }
{
    let lobby = Lobby::with_seed(alloc, settings, accounts, seed)?;
    match Desk::open(rt, alloc, lobby) {
        Ok((desk, mut pass)) => {
            if keep_events && pass.keep_events(alloc).is_err() {
                drop(pass);
                drop(desk);
                return Err(ServerError::Memory);
            }
            Ok((desk, pass))
        }
        Err(_) => Err(ServerError::Memory),
    }
}

/// What the next worker listens with. It joins those that are reached by their handles.
fn new_listener<R: Net>(
    rt: &R,
    alloc: Global,
    handles: &mut Handles,
    listener: Option<TcpListener>,
) -> Result<WorkerListener, ServerError> {
    match WorkerListener::new(rt, alloc, listener) {
        Ok((listener, waker)) => match handles.join(alloc, waker) {
            Ok(()) => Ok(listener.behind(handles.proxies)),
            Err(_) => {
                drop(listener);
                Err(ServerError::Memory)
            }
        },
        Err(error) => Err(error.into()),
    }
}

/// All workers. The first has the listener.
pub fn new_workers<R: Net>(
    rt: &R,
    alloc: Global,
    desk: &Desk,
    pass: Pass,
    count: u32,
    listener: TcpListener,
    handles: &mut Handles,
) -> Result<(NewWorker, Vec<NewWorker>), ServerError>
    requires { (pass.desk ≡ desk.now) × (pass.worker.number ≡ 0) }
    ensures first { IfOk result (λ r. (r.0.pass.desk ≡ desk.now) × (r.0.pass.worker.number ≡ 0)) }
    ensures others { IfOk result (λ r. All (λ worker. worker.pass.desk ≡ desk.now) r.1.items) }
{
    let listener = match new_listener(rt, alloc, handles, Some(listener)) {
        Ok(listener) => listener,
        Err(error) => {
            drop(pass);
            return Err(error);
        }
    };
    let mut others = Vec::new(alloc);
    match add_workers(rt, alloc, desk, pass, count, handles, &mut others) {
        Ok(pass) => Ok((NewWorker { listener, pass }, others)),
        Err(error) => {
            drop(listener);
            drop(others);
            Err(error)
        }
    }
}

/// Adds all workers but the first, whose pass comes back.
fn add_workers<R: Net>(
    rt: &R,
    alloc: Global,
    desk: &Desk,
    pass: Pass,
    count: u32,
    handles: &mut Handles,
    workers: &mut Vec<NewWorker>,
) -> Result<Pass, ServerError>
    requires pass { (pass.desk ≡ desk.now) × (pass.worker.number ≡ 0) }
    requires workers { All (λ worker. worker.pass.desk ≡ desk.now) workers.old.items }
    ensures pass { IfOk result (λ mine. (mine.desk ≡ desk.now) × (mine.worker.number ≡ 0)) }
    ensures workers { OnOk result (All (λ worker. worker.pass.desk ≡ desk.now) workers.new.items) }
{
    let mut pass = pass;
    for _ in 1..count {
        let (mine, worker) = next_worker(rt, alloc, desk, pass, handles)?;
        pass = mine;
        match workers.push(worker) {
            Ok(()) => {}
            Err(failed) => {
                drop(failed);
                drop(pass);
                return Err(ServerError::Memory);
            }
        }
    }
    Ok(pass)
}

/// The next worker, and the first worker's pass.
fn next_worker<R: Net>(
    rt: &R,
    alloc: Global,
    desk: &Desk,
    pass: Pass,
    handles: &mut Handles,
) -> Result<(Pass, NewWorker), ServerError>
    requires { (pass.desk ≡ desk.now) × (pass.worker.number ≡ 0) }
    ensures mine { IfOk result (λ r. (r.0.desk ≡ desk.now) × (r.0.worker.number ≡ 0)) }
    ensures worker { IfOk result (λ r. r.1.pass.desk ≡ desk.now) }
{
    let listener = match new_listener(rt, alloc, handles, None) {
        Ok(listener) => listener,
        Err(error) => {
            drop(pass);
            return Err(error);
        }
    };
    match hand_out(desk, alloc, pass, handles.keep_events) {
        Ok((mine, other)) => {
            let worker = NewWorker {
                listener,
                pass: other,
            };
            Ok((mine, worker))
        }
        Err(error) => {
            drop(listener);
            Err(error)
        }
    }
}

fn hand_out(
    desk: &Desk,
    alloc: Global,
    pass: Pass,
    keep_events: bool,
) -> Result<(Pass, Pass), ServerError>
    requires { (pass.desk ≡ desk.now) × (pass.worker.number ≡ 0) }
    ensures mine { IfOk result (λ r. (r.0.desk ≡ desk.now) × (r.0.worker.number ≡ 0)) }
    ensures other { IfOk result (λ r. r.1.desk ≡ desk.now) }
{
    match desk.hand_out(alloc, pass) {
        Ok((mine, mut other)) => {
            if keep_events && other.keep_events(alloc).is_err() {
                drop(other);
                drop(mine);
                return Err(ServerError::Memory);
            }
            Ok((mine, other))
        }
        Err((pass, error)) => {
            drop(pass);
            match error {
                DeskError::Memory => Err(ServerError::Memory),
                // There are 64 workers at most.
                DeskError::TooManyWorkers => Err(ServerError::Listener),
            }
        }
    }
}
