//! A worker: it waits for news of its connections, and gives turns to those that may have some.

ghost use Rattle.std.specs.Prelude.{◌≡◌, ◌≤◌, []};
ghost use Rattle.lobby_connections.specs.Attended.{IsAttended, KeepsAttended};
ghost use Rattle.lobby_connections.specs.Told.{keys_of, told};

use crate::acceptor::Acceptor;
use crate::error::ListenError;
use crate::inboxes::{Arrival, Inboxes};
use crate::leaving::renew_reserve;
use crate::reserve::Reserve;
use crate::stopping::{Step, step_all};
use crate::turns::{self, Shared};
use lobby_connections::{Connections, Lookout, Newcomers, PollTimeout, Together, Wakers};
use lobby_lock::{Desk, Pass};
use lobby_turns::Gate;
use mio::event::Event;
use mio::net::TcpListener;
use mio::{Events, Interest, Poll, Token, Waker};
use proxy_line::Proxies;
use std::alloc::Global;
use std::net::Net;
use std::sync::Wait;
use std::sync::atomic::AtomicBool;

/// The token of a worker's waker. Connections have the keys of their table, far below.
const WAKER: Token = Token(usize::MAX);

/// The token of the listener.
const LISTENER: Token = Token(usize::MAX - 1);

/// The most events that one poll tells. With fewer a busy worker would ask the system more often; what a poll has no
/// room for the next one tells, and more would make the buffer of a quiet worker larger, which has room for them all
/// the while.
const EVENTS: usize = 1_024;

/// The most rounds of a worker that was told to stop, with a pause between two: three seconds, in which a client that
/// is far away and was told twice that its connection ends has ended it too. Who does not read, or does not end, holds
/// a stop up no longer.
const LAST_ROUNDS: u32 = 150;

/// The milliseconds of a pause.
const PAUSE: u64 = 20;

/// What a worker listens with: where it waits for news, from where fronts connect, and at one worker the server's
/// listener.
#[derive(Drop)]
pub struct WorkerListener {
    lookout: Lookout,
    listener: Option<TcpListener>,
    proxies: Proxies,
}

/// What a worker works with: what it listens with, and its connections.
#[derive(Drop)]
struct WorkerLoop {
    lookout: Lookout,
    acceptor: Acceptor,
    // from where fronts connect
    proxies: Proxies,
    newcomers: Newcomers,
    connections: Connections,
}

/// Whether the worker was woken, or called while it was at work, and what a poll told of the listener.
#[derive(Clone, Copy)]
struct Readiness {
    woken: bool,
    listener: bool,
}

impl WorkerListener {
    /// What the next worker listens with, and its waker. Fails where memory is refused, or the system makes no poll or
    /// waker or does not register the listener.
    pub fn new<R: Net>(
        rt: &R,
        alloc: Global,
        listener: Option<TcpListener>,
    ) -> Result<(WorkerListener, Waker), ListenError> {
        let Ok(events) = Events::with_capacity(alloc, EVENTS) else {
            drop(listener);
            return Err(ListenError::Memory);
        };
        let Ok(pause) = Poll::new(rt) else {
            drop(events);
            drop(listener);
            return Err(ListenError::System);
        };
        let mut listener = listener;
        match new_poll(rt, &mut listener) {
            Ok((poll, waker)) => {
                let listener = WorkerListener {
                    lookout: Lookout::new(poll, pause, events),
                    listener,
                    proxies: Proxies::new(),
                };
                Ok((listener, waker))
            }
            Err(error) => {
                drop(events);
                drop(pause);
                drop(listener);
                Err(error)
            }
        }
    }

    /// The same, where fronts connect from these addresses: a connection from one of them begins with its line.
    pub fn behind(self, proxies: Proxies) -> WorkerListener {
        let mut listener = self;
        listener.proxies = proxies;
        listener
    }
}

impl WorkerLoop {
    /// Without a connection yet.
    fn new(alloc: Global, listener: WorkerListener) -> WorkerLoop
        ensures { IsAttended result.connections [] }
    {
        let WorkerListener {
            lookout,
            listener,
            proxies,
        } = listener;
        WorkerLoop {
            lookout,
            acceptor: Acceptor::new(listener),
            proxies,
            newcomers: Newcomers::new(alloc),
            connections: Connections::new(alloc),
        }
    }

    /// Takes the connections out of the inbox.
    fn look_into_inbox<R: Wait, G: Gate>(
        &mut self,
        rt: &R,
        shared: &Shared<'_, G>,
        pass: Pass,
    ) -> Pass
        requires { pass.desk ≡ shared.now.desk.now }
        ensures desk { result.desk ≡ pass.desk }
        ensures number { result.worker.number ≡ pass.worker.number }
        ensures attended { KeepsAttended self.old.connections self.new.connections }
        ensures lookout { told self.new.lookout ≡ told self.old.lookout }
    {
        let worker = pass.number();
        let mut pass = pass;
        for _ in 0..EVENTS {
            let Some(arrival) = shared.inboxes.next_arrival(rt, worker) else {
                return pass;
            };
            pass = self.receive(rt, shared, pass, arrival);
        }
        pass
    }

    /// Takes a connection: at once, or behind a front once its line is whole.
    fn receive<R: Wait, G: Gate>(
        &mut self,
        rt: &R,
        shared: &Shared<'_, G>,
        pass: Pass,
        arrival: Arrival,
    ) -> Pass
        requires { pass.desk ≡ shared.now.desk.now }
        ensures desk { result.desk ≡ pass.desk }
        ensures number { result.worker.number ≡ pass.worker.number }
        ensures attended { KeepsAttended self.old.connections self.new.connections }
        ensures lookout { told self.new.lookout ≡ told self.old.lookout }
    {
        let registry = self.lookout.registry();
        let connections = &mut self.connections;
        if !self.proxies.has(arrival.ip) {
            return turns::adopt(rt, shared, pass, connections, registry, arrival);
        }
        let Arrival { stream, ip } = arrival;
        let fronted = self.newcomers.begin(registry, stream, ip);
        turns::adopt_fronted(rt, shared, pass, connections, registry, fronted)
    }

    /// Gives turns to those of whom the last poll told, takes connections whose line is whole, and lets go what came
    /// for those who linger.
    fn turn_ready<R: Wait, G: Gate>(&mut self, rt: &R, shared: &Shared<'_, G>, pass: Pass) -> Pass
        requires { pass.desk ≡ shared.now.desk.now }
        ensures desk { result.desk ≡ pass.desk }
        ensures number { result.worker.number ≡ pass.worker.number }
        ensures attended { IsAttended self.old.connections (keys_of (told self.old.lookout))
            → IsAttended self.new.connections [] }
    {
        let registry = self.lookout.registry();
        let connections = &mut self.connections;
        let newcomers = &mut self.newcomers;
        let events = self.lookout.told();
        let mut pass = pass;
        let mut together = Together::new();
        for event in events {
            let token = event.token();
            pass = turns::join_told(
                rt,
                shared,
                pass,
                connections,
                newcomers,
                registry,
                token,
                &mut together,
            );
        }
        turns::turn_together(rt, shared, pass, connections, registry, &mut together)
    }

    /// A round begins, while so many workers tell much. Where the poll before it was not made, the next one waits no
    /// longer than a little.
    fn begin_round(&mut self, tellers: u64, is_polled: bool)
        requires { 1 ≤ tellers }
        ensures attended { KeepsAttended self.old.connections self.new.connections }
        ensures lookout { told self.new.lookout ≡ told self.old.lookout }
    {
        self.connections.begin_round(tellers);
        if !is_polled {
            self.connections.hurry(PollTimeout::Short);
        }
    }

    /// Accepts connections where the poll told of the listener, and takes those in that wait in the inbox, and the
    /// names of changed clients, where the worker was woken.
    fn take_in<R: Wait, G: Gate>(
        &mut self,
        rt: &R,
        shared: &Shared<'_, G>,
        pass: Pass,
        readiness: Readiness,
    ) -> Pass
        requires { pass.desk ≡ shared.now.desk.now }
        ensures desk { result.desk ≡ pass.desk }
        ensures number { result.worker.number ≡ pass.worker.number }
        ensures attended { KeepsAttended self.old.connections self.new.connections }
        ensures lookout { told self.new.lookout ≡ told self.old.lookout }
    {
        let timeout = self.acceptor.accept(rt, shared, readiness.listener);
        self.connections.hurry(timeout);
        if !readiness.woken {
            return pass;
        }
        let pass = self.look_into_inbox(rt, shared, pass);
        turns::take_names(rt, shared, pass, &mut self.connections)
    }

    /// Waits for news and goes round once.
    fn go_round<R: Wait, G: Gate>(&mut self, rt: &R, shared: &Shared<'_, G>, pass: Pass) -> Pass
        requires desk { pass.desk ≡ shared.now.desk.now }
        requires attended { IsAttended self.old.connections [] }
        ensures desk { result.desk ≡ pass.desk }
        ensures number { result.worker.number ≡ pass.worker.number }
        ensures attended { IsAttended self.new.connections [] }
    {
        let pass = turns::look_for_own(rt, shared, pass, &mut self.connections);
        let worker = pass.number();
        let waited = self
            .connections
            .wait(&mut self.lookout, shared.wakers, worker);
        let readiness = readiness_of(self.lookout.told(), waited.is_called);
        if readiness.woken {
            shared.gate.woken(worker);
        }
        self.begin_round(shared.wakers.tellers(worker), waited.is_polled);
        let pass = self.take_in(rt, shared, pass, readiness);
        let pass = self.turn_ready(rt, shared, pass);
        let registry = self.lookout.registry();
        let connections = &mut self.connections;
        let pass = turns::turn_named(rt, shared, pass, connections, registry);
        let pass = turns::turn_left(rt, shared, pass, connections, registry);
        renew_reserve(shared, connections);
        shared.wakers.show_telling(worker, connections.tells_much());
        pass
    }

    /// Ends all connections in order. Nobody is accepted and no client is read any more, and the reserve of memory is
    /// let go. Each is sent what waits for it, is shut, and its connection lingers until its other side has ended, in
    /// so many rounds at most. Who was not sent all by then is shut too.
    fn wind_up<R: Wait, G: Gate>(&mut self, rt: &R, shared: &Shared<'_, G>, pass: Pass) -> Pass
        requires { pass.desk ≡ shared.now.desk.now }
        ensures desk { result.desk ≡ pass.desk }
        ensures number { result.worker.number ≡ pass.worker.number }
    {
        self.acceptor.stop();
        shared.reserve.give_up();
        let mut pass = pass;
        for _ in 0..LAST_ROUNDS {
            pass = step_all(rt, shared, pass, &mut self.connections, Step::Send);
            pass = step_all(rt, shared, pass, &mut self.connections, Step::ShutTold);
            if !self.connections.let_all_go() && self.connections.len() == 0 {
                return pass;
            }
            self.lookout.pause(PAUSE);
        }
        step_all(rt, shared, pass, &mut self.connections, Step::Shut)
    }
}

/// What a poll told of the waker and of the listener, where another worker called this one or not.
fn readiness_of(events: &[Event], is_called: bool) -> Readiness {
    let mut readiness = Readiness {
        woken: is_called,
        listener: false,
    };
    for event in events {
        readiness.woken |= event.token() == WAKER;
        readiness.listener |= event.token() == LISTENER;
    }
    readiness
}

/// A poll with a waker, which tells of the listener too.
fn new_poll<R: Net>(
    rt: &R,
    listener: &mut Option<TcpListener>,
) -> Result<(Poll, Waker), ListenError> {
    let Ok(poll) = Poll::new(rt) else {
        return Err(ListenError::System);
    };
    match register(&poll, listener) {
        Ok(waker) => Ok((poll, waker)),
        Err(error) => {
            drop(poll);
            Err(error)
        }
    }
}

/// Registers a new waker, and the listener where there is one.
fn register(poll: &Poll, listener: &mut Option<TcpListener>) -> Result<Waker, ListenError> {
    let Ok(waker) = Waker::new(poll.registry(), WAKER) else {
        return Err(ListenError::System);
    };
    if let Some(listener) = listener
        && poll
            .registry()
            .register(listener, LISTENER, Interest::READABLE)
            .is_err()
    {
        drop(waker);
        return Err(ListenError::System);
    }
    Ok(waker)
}

/// Serves connections until the workers are told to stop, then ends them in order, and gives the pass back. It waits
/// for news, at the desk, and at a stop a few seconds at most for its clients, and else nowhere.
///
/// What it listens with is made before, since its waker belongs to its poll. `inboxes` and `wakers` are
/// those of all workers.
pub fn run_worker<R: Wait, G: Gate>(
    rt: &R,
    alloc: Global,
    desk: &Desk,
    pass: Pass,
    listener: WorkerListener,
    inboxes: &Inboxes,
    wakers: &Wakers,
    stop: &AtomicBool,
    reserve: &Reserve,
    gate: &G,
) -> Pass
    requires { pass.desk ≡ desk.now }
    ensures desk { result.desk ≡ pass.desk }
    ensures number { result.worker.number ≡ pass.worker.number }
{
    let shared = Shared {
        desk,
        inboxes,
        wakers,
        stop,
        reserve,
        gate,
    };
    let worker = WorkerLoop::new(alloc, listener);
    go_round_until_stopped(rt, &shared, worker, pass)
}

fn go_round_until_stopped<R: Wait, G: Gate>(
    rt: &R,
    shared: &Shared<'_, G>,
    worker_loop: WorkerLoop,
    pass: Pass,
) -> Pass
    requires attended { IsAttended worker_loop.connections [] }
    requires desk { pass.desk ≡ shared.now.desk.now }
    ensures desk { result.desk ≡ pass.desk }
    ensures number { result.worker.number ≡ pass.worker.number }
{
    let mut worker_loop = worker_loop;
    let mut pass = pass;
    for _ in rt.forever() {
        if shared.is_stopped() {
            break;
        }
        pass = worker_loop.go_round(rt, shared, pass);
    }
    let pass = worker_loop.wind_up(rt, shared, pass);
    drop(worker_loop);
    pass
}
