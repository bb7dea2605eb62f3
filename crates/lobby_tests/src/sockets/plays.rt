//! Plays: what clients do at a server that runs beside them, as tables of steps. So a test is a table, which costs
//! little to prove.

ghost use Rattle.std.specs.Prelude.{◌≡◌, ◌≤◌, IfSome};

use crate::sockets::clients::Client;
use crate::sockets::disks::{Disk, Room};
use crate::sockets::gates::{Hold, Watch, is_set_soon};
use crate::sockets::running::{
    ANNA, BERT, Input, PATIENCE, Service, Told, crowd_service, listen, run, run_recorded,
    users_service,
};
use crate::verdict::{fail, same};
use mio::net::TcpListener;
use std::alloc::{AllocError, Global};
use std::mem;
use std::net::{self, Net, SocketAddr};
use std::process::Abort;
use std::sync::Wait;
use std::sync::atomic::{AtomicBool, Ordering};
use std::thread::{self, Threads};
use test_lobby::{
    ANNA_IS_IN, ANNA_LOGS_IN, BERT_COMES, BERT_IS_IN, BERT_LOGS_IN, CROWD_COMES_IN, GREETING,
    crowd_name,
};

/// A step of a play. The test fails where a step does not come out as it says, or not within so many looks. Numbers are
/// given to clients in order, from 0, and given again: a number stands for the last client that connected under it.
#[derive(Clone, Copy)]
pub enum Step {
    /// A client connects, and does not wait for it.
    Connects(usize),
    /// A client connects and is greeted.
    Enters(usize),
    /// A client sends these bytes, and reads nothing meanwhile.
    Sends(usize, &'static [u8]),
    /// A client sends these bytes so many times over, and reads nothing meanwhile.
    SendsOften(usize, &'static [u8], usize),
    /// Exactly these bytes come next.
    Reads(usize, &'static [u8]),
    /// Exactly these bytes come next, so many times over.
    ReadsOften(usize, &'static [u8], usize),
    /// One line comes so many times next, and another one once among them.
    ReadsAmong(usize, &'static [u8], usize, &'static [u8]),
    /// A client ends what it sends, and goes on reading.
    Finishes(usize),
    /// A client is gone. What came and was not read makes the system send a reset and no end.
    BreaksOff(usize),
    /// The server closes a client's connection, on which no more bytes come.
    Ends(usize),
    /// The server closes a client's connection, whatever bytes come before that.
    IsClosed(usize),
    /// The server breaks a client's connection off while these bytes, so many times over, are sent again and again.
    IsBrokenOff(usize, &'static [u8], usize),
    /// One more client connects, joins the crowd, and does not wait for it.
    JoinsCrowd,
    /// Each client of the crowd is greeted.
    CrowdIsGreeted,
    /// Each client of the crowd logs in and joins the channel `main`, one after another.
    CrowdComesIn,
    /// Each client of the crowd sends these bytes so many times over, and reads nothing meanwhile.
    CrowdSends(&'static [u8], usize),
    /// The gate is shut.
    GateShuts,
    /// Who the gate keeps comes there.
    IsKept,
    /// Who the gate keeps may go on, and was kept until now.
    GoesOn,
    /// A worker is kept behind a turn that told much.
    TurnIsKept,
    /// It may go on, and was kept until now.
    TurnGoesOn,
    /// Turns told so many bytes at most, behind the one that was kept and before the last answer to PING.
    ToldAtMost(u64),
    /// Each of two workers found the other at the gate.
    WorkersMet,
    /// Worker 1 was woken.
    SecondWasWoken,
    /// There were so many greetings, and the last one is this worker's.
    Greeted(u64, u8),
    /// The disk of the record takes what it is given from now on.
    DiskGoesOn,
    /// The server's input ends.
    InputEnds,
    /// The server has ended.
    ServerEnds,
}

/// Steps, and how often they are taken.
#[derive(Clone, Copy)]
pub struct Act {
    pub times: u32,
    pub steps: &'static [Step],
}

/// Anna logs in, and then Bert.
pub const BOTH_LOG_IN: Act = Act {
    times: 1,
    steps: &[
        Step::Enters(ANNA),
        Step::Sends(ANNA, ANNA_LOGS_IN),
        Step::Reads(ANNA, ANNA_IS_IN),
        Step::Enters(BERT),
        Step::Sends(BERT, BERT_LOGS_IN),
        Step::Reads(BERT, BERT_IS_IN),
        Step::Reads(ANNA, BERT_COMES),
    ],
};

/// How a server ends.
#[derive(Clone, Copy)]
pub struct Ending {
    /// For how many looks its input waits for its end, and fails then.
    pub looks: u32,
    pub status: u8,
}

const IN_GOOD_ORDER: Ending = Ending {
    looks: PATIENCE,
    status: 0,
};

/// What a server and those who play share.
#[derive(Drop)]
struct Stage {
    gate: Watch,
    /// Where its record lies, if it has one.
    disk: Option<Disk>,
    patience: u32,
    input_ends: AtomicBool,
    has_ended: AtomicBool,
}

/// The clients of a play.
#[derive(Drop)]
struct Cast<'a> {
    clock: HostRuntime,
    address: SocketAddr,
    stage: &'a Stage,
    clients: Vec<Option<Client>>,
    crowd: Vec<Client>,
}

impl Cast<'_> {
    /// Whether there is a client, which then has this number.
    fn takes_number(&mut self, who: usize, client: Option<Client>) -> bool {
        let is_there = client.is_some();
        match self.clients.get_mut(who) {
            Some(place) => {
                drop(mem::replace(place, client));
                is_there
            }
            None => self.clients.push(client).is_ok() && is_there,
        }
    }

    fn sends(&mut self, who: usize, bytes: &[u8]) -> bool {
        match self.clients.get_mut(who) {
            Some(Some(client)) => client.sends(&self.clock, bytes),
            _ => false,
        }
    }

    fn reads(&mut self, who: usize, bytes: &[u8]) -> bool {
        match self.clients.get_mut(who) {
            Some(Some(client)) => client.reads(&self.clock, bytes),
            _ => false,
        }
    }

    fn sends_often(&mut self, who: usize, bytes: &[u8], times: usize) -> bool {
        match times_over(self.clock.alloc(), bytes, times) {
            Ok(all) => self.sends(who, all.as_slice()),
            Err(AllocError) => false,
        }
    }

    fn reads_often(&mut self, who: usize, bytes: &[u8], times: usize) -> bool {
        match times_over(self.clock.alloc(), bytes, times) {
            Ok(all) => self.reads(who, all.as_slice()),
            Err(AllocError) => false,
        }
    }

    fn reads_among(&mut self, who: usize, line: &[u8], times: usize, other: &[u8]) -> bool {
        match self.clients.get_mut(who) {
            Some(Some(client)) => client.reads_among(&self.clock, line, times, other),
            _ => false,
        }
    }

    fn finishes(&mut self, who: usize) -> bool {
        match self.clients.get_mut(who) {
            Some(Some(client)) => client.finishes(),
            _ => false,
        }
    }

    fn breaks_off(&mut self, who: usize) -> bool {
        match self.clients.get_mut(who) {
            Some(place) => {
                drop(mem::replace(place, None));
                true
            }
            None => false,
        }
    }

    /// How many bytes come before the server closes a client's connection.
    fn ends(&mut self, who: usize) -> Option<usize> {
        match self.clients.get_mut(who) {
            Some(Some(client)) => client.ends(&self.clock),
            _ => None,
        }
    }

    fn is_broken_off(&mut self, who: usize, bytes: &[u8], times: usize) -> bool {
        match (
            self.clients.get_mut(who),
            times_over(self.clock.alloc(), bytes, times),
        ) {
            (Some(Some(client)), Ok(all)) => client.is_broken_off(&self.clock, all.as_slice()),
            _ => false,
        }
    }

    fn joins_crowd<R: Net>(&mut self, rt: &R) -> bool {
        match Client::connect(rt, self.address) {
            Some(client) => self.crowd.push(client).is_ok(),
            None => false,
        }
    }

    fn crowd_is_greeted(&mut self) -> bool {
        for client in &mut self.crowd {
            if !client.reads(&self.clock, GREETING) {
                return false;
            }
        }
        true
    }

    fn crowd_comes_in(&mut self) -> bool {
        let mut place = 0u8;
        for client in &mut self.crowd {
            let is_sent = client.sends(&self.clock, b"LOGIN ")
                && client.sends(&self.clock, &crowd_name(place))
                && client.sends(&self.clock, CROWD_COMES_IN);
            if !is_sent || !client.reads_up_to(&self.clock, b"#7 PONG\n") {
                return false;
            }
            place = place.saturating_add(1);
        }
        true
    }

    fn crowd_sends(&mut self, bytes: &[u8], times: usize) -> bool {
        let Ok(all) = times_over(self.clock.alloc(), bytes, times) else {
            return false;
        };
        for client in &mut self.crowd {
            if !client.sends(&self.clock, all.as_slice()) {
                return false;
            }
        }
        true
    }

    /// Whether a step comes out as it says.
    fn takes<R: Net>(&mut self, rt: &R, step: Step) -> bool {
        match step {
            Step::Connects(who) => self.takes_number(who, Client::connect(rt, self.address)),
            Step::Enters(who) => {
                self.takes_number(who, Client::connect(rt, self.address))
                    && self.reads(who, GREETING)
            }
            Step::Sends(who, bytes) => self.sends(who, bytes),
            Step::SendsOften(who, bytes, times) => self.sends_often(who, bytes, times),
            Step::Reads(who, bytes) => self.reads(who, bytes),
            Step::ReadsOften(who, bytes, times) => self.reads_often(who, bytes, times),
            Step::ReadsAmong(who, line, times, other) => self.reads_among(who, line, times, other),
            Step::Finishes(who) => self.finishes(who),
            Step::BreaksOff(who) => self.breaks_off(who),
            Step::Ends(who) => matches!(self.ends(who), Some(0)),
            Step::IsClosed(who) => self.ends(who).is_some(),
            Step::IsBrokenOff(who, bytes, times) => self.is_broken_off(who, bytes, times),
            Step::JoinsCrowd => self.joins_crowd(rt),
            Step::CrowdIsGreeted => self.crowd_is_greeted(),
            Step::CrowdComesIn => self.crowd_comes_in(),
            Step::CrowdSends(bytes, times) => self.crowd_sends(bytes, times),
            Step::GateShuts => self.stage.gate.shut(),
            Step::IsKept => self.stage.gate.is_reached(),
            Step::GoesOn => self.stage.gate.lets_go(),
            Step::TurnIsKept => self.stage.gate.is_turn_kept(),
            Step::TurnGoesOn => self.stage.gate.lets_turn_go(),
            Step::ToldAtMost(most) => self.stage.gate.has_told_at_most(most),
            Step::WorkersMet => self.stage.gate.did_meet(),
            Step::SecondWasWoken => self.stage.gate.was_woken(),
            Step::Greeted(greetings, worker) => self.stage.gate.is_greeter(greetings, worker),
            Step::DiskGoesOn => self.stage.lets_disk_go(),
            Step::InputEnds => self.stage.end_input(),
            Step::ServerEnds => self.stage.ends(&self.clock),
        }
    }

    /// Takes these steps, one after another. The number of the first one that does not come out as it says, counted
    /// from 1, or 0.
    fn takes_all<R: Net>(&mut self, rt: &R, steps: &[Step]) -> u64 {
        let mut number = 0u64;
        for step in steps {
            number = number.saturating_add(1);
            if !self.takes(rt, *step) {
                return number;
            }
        }
        0
    }

    /// Takes the steps of each act, lets the clients go, and then ends the server.
    fn play<R: Net + Abort>(&mut self, rt: &R, acts: &[Act]) {
        let mut number = 0u64;
        for Act { times, steps } in acts {
            number = number.saturating_add(1);
            for _ in 0..*times {
                let failed = self.takes_all(rt, *steps);
                assert!(rt; failed == 0, "act {number}, step {failed}");
            }
        }
        self.clients.clear();
        self.crowd.clear();
        let _ = self.stage.end_input();
        same(rt, self.stage.ends(&self.clock), true);
    }
}

/// A text so many times over.
fn times_over(alloc: Global, text: &[u8], times: usize) -> Result<Vec<u8>, AllocError> {
    let mut all = Vec::new(alloc);
    for _ in 0..times {
        all.extend_from_slice(text)?;
    }
    Ok(all)
}

impl Stage {
    fn new(clock: HostRuntime, hold: Hold, disk: Option<Disk>, patience: u32) -> Stage {
        Stage {
            gate: Watch::new(clock, hold),
            disk,
            patience,
            input_ends: AtomicBool::new(false),
            has_ended: AtomicBool::new(false),
        }
    }

    /// Ends the server's input, and answers that it did.
    fn end_input(&self) -> bool {
        self.input_ends.store(true, Ordering::SeqCst);
        true
    }

    /// Lets who writes the record go on. Whether there is one.
    fn lets_disk_go(&self) -> bool {
        match &self.disk {
            Some(disk) => disk.lets_go(),
            None => false,
        }
    }

    /// Whether the record ends by the line that is looked for.
    fn disk_ends_so(&self) -> bool {
        match &self.disk {
            Some(disk) => disk.ends_so(),
            None => false,
        }
    }

    /// Whether the server ends, within so many looks.
    fn ends(&self, clock: &HostRuntime) -> bool {
        is_set_soon(clock, &self.has_ended)
    }

    /// Runs a server here until its input ends.
    fn serve<R: Threads + Wait + Net + Sync>(
        &self,
        rt: &R,
        clock: HostRuntime,
        service: Service,
        listener: TcpListener,
    ) -> Told
        requires { (1 ≤ service.workers) × (service.workers ≤ 64) }
    {
        let input = Input {
            clock,
            flag: &self.input_ends,
            looks: self.patience,
        };
        self.gate.before_start();
        let told = match &self.disk {
            Some(disk) => run_recorded(rt, service, listener, input, &self.gate, disk),
            None => run(rt, service, listener, input, &self.gate),
        };
        self.has_ended.store(true, Ordering::SeqCst);
        told
    }
}

/// Plays these acts beside a server of so many workers, which ends in good order, and gives what it printed.
///
/// The types of the runtime's sockets are named: what a thread is given may rest on no others.
pub fn play<
    R: Threads + Wait + Net<Listener = net::TcpListener, Stream = net::TcpStream> + Abort + Sync,
>(rt: &R, clock: HostRuntime, workers: u32, hold: Hold, acts: &[Act]) -> Vec<u8>
    requires { (1 ≤ workers) × (workers ≤ 64) }
{
    play_to(rt, clock, workers, hold, acts, IN_GOOD_ORDER)
}

/// As `play`, but the server ends so.
pub fn play_to<
    R: Threads + Wait + Net<Listener = net::TcpListener, Stream = net::TcpStream> + Abort + Sync,
>(rt: &R, clock: HostRuntime, workers: u32, hold: Hold, acts: &[Act], ending: Ending) -> Vec<u8>
    requires { (1 ≤ workers) × (workers ≤ 64) }
{
    play_service(
        rt,
        clock,
        crowd_service(clock.alloc(), workers),
        hold,
        acts,
        ending,
    )
}

/// As `play`, but nobody has an account but the users, and the limit of an outbox is the default.
pub fn play_users<
    R: Threads + Wait + Net<Listener = net::TcpListener, Stream = net::TcpStream> + Abort + Sync,
>(rt: &R, clock: HostRuntime, workers: u32, hold: Hold, acts: &[Act]) -> Vec<u8>
    requires { (1 ≤ workers) × (workers ≤ 64) }
{
    play_service(
        rt,
        clock,
        users_service(clock.alloc(), workers),
        hold,
        acts,
        IN_GOOD_ORDER,
    )
}

/// Plays beside a server of one worker with a record on a disk of such room, which is to end by this line.
pub fn play_recorded<
    R: Threads + Wait + Net<Listener = net::TcpListener, Stream = net::TcpStream> + Abort + Sync,
>(rt: &R, clock: HostRuntime, room: Room, acts: &[Act], last_line: &'static [u8]) {
    let disk = Disk::new(clock, room, last_line);
    let stage = Stage::new(clock, Hold::Open, Some(disk), PATIENCE);
    let service = crowd_service(clock.alloc(), 1);
    drop(play_at(rt, clock, service, &stage, acts, 0));
    same(rt, stage.disk_ends_so(), true);
    drop(stage);
}

/// Plays beside a server of this service, which ends so.
fn play_service<
    R: Threads + Wait + Net<Listener = net::TcpListener, Stream = net::TcpStream> + Abort + Sync,
>(
    rt: &R,
    clock: HostRuntime,
    service: Option<Service>,
    hold: Hold,
    acts: &[Act],
    ending: Ending,
) -> Vec<u8>
    requires { IfSome service (λ service. (1 ≤ service.workers) × (service.workers ≤ 64)) }
{
    let stage = Stage::new(clock, hold, None, ending.looks);
    let output = play_at(rt, clock, service, &stage, acts, ending.status);
    drop(stage);
    output
}

/// As `play_service`, on this stage, and the server ends with this status.
fn play_at<
    R: Threads + Wait + Net<Listener = net::TcpListener, Stream = net::TcpStream> + Abort + Sync,
>(
    rt: &R,
    clock: HostRuntime,
    service: Option<Service>,
    stage: &Stage,
    acts: &[Act],
    status: u8,
) -> Vec<u8>
    requires { IfSome service (λ service. (1 ≤ service.workers) × (service.workers ≤ 64)) }
{
    match (listen(rt), service) {
        (Some((listener, address)), Some(service)) => {
            let told = play_beside(rt, clock, service, listener, address, stage, acts);
            same(rt, told.status, status);
            told.output
        }
        (listener, service) => {
            drop(listener);
            drop(service);
            fail(rt, "no server");
            Vec::new(clock.alloc())
        }
    }
}

/// Serves in a thread, and plays in this one.
fn play_beside<
    R: Threads + Wait + Net<Listener = net::TcpListener, Stream = net::TcpStream> + Abort + Sync,
>(
    rt: &R,
    clock: HostRuntime,
    service: Service,
    listener: TcpListener,
    address: SocketAddr,
    stage: &Stage,
    acts: &[Act],
) -> Told
    requires { (1 ≤ service.workers) × (service.workers ≤ 64) }
{
    let mut cast = Cast {
        clock,
        address,
        stage,
        clients: Vec::new(clock.alloc()),
        crowd: Vec::new(clock.alloc()),
    };
    let players = &mut cast;
    let (told, ()) = thread::join(
        rt,
        move || -> Told
            requires { (1 ≤ service.workers) × (service.workers ≤ 64) }
        { stage.serve(rt, clock, service, listener) },
        move || players.play(rt, acts),
    );
    drop(cast);
    told
}
