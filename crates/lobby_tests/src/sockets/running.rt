//! A server, which runs until its input ends, and what clients and it say.

ghost use Rattle.std.specs.Prelude.{◌≡◌, ◌≤◌, IfSome};

use crate::sockets::disks::Disk;
use crate::sockets::gates::Watch;
use account_book::AccountBook;
use lobby_model::Settings;
use lobby_model::settings::DEFAULT_OUTBOX_LIMIT;
use lobby_workers::{HashSeed, Log, run_server, run_server_recorded};
use mio::net::TcpListener;
use proxy_line::Proxies;
use server_log::{LogLevel, ShortText, Started};
use std::alloc::Global;
use std::io::{self, Read};
use std::net::{IpAddr, Ipv4Addr, Net, SocketAddr};
use std::sync::Wait;
use std::sync::atomic::{AtomicBool, Ordering};
use std::thread::{self, Threads};
use std::time::Duration;
use test_lobby::{book, book_with_crowd, settings};

/// Anna's number in a play.
pub const ANNA: usize = 0;

/// Bert's number in a play.
pub const BERT: usize = 1;

/// The number of one who comes only to turn the order of workers, or to keep one busy.
pub const THIRD: usize = 2;

/// A line that is answered at any time.
pub const PING: &[u8] = b"PING\n";

/// The answer to it.
pub const PONG: &[u8] = b"PONG\n";

/// Sixteen bytes of a long text.
pub const TEXT: &[u8] = b"0123456789abcdef";

/// The limit of a crowd's outboxes, in bytes: one who reads late is told more than the system's buffers hold.
const CROWD_LIMIT: usize = 8_388_608;

/// For how many looks, of a millisecond each, an input waits for its end: for longer than any test takes.
pub const PATIENCE: u32 = 50_000;

/// A listener at a free port of this machine, and its address. None where the system gives none.
pub fn listen<R: Net>(rt: &R) -> Option<(TcpListener, SocketAddr)> {
    let any = SocketAddr::new(IpAddr::V4(Ipv4Addr::new(127, 0, 0, 1)), 0);
    let listener = TcpListener::bind(rt, any).ok()?;
    match listener.local_addr() {
        Ok(address) => Some((listener, address)),
        Err(_) => {
            drop(listener);
            None
        }
    }
}

/// What a server serves, until its input ends.
#[derive(Drop)]
pub struct Service {
    pub settings: Settings,
    pub workers: u32,
    pub accounts: AccountBook,
}

/// A service for those of a book, with so many workers and this limit of an outbox. None where memory is refused.
fn service_of(
    alloc: Global,
    workers: u32,
    accounts: AccountBook,
    outbox_limit: usize,
) -> Option<Service>
    ensures { IfSome result (λ service. service.workers ≡ workers) }
{
    match settings(alloc, outbox_limit) {
        Some(settings) => Some(Service {
            settings,
            workers,
            accounts,
        }),
        None => {
            drop(accounts);
            None
        }
    }
}

/// A service for the users, with the default limit of an outbox.
pub fn users_service(alloc: Global, workers: u32) -> Option<Service>
    ensures { IfSome result (λ service. service.workers ≡ workers) }
{
    service_of(alloc, workers, book(alloc)?, DEFAULT_OUTBOX_LIMIT)
}

/// A service for the users and a crowd, with a large limit of an outbox.
pub fn crowd_service(alloc: Global, workers: u32) -> Option<Service>
    ensures { IfSome result (λ service. service.workers ≡ workers) }
{
    service_of(alloc, workers, book_with_crowd(alloc)?, CROWD_LIMIT)
}

/// An input that ends once its flag is set. One whose flag is not set within so many looks fails, so that no test
/// passes because its server ended by itself.
#[derive(Drop)]
pub struct Input<'a> {
    pub clock: HostRuntime,
    pub flag: &'a AtomicBool,
    pub looks: u32,
}

impl Read for Input<'_> {
    fn read(&mut self, _into: &mut [u8]) -> io::Result<usize> {
        for _ in 0..self.looks {
            if self.flag.load(Ordering::SeqCst) {
                return Ok(0);
            }
            thread::sleep(&self.clock, Duration::from_millis(1));
        }
        Err(io::Error::from(io::ErrorKind::Other))
    }
}

/// What a server ended with.
#[derive(Drop)]
pub struct Told {
    pub status: u8,
    pub output: Vec<u8>,
}

/// Runs a server until its input ends.
pub fn run<R: Threads + Wait + Net + Sync>(
    rt: &R,
    service: Service,
    listener: TcpListener,
    input: Input<'_>,
    gate: &Watch,
) -> Told
    requires { (1 ≤ service.workers) × (service.workers ≤ 64) }
{
    let alloc = input.clock.alloc();
    let mut input = input;
    let mut output = Vec::new(alloc);
    let Service {
        settings,
        workers,
        accounts,
    } = service;
    let status = run_server(
        rt,
        alloc,
        settings,
        workers,
        true,
        accounts,
        listener,
        &mut input,
        &mut output,
        gate,
    );
    Told { status, output }
}

/// As `run`, with a record on this disk.
pub fn run_recorded<R: Threads + Wait + Net + Sync>(
    rt: &R,
    service: Service,
    listener: TcpListener,
    input: Input<'_>,
    gate: &Watch,
    disk: &Disk,
) -> Told
    requires { (1 ≤ service.workers) × (service.workers ≤ 64) }
{
    let alloc = input.clock.alloc();
    let mut input = input;
    let mut output = Vec::new(alloc);
    let Service {
        settings,
        workers,
        accounts,
    } = service;
    let service = lobby_workers::Service {
        settings,
        workers,
        stop_at_input_end: true,
        proxies: Proxies::new(),
        accounts,
        seed: HashSeed::known(),
    };
    let status = run_server_recorded(
        rt,
        alloc,
        service,
        listener,
        &mut input,
        &mut output,
        Vec::new(alloc),
        gate,
        no_log(),
        disk.record(),
    );
    Told { status, output }
}

/// Operators are told nothing.
fn no_log() -> Log {
    Log {
        level: LogLevel::None,
        started: Started {
            version: "",
            address: ShortText::of(b""),
            workers: 1,
            client_limit: 0,
            outbox_limit: 0,
            accounts: 0,
        },
    }
}
