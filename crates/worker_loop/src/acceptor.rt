//! Where one of the workers accepts connections for all.

use crate::inboxes::Arrival;
use crate::turns::{Shared, tell_unserved};
use lobby_connections::PollTimeout;
use lobby_turns::Gate;
use mio::net::TcpListener;
use server_log::{Happening, Refusal};
use std::io::{self, ErrorKind};
use std::mem;
use std::net::SocketAddr;
use std::sync::Wait;

/// The most connections that are accepted in a round, so that who waits to be accepted does not keep
/// the worker from its connections.
const ACCEPTS: u32 = 64;

/// What accepts connections, where a worker has the server's listener.
#[derive(Drop)]
pub(crate) struct Acceptor {
    listener: Option<TcpListener>,
    // how many connections were accepted
    accepted: u64,
    // whether to accept though the poll does not tell of the listener
    goes_on: bool,
    // whether operators were told that the system accepts none, since when it did not
    is_stuck: bool,
}

impl Acceptor {
    /// With the server's listener, at one worker.
    pub(crate) fn new(listener: Option<TcpListener>) -> Acceptor {
        Acceptor {
            listener,
            accepted: 0,
            goes_on: false,
            is_stuck: false,
        }
    }

    /// Accepts no more: the listener is closed.
    pub(crate) fn stop(&mut self) {
        drop(mem::replace(&mut self.listener, None));
    }

    /// Where the poll told of the listener, or as much waits as was not accepted before: accepts connections, puts them
    /// into the inboxes of their workers, and wakes these. Says how long the worker may wait.
    pub(crate) fn accept<R: Wait, G: Gate>(
        &mut self,
        rt: &R,
        shared: &Shared<'_, G>,
        is_told: bool,
    ) -> PollTimeout {
        if !is_told && !self.goes_on {
            return PollTimeout::Endless;
        }
        let Some(listener) = &self.listener else {
            return PollTimeout::Endless;
        };
        self.goes_on = true;
        for _ in 0..ACCEPTS {
            match listener.accept() {
                Ok((stream, address)) => {
                    let ip = ip_of(address);
                    let arrival = Arrival { stream, ip };
                    match shared.inboxes.put(rt, self.accepted, arrival) {
                        Some(worker) => shared.wakers.wake(worker),
                        None => tell_unserved(shared.gate, Refusal::Busy, ip),
                    }
                    self.accepted = self.accepted.wrapping_add(1);
                    self.is_stuck = false;
                }
                Err(error) => match error.kind() {
                    ErrorKind::WouldBlock => {
                        self.goes_on = false;
                        self.is_stuck = false;
                        return PollTimeout::Endless;
                    }
                    ErrorKind::Interrupted => {}
                    _ => {
                        if !self.is_stuck {
                            shared.gate.tell(Happening::Refused {
                                reason: refusal_of(&error),
                                ip: None,
                            });
                        }
                        self.is_stuck = true;
                        return PollTimeout::Short;
                    }
                },
            }
        }
        PollTimeout::Zero
    }
}

/// The errors of the system where it has no file more for the process, or for all.
const NO_FILE: [i32; 2] = [24, 23];

/// The errors of the system where it has no memory, or none for sockets.
const NO_MEMORY: [i32; 2] = [12, 105];

/// Why the system accepts no connection, as operators are told it.
fn refusal_of(error: &io::Error) -> Refusal {
    match error.raw_os_error() {
        Some(code) if NO_FILE.contains(&code) => Refusal::Files,
        Some(code) if NO_MEMORY.contains(&code) => Refusal::Memory,
        _ => Refusal::System,
    }
}

/// The IPv4 address of a peer. A listener at an IPv4 address meets no other.
fn ip_of(address: SocketAddr) -> [u8; 4] {
    match address {
        SocketAddr::V4(address) => address.ip().octets(),
        SocketAddr::V6(_) => [0; 4],
    }
}
