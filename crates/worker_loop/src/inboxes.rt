//! Where accepted connections wait for their workers.

use crossbeam_queue::ArrayQueue;
use mio::net::TcpStream;
use std::alloc::{AllocError, Global};
use std::sync::Wait;

/// The most connections that wait in an inbox. Without a limit a burst of connections would fill the memory
/// while their worker is busy. What the first worker accepts in four rounds fits in it.
const INBOX: usize = 256;

/// An accepted connection on its way to its worker.
#[derive(Drop)]
pub struct Arrival {
    pub stream: TcpStream,
    /// Where it comes from.
    pub ip: [u8; 4],
}

impl Arrival {
    /// A connection that comes from this address.
    pub fn new(stream: TcpStream, ip: [u8; 4]) -> Arrival {
        Arrival { stream, ip }
    }
}

/// An inbox for each worker of a server, by their numbers from 0.
#[derive(Drop)]
pub struct Inboxes {
    queues: Vec<ArrayQueue<Arrival>>,
}

impl Inboxes {
    /// No worker yet.
    pub fn new(alloc: Global) -> Inboxes {
        Inboxes {
            queues: Vec::new(alloc),
        }
    }

    /// The next worker gets its inbox. Fails only where memory is refused.
    pub fn add(&mut self, alloc: Global) -> Result<(), AllocError> {
        self.queues.push(ArrayQueue::new(alloc, INBOX)?)?;
        Ok(())
    }

    /// The worker that gets the connection before which so many were accepted.
    fn next_index(&self, accepted: u64) -> usize {
        match self.queues.len() as u64 {
            0 => 0,
            workers => (accepted % workers) as usize,
        }
    }

    /// Puts the connection before which so many were accepted into its worker's inbox, and says which worker
    /// that is. None where the inbox is full: the connection is closed.
    pub fn put<R: Wait>(&self, rt: &R, accepted: u64, arrival: Arrival) -> Option<usize> {
        let index = self.next_index(accepted);
        match self.queues.get(index)?.push(rt, arrival) {
            Ok(()) => Some(index),
            Err(_) => None,
        }
    }

    /// The connections that wait in a worker's inbox, one after another.
    pub fn next_arrival<R: Wait>(&self, rt: &R, worker: u8) -> Option<Arrival> {
        self.queues.get(worker as usize)?.pop(rt)
    }
}
