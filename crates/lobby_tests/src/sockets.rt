//! The server over sockets: clients of this machine connect to a server that runs in a thread of its own.

mod clients;
mod crowds;
mod disks;
mod gates;
mod hostile;
mod leavers;
mod plays;
mod recording;
mod running;
mod server;
mod workers;
