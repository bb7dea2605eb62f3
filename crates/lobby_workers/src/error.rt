//! Why a server ends.

ghost use Rattle.std.specs.Prelude.{◌≡◌, ◌≤◌, ◌↔◌, None, IfSome};
ghost use Rattle.lobby_workers.specs.Statuses.{status_of, IsEnd};

use std::alloc::AllocError;
use thiserror::Error;
use worker_loop::ListenError;

/// Why a server did not start, or ended otherwise than by the end of its input. Its text is what the server's program
/// tells.
#[derive(Clone, Copy, PartialEq, Eq, Debug, Error)]
pub enum ServerError {
    /// Reading the input failed.
    #[error("cannot read input")]
    Input,
    /// There is no listener at the address; or the system made no poll, waker or thread, or did not register the
    /// listener.
    #[error("cannot listen")]
    Listener,
    /// Memory was refused while starting.
    #[error("no memory")]
    Memory,
}

impl ServerError {
    /// The exit status of a program that ends so: 2 for input, 3 for a listener, 4 for memory.
    pub fn status(self) -> u8
        ensures value { result ≡ status_of self }
        ensures within { (2 ≤ result) × (result ≤ 4) }
    {
        match self {
            ServerError::Input => 2,
            ServerError::Listener => 3,
            ServerError::Memory => 4,
        }
    }

    /// Why a server that was run ended with this status. None where it was stopped by the end of its input.
    pub fn of_run(status: u8) -> Option<ServerError>
        requires { IsEnd status }
        ensures none { (result ≡ None) ↔ (status ≡ 0) }
        ensures error { IfSome result (λ error. status_of error ≡ status) }
    {
        match status {
            0 => None,
            2 => Some(ServerError::Input),
            3 => Some(ServerError::Listener),
            _ => Some(ServerError::Memory),
        }
    }
}

impl From<AllocError> for ServerError {
    fn from(_: AllocError) -> ServerError {
        ServerError::Memory
    }
}

impl From<ListenError> for ServerError {
    fn from(error: ListenError) -> ServerError {
        match error {
            ListenError::System => ServerError::Listener,
            ListenError::Memory => ServerError::Memory,
        }
    }
}
