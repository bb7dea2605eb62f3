//! Why the program ends.

ghost use Rattle.std.specs.Prelude.{◌≡◌, ◌≤◌};
ghost use Rattle.lobby_cli.specs.Statuses.{status_of};

use lobby_workers::ServerError;
use std::alloc::AllocError;
use thiserror::Error;

/// Why a command of the program is not done. Its text is what the program tells.
#[derive(Clone, Copy, PartialEq, Eq, Debug, Error)]
pub enum ProgramError {
    /// The settings cannot be used.
    #[error("cannot use settings")]
    Settings,
    /// The accounts cannot be used.
    #[error("cannot use accounts")]
    Accounts,
    /// The files of a record cannot be made.
    #[error("cannot make a record")]
    Record,
    /// A password would be read from a terminal.
    #[error("a terminal would show the password: use lobby_account hash")]
    Terminal,
    /// The system gave no random bytes.
    #[error("no random bytes")]
    Random,
    /// The server did not start, or ended otherwise than by the end of its input.
    #[error("{0}")]
    Server(ServerError),
}

impl ProgramError {
    /// The exit status: 2 for settings, accounts, a record and a terminal, 3 for random bytes, and the server's own.
    pub fn status(self) -> u8
        ensures value { result ≡ status_of self }
        ensures within { (2 ≤ result) × (result ≤ 4) }
    {
        match self {
            ProgramError::Settings
            | ProgramError::Accounts
            | ProgramError::Record
            | ProgramError::Terminal => 2,
            ProgramError::Random => 3,
            ProgramError::Server(error) => error.status(),
        }
    }
}

impl From<ServerError> for ProgramError {
    fn from(error: ServerError) -> ProgramError {
        ProgramError::Server(error)
    }
}

impl From<AllocError> for ProgramError {
    fn from(_: AllocError) -> ProgramError {
        ProgramError::Server(ServerError::Memory)
    }
}
