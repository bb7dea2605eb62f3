//! How much is told.

ghost use Rattle.std.specs.Prelude.{◌≡◌};
ghost use Rattle.server_log.specs.Levels.{is_important, tells};

use crate::happening::{Cause, Happening};

/// How much operators are told.
#[derive(Clone, Copy, PartialEq, Eq, Debug)]
pub enum LogLevel {
    /// Nothing.
    None,
    /// All but who logs in, and who logs out by EXIT, by ending the connection or at a stop.
    Important,
    /// All.
    All,
}

impl LogLevel {
    /// Whether operators are told of this.
    pub fn tells(self, happening: &Happening) -> bool
        ensures { result ≡ tells self happening.now }
    {
        match self {
            LogLevel::None => false,
            LogLevel::Important => happening.is_important(),
            LogLevel::All => true,
        }
    }
}

impl Happening {
    /// Whether it asks for an operator's eye: a login and a log out in good order do not.
    pub fn is_important(&self) -> bool
        ensures { result ≡ is_important self.now }
    {
        match self {
            Happening::Login { .. } => false,
            Happening::Logout { cause, .. } => match cause {
                Cause::Exit | Cause::Closed | Cause::Stop => false,
                Cause::TooSlow | Cause::LineTooLong | Cause::Fault => true,
            },
            Happening::Started(_)
            | Happening::RecordStarted { .. }
            | Happening::RecordEnded { .. }
            | Happening::Denied { .. }
            | Happening::DeniedMore { .. }
            | Happening::Refused { .. }
            | Happening::MemoryRefused { .. }
            | Happening::Reserve(_)
            | Happening::Stopped { .. }
            | Happening::Lost(_) => true,
        }
    }
}
