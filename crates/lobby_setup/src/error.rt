//! Why a file of settings cannot be used.

use crate::key::Key;
use thiserror::Error;
use toml_fields::{DocumentError, FieldFault};

/// What is wrong in a file of settings, and where.
#[derive(Clone, Copy, PartialEq, Eq, Debug, Error)]
pub enum Refusal {
    /// The file is not TOML, or not UTF-8. The line, counted from 1, is the one where the reading stopped; promised of
    /// it is that it is a line of the file.
    #[error("line {line} is not TOML")]
    NotToml { line: usize },
    /// A key is missing, or its value is of another kind or not allowed: the first such key in the order of [`Key`].
    #[error("`{}` {fault}: expected {}", .key.name(), .key.expected())]
    Field { key: Key, fault: FieldFault },
    /// A line of the message of the day, counted from 1, is not what it has to be.
    #[error("line {place} of `motd` {fault}: expected {}", Key::Motd.expected())]
    MotdLine { place: usize, fault: FieldFault },
    /// An address of a front, counted from 1, is not what it has to be.
    #[error("address {place} of `proxies` {fault}: expected {}", Key::Proxies.expected())]
    Proxy { place: usize, fault: FieldFault },
}

/// Why there are no settings.
#[derive(Clone, Copy, PartialEq, Eq, Debug, Error)]
pub enum SetupError {
    /// The file cannot be used.
    #[error("the file cannot be used")]
    Unusable,
    /// Memory was refused. The file may be good.
    #[error("no memory")]
    Memory,
}

/// Why there are no settings, with what is wrong in the file.
#[derive(Clone, Copy, PartialEq, Eq, Debug, Error)]
pub enum SetupFault {
    /// The file cannot be used.
    #[error("{0}")]
    Unusable(Refusal),
    /// Memory was refused. The file may be good.
    #[error("no memory")]
    Memory,
}

impl From<DocumentError> for SetupFault {
    ghost use Rattle.std.specs.Prelude.{◌≡◌};
    ghost use Rattle.lobby_setup.specs.Errors.{error_of};

    ghost from_gives = { λ error e. e ≡ error_of error };

    fn from(error: DocumentError) -> SetupFault {
        match error {
            DocumentError::NotToml { line } => SetupFault::Unusable(Refusal::NotToml { line }),
            DocumentError::Memory => SetupFault::Memory,
        }
    }
}
