//! Why a line or a script cannot be played.

ghost use Rattle.std.specs.Prelude.{◌≡◌};
ghost use Rattle.lobby_script.specs.Faults.{fault_at, status_of};

use account_book::AccountsError;
use lobby_hall::HallError;
use lobby_model::SettingsError;
use std::alloc::{AllocError, AllocFailed};
use std::io;
use thiserror::Error;

/// Why a script was not played to its end.
#[derive(Clone, Copy, PartialEq, Eq, Debug, Error)]
pub enum PlayFault {
    /// The line with this number, counted from 1, is none that a script may have there.
    #[error("line {0}: bad step")]
    BadStep(u64),
    /// The script could not be read, or the output not be written.
    #[error("device fault")]
    Device,
    /// The script has more than 1,048,576 bytes.
    #[error("script too long")]
    TooLong,
    /// Memory was refused.
    #[error("no memory")]
    Memory,
}

impl PlayFault {
    /// The exit status of the program: 1 for a bad step, 2 for a device or a script that is too long, 4 for memory.
    pub fn status(self) -> u8
        ensures { result ≡ status_of self }
    {
        match self {
            PlayFault::BadStep(_) => 1,
            PlayFault::Device | PlayFault::TooLong => 2,
            PlayFault::Memory => 4,
        }
    }
}

impl From<AllocError> for PlayFault {
    ghost use Rattle.std.specs.Prelude.{◌≡◌};
    ghost use Rattle.lobby_script.specs.declared.fault.PlayFault.TheVariants.{Memory};

    ghost from_gives = { λ _ e. e ≡ Memory };

    fn from(_: AllocError) -> PlayFault {
        PlayFault::Memory
    }
}

/// Why a line cannot be played.
#[derive(Clone, Copy, PartialEq, Eq, Debug)]
pub enum LineFault {
    /// It is none that a script may have there.
    BadStep,
    /// The output could not be written.
    Device,
    /// Memory was refused.
    Memory,
}

impl LineFault {
    /// The script's fault, where this line had one.
    pub fn at(self, line: u64) -> PlayFault
        ensures { result ≡ fault_at self line }
    {
        match self {
            LineFault::BadStep => PlayFault::BadStep(line),
            LineFault::Device => PlayFault::Device,
            LineFault::Memory => PlayFault::Memory,
        }
    }
}

impl From<AllocError> for LineFault {
    ghost use Rattle.std.specs.Prelude.{◌≡◌};
    ghost use Rattle.lobby_script.specs.declared.fault.LineFault.TheVariants.{Memory};

    ghost from_gives = { λ _ e. e ≡ Memory };

    fn from(_: AllocError) -> LineFault {
        LineFault::Memory
    }
}

impl<T: Drop> From<AllocFailed<T>> for LineFault {
    ghost use Rattle.std.specs.Prelude.{◌≡◌};
    ghost use Rattle.lobby_script.specs.declared.fault.LineFault.TheVariants.{Memory};

    ghost from_gives = { λ _ e. e ≡ Memory };

    fn from(_: AllocFailed<T>) -> LineFault {
        LineFault::Memory
    }
}

impl From<HallError> for LineFault {
    ghost use Rattle.std.specs.Prelude.{◌≡◌};
    ghost use Rattle.lobby_script.specs.declared.fault.LineFault.TheVariants.{Memory};

    ghost from_gives = { λ _ e. e ≡ Memory };

    fn from(error: HallError) -> LineFault {
        match error {
            HallError::Memory => LineFault::Memory,
        }
    }
}

impl From<SettingsError> for LineFault {
    ghost use Rattle.std.specs.Prelude.{◌≡◌};
    ghost use Rattle.lobby_script.specs.Faults.{refused_settings};

    ghost from_gives = { λ error e. e ≡ refused_settings error };

    fn from(error: SettingsError) -> LineFault {
        match error {
            SettingsError::OutOfBounds => LineFault::BadStep,
            SettingsError::Memory => LineFault::Memory,
        }
    }
}

impl From<AccountsError> for LineFault {
    ghost use Rattle.std.specs.Prelude.{◌≡◌};
    ghost use Rattle.lobby_script.specs.Faults.{refused_account};

    ghost from_gives = { λ error e. e ≡ refused_account error };

    fn from(error: AccountsError) -> LineFault {
        match error {
            AccountsError::NotToml | AccountsError::BadField(_) | AccountsError::DuplicateName => {
                LineFault::BadStep
            }
            AccountsError::Memory => LineFault::Memory,
        }
    }
}

impl From<io::Error> for LineFault {
    ghost use Rattle.std.specs.Prelude.{◌≡◌};
    ghost use Rattle.lobby_script.specs.declared.fault.LineFault.TheVariants.{Device};

    ghost from_gives = { λ _ e. e ≡ Device };

    fn from(_: io::Error) -> LineFault {
        LineFault::Device
    }
}
