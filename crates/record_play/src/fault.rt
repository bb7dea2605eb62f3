//! Why a record is not played.

use lobby_hall::HallError;
use std::alloc::{AllocError, AllocFailed};
use thiserror::Error;

/// Why a record is not played. Files are counted from 0, lines of a file from 1.
#[derive(Clone, Copy, PartialEq, Eq, Debug, Error)]
pub enum RecordFault {
    /// The line is no step at a place, or its place is before that of the line before it.
    #[error("line {line} of file {file} is no step of a record")]
    BadLine {
        file: usize,
        line: u64,
    },
    /// The line has the place of a line of another file.
    #[error("line {line} of file {file} has the place of a line of file {other}")]
    TwoOfOnePlace {
        file: usize,
        line: u64,
        other: usize,
    },
    /// No file has this place, though each goes on behind it or ends with its server.
    #[error("no file has place {0}")]
    Hole(u64),
    /// The step gives another client, no event, or other bytes than it gave the server.
    #[error("line {line} of file {file} does not happen so")]
    OtherCourse {
        file: usize,
        line: u64,
    },
    /// Memory was refused.
    #[error("no memory")]
    Memory,
}

/// Why a step is not played.
#[derive(Clone, Copy, PartialEq, Eq, Debug)]
pub enum StepFault {
    /// It is none of a record.
    BadStep,
    /// It gives another client, no event, or another count of bytes than it gave the server.
    OtherCourse,
    /// Memory was refused.
    Memory,
}

impl StepFault {
    /// The fault of a record in which this line has it.
    pub fn at(self, file: usize, line: u64) -> RecordFault {
        match self {
            StepFault::BadStep => RecordFault::BadLine { file, line },
            StepFault::OtherCourse => RecordFault::OtherCourse { file, line },
            StepFault::Memory => RecordFault::Memory,
        }
    }
}

impl From<AllocError> for RecordFault {
    ghost use Rattle.std.specs.Prelude.{◌≡◌};
    ghost use Rattle.record_play.specs.declared.fault.RecordFault.TheVariants.{Memory};

    ghost from_gives = { λ _ e. e ≡ Memory };

    fn from(_: AllocError) -> RecordFault {
        RecordFault::Memory
    }
}

impl<T: Drop> From<AllocFailed<T>> for RecordFault {
    ghost use Rattle.std.specs.Prelude.{◌≡◌};
    ghost use Rattle.record_play.specs.declared.fault.RecordFault.TheVariants.{Memory};

    ghost from_gives = { λ _ e. e ≡ Memory };

    fn from(_: AllocFailed<T>) -> RecordFault {
        RecordFault::Memory
    }
}

impl From<HallError> for RecordFault {
    ghost use Rattle.std.specs.Prelude.{◌≡◌};
    ghost use Rattle.record_play.specs.declared.fault.RecordFault.TheVariants.{Memory};

    ghost from_gives = { λ _ e. e ≡ Memory };

    fn from(error: HallError) -> RecordFault {
        match error {
            HallError::Memory => RecordFault::Memory,
        }
    }
}

impl From<AllocError> for StepFault {
    ghost use Rattle.std.specs.Prelude.{◌≡◌};
    ghost use Rattle.record_play.specs.declared.fault.StepFault.TheVariants.{Memory};

    ghost from_gives = { λ _ e. e ≡ Memory };

    fn from(_: AllocError) -> StepFault {
        StepFault::Memory
    }
}

impl From<HallError> for StepFault {
    ghost use Rattle.std.specs.Prelude.{◌≡◌};
    ghost use Rattle.record_play.specs.declared.fault.StepFault.TheVariants.{Memory};

    ghost from_gives = { λ _ e. e ≡ Memory };

    fn from(error: HallError) -> StepFault {
        match error {
            HallError::Memory => StepFault::Memory,
        }
    }
}
