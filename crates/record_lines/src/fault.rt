//! Why an event is not written.

use std::alloc::AllocError;
use thiserror::Error;

/// Why an event is not written.
#[derive(Clone, Copy, PartialEq, Eq, Debug, Error)]
pub enum RecordFault {
    /// Memory was refused.
    #[error("no memory")]
    Memory,
    /// The number of its client, or of the bytes that it took, has more than 32 bits.
    #[error("a number is out of its range")]
    Number,
    /// No line of a client within the limit reads as its request, so none did.
    #[error("no line reads as the request")]
    Line,
}

impl From<AllocError> for RecordFault {
    ghost use Rattle.std.specs.Prelude.{◌≡◌};
    ghost use Rattle.record_lines.specs.declared.fault.RecordFault.TheVariants.{Memory};

    ghost from_gives = { λ _ e. e ≡ Memory };

    fn from(_: AllocError) -> RecordFault {
        RecordFault::Memory
    }
}
