//! Why a request is not printed.

use std::alloc::AllocError;

/// Why a request is not printed.
#[derive(Clone, Copy, PartialEq, Eq, Debug)]
pub enum RequestError {
    /// The kind is none of a request.
    NoCommand,
    /// No request of the kind has these fields.
    BadFields,
    /// The message id is more than 2147483647, or a number is outside the range of its argument.
    OutOfRange,
    /// A list of pairs or words has no field.
    NothingListed,
    /// An optional word is absent before an argument that is there.
    Skipped,
    /// The line would have more than 8,192 bytes before its LF.
    TooLong,
    /// Memory was asked for and refused.
    Memory,
}

impl From<AllocError> for RequestError {
    ghost use Rattle.std.specs.Prelude.{◌≡◌};
    ghost use Rattle.lobby_lines.specs.declared.error.RequestError.TheVariants.{Memory};

    ghost from_gives = { λ _ e. e ≡ Memory };

    fn from(_: AllocError) -> RequestError {
        RequestError::Memory
    }
}
