//! Why a request is not printed.

use std::alloc::AllocError;
use thiserror::Error;

/// Why a request is not printed. Nothing is appended then. But for `Unread` and `Memory` no line of a
/// client within the limit reads as the request.
#[derive(Clone, Copy, PartialEq, Eq, Debug, Error)]
pub enum PrintError {
    /// The request is a line that could not be read, and asks for no command.
    #[error("not a command")]
    Unread,
    /// The message id is more than 2147483647, or a number is outside the range of its argument.
    #[error("a number is out of its range")]
    OutOfRange,
    /// A list of pairs or words has nothing in it.
    #[error("nothing is listed")]
    NothingListed,
    /// An optional word is missing, and one behind it is there: the password of JOINBATTLE before its
    /// script password.
    #[error("a word is missing before another")]
    Skipped,
    /// The line would have more than 8,192 bytes before its LF.
    #[error("the line would be too long")]
    TooLong,
    /// Memory was asked for and refused.
    #[error("no memory")]
    Memory,
}

impl From<AllocError> for PrintError {
    ghost use Rattle.std.specs.Prelude.{◌≡◌};
    ghost use Rattle.request_printer.specs.declared.error.PrintError.TheVariants.{Memory};

    ghost from_gives = { λ _ e. e ≡ Memory };

    fn from(_: AllocError) -> PrintError {
        PrintError::Memory
    }
}
