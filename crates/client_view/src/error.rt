//! Why a view did not take in a piece.

use std::alloc::AllocError;
use thiserror::Error;

/// Why a view did not take in a piece of bytes.
#[derive(Clone, Copy, PartialEq, Eq, Debug, Error)]
pub enum ViewError {
    /// Memory was refused, and nothing has changed: the piece may be fed again.
    #[error("no memory for more lines")]
    Memory,
    /// A line has more than 20,479 bytes before its LF. The feed that meets it folds the lines before
    /// it, and each later feed answers the same and changes nothing.
    #[error("a line is too long")]
    LineTooLong,
}

impl From<AllocError> for ViewError {
    ghost use Rattle.std.specs.Prelude.{◌≡◌};
    ghost use Rattle.client_view.specs.declared.error.ViewError.TheVariants.{Memory};

    ghost from_gives = { λ _ e. e ≡ Memory };

    fn from(_: AllocError) -> ViewError {
        ViewError::Memory
    }
}
