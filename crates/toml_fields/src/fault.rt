//! Why the value of a key is refused.

use thiserror::Error;

/// Why the value of a key is refused.
#[derive(Clone, Copy, PartialEq, Eq, Debug, Error)]
pub enum FieldFault {
    /// The key is not there, though it has to be.
    #[error("is missing")]
    Missing,
    /// The value is of another kind, as a text where a number is expected.
    #[error("is of another kind")]
    OtherKind,
    /// The value is of its kind, and is none that the key allows.
    #[error("is not allowed")]
    NotAllowed,
}
