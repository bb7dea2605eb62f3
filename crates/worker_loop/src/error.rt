//! Why a worker has nothing to listen with.

use thiserror::Error;

/// Why a worker has nothing to listen with.
#[derive(Clone, Copy, PartialEq, Eq, Debug, Error)]
pub enum ListenError {
    /// The system made no poll or waker, or did not register the listener.
    #[error("cannot listen")]
    System,
    /// Memory was refused.
    #[error("no memory")]
    Memory,
}
