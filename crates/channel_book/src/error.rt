//! Why a join or a leave is refused.

use thiserror::Error;

/// Why a user does not join a channel, or does not leave it. Nothing has changed then.
#[derive(Clone, Copy, PartialEq, Eq, Debug, Error)]
pub enum ChannelError {
    /// The user who joins is in the channel.
    #[error("already in the channel")]
    AlreadyIn,
    /// The user who leaves is not in the channel, or there is no channel of that name.
    #[error("not in the channel")]
    NotIn,
    /// Memory was asked for and refused.
    #[error("no memory")]
    Memory,
}
