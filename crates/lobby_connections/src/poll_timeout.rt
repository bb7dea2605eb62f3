//! How long a worker waits.

ghost use Rattle.std.specs.Prelude.{◌≡◌};
ghost use Rattle.std.specs.Option.{option_map};
ghost use Rattle.std.specs.Duration.{as_nanos};
ghost use Rattle.lobby_connections.specs.Timeouts.{nanoseconds, shorter};

use std::time::Duration;

/// How long a worker may wait when it has gone round.
#[derive(Clone, Copy, PartialEq, Eq, Debug)]
pub enum PollTimeout {
    /// Not at all: there is more to do.
    Zero,
    /// A little, and then what failed is tried again.
    Short,
    /// Until something comes.
    Endless,
}

impl PollTimeout {
    /// As a poll takes it.
    pub fn duration(self) -> Option<Duration>
        ensures { option_map as_nanos result ≡ nanoseconds self }
    {
        match self {
            PollTimeout::Zero => Some(Duration::from_millis(0)),
            PollTimeout::Short => Some(Duration::from_millis(10)),
            PollTimeout::Endless => None,
        }
    }

    /// The shorter of both.
    pub(crate) fn or(self, other: PollTimeout) -> PollTimeout
        ensures { result ≡ shorter self other }
    {
        match (self, other) {
            (PollTimeout::Zero, _) | (_, PollTimeout::Zero) => PollTimeout::Zero,
            (PollTimeout::Short, _) | (_, PollTimeout::Short) => PollTimeout::Short,
            (PollTimeout::Endless, PollTimeout::Endless) => PollTimeout::Endless,
        }
    }
}
