//! Where a worker waits for news.

ghost use Rattle.std.specs.Prelude.{◌≡◌};
ghost use Rattle.lobby_connections.specs.Told.{told};

use crate::poll_timeout::PollTimeout;
use mio::event::Event;
use mio::{Events, Poll, Registry};
use std::time::Duration;

/// Where a worker waits for news: its poll, with room for what one poll tells, and a poll that tells of nothing.
#[derive(Drop)]
pub struct Lookout {
    poll: Poll,
    // it tells of nothing, and so waits as long as it is to
    pause: Poll,
    events: Events,
}

impl Lookout {
    /// With a poll, one that tells of nothing, and room for what a poll tells.
    pub fn new(poll: Poll, pause: Poll, events: Events) -> Lookout {
        Lookout {
            poll,
            pause,
            events,
        }
    }

    /// What the poll tells of.
    pub fn registry(&self) -> &Registry {
        self.poll.registry()
    }

    /// What the last poll told.
    pub fn told(&self) -> &[Event]
        ensures { result.now ≡ told self.now }
    {
        self.events.iter().as_slice()
    }

    /// Waits for news, and keeps what the poll tells. Whether the system did so.
    pub(crate) fn wait(&mut self, timeout: PollTimeout) -> bool {
        self.poll.poll(&mut self.events, timeout.duration()).is_ok()
    }

    /// Waits so many milliseconds, whatever happens meanwhile.
    pub fn pause(&mut self, milliseconds: u64) {
        let pause = Some(Duration::from_millis(milliseconds));
        let _ = self.pause.poll(&mut self.events, pause);
    }
}
