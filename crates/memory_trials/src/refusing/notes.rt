//! What is noted of the trials.

use std::io;

/// How often memory was refused, how often something was otherwise after that than before, or at the end than where
/// memory was not refused, and how often a trial was given up, since memory never sufficed.
#[derive(Clone, Copy)]
pub(crate) struct Notes {
    pub(crate) refusals: u32,
    pub(crate) traces: u32,
    pub(crate) given_up: u32,
}

impl Notes {
    pub(crate) fn new() -> Notes {
        Notes {
            refusals: 0,
            traces: 0,
            given_up: 0,
        }
    }

    /// All is as it was before, or not.
    pub(crate) fn compare(&mut self, is_as_before: bool) {
        if !is_as_before {
            self.traces = self.traces.saturating_add(1);
        }
    }

    /// Memory was refused, and all is as it was before, or not.
    pub(crate) fn refuse(&mut self, is_as_before: bool) {
        self.refusals = self.refusals.saturating_add(1);
        self.compare(is_as_before);
    }

    /// Memory never sufficed.
    pub(crate) fn give_up(&mut self) {
        self.given_up = self.given_up.saturating_add(1);
    }

    /// Shows the three.
    pub(crate) fn show<R: Print>(&self, rt: &R) -> io::Result<()> {
        println!(rt;
            "{} refused, {} left a trace, {} were given up",
            self.refusals, self.traces, self.given_up
        )
    }
}
