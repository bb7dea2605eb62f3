//! The lines of a worker that wait to be written.

use crate::record::end::End;
use lobby_model::MadeEvent;
use record_lines::{Masks, put_entry};
use std::alloc::Global;

/// The most bytes of a worker that wait, but for the lines of one event: those of 10,000 events in a second for a
/// quarter of a minute, since a busy disk or machine may stand still.
const MOST: usize = 4_194_304;

/// Lines that wait.
#[derive(Drop)]
pub(crate) struct Lines {
    pub(crate) bytes: Vec<u8>,
    // a request's line on its way into a step
    text: Vec<u8>,
    /// The place of the last event among them.
    pub(crate) last_place: Option<u64>,
}

impl Lines {
    /// None yet. It takes no memory.
    pub(crate) fn new(alloc: Global) -> Lines {
        Lines {
            bytes: Vec::new(alloc),
            text: Vec::new(alloc),
            last_place: None,
        }
    }

    /// Adds the lines of the events that a worker made, up to one by which the record ends.
    pub(crate) fn add_made(
        &mut self,
        alloc: Global,
        masks: &Masks,
        events: &[MadeEvent],
    ) -> Result<(), End> {
        events
            .iter()
            .try_for_each(|made| self.add(alloc, masks, made))
    }

    /// Adds the lines of an event, or nothing where the record ends by it.
    fn add(&mut self, alloc: Global, masks: &Masks, made: &MadeEvent) -> Result<(), End> {
        if made.place == u64::MAX {
            return Err(End::LastPlace);
        }
        if self.bytes.len() >= MOST {
            return Err(End::Full);
        }
        put_entry(alloc, &mut self.bytes, &mut self.text, masks, made)?;
        self.last_place = Some(made.place);
        Ok(())
    }
}
