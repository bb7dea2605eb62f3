//! What is kept of the events of a hold.

ghost use Rattle.std.specs.Prelude.{◌≡◌, ◌<◌, true, false, length, IfOk};
ghost use Rattle.lobby_model.specs.declared.event.Event.TheVariants as event;
ghost use Rattle.lobby_lock.specs.Events.{none_yet, with_kept};

use crate::desk::MOST_EVENTS;
use lobby_model::{Event, MadeEvent};
use std::alloc::{AllocError, Global};
use std::marker::Model;

/// The events that are kept, in their order, or none. Contracts see whether they are, and their list.
#[derive(Drop)]
pub(crate) struct Kept {
    made: Option<Box<Vec<MadeEvent>>>,
}

impl Model for Kept {
    ghost use Rattle.std.specs.Prelude.{◌≤◌, [], is_some, IfSome, vec_capacity};
    ghost use Rattle.std.specs.Option.{option_map, unwrap_or};
    ghost use Rattle.lobby_lock.specs.Events.{ShownKept};

    ghost Value = { ShownKept };

    ghost view = { λ k. record
        { keeps = is_some k.made; events = unwrap_or (option_map (λ made. made.value.items) k.made) [] } };

    ghost invariant = { λ k. IfSome k.made (λ made. 32 ≤ vec_capacity made.value) };
}

impl Kept {
    /// No event is kept.
    pub(crate) fn nothing() -> Kept
        ensures { result ≡ none_yet false }
    {
        Kept { made: None }
    }

    /// Each event of a hold is kept. Fails only where memory is refused.
    pub(crate) fn with_room(alloc: Global) -> Result<Kept, AllocError>
        ensures { IfOk result (λ kept. kept ≡ none_yet true) }
    {
        let made = Vec::with_capacity(alloc, MOST_EVENTS)?;
        match Box::new(alloc, made) {
            Ok(made) => Ok(Kept { made: Some(made) }),
            Err(_) => Err(AllocError),
        }
    }

    /// One event more behind so many others, with what it gave. It is let go where none is kept.
    pub(crate) fn add(&mut self, place: u64, event: Event, gain: u64)
        requires { length self.old.events < MOST_EVENTS }
        ensures { self.new ≡ with_kept self.old (record { place = place; event = event; gain = gain }) }
    {
        match &mut self.made {
            Some(made) => made.push_reserved(MadeEvent { place, event, gain }),
            None => drop(event),
        }
    }

    /// As `add` does for a drain, which is written where it stays.
    pub(crate) fn add_drained(&mut self, place: u64, client: u64, count: usize, came: u64)
        requires { length self.old.events < MOST_EVENTS }
        ensures { self.new ≡ with_kept self.old
            (record { place = place; event = event.Drain client count; gain = came }) }
    {
        if let Some(made) = &mut self.made {
            made.push_reserved(MadeEvent {
                place,
                event: Event::Drain { client, count },
                gain: came,
            });
        }
    }

    /// Whether events are kept.
    pub(crate) fn keeps(&self) -> bool
        ensures { result ≡ self.now.keeps }
    {
        self.made.is_some()
    }

    /// Those that are kept.
    pub(crate) fn events(&self) -> &[MadeEvent]
        ensures { result.now ≡ self.now.events }
    {
        match &self.made {
            Some(made) => made.as_slice(),
            None => &[],
        }
    }

    /// Lets them go.
    pub(crate) fn clear(&mut self)
        ensures { self.new ≡ none_yet self.old.keeps }
    {
        if let Some(made) = &mut self.made {
            made.clear();
        }
    }
}
