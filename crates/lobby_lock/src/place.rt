//! The steps of the place in which the lobby lies.

ghost use Rattle.std.specs.Prelude.{◌≡◌, ℕ, true, []};
ghost use Rattle.crossbeam_queue.specs.Passes.{view, IsSamePass, IsPassOf, ruled_capacity};
ghost use Rattle.crossbeam_queue.specs.Fifo.{Pops};
ghost use Rattle.lobby_lock.specs.Rule.{OneHistory, new_worker, opened, gave};
ghost use Rattle.lobby_lock.specs.Passes.{IsLaidBy};

use crate::event_count::EventCount;
use crate::events::Events;
use crate::laid::Laid;
use crate::rule::{Giving, Happened, Opening, Place, PlacePass};
use crate::view::View;
use crossbeam_queue::protocol::Outcome;
use std::sync::Wait;

/// The lobby is first put in, by the one pass that there is.
pub fn begin<R: Wait>(rt: &R, place: &Place, pass: &mut PlacePass, laid: Laid)
    requires queue { IsPassOf place.now pass.old × (ruled_capacity place.now ≡ 1) }
    requires first { laid.position ≡ 0 }
    requires alone { ((view pass.old).alive ≡ true) × ((view pass.old).holds ≡ true)
        × ((view pass.old).worker ≡ new_worker 0 []) × ((view pass.old).handed ≡ 0) }
    ensures queue { IsSamePass pass.old pass.new }
    ensures opened { view pass.new ≡ opened (view pass.old) laid }
{
    match place.push_as::<Opening, R>(rt, pass, laid) {
        Ok(()) => {}
        Err(_) => unreachable!(),
    }
}

/// The lobby is put back, after these events. It finds the place empty, since this pass holds.
pub fn put_back<E: Happened, R: Wait>(
    rt: &R,
    place: &Place,
    pass: &mut PlacePass,
    laid: Laid,
    events: &Events,
)
    requires queue { IsPassOf place.now pass.old × (ruled_capacity place.now ≡ 1) }
    requires named { E.events ≡ events.now.events }
    requires holds { ((view pass.old).alive ≡ true) × ((view pass.old).holds ≡ true) }
    requires stands { IsLaidBy (view pass.old) events.now.events laid }
    ensures queue { IsSamePass pass.old pass.new }
    ensures gave { view pass.new ≡ gave (view pass.old) laid events.now.events }
{
    match place.push_as::<Giving<E>, R>(rt, pass, laid) {
        Ok(()) => {}
        Err(_) => unreachable!(),
    }
}

/// Waits for the lobby, and takes it by a step of this kind.
pub fn fetch<M: Outcome<Laid, View>, R: Wait>(
    rt: &R,
    place: &Place,
    event_count: &EventCount,
    pass: &mut PlacePass,
) -> Laid
    requires queue { IsPassOf place.now pass.old }
    requires rule { (place : ℕ) → Pops OneHistory place (view pass.old) (M.then (view pass.old)) }
    ensures queue { IsSamePass pass.old pass.new }
    ensures rule { M.then (view pass.old) result (view pass.new) }
{
    let mut looks = 0;
    for _ in rt.forever() {
        event_count.announce(looks);
        if let Some(laid) = place.try_pop_as::<M>(pass) {
            return laid;
        }
        looks = event_count.wait(rt, looks);
    }
    unreachable!()
}
