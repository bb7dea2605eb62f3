//! The desk on which the lobby lies.

ghost use Rattle.std.specs.Prelude.{◌≡◌, ℕ, ◌+◌, ◌<◌, ◌≤◌, ◌↔◌, [], ◌∷◌, false, IfOk, IfErr};
ghost use Rattle.std.specs.List.{AllByRecursion};
ghost use Rattle.lobby_lock.specs.History.{after_history, made_by, Begins};
ghost use Rattle.lobby_lock.specs.Rule.{Agree, seen_by};
ghost use Rattle.lobby_lock.specs.Counts.{PlacesAre};
ghost use Rattle.lobby_lock.specs.Passes.{first_pass, new_pass};
ghost use Rattle.lobby_lock.specs.Closing.{IsOut};
ghost use Rattle.lobby_lock.specs.declared.closing.CloseError.TheVariants.{StillOut};

use crate::closing::{CloseError, Closing, first_out};
use crate::event_count::EventCount;
use crate::events::Events;
use crate::held::Held;
use crate::kept::Kept;
use crate::laid::Laid;
use crate::pass::{Counts, Pass};
use crate::place::{begin, fetch};
use crate::rule::{HandingOut, LastBack, Place, Taking, TakingBack, TakingForGood};
use lobby_machine::Lobby;
use lobby_model::WORKERS;
use std::alloc::{AllocError, Global};
use std::marker::Model;
use std::sync::Wait;
use thiserror::Error;

/// How many passes are handed out at most: one for each worker but worker 0.
pub const MOST_HANDED_OUT: u8 = WORKERS - 1;

/// How many events a hold has at most: who waits for the lobby gets it behind so many.
pub const MOST_EVENTS: usize = 32;

/// How many bytes go from worker to worker when the lobby is handed over: its address, and the number of events so far.
pub const HANDED_OVER: usize = size_of::<Laid>();

const _: () = prove!(HANDED_OVER == size_of::<usize>() + size_of::<u64>());

/// How many places for counts worker 0's pass has: one for each number, its own among them.
const PLACES: usize = WORKERS as usize;

/// Why a desk was not opened, or a pass not handed out.
#[derive(Clone, Copy, PartialEq, Eq, Debug, Error)]
pub enum DeskError {
    /// Memory was refused.
    #[error("no memory")]
    Memory,
    /// 63 passes were handed out.
    #[error("too many workers")]
    TooManyWorkers,
}

/// The desk on which a lobby lies for all workers. Each in turn takes it, makes events, and gives it
/// back. Contracts see a desk as its name, which each of its passes bears.
pub struct Desk {
    pub(crate) place: Place,
    pub(crate) event_count: EventCount,
}

impl Drop for Desk {
    /// Who lets a desk go calls this, and need not know what it is made of.
    fn drop(self) {
        let Desk { place, event_count } = self;
        drop(place);
        drop(event_count);
    }
}

impl Model for Desk {
    ghost use Rattle.std.specs.Prelude.{◌≡◌};
    ghost use Rattle.atomic_table.specs.Seated.{TableId};
    ghost use Rattle.crossbeam_queue.specs.Passes.{ruled_capacity};

    ghost Value = { TableId };

    ghost view = { λ d. d.place.table.shared.table_id };

    ghost invariant = { λ d. ruled_capacity d.place ≡ 1 };
}

impl Desk {
    /// Lays a lobby on a new desk. The pass is worker 0's. Fails only where memory is refused.
    pub fn open<R: Wait>(rt: &R, alloc: Global, lobby: Lobby) -> Result<(Desk, Pass), DeskError>
        ensures pass { IfOk result (λ r. r.1 ≡ first_pass r.0 lobby) }
        ensures refused { IfErr result (λ error. error ≡ DeskError.Memory) }
    {
        let Ok(places) = no_counts(alloc) else {
            return Err(DeskError::Memory);
        };
        let Ok((place, mut inner)) = Place::ruled(alloc, 1) else {
            return Err(DeskError::Memory);
        };
        let laid = Laid { lobby, position: 0 };
        begin(rt, &place, &mut inner, laid);
        let event_count = EventCount::new();
        let pass = Pass {
            inner,
            number: 0,
            handed: 0,
            counts: Counts { made: 0, places },
            kept: Kept::nothing(),
        };
        Ok((Desk { place, event_count }, pass))
    }

    /// A pass for one worker more, which bears the next number and has seen what worker 0 has. Worker
    /// 0's pass comes back with it, and as it was where no pass is handed out: after 63 alone.
    pub fn hand_out(&self, alloc: Global, pass: Pass) -> Result<(Pass, Pass), (Pass, DeskError)>
        requires desk { pass.desk ≡ self.now }
        requires first { pass.worker.number ≡ 0 }
        ensures giver { IfOk result (λ r. r.0 ≡ record pass { handed = pass.handed + 1 }) }
        ensures newcomer { IfOk result (λ r. r.1 ≡ new_pass pass) }
        ensures few { IfOk result (λ r. pass.handed < MOST_HANDED_OUT) }
        ensures refused { IfErr result (λ e.
            (e.0 ≡ pass) × (e.1 ≡ DeskError.TooManyWorkers) × (MOST_HANDED_OUT ≤ pass.handed)) }
    {
        if pass.handed >= MOST_HANDED_OUT {
            return Err((pass, DeskError::TooManyWorkers));
        }
        let Pass {
            mut inner,
            number,
            handed,
            counts,
            kept,
        } = pass;
        let other = self.place.another::<HandingOut>(&mut inner);
        let giver = Pass {
            inner,
            number,
            handed: handed + 1,
            counts,
            kept,
        };
        let newcomer = Pass {
            inner: other,
            number: handed + 1,
            handed: 0,
            counts: Counts {
                made: 0,
                places: Vec::new(alloc),
            },
            kept: Kept::nothing(),
        };
        Ok((giver, newcomer))
    }

    /// Takes back the pass of a worker that has ended. One of the two workers has seen all that the
    /// other has, and in it the events of each are just those that it made. Worker 0's pass keeps
    /// what was known of the other.
    pub fn take_back(&self, pass: Pass, ended: Pass) -> Pass
        requires desk { (pass.desk ≡ self.now) × (ended.desk ≡ self.now) }
        requires first { pass.worker.number ≡ 0 }
        ensures pass { result ≡ record pass { taken_back = ended.worker ∷ pass.taken_back } }
        ensures agree { Agree pass.worker ended.worker }
        ensures handed_out { (1 ≤ ended.worker.number) × (ended.worker.number ≤ pass.handed) }
    {
        let Pass {
            mut inner,
            number,
            handed,
            counts: Counts { made, mut places },
            kept,
        } = pass;
        let Pass {
            inner: other,
            number: place,
            handed: _,
            counts: theirs,
            kept: room,
        } = ended;
        drop(room);
        self.place.absorb::<TakingBack>(&mut inner, other);
        self.place.learn_as::<LastBack>(&mut inner);
        places[place as usize] = Some(theirs.made);
        Pass {
            inner,
            number,
            handed,
            counts: Counts { made, places },
            kept,
        }
    }

    /// Takes the lobby, and waits while another worker holds it. It is then the plain lobby after the
    /// history so far, all of which the worker has now seen. Its lists of changed clients are those that lay
    /// on the desk.
    pub fn take<R: Wait>(&self, rt: &R, pass: Pass) -> Held
        requires { pass.desk ≡ self.now }
        ensures pass { result.pass ≡ record pass
            { on_desk = result.lobby; worker = seen_by pass.worker result.pass.worker.seen } }
        ensures later { Begins pass.worker.seen result.pass.worker.seen }
        ensures own { made_by pass.worker.number result.pass.worker.seen ≡ pass.worker.mine }
        ensures known { made_by pass.worker.number pass.worker.seen ≡ pass.worker.mine }
        ensures stands { result.lobby.plain ≡ after_history pass.start result.pass.worker.seen }
        ensures fresh { result.events ≡ [] }
    {
        let Pass {
            mut inner,
            number,
            handed,
            counts,
            kept,
        } = pass;
        let laid = fetch::<Taking, R>(rt, &self.place, &self.event_count, &mut inner);
        let Laid { lobby, position } = laid;
        Held {
            inner,
            number,
            handed,
            lobby,
            events: Events::new(position, kept),
            counts,
        }
    }

    /// Closes the desk with worker 0's pass: takes the lobby for good, and waits while another holds
    /// it. The history has then of each worker just the events that the pass knows as that worker's,
    /// and no others. It takes no memory. Fails only while a pass that was handed out was not taken
    /// back, and then gives all back as it was.
    pub fn close<R: Wait>(self, rt: &R, pass: Pass) -> Result<Closing, (Desk, Pass, CloseError)>
        requires desk { pass.desk ≡ self }
        requires first { pass.worker.number ≡ 0 }
        ensures pass { IfOk result (λ closing.
            closing.pass ≡ record pass {
              on_desk = closing.lobby;
              worker = seen_by pass.worker closing.pass.worker.seen;
              keeps = false;
            }) }
        ensures later { IfOk result (λ closing. Begins pass.worker.seen closing.pass.worker.seen) }
        ensures stands { IfOk result (λ closing.
            closing.lobby.plain ≡ after_history pass.start closing.pass.worker.seen) }
        ensures own { IfOk result (λ closing. made_by 0 closing.pass.worker.seen ≡ pass.worker.mine) }
        ensures taken_back { IfOk result (λ closing.
            AllByRecursion (λ worker. made_by worker.number closing.pass.worker.seen ≡ worker.mine) pass.taken_back) }
        ensures all_back { IfOk result (λ closing. (number : ℕ) → IsOut pass number → ⊥) }
        ensures refused { IfErr result (λ e. (e.0 ≡ self) × (e.1 ≡ pass)) }
        ensures out { IfErr result (λ e. (number : ℕ) × (e.2 ≡ StillOut number) × IsOut pass number
            × ((k : ℕ) → IsOut pass k → number ≤ k)) }
    {
        if let Some(number) = first_out(pass.counts.places.as_slice(), pass.handed) {
            return Err((self, pass, CloseError::StillOut(number)));
        }
        let Pass {
            mut inner,
            number: _,
            handed,
            counts,
            kept,
        } = pass;
        drop(kept);
        let laid = fetch::<TakingForGood, R>(rt, &self.place, &self.event_count, &mut inner);
        let Laid { lobby, position: _ } = laid;
        drop(self);
        Ok(Closing {
            inner,
            handed,
            lobby,
            counts,
        })
    }
}

/// A place for each number, of which none has a count. Fails only where memory is refused.
fn no_counts(alloc: Global) -> Result<Vec<Option<u64>>, AllocError>
    ensures { IfOk result (λ places. PlacesAre places.items []) }
{
    let mut places = Vec::with_capacity(alloc, PLACES)?;
    for _ in 0..PLACES {
        places.push_reserved(None);
    }
    Ok(places)
}
