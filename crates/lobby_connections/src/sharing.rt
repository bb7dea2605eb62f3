//! Turns that share holds of the lobby: each connection is read without the lobby, then the lines of all are said and
//! each is drained in as few holds as can be, and then each is written.

ghost use Rattle.std.specs.Prelude.{◌≡◌, ◌≢◌, ◌<◌, ◌≤◌, ℕ, length, slice_index_or};
ghost use Rattle.lobby_lock.specs.Passes.{ShownPass, pass_after};
ghost use Rattle.lobby_holds.specs.Holds.{Stands};
ghost use Rattle.lobby_connections.specs.Claims.{KeepsNotes, claims_of};
ghost use Rattle.lobby_connections.specs.Joined.{keys_in};
ghost use Rattle.lobby_connections.specs.Shared.{AllStand, GoOn, IsHad, Seats, Serves, ServesAt};

use crate::connection::Connection;
use crate::connections::Connections;
use crate::seat::Seat;
use crate::serving::{finish_at, settle};
use crate::together::{Standing, TOGETHER, Together};
use lobby_lock::{Desk, Held, MOST_EVENTS, Pass};
use lobby_turns::{Buffers, Gate, GatedDesk, Link, Progress, gather, share_hold};
use slab::Slab;
use std::alloc::Global;
use std::sync::Wait;

/// The most events that a hold has before the lines of one connection more are said in it: then it has place for a
/// line and for what is drained behind it.
const MOST_BEFORE: usize = MOST_EVENTS - 9;

/// A connection's turn begins, and may tell so much: it is read, without the lobby. It waits where its client is only
/// to be shut.
fn gather_one<R: Wait, G: Gate>(
    rt: &R,
    connection: &mut Connection,
    desk: &GatedDesk<'_, G>,
    pass: Pass,
    allowance: u64,
) -> (Pass, Standing)
    requires { pass.desk ≡ desk.now.desk.now }
    ensures gathers { Serves pass connection.old pass connection.new pass allowance Standing.Waits result.1 }
    ensures pass { result.0 ≡ pass }
{
    if connection.is_over() || !connection.link.fresh() {
        return (pass, Standing::Waits);
    }
    let (conn, link) = (&mut connection.conn, &mut connection.link);
    let (pass, progress) = gather(rt, conn, link, desk.desk, pass, desk.gate, Some(allowance));
    (pass, Standing::Underway(progress))
}

/// The turn of the connection under a key begins, and may tell so much, with buffers that are lent to it.
fn gather_at<R: Wait, G: Gate>(
    rt: &R,
    seats: &mut Slab<Seat>,
    buffers: &mut Buffers,
    key: usize,
    desk: &GatedDesk<'_, G>,
    pass: Pass,
    allowance: u64,
) -> (Pass, Standing)
    requires { pass.desk ≡ desk.now.desk.now }
    ensures notes { KeepsNotes seats.old seats.new }
    ensures gathers { ServesAt pass seats.old pass seats.new pass allowance key Standing.Waits result.1 }
    ensures pass { result.0 ≡ pass }
{
    let Some(seat) = seats.get_mut(key) else {
        return (pass, Standing::Waits);
    };
    let connection = &mut seat.connection;
    connection.conn.lend(buffers);
    gather_one(rt, connection, desk, pass, allowance)
}

/// All are read, without the lobby, for whom there are buffers.
fn gather_all<R: Wait, G: Gate>(
    rt: &R,
    seats: &mut Slab<Seat>,
    buffers: &mut Vec<Buffers>,
    together: &mut Together,
    desk: &GatedDesk<'_, G>,
    pass: Pass,
) -> Pass
    requires { pass.desk ≡ desk.now.desk.now }
    ensures notes { KeepsNotes seats.old seats.new }
    ensures keys { keys_in together.new ≡ keys_in together.old }
    ensures allowance { together.new.allowance ≡ together.old.allowance }
    ensures gathers { (first : Seats)
        → AllStand first pass seats.old pass together.old.allowance (keys_in together.old) together.old.standings
        → AllStand first pass seats.new pass together.old.allowance (keys_in together.new) together.new.standings }
    ensures buffers { length buffers.new.items ≡ length buffers.old.items }
    ensures pass { result ≡ pass }
{
    let mut pass = pass;
    for place in 0..together.count() {
        let Some(lent) = buffers.get_mut(place) else {
            break;
        };
        let Standing::Waits = together.standing_at(place) else {
            continue;
        };
        let (key, allowance) = (together.key_at(place), together.allowance());
        let (next, standing) = gather_at(rt, seats, lent, key, desk, pass, allowance);
        pass = next;
        together.stand(place, standing);
    }
    pass
}

/// The connection under a key says its lines in a hold that goes on, and is drained behind them.
fn say_at<G: Gate>(
    seats: &mut Slab<Seat>,
    key: usize,
    held: &mut Held,
    gate: &G,
    progress: Progress,
    allowance: u64,
) -> Progress
    requires few { length held.old.events < MOST_EVENTS }
    requires stands { Stands held.old }
    ensures notes { KeepsNotes seats.old seats.new }
    ensures says { (start : ShownPass) (most : ℕ) → allowance ≤ most
        → ServesAt start seats.old (pass_after held.old) seats.new (pass_after held.new) most key
        (Standing.Underway progress) (Standing.Underway result) }
    ensures pass { held.new.pass ≡ held.old.pass }
{
    let Some(seat) = seats.get_mut(key) else {
        return progress;
    };
    let conn = &mut seat.connection.conn;
    share_hold(conn, held, gate, progress, Some(allowance))
}

/// The one in this place says its lines in a hold that goes on, if it has some.
fn speak_at<G: Gate>(
    seats: &mut Slab<Seat>,
    together: &mut Together,
    place: usize,
    held: &mut Held,
    gate: &G,
)
    requires place { place < length (keys_in together.old) }
    requires few { length held.old.events < MOST_EVENTS }
    requires stands { Stands held.old }
    ensures notes { KeepsNotes seats.old seats.new }
    ensures speaks { GoOn seats.old (pass_after held.old) together.old seats.new (pass_after held.new) together.new }
    ensures pass { held.new.pass ≡ held.old.pass }
{
    let Standing::Underway(progress) = together.standing_at(place) else {
        return;
    };
    if !progress.speaks() {
        return;
    }
    let (key, allowance) = (together.key_at(place), together.allowance());
    let progress = say_at(seats, key, held, gate, progress, allowance);
    together.stand(place, Standing::Underway(progress));
    together.spend(progress.told());
}

/// They say their lines in a hold that has none yet, from this place on, while it has place. The place behind the last.
fn speak_from<G: Gate>(
    seats: &mut Slab<Seat>,
    together: &mut Together,
    first: usize,
    held: &mut Held,
    gate: &G,
) -> usize
    requires stands { Stands held.old }
    ensures notes { KeepsNotes seats.old seats.new }
    ensures speaks { GoOn seats.old (pass_after held.old) together.old seats.new (pass_after held.new) together.new }
    ensures pass { held.new.pass ≡ held.old.pass }
{
    for place in first..together.count() {
        if held.count() > MOST_BEFORE {
            return place;
        }
        speak_at(seats, together, place, held, gate);
    }
    together.count()
}

/// The lines of all are said, and each is drained behind them.
fn speak_all<R: Wait, G: Gate>(
    rt: &R,
    seats: &mut Slab<Seat>,
    together: &mut Together,
    desk: &GatedDesk<'_, G>,
    pass: Pass,
) -> Pass
    requires { pass.desk ≡ desk.now.desk.now }
    ensures notes { KeepsNotes seats.old seats.new }
    ensures speaks { GoOn seats.old pass together.old seats.new result together.new }
    ensures desk { result.desk ≡ pass.desk }
    ensures number { result.worker.number ≡ pass.worker.number }
{
    let mut pass = pass;
    let mut next = 0;
    // each hold says the lines of one at least
    for _ in 0..together.count() {
        let Some(place) = together.speaker_from(next) else {
            break;
        };
        let mut held = desk.take(rt, pass);
        next = speak_from(seats, together, place, &mut held, desk.gate);
        pass = desk.give(rt, held);
    }
    pass
}

/// Makes buffers for all who share holds. False where memory is refused.
fn make_all(alloc: Global, buffers: &mut Vec<Buffers>) -> bool {
    for _ in buffers.len()..TOGETHER {
        if buffers.push(Buffers::new(alloc)).is_err() {
            return false;
        }
    }
    true
}

/// The turn of the one in this place goes on to its end, with these buffers.
fn finish_with<R: Wait, G: Gate>(
    rt: &R,
    seats: &mut Slab<Seat>,
    buffers: &mut Buffers,
    together: &mut Together,
    place: usize,
    desk: &GatedDesk<'_, G>,
    pass: Pass,
) -> Pass
    requires place { place < length (keys_in together.old) }
    requires desk { pass.desk ≡ desk.now.desk.now }
    ensures notes { KeepsNotes seats.old seats.new }
    ensures finishes { GoOn seats.old pass together.old seats.new result together.new }
    ensures had { IsHad (claims_of seats.old) together.new place }
    ensures others { (other : ℕ) → other ≢ place → slice_index_or together.new.standings other Standing.Waits
        ≡ slice_index_or together.old.standings other Standing.Waits }
    ensures desk { result.desk ≡ pass.desk }
    ensures number { result.worker.number ≡ pass.worker.number }
{
    let progress = match together.standing_at(place) {
        Standing::Waits => Progress::new(Some(together.allowance())),
        Standing::Underway(progress) => progress,
        Standing::Over(_) => return pass,
    };
    let key = together.key_at(place);
    let (desk, gate) = (desk.desk, desk.gate);
    let (pass, ended) = finish_at(rt, seats, buffers, key, desk, pass, gate, progress);
    settle(seats, buffers, key);
    if let Some(ended) = ended {
        together.stand(place, Standing::Over(ended));
    }
    pass
}

/// The turns of all go on to their ends for whom there are buffers.
fn finish_all<R: Wait, G: Gate>(
    rt: &R,
    seats: &mut Slab<Seat>,
    buffers: &mut Vec<Buffers>,
    together: &mut Together,
    desk: &GatedDesk<'_, G>,
    pass: Pass,
) -> Pass
    requires { pass.desk ≡ desk.now.desk.now }
    ensures notes { KeepsNotes seats.old seats.new }
    ensures finishes { GoOn seats.old pass together.old seats.new result together.new }
    ensures had { (place : ℕ) → place < length (keys_in together.old) → place < length buffers.old.items
        → IsHad (claims_of seats.old) together.new place }
    ensures desk { result.desk ≡ pass.desk }
    ensures number { result.worker.number ≡ pass.worker.number }
{
    let mut pass = pass;
    for place in 0..together.count() {
        let Some(lent) = buffers.get_mut(place) else {
            break;
        };
        pass = finish_with(rt, seats, lent, together, place, desk, pass);
    }
    pass
}

/// Those whose turns share holds get them, and may tell so much: all are read, without the lobby; then the lines of all
/// are said, and each is drained behind them, in few holds; and then each is written, and its turn goes on to its end.
/// For whom there are no buffers, the turn does not begin.
///
/// What a turn by itself does holds of each, whatever the worker does for the others meanwhile.
fn serve_together<R: Wait, G: Gate>(
    rt: &R,
    seats: &mut Slab<Seat>,
    buffers: &mut Vec<Buffers>,
    together: &mut Together,
    desk: &GatedDesk<'_, G>,
    pass: Pass,
    allowance: u64,
) -> Pass
    requires { pass.desk ≡ desk.now.desk.now }
    ensures notes { KeepsNotes seats.old seats.new }
    ensures keys { keys_in together.new ≡ keys_in together.old }
    ensures turns { AllStand seats.old pass seats.new result allowance (keys_in together.new) together.new.standings }
    ensures had { (place : ℕ) → place < length (keys_in together.old) → place < length buffers.old.items
        → IsHad (claims_of seats.old) together.new place }
    ensures desk { result.desk ≡ pass.desk }
    ensures number { result.worker.number ≡ pass.worker.number }
{
    together.begin(allowance);
    let pass = gather_all(rt, seats, buffers, together, desk, pass);
    let pass = speak_all(rt, seats, together, desk, pass);
    finish_all(rt, seats, buffers, together, desk, pass)
}

impl Connections {
    /// Whether turns can share holds: there is memory for the buffers that they take.
    pub fn may_share(&mut self) -> bool
        ensures { self.new ≡ self.old }
    {
        make_all(self.alloc, &mut self.more_buffers)
    }

    /// Those whose turns share holds get them, and may tell as much as is left of the round.
    pub fn serve_together<R: Wait, G: Gate>(
        &mut self,
        rt: &R,
        together: &mut Together,
        desk: &Desk,
        pass: Pass,
        gate: &G,
    ) -> Pass
        requires { pass.desk ≡ desk.now }
        ensures table { self.new ≡ self.old }
        ensures keys { keys_in together.new ≡ keys_in together.old }
        ensures desk { result.desk ≡ pass.desk }
        ensures number { result.worker.number ≡ pass.worker.number }
    {
        let allowance = self.allowance();
        let gated = GatedDesk { desk, gate };
        let (seats, buffers) = (&mut self.slab, &mut self.more_buffers);
        serve_together(rt, seats, buffers, together, &gated, pass, allowance)
    }
}
