//! A connection's turn over its link.
//!
//! What tells that a connection had a turn is made here alone, so that no turn is taken for had that was not.

ghost use Rattle.std.specs.Prelude.{◌≡◌, ◌+◌, ◌-◌, ◌^◌, ◌||◌, ℕ, List, false, min, None, IfSome};
ghost use Rattle.lobby_post.specs.Mask.{has_home};
ghost use Rattle.lobby_lock.specs.Passes.{ShownPass};
ghost use Rattle.lobby_holds.specs.Snapshot.{Snapshot};
ghost use Rattle.lobby_holds.specs.Wire.{IsFresh};
ghost use Rattle.lobby_turns.specs.Receiving.{IsServed};
ghost use Rattle.lobby_turns.specs.Turned.{IsUnderway, Turned};
ghost use Rattle.lobby_connections.specs.Claims.{KeepsNotes, claims_of, note_at};
ghost use Rattle.lobby_connections.specs.Shared.{HadTurn, ServesAt, seen};
ghost use Rattle.lobby_connections.specs.declared.together.Standing.TheVariants as standing;

use crate::connection::Connection;
use crate::seat::Seat;
use lobby_lock::{Desk, Pass};
use lobby_machine::Wakes;
use lobby_turns::{
    Buffers, Gate, Link, Progress, SendState, Turn, TurnState, close, finish, give_up_unread,
    send_rest,
};
use slab::Slab;
use std::marker::Model;
use std::sync::Wait;

/// What a turn came to.
#[derive(Clone, Copy)]
pub(crate) struct Ended {
    turn: Turn,
    told: u64,
    // how many writes it made
    writes: u64,
}

/// A turn that a connection had.
#[derive(Drop)]
pub struct Served {
    key: usize,
    ended: Ended,
}

impl Model for Served {
    ghost use Rattle.lobby_connections.specs.Had.{Had};

    ghost Value = { Had };

    ghost view = { λ s. record {
      key = s.key;
      state = s.ended.turn.state;
      wakes = s.ended.turn.wakes;
      told = s.ended.told;
    } };
}

impl Served {
    /// The turn of the connection under a key, which came to this.
    pub(crate) fn new(key: usize, ended: Ended) -> Served
        ensures { result ≡ record {
          key = key;
          state = ended.turn.state;
          wakes = ended.turn.wakes;
          told = ended.told;
        } }
    {
        Served { key, ended }
    }

    /// The key of its connection.
    pub fn key(&self) -> usize
        ensures { result ≡ self.now.key }
    {
        self.key
    }

    /// How the connection stands behind it.
    pub fn state(&self) -> TurnState
        ensures { result ≡ self.now.state }
    {
        self.ended.turn.state
    }

    /// The workers whose clients it touched.
    pub fn wakes(&self) -> Wakes
        ensures { result ≡ self.now.wakes }
    {
        self.ended.turn.wakes
    }

    /// How much it told.
    pub fn told(&self) -> u64
        ensures { result ≡ self.now.told }
    {
        self.ended.told
    }

    /// How many writes it made.
    pub fn writes(&self) -> u64 {
        self.ended.writes
    }

    /// This turn, and what it came to when it went on.
    pub fn and(self, more: Served) -> Served
        ensures key { result.key ≡ self.key }
        ensures state { result.state ≡ more.state }
        ensures wakes { (home : ℕ) → has_home result.wakes home
            ≡ (has_home self.wakes home || has_home more.wakes home) }
        ensures told { result.told ≡ min (self.told + more.told) (2 ^ 64 - 1) }
    {
        let (first, next) = (self.ended, more.ended);
        let turn = Turn {
            state: next.turn.state,
            wakes: first.turn.wakes.union(next.turn.wakes),
        };
        let ended = Ended {
            turn,
            told: first.told.saturating_add(next.told),
            writes: first.writes.saturating_add(next.writes),
        };
        Served {
            key: self.key,
            ended,
        }
    }
}

/// The turn of a connection that has come so far goes on to its end, and says how much it told. The client of a link
/// that has no room for a turn is shut.
fn finish_or_shut<R: Wait, G: Gate>(
    rt: &R,
    connection: &mut Connection,
    desk: &Desk,
    pass: Pass,
    gate: &G,
    progress: Progress,
) -> (Pass, Turn, u64)
    requires { pass.desk ≡ desk.now }
    ensures turned { (old : Snapshot) → connection.old.is_over ≡ false → IsFresh connection.new.link
        → IsUnderway old (seen old.others connection.old pass) progress
        → Turned old (seen old.others connection.new result.0) progress.allowance result.1 result.2 }
    ensures serves { IsServed connection.old.conn connection.new.conn pass result.0 }
    ensures desk { result.0.desk ≡ pass.desk }
    ensures number { result.0.worker.number ≡ pass.worker.number }
{
    if connection.is_over() || !connection.link.fresh() {
        return close(rt, &connection.conn, desk, pass, gate, Wakes::none());
    }
    let (conn, link) = (&mut connection.conn, &mut connection.link);
    finish(rt, conn, link, desk, pass, gate, progress)
}

/// The same. Where a link is gone and memory was refused, what waits for its client is let go, and from then on the
/// client is not served but only shut.
fn serve_or_shut<R: Wait, G: Gate>(
    rt: &R,
    connection: &mut Connection,
    desk: &Desk,
    pass: Pass,
    gate: &G,
    progress: Progress,
) -> (Pass, Turn, u64)
    requires { pass.desk ≡ desk.now }
    ensures had { (old : Snapshot) → connection.old.is_over ≡ false → IsFresh connection.new.link
        → IsUnderway old (seen old.others connection.old pass) progress
        → HadTurn old connection.new result.0 progress.allowance result.1 result.2 }
    ensures serves { IsServed connection.old.conn connection.new.conn pass result.0 }
    ensures desk { result.0.desk ≡ pass.desk }
    ensures number { result.0.worker.number ≡ pass.worker.number }
{
    let (pass, turn, told) = finish_or_shut(rt, connection, desk, pass, gate, progress);
    if turn.state != TurnState::Memory {
        return (pass, turn, told);
    }
    if !connection.refuse() {
        return (pass, turn, told);
    }
    let pass = give_up_unread(rt, &connection.conn, desk, pass, gate);
    (pass, turn, told)
}

/// The turn of the connection under a key that has come so far goes on to its end, with buffers that are lent to it.
/// None where there is no connection.
pub(crate) fn finish_at<R: Wait, G: Gate>(
    rt: &R,
    seats: &mut Slab<Seat>,
    buffers: &mut Buffers,
    key: usize,
    desk: &Desk,
    pass: Pass,
    gate: &G,
    progress: Progress,
) -> (Pass, Option<Ended>)
    requires { pass.desk ≡ desk.now }
    ensures notes { KeepsNotes seats.old seats.new }
    ensures none { result.1 ≡ None → note_at (claims_of seats.old) key ≡ None }
    ensures gone { result.1 ≡ None → (seats.new ≡ seats.old) × (result.0 ≡ pass) }
    ensures serves { IfSome result.1 (λ ended. (start : ShownPass) (most : ℕ)
        → ServesAt start seats.old pass seats.new result.0 most key
        (standing.Underway progress) (standing.Over ended)) }
    ensures desk { result.0.desk ≡ pass.desk }
    ensures number { result.0.worker.number ≡ pass.worker.number }
{
    let Some(seat) = seats.get_mut(key) else {
        return (pass, None);
    };
    let connection = &mut seat.connection;
    connection.conn.lend(buffers);
    let written = connection.link.writes();
    let (pass, turn, told) = serve_or_shut(rt, connection, desk, pass, gate, progress);
    let ended = Ended {
        turn,
        told,
        writes: connection.link.writes().wrapping_sub(written),
    };
    (pass, Some(ended))
}

/// The connection under a key has a turn, in which it may tell so much, with buffers that are lent to it. None where
/// there is no connection.
pub(crate) fn serve<R: Wait, G: Gate>(
    rt: &R,
    seats: &mut Slab<Seat>,
    buffers: &mut Buffers,
    key: usize,
    desk: &Desk,
    pass: Pass,
    gate: &G,
    allowance: u64,
) -> (Pass, Option<Served>)
    requires { pass.desk ≡ desk.now }
    ensures notes { KeepsNotes seats.old seats.new }
    ensures key { IfSome result.1 (λ had. had.key ≡ key) }
    ensures none { result.1 ≡ None → note_at (claims_of seats.old) key ≡ None }
    ensures desk { result.0.desk ≡ pass.desk }
    ensures number { result.0.worker.number ≡ pass.worker.number }
{
    let progress = Progress::new(Some(allowance));
    let (pass, ended) = finish_at(rt, seats, buffers, key, desk, pass, gate, progress);
    match ended {
        Some(ended) => (pass, Some(Served::new(key, ended))),
        None => (pass, None),
    }
}

/// Takes back the buffers that were lent to the connection under a key.
pub(crate) fn settle(seats: &mut Slab<Seat>, buffers: &mut Buffers, key: usize)
    ensures { seats.new ≡ seats.old }
{
    if let Some(seat) = seats.get_mut(key) {
        seat.connection.conn.settle(buffers);
    }
}

/// Sends to a client what waits for it, and notes whether that was all. To one whose link is gone there is nothing to
/// send.
fn send_out<R: Wait, G: Gate>(
    rt: &R,
    connection: &mut Connection,
    desk: &Desk,
    pass: Pass,
    gate: &G,
) -> Pass
    requires { pass.desk ≡ desk.now }
    ensures desk { result.desk ≡ pass.desk }
    ensures number { result.worker.number ≡ pass.worker.number }
{
    if connection.is_over() || !connection.link.fresh() {
        connection.is_told = true;
        return pass;
    }
    let (conn, link) = (&mut connection.conn, &mut connection.link);
    let (pass, sent) = send_rest(rt, conn, link, desk, pass, gate);
    connection.is_told = match sent {
        SendState::All | SendState::Fault => true,
        SendState::Finished => connection.conn.is_written(),
        SendState::WouldBlock | SendState::Again | SendState::Memory => false,
    };
    if matches!(sent, SendState::Finished) {
        connection.conn.finish();
    }
    pass
}

/// Sends to the client of the connection under a key what waits for it, if there is one, and does nothing else.
pub(crate) fn send_at<R: Wait, G: Gate>(
    rt: &R,
    seats: &mut Slab<Seat>,
    buffers: &mut Buffers,
    key: usize,
    desk: &Desk,
    pass: Pass,
    gate: &G,
) -> Pass
    requires { pass.desk ≡ desk.now }
    ensures notes { KeepsNotes seats.old seats.new }
    ensures desk { result.desk ≡ pass.desk }
    ensures number { result.worker.number ≡ pass.worker.number }
{
    let Some(seat) = seats.get_mut(key) else {
        return pass;
    };
    let connection = &mut seat.connection;
    connection.conn.lend(buffers);
    let pass = send_out(rt, connection, desk, pass, gate);
    connection.conn.settle(buffers);
    pass
}
