//! A turn of a connection.

ghost use Rattle.std.specs.Prelude.{◌≡◌, ◌≢◌, ◌⊎◌, ℕ, ◌<◌, List, [], length, IfSome, Some, None, false};
ghost use Rattle.lobby_lock.specs.Passes.{pass_after};
ghost use Rattle.lobby_holds.specs.Wire.{Wire, IsFresh};
ghost use Rattle.lobby_holds.specs.Snapshot.{Snapshot, among, snapshot};
ghost use Rattle.lobby_holds.specs.Holds.{Stands};
ghost use Rattle.lobby_turns.specs.Receiving.{IsReceived, IsServed, ReceivesThenDrains, share_of};
ghost use Rattle.lobby_turns.specs.Sending.{MaySend, Sends};
ghost use Rattle.lobby_turns.specs.Turned.{IsUnderway, Turned, Closes};

use crate::receiving::{ReceiveState, Received, Receiving, Stage, receive, speak};
use crate::sending::{SendState, send};
use lobby_holds::holds::{self, Chunk};
use lobby_holds::{Conn, Gate, GatedDesk, Got, Link, Turn, TurnState};
use lobby_lock::{Desk, Held, MOST_EVENTS, Pass};
use lobby_machine::Wakes;
use std::sync::Wait;

/// The state that a turn ends in, by how far it received and sent. None where the client is to be shut.
fn state_of(last_got: Option<Got>, received: ReceiveState, sent: SendState) -> Option<TurnState>
    ensures shut { result ≡ None → (sent ≡ SendState.Finished)
        ⊎ ((sent ≡ SendState.Fault) ⊎ ((received ≡ ReceiveState.Stop)
        ⊎ ((received ≡ ReceiveState.All) × (sent ≡ SendState.All) × (last_got ≡ Some Got.End)))) }
    ensures idle { result ≡ Some TurnState.Idle
        → (received ≡ ReceiveState.All) × ((sent ≡ SendState.WouldBlock)
        ⊎ ((sent ≡ SendState.All) × (last_got ≢ Some Got.End))) }
    ensures goes_on { result ≢ None → (received ≢ ReceiveState.Stop) × (sent ≢ SendState.Finished)
        × (sent ≢ SendState.Fault) }
    ensures again { result ≡ Some TurnState.Again
        → ((received ≡ ReceiveState.Again) ⊎ (sent ≡ SendState.Again)) × (received ≢ ReceiveState.Memory)
        × (sent ≢ SendState.Memory) }
    ensures memory { result ≡ Some TurnState.Memory → (received ≡ ReceiveState.Memory) ⊎ (sent ≡ SendState.Memory) }
    ensures closed { result ≢ Some TurnState.Closed }
{
    match (received, sent) {
        (ReceiveState::Stop, _) | (_, SendState::Finished) | (_, SendState::Fault) => None,
        (ReceiveState::Memory, _) | (_, SendState::Memory) => Some(TurnState::Memory),
        (ReceiveState::Again, _) | (_, SendState::Again) => Some(TurnState::Again),
        (ReceiveState::All, SendState::WouldBlock) => Some(TurnState::Idle),
        (ReceiveState::All, SendState::All) => match last_got {
            Some(Got::End) => None,
            Some(Got::Bytes(_)) | Some(Got::Later) | Some(Got::Fault) | None => {
                Some(TurnState::Idle)
            }
        },
    }
}

/// Notes, for operators, a client of which the lobby said that nothing will ever come.
fn note_end(conn: &mut Conn, sent: SendState)
    ensures { conn.new ≡ conn.old }
{
    if matches!(sent, SendState::Finished) {
        conn.finish();
    }
}

/// Shuts the client of a connection, in a hold of its own. The state is `Closed`, and the workers whose clients that
/// touched are to be woken besides these. Where memory is refused, the client is not shut, and the state is `Memory`.
/// Says how much the shut told, too, as the lobby counts it: nothing where it was refused.
pub fn close<R: Wait, G: Gate>(
    rt: &R,
    conn: &Conn,
    desk: &Desk,
    pass: Pass,
    gate: &G,
    wakes: Wakes,
) -> (Pass, Turn, u64)
    requires { pass.desk ≡ desk.now }
    ensures closes { (others : List ℕ) (wire : Wire) → Closes (among others conn.now wire pass)
        (among others conn.now wire result.0) wakes result.1 result.2 }
    ensures desk { result.0.desk ≡ pass.desk }
    ensures number { result.0.worker.number ≡ pass.worker.number }
{
    let gated = GatedDesk { desk, gate };
    let (pass, shut, told) = holds::shut(rt, conn, &gated, pass);
    match shut {
        Ok(more) => {
            let turn = Turn {
                state: TurnState::Closed,
                wakes: wakes.union(more),
            };
            (pass, turn, told)
        }
        Err(_) => {
            let turn = Turn {
                state: TurnState::Memory,
                wakes,
            };
            (pass, turn, told)
        }
    }
}

/// Serves a connection for one turn: its lines are said to the lobby, up to 32 in a hold, and its link is
/// read where no whole line is left; then what the lobby has for its client is drained, up to four
/// pieces of at most 4,096 bytes in a hold, and written. A hold whose piece is the last also sees that
/// nothing is left. A turn makes at most 16 reads, of 16,384 bytes at most and 65,536 in all, 64 lines
/// and 16 writes, and nothing in it waits but the desk.
///
/// The client is shut, as the last event of the turn, where its stream is spoilt at the place that is
/// next, its link failed, the lobby said that nothing will ever come of it, or its link has ended and
/// nothing is left to do on either side.
pub fn serve<R: Wait, L: Link, G: Gate>(
    rt: &R,
    conn: &mut Conn,
    link: &mut L,
    desk: &Desk,
    pass: Pass,
    gate: &G,
) -> (Pass, Turn)
    requires desk { pass.desk ≡ desk.now }
    requires fresh { IsFresh (L.wire link.old) }
    ensures turned { (told : ℕ) × Turned (snapshot conn.old (L.wire link.old) pass)
        (snapshot conn.new (L.wire link.new) result.0) None result.1 told }
    ensures desk { result.0.desk ≡ pass.desk }
    ensures number { result.0.worker.number ≡ pass.worker.number }
{
    let (pass, turn, _) = serve_within(rt, conn, link, desk, pass, gate, None);
    (pass, turn)
}

/// Serves a connection for one turn, as [`serve`] does, with one limit more: once its lines told as much as it may
/// tell, if there is a bound, the turn says only lines that tell nobody else, or one user, and ends before any other.
/// Says how much it told, too, as the lobby counts it.
pub fn serve_within<R: Wait, L: Link, G: Gate>(
    rt: &R,
    conn: &mut Conn,
    link: &mut L,
    desk: &Desk,
    pass: Pass,
    gate: &G,
    allowance: Option<u64>,
) -> (Pass, Turn, u64)
    requires desk { pass.desk ≡ desk.now }
    requires fresh { IsFresh (L.wire link.old) }
    ensures turned { Turned (snapshot conn.old (L.wire link.old) pass) (snapshot conn.new (L.wire link.new) result.0)
        allowance result.1 result.2 }
    ensures desk { result.0.desk ≡ pass.desk }
    ensures number { result.0.worker.number ≡ pass.worker.number }
{
    finish(rt, conn, link, desk, pass, gate, Progress::new(allowance))
}

/// How far a turn has come that shares holds with others.
///
/// A worker gathers what several clients sent ([`gather`]), says the lines of all in as few holds as can be
/// ([`share_hold`]), and then finishes each turn by itself ([`finish`]). What is proved of a turn holds of each of
/// them, whatever the worker does for the others meanwhile.
#[derive(Clone, Copy)]
pub struct Progress {
    allowance: Option<u64>,
    stage: Stage,
}

impl Progress {
    /// A turn that begins, and may tell so much, if there is a bound.
    pub fn new(allowance: Option<u64>) -> Progress
        ensures begins { (at : Snapshot) → IsUnderway at at result }
        ensures allowance { result.allowance ≡ allowance }
    {
        Progress {
            allowance,
            stage: Stage::Receives(Receiving::new()),
        }
    }

    /// Whether it has lines for the lobby.
    pub fn speaks(&self) -> bool {
        matches!(self.stage, Stage::Receives(_))
    }

    /// How much its lines told.
    pub fn told(&self) -> u64 {
        match self.stage {
            Stage::Receives(at) => at.all.told,
            Stage::Received(_, all, _) => all.told,
        }
    }
}

/// A turn begins, and may tell so much, if there is a bound: its link is read, and what it gives is fed, as far as no
/// line is to be said before. The lobby is not taken.
pub fn gather<R: Wait, L: Link, G: Gate>(
    rt: &R,
    conn: &mut Conn,
    link: &mut L,
    desk: &Desk,
    pass: Pass,
    gate: &G,
    allowance: Option<u64>,
) -> (Pass, Progress)
    requires desk { pass.desk ≡ desk.now }
    requires fresh { IsFresh (L.wire link.old) }
    ensures gathers { (others : List ℕ) → IsUnderway (among others conn.old (L.wire link.old) pass)
        (among others conn.new (L.wire link.new) result.0) result.1 }
    ensures allowance { result.1.allowance ≡ allowance }
    ensures serves { IsServed conn.old conn.new pass result.0 }
    ensures pass { result.0 ≡ pass }
{
    let gated = GatedDesk { desk, gate };
    let from = Receiving::new();
    let (pass, stage) = receive(rt, conn, link, &gated, pass, allowance, from, false);
    (pass, Progress { allowance, stage })
}

/// Says the next lines of a turn to the lobby in a hold that goes on and has place for one, and drains for its client
/// behind them where none is left. From now on it may tell so much, if there is a bound.
pub fn share_hold<G: Gate>(
    conn: &mut Conn,
    held: &mut Held,
    gate: &G,
    progress: Progress,
    allowance: Option<u64>,
) -> Progress
    requires few { length held.old.events < MOST_EVENTS }
    requires stands { Stands held.old }
    ensures shares { (old : Snapshot) (wire : Wire)
        → IsUnderway old (among old.others conn.old wire (pass_after held.old)) progress
        → IsUnderway old (among old.others conn.new wire (pass_after held.new)) result }
    ensures allowance { (result.allowance ≡ allowance) ⊎ (result.allowance ≡ progress.allowance) }
    ensures serves { IsServed conn.old conn.new (pass_after held.old) (pass_after held.new) }
    ensures pass { held.new.pass ≡ held.old.pass }
{
    match progress.stage {
        Stage::Receives(at) => {
            let stage = speak(conn, held, gate, allowance, at);
            Progress { allowance, stage }
        }
        Stage::Received(_, _, _) => progress,
    }
}

/// A turn goes on to its end.
pub fn finish<R: Wait, L: Link, G: Gate>(
    rt: &R,
    conn: &mut Conn,
    link: &mut L,
    desk: &Desk,
    pass: Pass,
    gate: &G,
    progress: Progress,
) -> (Pass, Turn, u64)
    requires desk { pass.desk ≡ desk.now }
    requires fresh { IsFresh (L.wire link.old) }
    ensures turned { (old : Snapshot)
        → IsUnderway old (among old.others conn.old (L.wire link.old) pass) progress
        → Turned old (among old.others conn.new (L.wire link.new) result.0) progress.allowance result.1 result.2 }
    ensures serves { IsServed conn.old conn.new pass result.0 }
    ensures desk { result.0.desk ≡ pass.desk }
    ensures number { result.0.worker.number ≡ pass.worker.number }
{
    let gated = GatedDesk { desk, gate };
    let (pass, received, all, drained) = receive_rest(rt, conn, link, &gated, pass, progress);
    let (pass, sent) = send(rt, conn, link, &gated, pass, drained);
    match state_of(link.last_got(), received, sent) {
        Some(state) => {
            let turn = Turn {
                state,
                wakes: all.wakes,
            };
            (pass, turn, all.told)
        }
        None => {
            note_end(conn, sent);
            let (pass, turn, told) = close(rt, conn, desk, pass, gate, all.wakes);
            (pass, turn, all.told.saturating_add(told))
        }
    }
}

/// The half of a turn that receives goes on to its end.
fn receive_rest<R: Wait, L: Link, G: Gate>(
    rt: &R,
    conn: &mut Conn,
    link: &mut L,
    desk: &GatedDesk<'_, G>,
    pass: Pass,
    progress: Progress,
) -> (Pass, ReceiveState, Received, Option<Chunk>)
    requires desk { pass.desk ≡ desk.now.desk.now }
    requires fresh { IsFresh (L.wire link.old) }
    ensures receives { (old : Snapshot)
        → IsUnderway old (among old.others conn.old (L.wire link.old) pass) progress
        → ReceivesThenDrains old (among old.others conn.new (L.wire link.new) result.0)
        (share_of progress.allowance result.2.told) result.1 result.2.wakes result.3 }
    ensures serves { IsServed conn.old conn.new pass result.0 }
    ensures wire { MaySend (L.wire link.new) 16 }
    ensures came { IfSome result.3 (λ piece. piece.dry ≡ false → conn.new.unwritten ≢ []) }
    ensures desk { result.0.desk ≡ pass.desk }
    ensures number { result.0.worker.number ≡ pass.worker.number }
{
    let Progress { allowance, stage } = progress;
    match stage {
        Stage::Receives(at) => {
            let (pass, stage) = receive(rt, conn, link, desk, pass, allowance, at, true);
            let (state, all, drained) = end_of(stage);
            (pass, state, all, still_drained(conn, drained))
        }
        Stage::Received(state, all, drained) => (pass, state, all, still_drained(conn, drained)),
    }
}

/// How the half of a turn ended that receives, if it did. One that did not would go on in the next turn.
fn end_of(stage: Stage) -> (ReceiveState, Received, Option<Chunk>)
    ensures { IsReceived stage → stage ≡ Stage.Received result.0 result.1 result.2 }
{
    match stage {
        Stage::Receives(at) => (ReceiveState::Again, at.all, None),
        Stage::Received(state, all, drained) => (state, all, drained),
    }
}

/// What was drained, where it is still to be written, or nothing came.
fn still_drained(conn: &Conn, drained: Option<Chunk>) -> Option<Chunk>
    ensures came { IfSome result (λ piece. piece.dry ≡ false → conn.now.unwritten ≢ []) }
    ensures same { IfSome drained (λ piece. piece.dry ≡ false → conn.now.unwritten ≢ []) → result ≡ drained }
{
    match drained {
        Some(piece) if piece.dry || !conn.is_written() => Some(piece),
        Some(_) | None => None,
    }
}

/// Sends to a client what waits for it, as much as a turn may, and does nothing else: it is not read, and not shut.
pub fn send_rest<R: Wait, L: Link, G: Gate>(
    rt: &R,
    conn: &mut Conn,
    link: &mut L,
    desk: &Desk,
    pass: Pass,
    gate: &G,
) -> (Pass, SendState)
    requires desk { pass.desk ≡ desk.now }
    requires fresh { IsFresh (L.wire link.old) }
    ensures sends { (others : List ℕ) → Sends (among others conn.old (L.wire link.old) pass)
        (among others conn.new (L.wire link.new) result.0) result.1 }
    ensures desk { result.0.desk ≡ pass.desk }
    ensures number { result.0.worker.number ≡ pass.worker.number }
{
    let gated = GatedDesk { desk, gate };
    send(rt, conn, link, &gated, pass, None)
}
