//! The half of a turn that sends to the client: what the lobby has for it is drained, as much as one
//! write carries, and written.

ghost use Rattle.std.specs.Prelude.{ℕ, List, ◌≡◌, ◌≢◌, ◌+◌, ◌≤◌, [], IfSome, Some, true, false};
ghost use Rattle.lobby_lock.specs.Passes.{ShownPass};
ghost use Rattle.lobby_holds.specs.Wire.{MayGoOn, Wire};
ghost use Rattle.lobby_holds.specs.Snapshot.{Snapshot, among};
ghost use Rattle.lobby_holds.specs.Went.{Went};
ghost use Rattle.lobby_holds.specs.Holds.{Asks, Drains, DrainsBehind};
ghost use Rattle.lobby_turns.specs.Receiving.{IsServed};
ghost use Rattle.lobby_turns.specs.Sending.{OnlyWrites, SendsNext, Sending, Sends, Writes, MaySend, MaySendOn};

use lobby_holds::holds::{self, Chunk};
use lobby_holds::{Conn, Gate, GatedDesk, Link, Sent};
use lobby_lock::Pass;
use std::sync::Wait;

/// The most writes of a turn, so that a client that reads as fast as it is sent to does not keep its worker from the
/// others. A write carries up to 16 KiB, so a turn sends up to 256 KiB: all that one who logs in among thousands is
/// told.
const WRITES: usize = 16;

/// How far a turn, or a step of it, sent to its client.
#[derive(Clone, Copy)]
pub enum SendState {
    /// All that the lobby has for it was written.
    All,
    /// The link takes nothing now.
    WouldBlock,
    /// A step wrote, or the turn met its limit: there may be more.
    Again,
    /// Nothing will ever come of the client.
    Finished,
    /// The link failed.
    Fault,
    /// Memory was refused to the chunk that was to be drained, and nothing was done.
    Memory,
}

/// Writes what was drained and not yet written, as much of it as the link takes now. There is some.
fn write_rest<L: Link, G: Gate>(conn: &mut Conn, link: &mut L, gate: &G, worker: u8) -> Sent
    requires wire { MayGoOn (L.wire link.old) }
    requires rest { conn.old.unwritten ≢ [] }
    ensures went { (others : List ℕ) (pass : ShownPass) → Went (among others conn.old (L.wire link.old) pass)
        (among others conn.new (L.wire link.new) pass) [] }
    ensures session { conn.new.session ≡ conn.old.session }
    ensures unfed { conn.new.unfed ≡ conn.old.unfed }
    ensures reads { (L.wire link.new).reads ≡ (L.wire link.old).reads }
    ensures read { (L.wire link.new).read ≡ (L.wire link.old).read }
    ensures writes { (L.wire link.new).writes ≡ (L.wire link.old).writes + 1 }
    ensures failures { (L.wire link.new).failures ≤ (L.wire link.old).failures + 1 }
    ensures last_got { (L.wire link.new).last_got ≡ (L.wire link.old).last_got }
    ensures last_sent { (L.wire link.new).last_sent ≡ Some result }
{
    let rest = conn.rest();
    let sent = link.write(rest);
    if let Sent::Took(count) = sent {
        gate.after_write(worker, &rest[..count]);
        conn.count_written(count);
    }
    sent
}

/// Writes what was drained, which is some, as much of it as the link takes now. Where the last drain was dry,
/// which gave nothing, the client has been sent everything once all is written.
fn send_link<L: Link, G: Gate>(
    conn: &mut Conn,
    link: &mut L,
    pass: Pass,
    gate: &G,
    dry: bool,
) -> (Pass, SendState)
    requires wire { MayGoOn (L.wire link.old) }
    requires rest { conn.old.unwritten ≢ [] }
    ensures sends { (before : Snapshot) (others : List ℕ)
        → Drains before (among others conn.old (L.wire link.old) pass) false dry
        → OnlyWrites before (among others conn.old (L.wire link.old) pass) 0
        → SendsNext before (among others conn.new (L.wire link.new) result.0) result.1 }
    ensures goes { MaySend (L.wire link.old) 16 → MaySendOn (L.wire link.new) result.1 }
    ensures client { conn.new.session.client ≡ conn.old.session.client }
    ensures pass { result.0 ≡ pass }
{
    match write_rest(conn, link, gate, pass.number()) {
        Sent::Took(_) => {
            if dry && conn.is_written() {
                return (pass, SendState::All);
            }
            (pass, SendState::Again)
        }
        Sent::Later => (pass, SendState::WouldBlock),
        Sent::Fault => (pass, SendState::Fault),
    }
}

/// Writes what was drained now, or says how the client stands where nothing is to be written.
fn send_piece<L: Link, G: Gate>(
    conn: &mut Conn,
    link: &mut L,
    pass: Pass,
    gate: &G,
    piece: Chunk,
) -> (Pass, SendState)
    requires wire { MayGoOn (L.wire link.old) }
    requires came { piece.dry ≡ false → conn.old.unwritten ≢ [] }
    ensures sends { (before : Snapshot) (others : List ℕ)
        → Drains before (among others conn.old (L.wire link.old) pass) piece.finished piece.dry
        → OnlyWrites before (among others conn.old (L.wire link.old) pass) 0
        → SendsNext before (among others conn.new (L.wire link.new) result.0) result.1 }
    ensures goes { MaySend (L.wire link.old) 16 → MaySendOn (L.wire link.new) result.1 }
    ensures client { conn.new.session.client ≡ conn.old.session.client }
    ensures pass { result.0 ≡ pass }
{
    if piece.finished {
        return (pass, SendState::Finished);
    }
    if piece.dry && conn.is_written() {
        return (pass, SendState::All);
    }
    send_link(conn, link, pass, gate, piece.dry)
}

/// Drains where all that was drained before was written, and writes.
fn send_next<R: Wait, L: Link, G: Gate>(
    rt: &R,
    conn: &mut Conn,
    link: &mut L,
    desk: &GatedDesk<'_, G>,
    pass: Pass,
) -> (Pass, SendState)
    requires desk { pass.desk ≡ desk.now.desk.now }
    requires wire { MayGoOn (L.wire link.old) }
    ensures sends { (others : List ℕ) → SendsNext (among others conn.old (L.wire link.old) pass)
        (among others conn.new (L.wire link.new) result.0) result.1 }
    ensures goes { MaySend (L.wire link.old) 16 → MaySendOn (L.wire link.new) result.1 }
    ensures desk { result.0.desk ≡ pass.desk }
    ensures number { result.0.worker.number ≡ pass.worker.number }
{
    if !conn.is_written() {
        return send_link(conn, link, pass, desk.gate, false);
    }
    let (pass, drained) = holds::drain(rt, conn, desk, pass);
    match drained {
        Err(_) => (pass, SendState::Memory),
        Ok(piece) => send_piece(conn, link, pass, desk.gate, piece),
    }
}

/// Writes what was drained, until all is written or the link takes no more, in so many writes at most.
fn write_out<L: Link, G: Gate>(conn: &mut Conn, link: &mut L, pass: &Pass, gate: &G, most: usize)
    requires few { most ≤ 16 }
    requires wire { MaySend (L.wire link.old) most }
    ensures { (others : List ℕ) → Writes (among others conn.old (L.wire link.old) pass.now)
        (among others conn.new (L.wire link.new) pass.now) most }
{
    for _ in 0..most {
        if conn.is_written() {
            return;
        }
        let Sent::Took(_) = write_rest(conn, link, gate, pass.number()) else {
            return;
        };
    }
}

/// Sends to the client, as far as a turn may, behind a piece that was drained in the hold before, if one was.
pub(crate) fn send<R: Wait, L: Link, G: Gate>(
    rt: &R,
    conn: &mut Conn,
    link: &mut L,
    desk: &GatedDesk<'_, G>,
    pass: Pass,
    drained: Option<Chunk>,
) -> (Pass, SendState)
    requires desk { pass.desk ≡ desk.now.desk.now }
    requires wire { MaySend (L.wire link.old) 16 }
    requires came { IfSome drained (λ piece. piece.dry ≡ false → conn.old.unwritten ≢ []) }
    ensures sends { (before : Snapshot) (others : List ℕ)
        → DrainsBehind before (among others conn.old (L.wire link.old) pass) drained
        → Sends before (among others conn.new (L.wire link.new) result.0) result.1 }
    ensures serves { IsServed conn.old conn.new pass result.0 }
    ensures desk { result.0.desk ≡ pass.desk }
    ensures number { result.0.worker.number ≡ pass.worker.number }
{
    if let Some(piece) = drained {
        let (pass, state) = send_piece(conn, link, pass, desk.gate, piece);
        return send_on(rt, conn, link, desk, pass, state);
    }
    let (pass, finished) = ask_first(rt, conn, desk, pass);
    if finished {
        write_out(conn, link, &pass, desk.gate, WRITES);
        return (pass, SendState::Finished);
    }
    let (pass, state) = send_next(rt, conn, link, desk, pass);
    send_on(rt, conn, link, desk, pass, state)
}

/// Asks whether the client is finished, where drained bytes wait to be written.
fn ask_first<R: Wait, G: Gate>(
    rt: &R,
    conn: &Conn,
    desk: &GatedDesk<'_, G>,
    pass: Pass,
) -> (Pass, bool)
    requires desk { pass.desk ≡ desk.now.desk.now }
    ensures on { result.1 ≡ false → (others : List ℕ) (wire : Wire)
        → Sending (among others conn.now wire pass) (among others conn.now wire result.0) 0 }
    ensures finished { result.1 ≡ true → (conn.now.unwritten ≢ []) × ((others : List ℕ) (wire : Wire)
        → Asks (among others conn.now wire pass) (among others conn.now wire result.0) true) }
    ensures desk { result.0.desk ≡ pass.desk }
    ensures number { result.0.worker.number ≡ pass.worker.number }
{
    if conn.is_written() {
        return (pass, false);
    }
    holds::is_finished(rt, conn, desk, pass)
}

/// Sends to the client behind a first step, as far as a turn may.
fn send_on<R: Wait, L: Link, G: Gate>(
    rt: &R,
    conn: &mut Conn,
    link: &mut L,
    desk: &GatedDesk<'_, G>,
    pass: Pass,
    state: SendState,
) -> (Pass, SendState)
    requires desk { pass.desk ≡ desk.now.desk.now }
    requires wire { MaySendOn (L.wire link.old) state }
    ensures sends { (old before : Snapshot) (others : List ℕ) → Sending old before 0
        → SendsNext before (among others conn.old (L.wire link.old) pass) state
        → Sends old (among others conn.new (L.wire link.new) result.0) result.1 }
    ensures serves { IsServed conn.old conn.new pass result.0 }
    ensures desk { result.0.desk ≡ pass.desk }
    ensures number { result.0.worker.number ≡ pass.worker.number }
{
    match state {
        SendState::Again => {}
        SendState::All | SendState::WouldBlock | SendState::Fault | SendState::Memory => {
            return (pass, state);
        }
        SendState::Finished => {
            write_out(conn, link, &pass, desk.gate, WRITES);
            return (pass, SendState::Finished);
        }
    }
    let mut pass = pass;
    for writes in 1..WRITES {
        let (next, state) = send_next(rt, conn, link, desk, pass);
        pass = next;
        match state {
            SendState::Again => {}
            SendState::All | SendState::WouldBlock | SendState::Fault | SendState::Memory => {
                return (pass, state);
            }
            SendState::Finished => {
                write_out(conn, link, &pass, desk.gate, WRITES - writes);
                return (pass, SendState::Finished);
            }
        }
    }
    (pass, SendState::Again)
}
