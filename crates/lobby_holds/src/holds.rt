//! The holds of a turn. Each says the next lines, or drains, or shuts the client, and no link is read or written in it.
//! A hold has place for 32 events (`MOST_EVENTS`): so many lines of a burst cost one take and one give, and who waits
//! for the lobby waits for no more of them.

ghost use Rattle.std.specs.Prelude.{◌≡◌, ◌≢◌, ◌⊎◌, ℕ, ◌+◌, ◌<◌, ◌≤◌, List, [], length, OnOk, OnErr, IfOk};
ghost use Rattle.std.specs.Prelude.{IfSome, IsTrue, Some, None, true, false};
ghost use Rattle.command_grammar.specs.Kinds.{keeps_kinds};
ghost use Rattle.lobby_model.specs.declared.event.Event.TheVariants as event;
ghost use Rattle.lobby_lock.specs.Passes.{pass_after};
ghost use Rattle.client_session.specs.declared.session.Next.TheVariants.{Line};
ghost use Rattle.client_session.specs.OneSession.{IsNextOf, HasLineNext};
ghost use Rattle.lobby_holds.specs.Wire.{Wire};
ghost use Rattle.lobby_holds.specs.Snapshot.{among};
ghost use Rattle.lobby_holds.specs.Went.{Went};
ghost use Rattle.lobby_holds.specs.Holds.{Stands, Made, SaysLines, IsWithin, HasNoLineNext, HasLoudNext, StopsAt};
ghost use Rattle.lobby_holds.specs.Holds.{is_quiet, HasTold, Drains, Asks, DrainedInto, DrainedBehind, GivesUp};
ghost use Rattle.lobby_holds.specs.Holds.{DrainsBehind, SaysThenDrains};

use crate::buffer::{Buffer, PIECE};
use crate::conn::Conn;
use crate::gate::Gate;
use crate::gated_desk::GatedDesk;
use client_session::Next;
use command_grammar::{Command, Request};
use lobby_lock::{Desk, Held, MOST_EVENTS, Pass};
use lobby_machine::Wakes;
use std::alloc::AllocError;
use std::sync::Wait;

/// The most pieces that one hold drains for a client: 16 KiB, which one write carries. With one piece a hold half of
/// the server's time went into its calls of the system where much was to be sent, and with four a third of that is
/// saved.
const PIECES: usize = 4;

/// The most drains of a hold: each piece, and once more behind each that was not full.
const MOST_DRAINS: usize = 8;

/// What was said in a hold.
#[derive(Clone, Copy)]
pub struct Said {
    /// How many lines were said to the lobby.
    pub lines: usize,
    /// The workers whose clients they touched.
    pub wakes: Wakes,
    /// Whether memory was refused behind them. The line that it was refused for stays next.
    pub refused: bool,
    /// How much they told, as the lobby counts it.
    pub told: u64,
}

/// What was drained in a hold.
#[derive(Clone, Copy)]
pub struct Chunk {
    /// How many bytes came.
    pub count: usize,
    /// Whether nothing will ever come of the client.
    pub finished: bool,
    /// Whether the last drain gave nothing.
    pub dry: bool,
}

/// Says to the lobby what the next line asks for, in a hold that goes on, and accepts the line. Contracts
/// see the hold as the pass that it would leave if it were given back now.
fn say_line<G: Gate>(
    conn: &mut Conn,
    held: &mut Held,
    gate: &G,
    request: Request,
) -> Result<Wakes, AllocError>
    requires few { length held.old.events < MOST_EVENTS }
    requires stands { Stands held.old }
    requires kinds { IsTrue (keeps_kinds request.command) }
    requires next { IsNextOf (Some conn.old.session) (Line request) }
    ensures ok { IfOk result (λ wakes. (others : List ℕ) (wire : Wire)
        → Made (among others conn.old wire (pass_after held.old)) (among others conn.new wire (pass_after held.new))
        (event.Say conn.old.session.client request) wakes held.old.lobby.told held.new.lobby.told) }
    ensures unwritten { conn.new.unwritten ≡ conn.old.unwritten }
    ensures unfed { conn.new.unfed ≡ conn.old.unfed }
    ensures count { OnOk result (length held.new.events ≡ length held.old.events + 1) }
    ensures err { OnErr result ((conn.new ≡ conn.old) × (held.new ≡ held.old)) }
    ensures pass { held.new.pass ≡ held.old.pass }
{
    let asked = conn.asked(held, &request.command);
    match held.say(conn.client(), request) {
        Ok(said) => {
            conn.accept();
            conn.note(gate, asked, said.login);
            Ok(said.wakes)
        }
        Err(error) => Err(error),
    }
}

/// Whether a command tells its issuer alone, or one user more, and little.
pub fn is_quiet(command: &Command) -> bool
    ensures { result ≡ is_quiet command.now }
{
    matches!(
        command,
        Command::Ping | Command::SayPrivate { .. } | Command::Blank | Command::Unread(_)
    )
}

/// Reads the next line and says it to the lobby, where one is there and the hold has place for it.
fn say_next<G: Gate>(
    conn: &mut Conn,
    held: &mut Held,
    gate: &G,
    is_enough: bool,
) -> Result<Option<Wakes>, AllocError>
    ensures says { IfOk result (λ said. IfSome said (λ wakes. (others : List ℕ) (wire : Wire)
        → SaysLines (among others conn.old wire (pass_after held.old))
        (among others conn.new wire (pass_after held.new)) 1 wakes held.old.lobby.told held.new.lobby.told)) }
    ensures count { IfOk result (λ said. IfSome said (λ wakes.
        (length held.new.events ≡ length held.old.events + 1) × (length held.new.events ≤ MOST_EVENTS))) }
    ensures none { IfOk result (λ said. said ≡ None → (conn.new ≡ conn.old) × (held.new ≡ held.old)) }
    ensures stops { IfOk result (λ said. said ≡ None
        → (MOST_EVENTS ≤ length held.old.events)
        ⊎ (HasNoLineNext conn.new.session ⊎ ((is_enough ≡ true) × HasLoudNext conn.new.session))) }
    ensures err { OnErr result ((conn.new ≡ conn.old) × (held.new ≡ held.old)) }
    ensures line { OnErr result (HasLineNext conn.new.session) }
    ensures unfed { conn.new.unfed ≡ conn.old.unfed }
    ensures pass { held.new.pass ≡ held.old.pass }
{
    if held.count() >= MOST_EVENTS {
        return Ok(None);
    }
    match conn.next_request() {
        Ok(Next::Line(request)) => {
            if is_enough && !is_quiet(&request.command) {
                request.discard();
                return Ok(None);
            }
            match say_line(conn, held, gate, request) {
                Ok(wakes) => Ok(Some(wakes)),
                Err(error) => Err(error),
            }
        }
        Ok(Next::Nothing) | Ok(Next::Spoilt) => Ok(None),
        Err(error) => Err(error),
    }
}

/// Whether as much was told as may be, where there is a bound.
fn has_told(allowance: Option<u64>, told: u64) -> bool
    ensures { result ≡ true → HasTold allowance told }
{
    match allowance {
        Some(most) => most <= told,
        None => false,
    }
}

/// Says the next lines to the lobby in a hold that has place for one, of which the first was read as this request.
fn say_lines<G: Gate>(
    conn: &mut Conn,
    held: &mut Held,
    gate: &G,
    request: Request,
    most: usize,
    allowance: Option<u64>,
) -> Said
    requires few { length held.old.events < MOST_EVENTS }
    requires stands { Stands held.old }
    requires kinds { IsTrue (keeps_kinds request.command) }
    requires next { IsNextOf (Some conn.old.session) (Line request) }
    requires some { 1 ≤ most }
    ensures says { (others : List ℕ) (wire : Wire) → SaysLines (among others conn.old wire (pass_after held.old))
        (among others conn.new wire (pass_after held.new)) result.lines result.wakes 0 result.told }
    ensures within { IsWithin most result }
    ensures stops { StopsAt most allowance conn.new.session (length held.new.events) result }
    ensures unfed { conn.new.unfed ≡ conn.old.unfed }
    ensures pass { held.new.pass ≡ held.old.pass }
{
    let before = held.told();
    let mut wakes = match say_line(conn, held, gate, request) {
        Ok(wakes) => wakes,
        Err(_) => {
            return Said {
                lines: 0,
                wakes: Wakes::none(),
                refused: true,
                told: 0,
            };
        }
    };
    for lines in 1..most {
        let told = held.told().wrapping_sub(before);
        match say_next(conn, held, gate, has_told(allowance, told)) {
            Ok(Some(more)) => wakes = wakes.union(more),
            Ok(None) => {
                return Said {
                    lines,
                    wakes,
                    refused: false,
                    told,
                };
            }
            Err(_) => {
                return Said {
                    lines,
                    wakes,
                    refused: true,
                    told,
                };
            }
        }
    }
    Said {
        lines: most,
        wakes,
        refused: false,
        told: held.told().wrapping_sub(before),
    }
}

/// Says the next lines to the lobby in one hold, so many at most, of which the first was read as this
/// request. The others are read in the hold, as long as they tell less than the allowance, if there is one. Where it
/// is to, and no line is left, it drains behind them in the same hold, if all that was drained before was written, the
/// hold has place and memory is there.
pub fn say<R: Wait, G: Gate>(
    rt: &R,
    conn: &mut Conn,
    desk: &GatedDesk<'_, G>,
    pass: Pass,
    request: Request,
    most: usize,
    allowance: Option<u64>,
    drains: bool,
) -> (Pass, Said, Option<Chunk>)
    requires desk { pass.desk ≡ desk.now.desk.now }
    requires kinds { IsTrue (keeps_kinds request.command) }
    requires next { IsNextOf (Some conn.old.session) (Line request) }
    requires some { 1 ≤ most }
    ensures says { (others : List ℕ) (wire : Wire) → SaysThenDrains (among others conn.old wire pass)
        (among others conn.new wire result.0) result.1 result.2 }
    ensures within { IsWithin most result.1 }
    ensures stops { (events : ℕ) × StopsAt most allowance conn.new.session events result.1 }
    ensures unfed { conn.new.unfed ≡ conn.old.unfed }
    ensures only { drains ≡ false → result.2 ≡ None }
    ensures refused { result.1.refused ≡ true → result.2 ≡ None }
{
    let mut held = desk.take(rt, pass);
    let (said, drained) = say_in(conn, &mut held, desk.gate, request, most, allowance, drains);
    (desk.give(rt, held), said, drained)
}

/// The same in a hold that goes on, and has place for an event.
pub fn say_in<G: Gate>(
    conn: &mut Conn,
    held: &mut Held,
    gate: &G,
    request: Request,
    most: usize,
    allowance: Option<u64>,
    drains: bool,
) -> (Said, Option<Chunk>)
    requires few { length held.old.events < MOST_EVENTS }
    requires stands { Stands held.old }
    requires kinds { IsTrue (keeps_kinds request.command) }
    requires next { IsNextOf (Some conn.old.session) (Line request) }
    requires some { 1 ≤ most }
    ensures says { (others : List ℕ) (wire : Wire) → SaysThenDrains (among others conn.old wire (pass_after held.old))
        (among others conn.new wire (pass_after held.new)) result.0 result.1 }
    ensures within { IsWithin most result.0 }
    ensures stops { (events : ℕ) × StopsAt most allowance conn.new.session events result.0 }
    ensures unfed { conn.new.unfed ≡ conn.old.unfed }
    ensures only { drains ≡ false → result.1 ≡ None }
    ensures refused { result.0.refused ≡ true → result.1 ≡ None }
    ensures pass { held.new.pass ≡ held.old.pass }
{
    let said = say_lines(conn, held, gate, request, most, allowance);
    if !drains || said.refused {
        return (said, None);
    }
    (said, drain_behind(conn, held))
}

/// Drains for the client of a connection behind what was said, in a hold that goes on, where no line is left, all that
/// was drained before was written, the hold has place and memory is there.
fn drain_behind(conn: &mut Conn, held: &mut Held) -> Option<Chunk>
    ensures drains { (others : List ℕ) (wire : Wire) → DrainsBehind (among others conn.old wire (pass_after held.old))
        (among others conn.new wire (pass_after held.new)) result }
    ensures session { conn.new.session ≡ conn.old.session }
    ensures unfed { conn.new.unfed ≡ conn.old.unfed }
    ensures pass { held.new.pass ≡ held.old.pass }
{
    if held.count() > MOST_EVENTS - MOST_DRAINS {
        return None;
    }
    if !conn.has_nothing_next() || !conn.is_written() {
        return None;
    }
    if conn.unwritten.make_room().is_err() {
        return None;
    }
    let client = conn.client();
    Some(drain_pieces(held, client, &mut conn.unwritten))
}

/// Drains into a slice, in a hold that goes on.
fn drain_once(held: &mut Held, client: u64, into: &mut [u8]) -> Chunk
    requires few { length held.old.events < MOST_EVENTS }
    requires small { length into.old ≤ PIECE }
    requires stands { Stands held.old }
    ensures drained { DrainedInto (pass_after held.old) (pass_after held.new) client (length into.old) into.new result }
    ensures stands { Stands held.new }
    ensures count { length held.new.events ≡ length held.old.events + 1 }
    ensures pass { held.new.pass ≡ held.old.pass }
{
    let drained = held.drain(client, into);
    Chunk {
        count: drained.count,
        finished: drained.finished,
        dry: drained.count == 0,
    }
}

/// Drains into a slice, in a hold that goes on, and where less came than it has room for, once more
/// into the rest of it: that a client has been told everything is known by a drain that gives nothing.
pub(crate) fn drain_all(held: &mut Held, client: u64, into: &mut [u8]) -> Chunk
    requires few { length held.old.events + 2 ≤ MOST_EVENTS }
    requires small { length into.old ≤ PIECE }
    requires stands { Stands held.old }
    ensures drained { DrainedInto (pass_after held.old) (pass_after held.new) client (length into.old) into.new result }
    ensures stands { Stands held.new }
    ensures count { length held.new.events ≤ length held.old.events + 2 }
    ensures pass { held.new.pass ≡ held.old.pass }
{
    let first = drain_once(held, client, into);
    if first.finished || first.count == 0 || first.count == into.len() {
        return first;
    }
    let rest = drain_once(held, client, &mut into[first.count..]);
    Chunk {
        count: first.count + rest.count,
        finished: rest.finished,
        dry: rest.dry,
    }
}

/// Drains behind what stands in a buffer that has room for a piece, in a hold that has place: one piece, and as long
/// as they are full and memory is there, further ones, so that one write carries more.
fn drain_pieces(held: &mut Held, client: u64, unwritten: &mut Buffer) -> Chunk
    requires few { length held.old.events + MOST_DRAINS ≤ MOST_EVENTS }
    requires stands { Stands held.old }
    requires room { PIECE ≤ unwritten.old.room }
    ensures drained { DrainedBehind (pass_after held.old) (pass_after held.new) client unwritten.old.bytes
        unwritten.new.bytes result }
    ensures count { length held.new.events ≤ length held.old.events + MOST_DRAINS }
    ensures pass { held.new.pass ≡ held.old.pass }
{
    let mut piece = unwritten.drain(held, client);
    for _ in 1..PIECES {
        if piece.finished || piece.count < PIECE || unwritten.make_room().is_err() {
            return piece;
        }
        piece = unwritten.drain(held, client);
    }
    piece
}

/// Drains into a slice, in a hold.
fn drain_into<R: Wait, G: Gate>(
    rt: &R,
    client: u64,
    desk: &GatedDesk<'_, G>,
    pass: Pass,
    into: &mut [u8],
) -> (Pass, Chunk)
    requires desk { pass.desk ≡ desk.now.desk.now }
    requires small { length into.old ≤ PIECE }
    ensures { DrainedInto pass result.0 client (length into.old) into.new result.1 }
{
    let mut held = desk.take(rt, pass);
    let piece = drain_all(&mut held, client, into);
    (desk.give(rt, held), piece)
}

/// Drains what one write carries for the client, in a hold. All that was drained before was written.
pub fn drain<R: Wait, G: Gate>(
    rt: &R,
    conn: &mut Conn,
    desk: &GatedDesk<'_, G>,
    pass: Pass,
) -> (Pass, Result<Chunk, AllocError>)
    requires desk { pass.desk ≡ desk.now.desk.now }
    requires written { conn.old.unwritten ≡ [] }
    ensures ok { IfOk result.1 (λ piece. (others : List ℕ) (wire : Wire)
        → Drains (among others conn.old wire pass) (among others conn.new wire result.0) piece.finished piece.dry) }
    ensures session { conn.new.session ≡ conn.old.session }
    ensures unfed { conn.new.unfed ≡ conn.old.unfed }
    ensures came { IfOk result.1 (λ piece. piece.dry ≡ false → conn.new.unwritten ≢ []) }
    ensures err { OnErr result.1 ((conn.new ≡ conn.old) × (result.0 ≡ pass)) }
{
    if conn.unwritten.make_room().is_err() {
        return (pass, Err(AllocError));
    }
    let client = conn.client();
    let mut held = desk.take(rt, pass);
    let piece = drain_pieces(&mut held, client, &mut conn.unwritten);
    (desk.give(rt, held), Ok(piece))
}

/// Asks whether nothing will ever come of the client, without draining a byte.
pub fn is_finished<R: Wait, G: Gate>(
    rt: &R,
    conn: &Conn,
    desk: &GatedDesk<'_, G>,
    pass: Pass,
) -> (Pass, bool)
    requires { pass.desk ≡ desk.now.desk.now }
    ensures { (others : List ℕ) (wire : Wire) → Asks (among others conn.now wire pass)
        (among others conn.now wire result.0) result.1 }
{
    let (pass, piece) = drain_into(rt, conn.client(), desk, pass, &mut []);
    (pass, piece.finished)
}

/// The most pieces that are let go at once, 4 MiB in all: as much as waits for a client at most where no other limit is
/// set.
const PIECES_GIVEN_UP: usize = 1_024;

/// Lets go what waits unread for a client: all of it, or 4 MiB where there is more. It takes no memory. It is for a
/// client whose link has failed and whose shut was refused memory: what it will never read makes room for what others
/// are told.
pub fn give_up_unread<R: Wait, G: Gate>(
    rt: &R,
    conn: &Conn,
    desk: &Desk,
    pass: Pass,
    gate: &G,
) -> Pass
    requires { pass.desk ≡ desk.now }
    ensures gives_up { GivesUp pass result conn.now.session.client }
    ensures desk { result.desk ≡ pass.desk }
    ensures number { result.worker.number ≡ pass.worker.number }
{
    let gated = GatedDesk { desk, gate };
    let mut pass = pass;
    for _ in 0..PIECES_GIVEN_UP {
        let mut piece = [0u8; PIECE];
        let (next, drained) = drain_into(rt, conn.client(), &gated, pass, &mut piece);
        pass = next;
        if drained.count < PIECE {
            return pass;
        }
    }
    pass
}

/// Shuts the client. Says how much that told, too, as the lobby counts it.
pub fn shut<R: Wait, G: Gate>(
    rt: &R,
    conn: &Conn,
    desk: &GatedDesk<'_, G>,
    pass: Pass,
) -> (Pass, Result<Wakes, AllocError>, u64)
    requires { pass.desk ≡ desk.now.desk.now }
    ensures ok { IfOk result.1 (λ wakes. (others : List ℕ) (wire : Wire)
        → Made (among others conn.now wire pass) (among others conn.now wire result.0)
        (event.Shut conn.now.session.client) wakes 0 result.2) }
    ensures err { OnErr result.1 ((others : List ℕ) (wire : Wire)
        → Went (among others conn.now wire pass) (among others conn.now wire result.0) []) }
    ensures untold { OnErr result.1 (result.2 ≡ 0) }
{
    let mut held = desk.take(rt, pass);
    let before = held.told();
    let shut = held.shut(conn.client());
    let told = held.told().wrapping_sub(before);
    let pass = desk.give(rt, held);
    match shut {
        Ok(wakes) => (pass, Ok(wakes), told),
        Err(error) => (pass, Err(error), 0),
    }
}
