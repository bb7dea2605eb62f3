//! The half of a turn that receives from the client: what its link gives is fed to its session, whole lines are said to
//! the lobby, and where none is left, the link is read.

ghost use Rattle.std.specs.Prelude.{◌≡◌, ◌≢◌, ◌⊎◌, ℕ, ◌+◌, ◌^◌, ◌<◌, ◌≤◌, ◌||◌, List, [], length, Option, Some};
ghost use Rattle.std.specs.Prelude.{true, false};
ghost use Rattle.lobby_lock.specs.Passes.{ShownPass, pass_after};
ghost use Rattle.client_session.specs.declared.session.Next.TheVariants.{Nothing};
ghost use Rattle.client_session.specs.OneSession.{HasLineNext, IsNextOf};
ghost use Rattle.lobby_holds.specs.Wire.{Wire, MayGoOn, IsFresh};
ghost use Rattle.lobby_holds.specs.Snapshot.{Snapshot, among};
ghost use Rattle.lobby_holds.specs.Went.{Went};
ghost use Rattle.lobby_holds.specs.Holds.{Stands};
ghost use Rattle.lobby_post.specs.Mask.{has_home};
ghost use Rattle.lobby_turns.specs.Receiving.{GaveBytes, IsAtStage, IsReceived, IsReceiving, IsServed, LimitIs};
ghost use Rattle.lobby_turns.specs.Receiving.{ReceivesStep, Share, StaysWithin, left_of, share_of};
ghost use Rattle.lobby_turns.specs.Sending.{MaySend};

use client_session::Next;
use lobby_holds::holds::{self, Chunk, Said};
use lobby_holds::{Ahead, Conn, Gate, GatedDesk, Got, Link};
use lobby_lock::{Held, MOST_EVENTS, Pass};
use lobby_machine::Wakes;
use std::sync::Wait;

/// The most lines that a turn says to the lobby, so that a client that sends without end does not keep its worker from
/// the others. They are said in two holds of 32.
const LINES: usize = 64;

/// The most reads of a turn, so that a client that sends little at a time does not keep its worker either.
const READS: usize = 16;

/// The most bytes that a turn reads, in however few reads. So it meets two limits at once where the lines are of 1 KiB,
/// and a client whose lines are longer keeps its worker no longer than one that sends many.
const BYTES: usize = 65_536;

/// What a turn may still do.
#[derive(Clone, Copy)]
pub(crate) struct Left {
    /// How many lines it may say.
    pub(crate) lines: usize,
    /// How many bytes it may read.
    pub(crate) bytes: usize,
    /// How much it may tell before it puts a line off, if there is a bound.
    pub(crate) told: Option<u64>,
    /// Whether the link, which just gave bytes and likely has no more, is read before the next line is said.
    pub(crate) looks: bool,
    /// Whether the link has said in this turn that it has nothing more now, or that it has ended.
    pub(crate) is_dry: bool,
}

/// How far a turn received from its client.
#[derive(Clone, Copy)]
pub(crate) enum ReceiveState {
    /// All that the link gave was said to the lobby.
    All,
    /// A limit was met, or as much was told as may be.
    Again,
    /// Nothing can come any more: the stream is spoilt, or the link failed.
    Stop,
    /// Memory was refused.
    Memory,
}

/// What the lines of a turn came to.
#[derive(Clone, Copy)]
pub(crate) struct Received {
    /// The workers whose clients they touched.
    pub(crate) wakes: Wakes,
    /// How much they told.
    pub(crate) told: u64,
}

impl Received {
    /// The same, and lines more, which touched the clients of these workers and told so much.
    fn and(self, wakes: Wakes, told: u64) -> Received
        ensures wakes { (home : ℕ) → has_home result.wakes home ≡ (has_home self.wakes home || has_home wakes home) }
        ensures told { self.told + told < 2 ^ 64 → result.told ≡ self.told + told }
    {
        Received {
            wakes: self.wakes.union(wakes),
            told: self.told.saturating_add(told),
        }
    }
}

/// One step of receiving.
#[derive(Clone, Copy)]
pub(crate) enum Step {
    /// Lines were said to the lobby, until a hold was over or memory was refused.
    Said(Said),
    /// The same, of which none is left, and behind them the client was drained in the same hold.
    Drained(Said, Chunk),
    /// So many bytes were read.
    Read(usize),
    /// The link has nothing more now, or has ended, while a line is next.
    Dry,
    /// A line is to be said to the lobby, and nothing more is to be done before.
    Waits,
    /// No line is left, and the link had nothing more before.
    Done,
    /// The turn receives no more. It does so again where the next line is no quiet one, and as much was told as may be.
    Ends(ReceiveState),
}

/// Reads the link before the next line is said, so many bytes at most. It gave bytes before. So it is known, where it
/// has no more, that nothing is left behind those lines, and the client is drained in the hold that says them.
fn look_ahead<L: Link>(conn: &mut Conn, link: &mut L, pass: Pass, most: usize) -> (Pass, Step)
    requires fed { conn.old.unfed ≡ [] }
    requires some { 1 ≤ most }
    requires wire { MayGoOn (L.wire link.old) }
    requires gave { GaveBytes (L.wire link.old) }
    requires line { HasLineNext conn.old.session }
    ensures received { (others : List ℕ) → ReceivesStep (among others conn.old (L.wire link.old) pass)
        (among others conn.new (L.wire link.new) result.0) result.1 }
    ensures within { (left : Left) → left.bytes ≡ most → left.is_dry ≡ false
        → StaysWithin left conn.new.session result.1 }
    ensures spoke { result.1 ≢ Step.Waits }
    ensures pass { result.0 ≡ pass }
{
    match conn.read(link, most) {
        Ok(Got::Bytes(count)) => (pass, Step::Read(count)),
        Ok(Got::Later) => (pass, Step::Dry),
        Ok(Got::End) => (pass, Step::Dry),
        Ok(Got::Fault) => (pass, Step::Ends(ReceiveState::Stop)),
        Err(_) => (pass, Step::Ends(ReceiveState::Memory)),
    }
}

/// Reads the link, where it may have more, so many bytes at most.
fn receive_link<L: Link>(conn: &mut Conn, link: &mut L, pass: Pass, most: usize) -> (Pass, Step)
    requires fed { conn.old.unfed ≡ [] }
    requires some { 1 ≤ most }
    requires wire { MayGoOn (L.wire link.old) }
    requires next { IsNextOf (Some conn.old.session) Nothing }
    ensures received { (others : List ℕ) → ReceivesStep (among others conn.old (L.wire link.old) pass)
        (among others conn.new (L.wire link.new) result.0) result.1 }
    ensures within { (left : Left) → left.bytes ≡ most → left.is_dry ≡ false
        → StaysWithin left conn.new.session result.1 }
    ensures spoke { result.1 ≢ Step.Waits }
    ensures pass { result.0 ≡ pass }
{
    match link.last_got() {
        Some(Got::End) => return (pass, Step::Ends(ReceiveState::All)),
        Some(Got::Fault) => return (pass, Step::Ends(ReceiveState::Stop)),
        Some(Got::Bytes(_)) | Some(Got::Later) | None => {}
    }
    match conn.read(link, most) {
        Ok(Got::Bytes(count)) => (pass, Step::Read(count)),
        Ok(Got::Later) => (pass, Step::Ends(ReceiveState::All)),
        Ok(Got::End) => (pass, Step::Ends(ReceiveState::All)),
        Ok(Got::Fault) => (pass, Step::Ends(ReceiveState::Stop)),
        Err(_) => (pass, Step::Ends(ReceiveState::Memory)),
    }
}

/// Feeds what was read, and then says the next lines to the lobby, as many as are left, as long as they tell less than
/// is left, if there is a bound; where no line is next, reads the link, unless that had nothing more before.
fn receive_next<R: Wait, L: Link, G: Gate>(
    rt: &R,
    conn: &mut Conn,
    link: &mut L,
    desk: &GatedDesk<'_, G>,
    pass: Pass,
    left: Left,
) -> (Pass, Step)
    requires desk { pass.desk ≡ desk.now.desk.now }
    requires wire { MayGoOn (L.wire link.old) }
    requires some { (1 ≤ left.lines) × (1 ≤ left.bytes) }
    requires looks { left.looks ≡ true → GaveBytes (L.wire link.old) }
    requires dry { left.is_dry ≡ true → conn.old.unfed ≡ [] }
    ensures received { (others : List ℕ) → ReceivesStep (among others conn.old (L.wire link.old) pass)
        (among others conn.new (L.wire link.new) result.0) result.1 }
    ensures within { StaysWithin left conn.new.session result.1 }
    ensures fed { left.is_dry ≡ true → conn.new.unfed ≡ [] }
    ensures spoke { result.1 ≢ Step.Waits }
    ensures desk { result.0.desk ≡ pass.desk }
    ensures number { result.0.worker.number ≡ pass.worker.number }
{
    match conn.feed() {
        Ok(()) => {}
        Err(_) => return (pass, Step::Ends(ReceiveState::Memory)),
    }
    if left.looks && !left.is_dry && matches!(conn.ahead(), Ahead::Line) {
        return look_ahead(conn, link, pass, left.bytes);
    }
    match conn.next_request() {
        Ok(Next::Line(request)) => {
            if left.told == Some(0) && !holds::is_quiet(&request.command) {
                request.discard();
                return (pass, Step::Ends(ReceiveState::Again));
            }
            let (most, told, drains) = (left.lines, left.told, left.is_dry);
            let (pass, said, drained) = holds::say(
                rt, conn, desk, pass, request, most, told, drains,
            );
            match drained {
                Some(piece) => (pass, Step::Drained(said, piece)),
                None => (pass, Step::Said(said)),
            }
        }
        Ok(Next::Nothing) => {
            if left.is_dry {
                return (pass, Step::Done);
            }
            receive_link(conn, link, pass, left.bytes)
        }
        Ok(Next::Spoilt) => (pass, Step::Ends(ReceiveState::Stop)),
        Err(_) => (pass, Step::Ends(ReceiveState::Memory)),
    }
}

/// The same without a line: what comes before the next line is gathered.
fn gather_next<L: Link>(conn: &mut Conn, link: &mut L, pass: Pass, left: Left) -> (Pass, Step)
    requires wire { MayGoOn (L.wire link.old) }
    requires some { 1 ≤ left.bytes }
    requires looks { left.looks ≡ true → GaveBytes (L.wire link.old) }
    requires dry { left.is_dry ≡ true → conn.old.unfed ≡ [] }
    ensures received { (others : List ℕ) → ReceivesStep (among others conn.old (L.wire link.old) pass)
        (among others conn.new (L.wire link.new) result.0) result.1 }
    ensures within { StaysWithin left conn.new.session result.1 }
    ensures fed { left.is_dry ≡ true → conn.new.unfed ≡ [] }
    ensures pass { result.0 ≡ pass }
{
    match conn.feed() {
        Ok(()) => {}
        Err(_) => return (pass, Step::Ends(ReceiveState::Memory)),
    }
    match conn.ahead() {
        Ahead::Line if left.looks && !left.is_dry => look_ahead(conn, link, pass, left.bytes),
        Ahead::Line => (pass, Step::Waits),
        Ahead::Nothing if left.is_dry => (pass, Step::Done),
        Ahead::Nothing => receive_link(conn, link, pass, left.bytes),
        Ahead::Spoilt => (pass, Step::Ends(ReceiveState::Stop)),
    }
}

/// Feeds what was read last before a limit, and looks whether a spoilt place is next: its client is shut in this turn.
fn stop_at_limit(conn: &mut Conn) -> ReceiveState
    ensures went { (others : List ℕ) (wire : Wire) (pass : ShownPass)
        → Went (among others conn.old wire pass) (among others conn.new wire pass) [] }
    ensures unwritten { conn.new.unwritten ≡ conn.old.unwritten }
    ensures limit { LimitIs conn.new result }
{
    match conn.feed() {
        Ok(()) => {}
        Err(_) => return ReceiveState::Memory,
    }
    if conn.is_spoilt_next() {
        return ReceiveState::Stop;
    }
    ReceiveState::Again
}

/// What is left to tell of so much, if there is a bound, behind so much.
fn left_to_tell(allowance: Option<u64>, told: u64) -> Option<u64>
    ensures { result ≡ left_of (share_of allowance told) }
{
    match allowance {
        Some(most) => Some(most.saturating_sub(told)),
        None => None,
    }
}

/// How far a turn has come that still receives.
#[derive(Clone, Copy)]
pub(crate) struct Receiving {
    /// How many lines it said.
    pub(crate) lines: usize,
    /// How many reads it made.
    pub(crate) reads: usize,
    /// How many bytes they gave.
    pub(crate) bytes: usize,
    /// As in [`Left`].
    pub(crate) is_dry: bool,
    /// What its lines came to.
    pub(crate) all: Received,
}

impl Receiving {
    /// A turn that begins.
    pub(crate) fn new() -> Receiving
        ensures { (at : Snapshot) → IsReceiving at at result.lines result.reads result.bytes result.all.wakes
            result.all.told result.is_dry }
    {
        let all = Received {
            wakes: Wakes::none(),
            told: 0,
        };
        Receiving {
            lines: 0,
            reads: 0,
            bytes: 0,
            is_dry: false,
            all,
        }
    }

    /// Whether it came to a limit of a turn.
    fn is_at_limit(&self) -> bool
        ensures most { result ≡ true
            → (64 ≤ self.now.lines) ⊎ ((16 ≤ self.now.reads) ⊎ (65536 ≤ self.now.bytes)) }
        ensures room { result ≡ false
            → (self.now.lines < 64) × (self.now.reads < 16) × (self.now.bytes < 65536) }
    {
        self.lines >= LINES || self.reads >= READS || self.bytes >= BYTES
    }
}

/// Where the half of a turn that receives stands.
#[derive(Clone, Copy)]
pub(crate) enum Stage {
    /// It goes on.
    Receives(Receiving),
    /// It is over: how far it received, what its lines came to, and what was drained in the hold of the last lines, if
    /// anything was.
    Received(ReceiveState, Received, Option<Chunk>),
}

/// Whether the link has said that it has nothing more, if it has, and all that it gave was fed.
fn is_dry_still(conn: &Conn, is_dry: bool) -> bool
    ensures fed { result ≡ true → conn.now.unfed ≡ [] }
    ensures same { (is_dry ≡ true → conn.now.unfed ≡ []) → result ≡ is_dry }
{
    if !is_dry {
        return false;
    }
    conn.is_fed()
}

/// One step: with lines, or without one.
fn next_step<R: Wait, L: Link, G: Gate>(
    rt: &R,
    conn: &mut Conn,
    link: &mut L,
    desk: &GatedDesk<'_, G>,
    pass: Pass,
    left: Left,
    speaks: bool,
) -> (Pass, Step)
    requires desk { pass.desk ≡ desk.now.desk.now }
    requires wire { MayGoOn (L.wire link.old) }
    requires some { (1 ≤ left.lines) × (1 ≤ left.bytes) }
    requires looks { left.looks ≡ true → GaveBytes (L.wire link.old) }
    requires dry { left.is_dry ≡ true → conn.old.unfed ≡ [] }
    ensures received { (others : List ℕ) → ReceivesStep (among others conn.old (L.wire link.old) pass)
        (among others conn.new (L.wire link.new) result.0) result.1 }
    ensures within { StaysWithin left conn.new.session result.1 }
    ensures fed { left.is_dry ≡ true → conn.new.unfed ≡ [] }
    ensures spoke { speaks ≡ true → result.1 ≢ Step.Waits }
    ensures pass { speaks ≡ false → result.0 ≡ pass }
    ensures desk { result.0.desk ≡ pass.desk }
    ensures number { result.0.worker.number ≡ pass.worker.number }
{
    if speaks {
        receive_next(rt, conn, link, desk, pass, left)
    } else {
        gather_next(conn, link, pass, left)
    }
}

/// Receives from the client, as far as a turn may that may tell so much, if there is a bound, and that has come so far.
/// Where all was received, the hold of the last lines may have drained for the client too. Where it may not speak, it
/// ends before a line that is to be said.
pub(crate) fn receive<R: Wait, L: Link, G: Gate>(
    rt: &R,
    conn: &mut Conn,
    link: &mut L,
    desk: &GatedDesk<'_, G>,
    pass: Pass,
    allowance: Option<u64>,
    from: Receiving,
    speaks: bool,
) -> (Pass, Stage)
    requires desk { pass.desk ≡ desk.now.desk.now }
    requires fresh { IsFresh (L.wire link.old) }
    ensures receives { (old : Snapshot)
        → IsAtStage old (among old.others conn.old (L.wire link.old) pass) allowance (Stage.Receives from)
        → IsAtStage old (among old.others conn.new (L.wire link.new) result.0) allowance result.1 }
    ensures over { speaks ≡ true → IsReceived result.1 }
    ensures serves { IsServed conn.old conn.new pass result.0 }
    ensures wire { MaySend (L.wire link.new) 16 }
    ensures pass { speaks ≡ false → result.0 ≡ pass }
    ensures desk { result.0.desk ≡ pass.desk }
    ensures number { result.0.worker.number ≡ pass.worker.number }
{
    let mut pass = pass;
    let mut at = from;
    at.is_dry = is_dry_still(conn, at.is_dry);
    let mut looks = false;
    while !at.is_at_limit() {
        let left = Left {
            lines: LINES - at.lines,
            bytes: BYTES - at.bytes,
            told: left_to_tell(allowance, at.all.told),
            looks,
            is_dry: at.is_dry,
        };
        let (next, step) = next_step(rt, conn, link, desk, pass, left, speaks);
        pass = next;
        looks = false;
        match step {
            Step::Said(said) => {
                at.all = at.all.and(said.wakes, said.told);
                at.lines += said.lines;
                if said.refused {
                    return (pass, Stage::Received(ReceiveState::Memory, at.all, None));
                }
            }
            Step::Drained(said, piece) => {
                let all = at.all.and(said.wakes, said.told);
                return (pass, Stage::Received(ReceiveState::All, all, Some(piece)));
            }
            Step::Read(count) => {
                at.reads += 1;
                at.bytes += count;
                looks = link.is_likely_empty();
            }
            Step::Dry => {
                at.reads += 1;
                at.is_dry = true;
            }
            Step::Waits => return (pass, Stage::Receives(at)),
            Step::Done => return (pass, Stage::Received(ReceiveState::All, at.all, None)),
            Step::Ends(state) => return (pass, Stage::Received(state, at.all, None)),
        }
    }
    (pass, Stage::Received(stop_at_limit(conn), at.all, None))
}

/// Says the next lines to the lobby in a hold that goes on and has place for one, for a turn that may tell so much, if
/// there is a bound, and that has come so far. Where none of its lines is left, it drains for the client too, as
/// [`holds::say_in`] does.
pub(crate) fn speak<G: Gate>(
    conn: &mut Conn,
    held: &mut Held,
    gate: &G,
    allowance: Option<u64>,
    from: Receiving,
) -> Stage
    requires few { length held.old.events < MOST_EVENTS }
    requires stands { Stands held.old }
    ensures speaks { (old : Snapshot) (wire : Wire)
        → IsAtStage old (among old.others conn.old wire (pass_after held.old)) allowance (Stage.Receives from)
        → IsAtStage old (among old.others conn.new wire (pass_after held.new)) allowance result }
    ensures serves { IsServed conn.old conn.new (pass_after held.old) (pass_after held.new) }
    ensures pass { held.new.pass ≡ held.old.pass }
{
    if from.lines >= LINES || !conn.is_fed() {
        return Stage::Receives(from);
    }
    let Ok(Next::Line(request)) = conn.next_request() else {
        return Stage::Receives(from);
    };
    let told = left_to_tell(allowance, from.all.told);
    if told == Some(0) && !holds::is_quiet(&request.command) {
        request.discard();
        return Stage::Receives(from);
    }
    let most = LINES - from.lines;
    let (said, drained) = holds::say_in(conn, held, gate, request, most, told, from.is_dry);
    let all = from.all.and(said.wakes, said.told);
    match drained {
        Some(piece) => Stage::Received(ReceiveState::All, all, Some(piece)),
        None if said.refused => Stage::Received(ReceiveState::Memory, all, None),
        None => Stage::Receives(Receiving {
            lines: from.lines + said.lines,
            all,
            ..from
        }),
    }
}
