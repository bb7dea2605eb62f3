//! The turns of a worker's connections. A worker takes the lobby for them, which may wait.

ghost use Rattle.std.specs.Prelude.{◌≡◌, ◌<◌, [], ◌∷◌, ◌++◌, ℕ, List, length, slice_index_or, OnOk, OnErr};
ghost use Rattle.lobby_connections.specs.Attended.{IsAttended, KeepsAttended};
ghost use Rattle.lobby_connections.specs.Joined.{keys_in};
ghost use Rattle.lobby_model.specs.declared.event.Event.TheVariants as event;
ghost use Rattle.lobby_lock.specs.Passes.{pass_after};
ghost use Rattle.lobby_turns.specs.Holds.{IsTaken, Stands};

use crate::inboxes::{Arrival, Inboxes};
use crate::leaving::{go_on_from_reserve, is_leaving};
use crate::reserve::Reserve;
use lobby_connections::{
    Connection, Connections, Fronted, NAMES_IN_HOLD, Newcomers, Served, TOGETHER, TURN_MOST,
    Together, Wakers,
};
use lobby_lock::{Desk, Held, Pass};
use lobby_machine::OpenError;
use lobby_model::WORKERS;
use lobby_turns::{Gate, GatedDesk, TurnState};
use mio::{Registry, Token};
use server_log::{Cause, Happening, Refusal};
use std::sync::Wait;
use std::sync::atomic::{AtomicBool, Ordering};

/// What all workers of a server use.
#[derive(Drop)]
pub struct Shared<'a, G> {
    /// Where the lobby lies.
    pub desk: &'a Desk,
    /// Where connections wait for their workers.
    pub inboxes: &'a Inboxes,
    /// How the workers are woken.
    pub wakers: &'a Wakers,
    /// Whether all workers are to end.
    pub stop: &'a AtomicBool,
    /// What is kept for log outs where memory is short.
    pub reserve: &'a Reserve,
    /// What is told what the workers do.
    pub gate: &'a G,
}

impl<G> Shared<'_, G> {
    /// Tells all workers to end.
    pub fn stop_all(&self) {
        self.stop.store(true, Ordering::SeqCst);
        self.wakers.wake_all();
    }

    /// Whether all workers are to end.
    pub fn is_stopped(&self) -> bool {
        self.stop.load(Ordering::SeqCst)
    }
}

/// A connection begins: its client is opened, with its worker's number as home. It is closed
/// without a byte where its client is refused, or the system or memory do not allow it.
pub fn adopt<R: Wait, G: Gate>(
    rt: &R,
    shared: &Shared<'_, G>,
    pass: Pass,
    connections: &mut Connections,
    registry: &Registry,
    arrival: Arrival,
) -> Pass
    requires { pass.desk ≡ shared.now.desk.now }
    ensures desk { result.desk ≡ pass.desk }
    ensures number { result.worker.number ≡ pass.worker.number }
    ensures attended { KeepsAttended connections.old connections.new }
{
    let Arrival { stream, ip } = arrival;
    let Some(link) = connections.prepare(registry, stream) else {
        tell_unserved(shared.gate, Refusal::Memory, ip);
        return pass;
    };
    let (pass, opened) = open(rt, shared, pass, ip);
    match opened {
        Ok(client) => {
            let _ = connections.put(client, ip, link);
            pass
        }
        Err(error) => {
            drop(link);
            tell_unserved(shared.gate, refusal_of(error), ip);
            pass
        }
    }
}

/// Takes in what came of a connection of a front: its client, or operators are told of a line that is none.
pub(crate) fn adopt_fronted<R: Wait, G: Gate>(
    rt: &R,
    shared: &Shared<'_, G>,
    pass: Pass,
    connections: &mut Connections,
    registry: &Registry,
    fronted: Fronted,
) -> Pass
    requires { pass.desk ≡ shared.now.desk.now }
    ensures desk { result.desk ≡ pass.desk }
    ensures number { result.worker.number ≡ pass.worker.number }
    ensures attended { KeepsAttended connections.old connections.new }
{
    match fronted {
        Fronted::Client { stream, ip } => {
            let arrival = Arrival::new(stream, ip);
            adopt(rt, shared, pass, connections, registry, arrival)
        }
        Fronted::Refused { ip } => {
            tell_unserved(shared.gate, Refusal::Front, ip);
            pass
        }
        Fronted::Nothing => pass,
    }
}

/// Tells operators that a connection from this address was closed.
pub(crate) fn tell_unserved<G: Gate>(gate: &G, reason: Refusal, ip: [u8; 4]) {
    gate.tell(Happening::Refused {
        reason,
        ip: Some(ip),
    });
}

/// Why a client is refused, as operators are told it.
fn refusal_of(error: OpenError) -> Refusal {
    match error {
        OpenError::Full | OpenError::NoNumber => Refusal::Full,
        OpenError::Memory => Refusal::Memory,
    }
}

/// The connection under a key gets its turn of this round, if it is to get one, or is put off. Nothing happens where
/// there is none.
pub fn turn<R: Wait, G: Gate>(
    rt: &R,
    shared: &Shared<'_, G>,
    pass: Pass,
    connections: &mut Connections,
    registry: &Registry,
    key: usize,
) -> Pass
    requires { pass.desk ≡ shared.now.desk.now }
    ensures desk { result.desk ≡ pass.desk }
    ensures number { result.worker.number ≡ pass.worker.number }
    ensures attended { (rest : List ℕ) → IsAttended connections.old (key ∷ rest) → IsAttended connections.new rest }
{
    if connections.is_put_off(key) {
        return pass;
    }
    let allowance = connections.allowance();
    turn_within(rt, shared, pass, connections, registry, key, allowance)
}

/// The connection under a key gets its turn, if it is to get one, in which it may tell so much. Nothing happens where
/// there is none.
fn turn_within<R: Wait, G: Gate>(
    rt: &R,
    shared: &Shared<'_, G>,
    pass: Pass,
    connections: &mut Connections,
    registry: &Registry,
    key: usize,
    allowance: u64,
) -> Pass
    requires { pass.desk ≡ shared.now.desk.now }
    ensures desk { result.desk ≡ pass.desk }
    ensures number { result.worker.number ≡ pass.worker.number }
    ensures attended { (rest : List ℕ) → IsAttended connections.old (key ∷ rest) → IsAttended connections.new rest }
{
    if !connections.begins_turn(key) {
        return pass;
    }
    let (pass, served) = connections.serve(rt, key, shared.desk, pass, shared.gate, allowance);
    match served {
        Some(served) => end(rt, shared, pass, connections, registry, served),
        None => pass,
    }
}

/// A turn was had. Where it was refused memory and its client leaves, it goes on; then its connection goes on as the
/// turn ended.
fn end<R: Wait, G: Gate>(
    rt: &R,
    shared: &Shared<'_, G>,
    pass: Pass,
    connections: &mut Connections,
    registry: &Registry,
    served: Served,
) -> Pass
    requires { pass.desk ≡ shared.now.desk.now }
    ensures desk { result.desk ≡ pass.desk }
    ensures number { result.worker.number ≡ pass.worker.number }
    ensures attended { (rest : List ℕ) → IsAttended connections.old (served.key ∷ rest)
        → IsAttended connections.new rest }
{
    let (pass, served) = go_on_if_leaving(rt, shared, pass, connections, served);
    end_turn(shared, connections, registry, pass.number(), served);
    pass
}

/// Those whose turns share holds get them, and had them all. One alone gets its turn by itself.
pub fn turn_together<R: Wait, G: Gate>(
    rt: &R,
    shared: &Shared<'_, G>,
    pass: Pass,
    connections: &mut Connections,
    registry: &Registry,
    together: &mut Together,
) -> Pass
    requires { pass.desk ≡ shared.now.desk.now }
    ensures desk { result.desk ≡ pass.desk }
    ensures number { result.worker.number ≡ pass.worker.number }
    ensures attended { (rest : List ℕ) → IsAttended connections.old (keys_in together.old ++ rest)
        → IsAttended connections.new rest }
    ensures nobody { keys_in together.new ≡ [] }
{
    let pass = serve_all(rt, shared, pass, connections, together);
    let pass = finish_all(rt, shared, pass, connections, registry, together);
    together.clear();
    pass
}

/// They have their turns together, where they are several and there is memory for that.
fn serve_all<R: Wait, G: Gate>(
    rt: &R,
    shared: &Shared<'_, G>,
    pass: Pass,
    connections: &mut Connections,
    together: &mut Together,
) -> Pass
    requires { pass.desk ≡ shared.now.desk.now }
    ensures desk { result.desk ≡ pass.desk }
    ensures number { result.worker.number ≡ pass.worker.number }
    ensures table { connections.new ≡ connections.old }
    ensures keys { keys_in together.new ≡ keys_in together.old }
{
    if !share(connections, together) {
        return pass;
    }
    connections.serve_together(rt, together, shared.desk, pass, shared.gate)
}

/// Whether they have their turns together: they are several, and there is memory for that.
fn share(connections: &mut Connections, together: &Together) -> bool
    ensures { connections.new ≡ connections.old }
{
    together.count() > 1 && connections.may_share()
}

/// The turn of each of them is over.
fn finish_all<R: Wait, G: Gate>(
    rt: &R,
    shared: &Shared<'_, G>,
    pass: Pass,
    connections: &mut Connections,
    registry: &Registry,
    together: &mut Together,
) -> Pass
    requires { pass.desk ≡ shared.now.desk.now }
    ensures desk { result.desk ≡ pass.desk }
    ensures number { result.worker.number ≡ pass.worker.number }
    ensures attended { (rest : List ℕ) → IsAttended connections.old (keys_in together.old ++ rest)
        → IsAttended connections.new rest }
{
    let mut pass = pass;
    for place in 0..together.count() {
        pass = finish(rt, shared, pass, connections, registry, together, place);
    }
    pass
}

/// The turn of the one in this place is over, if it was had with the others. Else it gets one by itself.
fn finish<R: Wait, G: Gate>(
    rt: &R,
    shared: &Shared<'_, G>,
    pass: Pass,
    connections: &mut Connections,
    registry: &Registry,
    together: &mut Together,
    place: usize,
) -> Pass
    requires place { place < length (keys_in together.old) }
    requires desk { pass.desk ≡ shared.now.desk.now }
    ensures desk { result.desk ≡ pass.desk }
    ensures number { result.worker.number ≡ pass.worker.number }
    ensures keys { keys_in together.new ≡ keys_in together.old }
    ensures attended { (rest : List ℕ)
        → IsAttended connections.old (slice_index_or (keys_in together.old) place 0 ∷ rest)
        → IsAttended connections.new rest }
{
    let Some(served) = together.take_served(place) else {
        let key = together.key_at(place);
        return turn(rt, shared, pass, connections, registry, key);
    };
    end(rt, shared, pass, connections, registry, served)
}

/// A connection of which a poll told joins those whose turns share holds, if it is to get a turn and is not put off;
/// what has no client is read. Where there is no place for one more behind it, they all get their turns.
pub fn join_told<R: Wait, G: Gate>(
    rt: &R,
    shared: &Shared<'_, G>,
    pass: Pass,
    connections: &mut Connections,
    newcomers: &mut Newcomers,
    registry: &Registry,
    token: Token,
    together: &mut Together,
) -> Pass
    requires place { length (keys_in together.old) < TOGETHER }
    requires desk { pass.desk ≡ shared.now.desk.now }
    ensures place { length (keys_in together.new) < TOGETHER }
    ensures desk { result.desk ≡ pass.desk }
    ensures number { result.worker.number ≡ pass.worker.number }
    ensures attended { (rest : List ℕ) → IsAttended connections.old (keys_in together.old ++ token.0 ∷ rest)
        → IsAttended connections.new (keys_in together.new ++ rest) }
{
    let pass = read_told(rt, shared, pass, connections, newcomers, registry, token);
    join(connections, token.0, together);
    if !together.is_full() {
        return pass;
    }
    turn_together(rt, shared, pass, connections, registry, together)
}

/// The connection under a key joins those whose turns share holds, if it is to get a turn and is not put off.
fn join(connections: &mut Connections, key: usize, together: &mut Together)
    requires { length (keys_in together.old) < TOGETHER }
    ensures { (rest : List ℕ) → IsAttended connections.old (keys_in together.old ++ key ∷ rest)
        → IsAttended connections.new (keys_in together.new ++ rest) }
{
    if !connections.begins_turn(key) {
        return;
    }
    if connections.is_put_off(key) {
        return;
    }
    together.join(key);
}

/// A turn was made. Where it was refused memory, operators are told, and one whose client leaves goes on.
fn go_on_if_leaving<R: Wait, G: Gate>(
    rt: &R,
    shared: &Shared<'_, G>,
    pass: Pass,
    connections: &mut Connections,
    served: Served,
) -> (Pass, Served)
    requires { pass.desk ≡ shared.now.desk.now }
    ensures desk { result.0.desk ≡ pass.desk }
    ensures number { result.0.worker.number ≡ pass.worker.number }
    ensures table { connections.new ≡ connections.old }
    ensures key { result.1.key ≡ served.key }
{
    if served.state() != TurnState::Memory {
        return (pass, served);
    }
    tell_refused(shared.gate, connections, pass.number());
    let leaves = match connections.at(served.key()) {
        Some(connection) => is_leaving(connection),
        None => false,
    };
    if leaves {
        go_on_from_reserve(rt, shared, pass, connections, served)
    } else {
        (pass, served)
    }
}

/// A turn is over: its connection goes on as it ended. Whose clients it touched is noted: the others are woken before
/// this worker waits, and this one, which is that of this home, asks for names.
fn end_turn<G: Gate>(
    shared: &Shared<'_, G>,
    connections: &mut Connections,
    registry: &Registry,
    home: u8,
    served: Served,
)
    requires { home < WORKERS }
    ensures { (rest : List ℕ) → IsAttended connections.old (served.key ∷ rest) → IsAttended connections.new rest }
{
    let (state, told, writes) = (served.state(), served.told(), served.writes());
    if let Some(connection) = connections.at(served.key()) {
        tell_logout(shared.gate, connection, state, Cause::Closed);
    }
    connections.end_turn(registry, served, home);
    if state == TurnState::Closed {
        shared.reserve.return_freed();
    }
    connections.count_told(told);
    connections.count_told(writes.saturating_sub(1).saturating_mul(WRITE));
    shared.gate.after_turn(home, told);
}

/// Tells operators of the log out where a turn shut its client: by this cause where neither client nor link gave one.
/// How many denials were not told of it is told too.
pub(crate) fn tell_logout<G: Gate>(
    gate: &G,
    connection: &Connection,
    state: TurnState,
    otherwise: Cause,
) {
    if state != TurnState::Closed {
        return;
    }
    if let Some(logout) = connection.conn.logout(&connection.link, otherwise) {
        gate.tell(logout);
    }
    if let Some(denied) = connection.conn.denied_more() {
        gate.tell(denied);
    }
}

/// A turn was refused memory. Tells operators, where none of the worker's was before in this round and the last.
fn tell_refused<G: Gate>(gate: &G, connections: &mut Connections, worker: u8)
    ensures { connections.new ≡ connections.old }
{
    if connections.refuse() {
        gate.tell(Happening::MemoryRefused { worker });
    }
}

/// What a poll told under a token of one that has no client: its line goes on, or what came is let go.
fn read_told<R: Wait, G: Gate>(
    rt: &R,
    shared: &Shared<'_, G>,
    pass: Pass,
    connections: &mut Connections,
    newcomers: &mut Newcomers,
    registry: &Registry,
    token: Token,
) -> Pass
    requires { pass.desk ≡ shared.now.desk.now }
    ensures desk { result.desk ≡ pass.desk }
    ensures number { result.worker.number ≡ pass.worker.number }
    ensures attended { KeepsAttended connections.old connections.new }
{
    if Newcomers::has(token) {
        let fronted = newcomers.turn(registry, token);
        return adopt_fronted(rt, shared, pass, connections, registry, fronted);
    }
    let _ = connections.discard_input(registry, token);
    pass
}

/// How many bytes the turn of one who was left over may tell: that of the first a turn's at least.
fn left_allowance(connections: &Connections, is_first: bool) -> u64 {
    if !is_first {
        connections.allowance()
    } else if connections.due() == 1 {
        connections.lone_allowance()
    } else {
        TURN_MOST
    }
}

/// Those get their turn that were left in the round before, or are new since then. One who is left alone may tell what
/// is left of the round. Whom these and later turns leave over stands in another list, that of the next round.
pub fn turn_left<R: Wait, G: Gate>(
    rt: &R,
    shared: &Shared<'_, G>,
    pass: Pass,
    connections: &mut Connections,
    registry: &Registry,
) -> Pass
    requires { pass.desk ≡ shared.now.desk.now }
    ensures desk { result.desk ≡ pass.desk }
    ensures number { result.worker.number ≡ pass.worker.number }
    ensures attended { KeepsAttended connections.old connections.new }
{
    let mut pass = pass;
    let mut is_first = true;
    for _ in 0..=connections.due() {
        let allowance = left_allowance(connections, is_first);
        if allowance == 0 {
            break;
        }
        let Some(key) = connections.next_due() else {
            break;
        };
        if !connections.begins_turn(key) {
            continue;
        }
        pass = turn_within(rt, shared, pass, connections, registry, key, allowance);
        connections.count_told(LEFT_TURN);
        is_first = false;
    }
    pass
}

/// What a turn of one who was left over costs beside what it tells, as telling so many bytes.
const LEFT_TURN: u64 = 6_400;

/// What each write of a turn costs behind the first, as telling so many bytes: it carries up to 16 KiB.
const WRITE: u64 = 3_200;

/// The most turns that those get in a round who were named.
const NAMED_TURNS: usize = 32;

/// Those get their turn who were named.
pub fn turn_named<R: Wait, G: Gate>(
    rt: &R,
    shared: &Shared<'_, G>,
    pass: Pass,
    connections: &mut Connections,
    registry: &Registry,
) -> Pass
    requires { pass.desk ≡ shared.now.desk.now }
    ensures desk { result.desk ≡ pass.desk }
    ensures number { result.worker.number ≡ pass.worker.number }
    ensures attended { KeepsAttended connections.old connections.new }
{
    let mut pass = pass;
    let mut turns = 0;
    for _ in 0..connections.named() {
        if turns >= NAMED_TURNS {
            break;
        }
        let Some(key) = connections.next_named() else {
            break;
        };
        let is_put_off = connections.is_put_off(key);
        if is_put_off {
            continue;
        }
        let most = connections.allowance();
        pass = turn_within(rt, shared, pass, connections, registry, key, most);
        turns += 1;
    }
    pass
}

/// Before the worker waits: where its own turns touched its clients, takes the names of those.
pub fn look_for_own<R: Wait, G: Gate>(
    rt: &R,
    shared: &Shared<'_, G>,
    pass: Pass,
    connections: &mut Connections,
) -> Pass
    requires { pass.desk ≡ shared.now.desk.now }
    ensures desk { result.desk ≡ pass.desk }
    ensures number { result.worker.number ≡ pass.worker.number }
    ensures attended { KeepsAttended connections.old connections.new }
{
    if !connections.is_pending() && connections.named() == 0 {
        return pass;
    }
    take_names(rt, shared, pass, connections)
}

/// Takes the names of changed clients, as many as there is room for, and is pending where there may be
/// more. It is called between rounds or before the first turn of one: what changes behind a client's
/// turn gets it a turn in the next round.
pub fn take_names<R: Wait, G: Gate>(
    rt: &R,
    shared: &Shared<'_, G>,
    pass: Pass,
    connections: &mut Connections,
) -> Pass
    requires { pass.desk ≡ shared.now.desk.now }
    ensures desk { result.desk ≡ pass.desk }
    ensures number { result.worker.number ≡ pass.worker.number }
    ensures attended { KeepsAttended connections.old connections.new }
{
    if connections.named() > 0 {
        connections.expect_names();
        return pass;
    }
    if connections.expects_nobody() {
        return pass;
    }
    let mut pass = pass;
    for _ in 0..=connections.len() / NAMES_IN_HOLD {
        pass = take_some_names(rt, shared, pass, connections);
        if !connections.is_pending() {
            break;
        }
    }
    pass
}

/// Passes the gate and takes the lobby.
fn take<R: Wait, G: Gate>(rt: &R, shared: &Shared<'_, G>, pass: Pass) -> Held
    requires { pass.desk ≡ shared.now.desk.now }
    ensures taken { IsTaken pass result }
    ensures stands { Stands result }
    ensures desk { result.pass.desk ≡ shared.now.desk.now }
{
    let gated = GatedDesk {
        desk: shared.desk,
        gate: shared.gate,
    };
    gated.take(rt, pass)
}

/// Gives the lobby back, and tells the gate what the hold made.
fn give<R: Wait, G: Gate>(rt: &R, shared: &Shared<'_, G>, held: Held) -> Pass
    requires { held.pass.desk ≡ shared.now.desk.now }
    ensures { result ≡ pass_after held }
{
    let gated = GatedDesk {
        desk: shared.desk,
        gate: shared.gate,
    };
    gated.give(rt, held)
}

/// Takes names of changed clients in one hold, and then looks for their connections.
fn take_some_names<R: Wait, G: Gate>(
    rt: &R,
    shared: &Shared<'_, G>,
    pass: Pass,
    connections: &mut Connections,
) -> Pass
    requires { pass.desk ≡ shared.now.desk.now }
    ensures desk { result.desk ≡ pass.desk }
    ensures number { result.worker.number ≡ pass.worker.number }
    ensures attended { KeepsAttended connections.old connections.new }
{
    let home = pass.number();
    let mut held = take(rt, shared, pass);
    connections.take_names(&mut held, home);
    let pass = give(rt, shared, held);
    connections.name_called();
    pass
}

/// Opens a client, with its worker's number as home.
fn open<R: Wait, G: Gate>(
    rt: &R,
    shared: &Shared<'_, G>,
    pass: Pass,
    ip: [u8; 4],
) -> (Pass, Result<u64, OpenError>)
    requires { pass.desk ≡ shared.now.desk.now }
    ensures desk { result.0.desk ≡ pass.desk }
    ensures number { result.0.worker.number ≡ pass.worker.number }
    ensures home { OnOk result.1 (result.0.worker.mine ≡ pass.worker.mine ++ event.Open ip pass.worker.number ∷ []) }
    ensures refused { OnErr result.1 (result.0.worker.mine ≡ pass.worker.mine) }
{
    let home = pass.number();
    let mut held = take(rt, shared, pass);
    let opened = held.open(ip, home);
    (give(rt, shared, held), opened)
}
