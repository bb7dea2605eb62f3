//! Clients that go while memory is short. The server keeps a reserve for what others are told of them.

ghost use Rattle.std.specs.Prelude.{◌≡◌};
ghost use Rattle.lobby_connections.specs.Attended.{KeepsAttended};

use crate::turns::Shared;
use lobby_connections::{Connection, Connections, PollTimeout, Served};
use lobby_lock::Pass;
use lobby_turns::{Gate, TurnState};
use server_log::{Cause, Happening, ReserveState};
use std::sync::Wait;

/// Whether the client of a connection is shut as soon as there is memory: its connection is over, or the client or the
/// lobby gave a cause.
pub fn is_leaving(connection: &Connection) -> bool {
    if connection.is_over() {
        return true;
    }
    match connection.conn.logout(&connection.link, Cause::Stop) {
        Some(Happening::Logout { cause, .. }) => cause != Cause::Stop,
        _ => false,
    }
}

/// A turn goes on, in which no line is said any more that tells many.
fn go_on<R: Wait, G: Gate>(
    rt: &R,
    shared: &Shared<'_, G>,
    pass: Pass,
    connections: &mut Connections,
    served: Served,
) -> (Pass, Served)
    requires { pass.desk ≡ shared.now.desk.now }
    ensures desk { result.0.desk ≡ pass.desk }
    ensures number { result.0.worker.number ≡ pass.worker.number }
    ensures table { connections.new ≡ connections.old }
    ensures key { result.1.key ≡ served.key }
{
    let key = served.key();
    let (pass, more) = connections.serve(rt, key, shared.desk, pass, shared.gate, 0);
    match more {
        Some(more) => (pass, served.and(more)),
        None => (pass, served),
    }
}

/// The turn of a client that leaves was refused memory: it goes on with what was let go meanwhile, and then with the
/// reserve. That is taken anew at once, before others ask for memory; operators are told where it is refused.
pub fn go_on_from_reserve<R: Wait, G: Gate>(
    rt: &R,
    shared: &Shared<'_, G>,
    pass: Pass,
    connections: &mut Connections,
    served: Served,
) -> (Pass, Served)
    requires { pass.desk ≡ shared.now.desk.now }
    ensures desk { result.0.desk ≡ pass.desk }
    ensures number { result.0.worker.number ≡ pass.worker.number }
    ensures table { connections.new ≡ connections.old }
    ensures key { result.1.key ≡ served.key }
{
    let (pass, served) = go_on(rt, shared, pass, connections, served);
    if served.state() != TurnState::Memory {
        return (pass, served);
    }
    shared.reserve.give_up();
    let (pass, served) = go_on(rt, shared, pass, connections, served);
    if shared.reserve.take_back() {
        shared.gate.tell(Happening::Reserve(ReserveState::Gone));
    }
    (pass, served)
}

/// Takes anew what is missing of the reserve, and tells operators where it is whole again. While memory is refused, the
/// worker tries again soon.
pub fn renew_reserve<G: Gate>(shared: &Shared<'_, G>, connections: &mut Connections)
    ensures { KeepsAttended connections.old connections.new }
{
    if !shared.reserve.renew() {
        connections.hurry(PollTimeout::Short);
    } else if shared.reserve.is_back() {
        shared.gate.tell(Happening::Reserve(ReserveState::Whole));
    }
}
