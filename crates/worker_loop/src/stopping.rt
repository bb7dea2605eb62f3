//! What a worker does for its connections before it ends: clients are sent what waits for them and shut, and none of
//! them is read.

ghost use Rattle.std.specs.Prelude.{◌≡◌};

use crate::turns::{Shared, tell_logout};
use lobby_connections::Connections;
use lobby_lock::Pass;
use lobby_machine::Wakes;
use lobby_turns::{Gate, TurnState, close};
use server_log::Cause;
use std::sync::Wait;

/// What a worker that ends does for each of its connections.
#[derive(Clone, Copy, PartialEq, Eq, Debug)]
pub enum Step {
    /// Sends to its client what waits for it, as much as a turn may, and notes whether that was all.
    Send,
    /// Shuts its client, if that was sent all. From then on the connection lingers. One whose shut is refused memory
    /// stays.
    ShutTold,
    /// Shuts its client. One whose shut is refused memory is left out.
    Shut,
}

/// Takes a step for each connection.
pub fn step_all<R: Wait, G: Gate>(
    rt: &R,
    shared: &Shared<'_, G>,
    pass: Pass,
    connections: &mut Connections,
    step: Step,
) -> Pass
    requires { pass.desk ≡ shared.now.desk.now }
    ensures desk { result.desk ≡ pass.desk }
    ensures number { result.worker.number ≡ pass.worker.number }
{
    let mut pass = pass;
    for key in 0..connections.key_bound() {
        pass = match step {
            Step::Send => connections.send_at(rt, key, shared.desk, pass, shared.gate),
            Step::ShutTold => shut_at(rt, shared, pass, connections, key, true),
            Step::Shut => shut_at(rt, shared, pass, connections, key, false),
        };
    }
    pass
}

/// Shuts the client of the connection under a key, if there is one, or only one that was sent all. Operators are told
/// that its user is logged out.
fn shut_at<R: Wait, G: Gate>(
    rt: &R,
    shared: &Shared<'_, G>,
    pass: Pass,
    connections: &mut Connections,
    key: usize,
    only_told: bool,
) -> Pass
    requires { pass.desk ≡ shared.now.desk.now }
    ensures desk { result.desk ≡ pass.desk }
    ensures number { result.worker.number ≡ pass.worker.number }
{
    let Some(connection) = connections.at(key) else {
        return pass;
    };
    if only_told && !connection.is_told {
        return pass;
    }
    let (desk, gate) = (shared.desk, shared.gate);
    let (pass, turn, _) = close(rt, &connection.conn, desk, pass, gate, Wakes::none());
    tell_logout(shared.gate, connection, turn.state, Cause::Stop);
    let _ = shared.wakers.wake_others(pass.number(), turn.wakes);
    if turn.state == TurnState::Closed {
        connections.end(key);
    }
    pass
}
