//! The sessions of all clients that were ever opened, in the order of their numbers; none, once a
//! client is removed.

ghost use Rattle.std.specs.Prelude.{◌≡◌, ◌≢◌, ℕ, length, IfOk, OnOk, OnErr, None, true};
ghost use Rattle.std.specs.Option.{option_copied};
ghost use Rattle.lobby_hall.specs.Copied.{changed_at};
ghost use Rattle.lobby_hall.specs.Standing.{session_at};
ghost use Rattle.lobby_hall.specs.Wanting.{TakesIn};
ghost use Rattle.client_session.specs.OneSession.{Accepted, Fed, IsNextOf, IsReady};
ghost use Rattle.client_session.specs.Sessions.{KeepsKinds};

use crate::index::index_of;
use client_session::{Next, Session};
use line_framer::FeedError;
use std::alloc::AllocError;

/// Feeds a client's session, where it has one.
pub(crate) fn feed(
    sessions: &mut Vec<Option<Session>>,
    client: u64,
    piece: &[u8],
) -> Result<(), AllocError>
    ensures fed { OnOk result (Fed (session_at sessions.old.items client) (session_at sessions.new.items client)
        piece.now) }
    ensures others { (q : ℕ) → q ≢ client → session_at sessions.new.items q ≡ session_at sessions.old.items q }
    ensures same_length { length sessions.new.items ≡ length sessions.old.items }
    ensures err { OnErr result (sessions.new.items ≡ sessions.old.items) }
    ensures wanted { OnErr result (TakesIn (session_at sessions.old.items client) piece.now) }
{
    let Some(index) = index_of(client) else {
        return Ok(());
    };
    if index >= sessions.len() {
        return Ok(());
    }
    feed_one(&mut sessions[index], piece)
}

fn feed_one(session: &mut Option<Session>, piece: &[u8]) -> Result<(), AllocError>
    ensures fed { OnOk result (Fed session.old session.new piece.now) }
    ensures err { OnErr result (session.new ≡ session.old) }
    ensures wanted { OnErr result (TakesIn session.old piece.now) }
{
    match session {
        Some(session) => match session.feed(piece) {
            Err(FeedError::Memory) => Err(AllocError),
            Ok(()) | Err(FeedError::Spoilt) => Ok(()),
        },
        None => Ok(()),
    }
}

/// Accepts the next line of a client, where it has a session and the session a line.
pub(crate) fn accept(sessions: &mut Vec<Option<Session>>, client: u64)
    ensures accepted { Accepted (session_at sessions.old.items client) (session_at sessions.new.items client) }
    ensures others { (q : ℕ) → q ≢ client → session_at sessions.new.items q ≡ session_at sessions.old.items q }
    ensures same_length { length sessions.new.items ≡ length sessions.old.items }
{
    let Some(index) = index_of(client) else {
        return;
    };
    if index >= sessions.len() {
        return;
    }
    accept_one(&mut sessions[index]);
}

fn accept_one(session: &mut Option<Session>)
    ensures { Accepted session.old session.new }
{
    if let Some(session) = session {
        session.accept_next();
    }
}

/// Ends a client's session.
pub(crate) fn close(sessions: &mut Vec<Option<Session>>, client: u64)
    ensures { sessions.new.items ≡ changed_at (λ _. None) sessions.old.items client }
{
    let Some(index) = index_of(client) else {
        return;
    };
    if index < sessions.len() {
        sessions[index] = None;
    }
}

/// What a client asks next: nothing, where it has no session.
pub(crate) fn next_of(sessions: &[Option<Session>], client: u64) -> Result<Next, AllocError>
    ensures next { IfOk result (IsNextOf (session_at sessions.now client)) }
    ensures kinds { IfOk result KeepsKinds }
    ensures wanted { OnErr result (IsReady (session_at sessions.now client) true) }
{
    match session_of(sessions, client) {
        Some(session) => session.next_request(),
        None => Ok(Next::Nothing),
    }
}

/// Whether a client has a session with a whole line or a spoilt place next.
pub(crate) fn is_ready(sessions: &[Option<Session>], client: u64) -> bool
    ensures { IsReady (session_at sessions.now client) result }
{
    match session_of(sessions, client) {
        Some(session) => session.is_ready(),
        None => false,
    }
}

/// A client's session.
fn session_of(sessions: &[Option<Session>], client: u64) -> Option<&Session>
    ensures { option_copied result ≡ session_at sessions.now client }
{
    match sessions.get(index_of(client)?) {
        Some(Some(session)) => Some(session),
        _ => None,
    }
}
