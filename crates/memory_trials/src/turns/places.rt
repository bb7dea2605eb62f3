//! How far two clients have come who connect and then get turns, of whom each sends PING.

ghost use Rattle.std.specs.Prelude.{◌≡◌};

use crate::turns::sides::{Side, Sides};
use lobby_lock::{Desk, Pass};
use lobby_turns::{Got, Link};
use std::sync::Wait;
use test_lobby::GREETING;

/// How far a client has come where a call was refused, or is yet to be made.
#[derive(Clone, Copy)]
enum Place {
    /// It has not connected, or that was refused.
    Away,
    /// It got no turn yet.
    Greeted,
    /// Its turn was refused.
    Refused,
    /// It was told all.
    Served,
}

/// How far the client of this number, 0 or 1, has come where the call of this number is next, and was refused or not.
/// Its turn comes two calls behind that by which it connects.
fn place_of(client: usize, next: usize, was_refused: bool) -> Place {
    match next.saturating_sub(client) {
        0 => Place::Away,
        2 if was_refused => Place::Refused,
        1 | 2 => Place::Greeted,
        _ => Place::Served,
    }
}

/// Whether a client whose turn was refused was told just so much as it may be.
fn is_short(side: &Side, waiting: usize) -> bool {
    let told = side.link.output();
    let is_read_out = side.link.last_got() == Some(Got::Later);
    // its line is next, as it was
    let has_line = (told == GREETING && waiting == 0)
        || (told.is_empty() && waiting == GREETING.len());
    // its line was said before the read behind it was refused a buffer, which is then next, or the drain
    let has_said = side.is_told() && waiting == 0;
    let is_to_drain = told.is_empty() && waiting == side.told.len();
    is_to_drain || (!is_read_out && (has_line || has_said))
}

/// Whether a client was told just so much at this place, and just so much waits.
fn is_at(place: Place, side: &Side, waiting: usize) -> bool {
    let told = side.link.output();
    side.conn.is_written()
        && match place {
            Place::Away => told.is_empty() && waiting == 0,
            Place::Greeted => told.is_empty() && waiting == GREETING.len(),
            Place::Refused => is_short(side, waiting),
            Place::Served => side.is_told() && waiting == 0,
        }
}

/// Whether both are where they are to be where the call of this number is next, and was refused or not.
pub fn are_exact<R: Wait>(
    rt: &R,
    desk: &Desk,
    pass: Pass,
    sides: &Sides,
    next: usize,
    was_refused: bool,
) -> (Pass, bool)
    requires { pass.desk ≡ desk.now }
    ensures { result.0.desk ≡ desk.now }
{
    let held = desk.take(rt, pass);
    let (first, second) = (held.unread(1), held.unread(2));
    let pass = held.give(rt, desk);
    let are_so = is_at(place_of(0, next, was_refused), &sides.first, first)
        && is_at(place_of(1, next, was_refused), &sides.second, second);
    (pass, are_so)
}
