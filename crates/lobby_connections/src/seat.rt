//! The place of a connection in its worker's table, with what is noted of its turns.
//!
//! The notes stand beside the connection: who serves it changes none of them.

ghost use Rattle.std.specs.Prelude.{◌≡◌, true, false};
ghost use Rattle.lobby_connections.specs.Claims.{Notes, called_up, claims_of, had_turn, left_over, note_at, owing};

use crate::connection::Connection;
use mio::event::Event;
use slab::Slab;

/// What is noted of a connection's turns.
#[derive(Clone, Copy, PartialEq, Eq, Debug)]
pub struct Claim {
    /// Whether it is to get a turn.
    pub owes: bool,
    /// Whether it waits among those who are left over.
    pub is_left: bool,
}

/// A connection, and what is noted of its turns.
#[derive(Drop)]
pub(crate) struct Seat {
    pub(crate) connection: Connection,
    pub(crate) claim: Claim,
}

impl Seat {
    /// The seat of a connection that comes, which is to get its first turn.
    pub(crate) fn new(connection: Connection) -> Seat
        ensures { result.claim ≡ record { owes = true; is_left = false } }
    {
        Seat {
            connection,
            claim: Claim {
                owes: true,
                is_left: false,
            },
        }
    }
}

/// What is noted of the connection under a key.
pub(crate) fn claim_at(seats: &Slab<Seat>, key: usize) -> Option<Claim>
    ensures { result ≡ note_at (claims_of seats.now) key }
{
    match seats.get(key) {
        Some(seat) => Some(seat.claim),
        None => None,
    }
}

/// A connection is to get a turn.
pub(crate) fn owe(seats: &mut Slab<Seat>, key: usize)
    ensures { Notes seats.old seats.new key owing }
{
    if let Some(seat) = seats.get_mut(key) {
        seat.claim.owes = true;
    }
}

/// A connection had its turn.
pub(crate) fn quit(seats: &mut Slab<Seat>, key: usize)
    ensures { Notes seats.old seats.new key had_turn }
{
    if let Some(seat) = seats.get_mut(key) {
        seat.claim.owes = false;
    }
}

/// A connection is left over, and is to get a turn.
pub(crate) fn leave(seats: &mut Slab<Seat>, key: usize)
    ensures { Notes seats.old seats.new key left_over }
{
    if let Some(seat) = seats.get_mut(key) {
        seat.claim.owes = true;
        seat.claim.is_left = true;
    }
}

/// A connection waits among those who are left over no more.
pub(crate) fn call_up(seats: &mut Slab<Seat>, key: usize)
    ensures { Notes seats.old seats.new key called_up }
{
    if let Some(seat) = seats.get_mut(key) {
        seat.claim.is_left = false;
    }
}

/// Notes what a poll told of the link of a connection, which is to get a turn.
pub(crate) fn note(seats: &mut Slab<Seat>, key: usize, event: &Event)
    ensures { Notes seats.old seats.new key owing }
{
    if let Some(seat) = seats.get_mut(key) {
        seat.connection.note(event);
        seat.claim.owes = true;
    }
}
