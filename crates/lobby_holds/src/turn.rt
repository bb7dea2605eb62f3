//! What a turn came to.

use lobby_machine::Wakes;

/// How a connection stands after a turn.
#[derive(Clone, Copy, PartialEq, Eq, Debug)]
pub enum TurnState {
    /// Nothing more can be done until the link or the lobby has something new.
    Idle,
    /// The turn came to one of its limits: there may be more to do at once.
    Again,
    /// The client was shut. Its connection is over.
    Closed,
    /// Memory was refused. What was next stays next, for another turn.
    Memory,
}

/// What a turn came to.
#[derive(Clone, Copy, PartialEq, Eq, Debug)]
pub struct Turn {
    /// How the connection stands.
    pub state: TurnState,
    /// The workers whose clients gained bytes or were cut by what this turn said to the lobby.
    pub wakes: Wakes,
}
