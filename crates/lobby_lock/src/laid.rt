//! What lies on the desk.

use lobby_machine::Lobby;

/// A lobby, with the number of events that the history has. That number stays at the last value of its type.
#[derive(Drop)]
pub struct Laid {
    pub lobby: Lobby,
    pub position: u64,
}
