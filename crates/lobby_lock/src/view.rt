//! What a pass knows. No value of these types is made: they are for the proofs alone.

use lobby_machine::Lobby;
use lobby_model::Event;
use std::collections::LinkedList;

/// What is known of a worker.
pub struct Worker {
    /// 0 of the worker that opened the desk, else its number among those handed out.
    pub number: u8,
    /// The beginning of the history that it has seen.
    pub seen: LinkedList<(u8, Event)>,
    /// The events that it made.
    pub mine: LinkedList<Event>,
}

/// What a pass knows.
pub struct View {
    /// Whether the pass is in use. One that was taken back is not, and then binds nothing.
    pub alive: bool,
    /// Whether its worker holds the lobby.
    pub holds: bool,
    /// The lobby with which the desk was opened.
    pub start: Lobby,
    /// The lobby as its worker last took it from the desk or left it there. A new pass knows what its
    /// giver does.
    pub on_desk: Lobby,
    /// What is known of its worker.
    pub worker: Worker,
    /// How many numbers were handed out; worker 0 alone counts them.
    pub handed: u8,
    /// The workers whose passes it took back, the last one first.
    pub taken_back: LinkedList<Worker>,
}
