//! The tests' lobbies, each with one owner, which lends it to what is played there.

use crate::machine::{clients, dirty};
use crate::verdict::fail;
use lobby_machine::Lobby;
use std::alloc::Global;
use std::process::Abort;

/// What is played in a lobby.
#[derive(Clone, Copy)]
pub enum Part {
    Waking,
    ReadingOn,
    Cutting,
    ReadingEnough,
    ReadingTooLittle,
    Leaving,
    Filling,
    ComingOnce,
    ComingAndGoing,
    BeingCut,
    Meeting,
}

fn play_in(rt: &impl Abort, alloc: Global, lobby: &mut Lobby, part: Part) {
    match part {
        Part::Waking => clients::wake(rt, alloc, lobby),
        Part::ReadingOn => clients::exit_and_read_on(rt, alloc, lobby),
        Part::Cutting => clients::fill_and_cut(rt, alloc, lobby),
        Part::ReadingEnough => clients::read_enough(rt, alloc, lobby),
        Part::ReadingTooLittle => clients::read_too_little(rt, alloc, lobby),
        Part::Leaving => clients::log_in_and_out(rt, alloc, lobby),
        Part::Filling => clients::open_to_the_last(rt, lobby),
        Part::ComingOnce => dirty::open_one(rt, lobby),
        Part::ComingAndGoing => dirty::come_and_go(rt, alloc, lobby),
        Part::BeingCut => dirty::fill_and_cut(rt, alloc, lobby),
        Part::Meeting => dirty::meet_and_talk(rt, alloc, lobby),
    }
}

/// Plays this in a lobby that was made, and lets it go.
pub fn play(rt: &impl Abort, alloc: Global, made: Option<Lobby>, part: Part) {
    match made {
        Some(lobby) => {
            let mut lobby = lobby;
            play_in(rt, alloc, &mut lobby, part);
            drop(lobby);
        }
        None => fail(rt, "no lobby"),
    }
}
