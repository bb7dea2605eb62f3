//! A crowd of users who are logged in, and a channel of 33 whose last one joins.

use crate::lobby::lobbies::{act, are_alike, show_unread, use_buffer_up};
use crate::refusing::deeds::{Deed, Subject, try_deeds};
use crate::refusing::notes::Notes;
use crate::refusing::refuser::Refuser;
use lobby_machine::Lobby;
use std::alloc::Global;
use std::io;
use test_lobby::{crowd_lobby, use_buffers_up};

static DEEDS: [(u64, Deed); 2] = [
    (33, Deed::Send(b"JOIN main")),
    (1, Deed::Send(b"SAY main hello")),
];

/// The channel's members are told, the list of channels has their number, and the last user logs out.
static LOOKS: [(u64, Deed); 3] = [
    (2, Deed::Send(b"SAY main who is there")),
    (33, Deed::Send(b"CHANNELS")),
    (33, Deed::Send(b"EXIT")),
];

/// A lobby of so many users who have read all, where all but the last are in a channel.
#[derive(Drop)]
pub struct Crowd<const USERS: u32>(Lobby);

impl<const USERS: u32> Subject for Crowd<USERS> {
    fn new(alloc: Global) -> Option<Crowd<USERS>> {
        Some(Crowd(crowd_lobby(alloc, USERS)?))
    }

    fn act(&mut self, alloc: Global, client: u64, deed: Deed) -> bool {
        act(&mut self.0, alloc, client, deed)
    }

    fn use_up(&mut self, alloc: Global) -> bool {
        // the last user is not in the channel
        use_buffers_up(&mut self.0, alloc, USERS)
            && use_buffer_up(&mut self.0, alloc, u64::from(USERS))
    }

    fn is_as(&mut self, other: &mut Crowd<USERS>) -> bool {
        are_alike(&mut self.0, &mut other.0)
    }

    fn show<R: Print>(&mut self, rt: &R) -> io::Result<()> {
        show_unread(rt, &self.0)
    }
}

pub fn try_out<R: Print + AllocGlobal>(
    rt: &R,
    refuser: &mut Refuser,
    notes: &mut Notes,
) -> io::Result<()> {
    try_deeds::<Crowd<33>, R>(rt, &DEEDS, &LOOKS, refuser, notes)
}
