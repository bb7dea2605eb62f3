//! Lobbies, halls and a script play fixed schedules.

mod asking;
mod crowd;
mod halls;
mod lobbies;
mod scripts;

use crate::refusing::notes::Notes;
use crate::refusing::refuser::Refuser;
use std::io;

pub fn try_out<R: Print + AllocGlobal>(
    rt: &R,
    refuser: &mut Refuser,
    notes: &mut Notes,
) -> io::Result<()> {
    lobbies::try_out(rt, refuser, notes)?;
    crowd::try_out(rt, refuser, notes)?;
    asking::try_out(rt, refuser, notes)?;
    halls::try_out(rt, refuser, notes)?;
    scripts::try_out(rt, refuser, notes)
}
