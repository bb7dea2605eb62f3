//! Two clients are served over links in memory, and what they were told is shown.

mod calls;
mod links;
mod pings;
mod places;
mod sides;

use crate::refusing::notes::Notes;
use crate::refusing::refuser::Refuser;
use std::io;
use std::sync::Wait;

pub fn try_out<R: Wait + Print + AllocGlobal>(
    rt: &R,
    refuser: &mut Refuser,
    notes: &mut Notes,
) -> io::Result<()> {
    links::try_out(rt, refuser, notes)?;
    pings::try_out(rt, refuser, notes)
}
