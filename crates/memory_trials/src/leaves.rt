//! What lies below a lobby, framers, sessions, views and printed requests, has to do with fixed bytes.

mod requests;
mod sessions;
mod views;

use crate::refusing::notes::Notes;
use crate::refusing::refuser::Refuser;
use std::io;

pub fn try_out<R: Print + AllocGlobal>(
    rt: &R,
    refuser: &mut Refuser,
    notes: &mut Notes,
) -> io::Result<()> {
    sessions::try_out(rt, refuser, notes)?;
    views::try_out(rt, refuser, notes)?;
    requests::try_out(rt, refuser, notes)
}
