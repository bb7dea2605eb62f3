//! A desk with a lobby of the users, for one worker or for two.

ghost use Rattle.std.specs.Prelude.{◌≡◌, IfSome};

use lobby_lock::{Desk, Pass};
use std::alloc::Global;
use std::sync::Wait;
use test_lobby::new_lobby;

/// A desk and its first pass. None where memory is refused.
pub fn open<R: Wait>(rt: &R, alloc: Global) -> Option<(Desk, Pass)>
    ensures desk { IfSome result (λ opened. opened.1.desk ≡ opened.0) }
    ensures first { IfSome result (λ opened. opened.1.worker.number ≡ 0) }
{
    match Desk::open(rt, alloc, new_lobby(alloc)?) {
        Ok(opened) => Some(opened),
        Err(_) => None,
    }
}

/// A desk, its first pass and one more. None where memory is refused.
pub fn open_for_two<R: Wait>(rt: &R, alloc: Global) -> Option<(Desk, Pass, Pass)>
    ensures desk { IfSome result (λ opened. (opened.1.desk ≡ opened.0) × (opened.2.desk ≡ opened.0)) }
    ensures first { IfSome result (λ opened. opened.1.worker.number ≡ 0) }
{
    let (desk, pass) = open(rt, alloc)?;
    match desk.hand_out(alloc, pass) {
        Ok((pass, other)) => Some((desk, pass, other)),
        Err((pass, _)) => {
            drop(pass);
            drop(desk);
            None
        }
    }
}
