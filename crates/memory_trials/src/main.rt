//! A program that refuses memory to one call after another, and checks what each refusal leaves behind.
//!
//! Most of its trials go by [`refusing::deeds::try_deeds`], which does a list of deeds to one subject, to which memory
//! is refused, and to another, to which it is not.
//!
//! For example (`memory_trials/src/refusing/deeds.rt`):
//!
//! ```rust
//! refuser.begin(step);
//! let is_done = self.tried.act(alloc, client, deed);
//! refuser.end();
//! if is_done {
//!     refuser.release();
//!     return self.other.act(alloc, client, deed);
//! }
//! notes.refuse(self.tried.is_as(&mut self.other));
//! ```
//!
//! After each refusal, what public calls tell of the one is compared with what they tell of the other.
//!
//! The program plays fixed schedules, and shows what came of them:
//!
//! - without an argument it refuses nothing;
//! - with `scarce` it makes each call that wants memory with none first, and then with more and more until it suffices;
//! - with `counted`, and the library checks/refuse_allocation.c, it makes each call with its first growth refused, and
//!   then with the next one, until none is;
//! - with `bounds` it refuses nothing either, and shows how much memory parts of a script may take.
//!
//! The first three show the same, but for the count of the refusals.
#![tactic(auto)]

mod bounds;
mod leaves;
mod lobby;
mod refusing;
mod turns;

use crate::refusing::notes::Notes;
use crate::refusing::refuser::Refuser;
use std::rt::Env;
use std::sync::Wait;
use std::{env, io};

/// What the program is asked to do.
#[derive(Drop)]
enum Task {
    /// To try all calls, and to refuse memory to them in this way.
    Try(Refuser),
    /// To show the bounds of what a lobby takes.
    Bound,
    /// To say what it can be asked.
    Explain,
}

/// What the argument asks for.
fn asked<R: Env + AllocGlobal>(rt: &R) -> io::Result<Task> {
    let Some(word) = env::args(rt)?.nth(1) else {
        return Ok(Task::Try(Refuser::Never));
    };
    match word.as_str() {
        "scarce" => Ok(Task::Try(Refuser::scarce(rt.alloc())?)),
        "counted" => Ok(Task::Try(Refuser::counted(rt.alloc()))),
        "bounds" => Ok(Task::Bound),
        _ => Ok(Task::Explain),
    }
}

/// Tries all that takes memory, one part after another, and shows what each came to.
fn try_all<R: Wait + Print + AllocGlobal>(
    rt: &R,
    refuser: &mut Refuser,
    notes: &mut Notes,
) -> io::Result<()> {
    leaves::try_out(rt, refuser, notes)?;
    lobby::try_out(rt, refuser, notes)?;
    turns::try_out(rt, refuser, notes)
}

/// The same, and shows at the end how often memory was refused.
fn try_with<R: Wait + Print + AllocGlobal>(rt: &R, refuser: Refuser) -> io::Result<()> {
    let mut refuser = refuser;
    let mut notes = Notes::new();
    let tried = try_all(rt, &mut refuser, &mut notes);
    drop(refuser);
    tried?;
    notes.show(rt)
}

fn main(rt: HostRuntime) -> io::Result<()> {
    match asked(&rt)? {
        Task::Try(refuser) => try_with(&rt, refuser),
        Task::Bound => bounds::count_all(&rt),
        Task::Explain => println!(rt; "usage: memory_trials [scarce|counted|bounds]"),
    }
}
