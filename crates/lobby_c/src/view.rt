//! A view, made, fed and freed.

ghost use Rattle.std.specs.Prelude.{◌≡◌, ℕ, true, false, nat_eq, [], ◌∷◌, Some, None, IsTrue};
ghost use Rattle.std.specs.List.{list_any};
ghost use Rattle.client_view.specs.Following.{Followed, TookIn, HasNew};
ghost use Rattle.lobby_lines.specs.Answers.{ok, no_memory, line_too_long};
ghost use Rattle.lobby_c.specs.Slot.{content, IsFull};

use crate::slot::Slot;
use client_view::{View, ViewError};
use lobby_lines::{LINE_TOO_LONG, NO_MEMORY, OK};
use std::alloc::Global;

/// Fills an empty view with that of a client that was sent nothing: `OK`. `NO_MEMORY`, and then it stays empty.
#[unsafe(no_mangle)]
pub extern "C" fn lobby_view_new(alloc: Global, view: &mut Slot) -> u32
    requires { view.old.held ≡ None }
    ensures full { result ≡ ok → IsFull view.new.held }
    ensures made { result ≡ ok → Followed (content view.new.held) [] }
    ensures refused { result ≡ no_memory → view.new.held ≡ None }
    ensures status { IsTrue (list_any (nat_eq result) (ok ∷ no_memory ∷ [])) }
{
    match Box::new(alloc, View::new(alloc)) {
        Ok(made) => {
            *view = Slot::close(made);
            OK
        }
        Err(_) => NO_MEMORY,
    }
}

/// Takes in the next bytes that the client was sent, as `View::feed`: `OK`, and `folded` says how many lines were
/// folded; `LINE_TOO_LONG` or `NO_MEMORY`, and then `folded` stays as it was.
#[unsafe(no_mangle)]
pub extern "C" fn lobby_view_feed(
    alloc: Global,
    view: &mut Slot,
    bytes: &[u8],
    folded: &mut usize,
) -> u32
    requires { IsFull view.old.held }
    ensures full { IsFull view.new.held }
    ensures fed { result ≡ ok → TookIn (content view.old.held) bytes.now (content view.new.held)
        × ((content view.new.held).spoilt ≡ false) × HasNew (content view.old.held) bytes.now folded.new }
    ensures too_long { result ≡ line_too_long
        → TookIn (content view.old.held) bytes.now (content view.new.held) × ((content view.new.held).spoilt ≡ true)
        × (folded.new ≡ folded.old) }
    ensures later { (content view.old.held).spoilt ≡ true → (result ≡ line_too_long) × (view.new.held ≡ view.old.held) }
    ensures refused { result ≡ no_memory → (view.new.held ≡ view.old.held) × (folded.new ≡ folded.old) }
    ensures status { IsTrue (list_any (nat_eq result) (ok ∷ no_memory ∷ line_too_long ∷ [])) }
{
    let mut opened = view.take().open(alloc);
    let status = match opened.feed(bytes) {
        Ok(count) => {
            *folded = count;
            OK
        }
        Err(ViewError::Memory) => NO_MEMORY,
        Err(ViewError::LineTooLong) => LINE_TOO_LONG,
    };
    *view = Slot::close(opened);
    status
}

/// Frees what the view holds, and leaves it empty.
#[unsafe(no_mangle)]
pub extern "C" fn lobby_view_free(alloc: Global, view: &mut Slot)
    requires { IsFull view.old.held }
    ensures { view.new.held ≡ None }
{
    let opened = view.take().open(alloc);
    drop(opened);
}
