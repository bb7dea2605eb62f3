//! The names of clients that changed, which a worker asks the lobby for.

ghost use Rattle.std.specs.Prelude.{◌≡◌, ◌≢◌, ◌<◌, ◌≤◌, ◌∷◌, [], ℕ, List, length, true, false, vec_capacity, vec_len};
ghost use Rattle.std.specs.List.{Contains};
ghost use Rattle.lobby_machine.specs.Shown.{dirty_at, unread_of};

use lobby_lock::{Held, MOST_EVENTS};

/// The most names that are taken in a hold, so that no other worker waits long for the lobby.
pub const IN_HOLD: usize = 64;

/// Takes names of changed clients in a hold that goes on, while there is room, and keeps those of clients
/// for which a turn has something to do. Whether these are all.
pub(crate) fn take_all(held: &mut Held, home: u8, called: &mut Vec<u64>) -> bool
    requires { home ≤ 63 }
    ensures pass { held.new.pass ≡ held.old.pass }
    ensures all { result ≡ true → dirty_at held.new.lobby home ≡ [] }
{
    for _ in 0..IN_HOLD {
        if called.len() == called.capacity() || held.count() >= MOST_EVENTS {
            return false;
        }
        if !take_next(held, home, called) {
            return true;
        }
    }
    false
}

/// Takes the next name, and keeps it where a turn has something to do for its client. False where there is none.
fn take_next(held: &mut Held, home: u8, called: &mut Vec<u64>) -> bool
    requires home { home ≤ 63 }
    requires few { length held.old.events < MOST_EVENTS }
    requires room { vec_len called.old < vec_capacity called.old }
    ensures pass { held.new.pass ≡ held.old.pass }
    ensures none { result ≡ false → dirty_at held.new.lobby home ≡ [] }
    ensures named { (client : ℕ) (rest : List ℕ) → dirty_at held.old.lobby home ≡ client ∷ rest
        → unread_of held.old.lobby.plain client ≢ [] → Contains called.new.items client }
{
    let Some(client) = held.next_dirty(home) else {
        return false;
    };
    if has_news(held, client) {
        called.push_reserved(client);
    }
    true
}

/// Whether bytes wait for a client, or nothing will ever come of it. Who was told everything in the turn
/// that touched it has no news.
fn has_news(held: &mut Held, client: u64) -> bool
    requires { length held.old.events < MOST_EVENTS }
    ensures pass { held.new.pass ≡ held.old.pass }
    ensures none { result ≡ false → unread_of held.old.lobby.plain client ≡ [] }
{
    held.unread(client) > 0 || held.drain(client, &mut []).finished
}
