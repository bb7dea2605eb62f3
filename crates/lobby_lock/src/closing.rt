//! A desk that was closed.

ghost use Rattle.std.specs.Prelude.{◌≡◌, ℕ, ◌<◌, ◌≤◌, length, Some, None, IfSome, IfNone, slice_get};
ghost use Rattle.lobby_lock.specs.Counts.{last_count};
ghost use Rattle.lobby_lock.specs.Closing.{IsCount};
ghost use Rattle.lobby_lock.specs.declared.closing.Count.TheVariants as count;

use crate::pass::Counts;
use crate::rule::PlacePass;
use lobby_machine::Lobby;
use std::marker::Model;
use thiserror::Error;

/// Why a desk was not closed.
#[derive(Clone, Copy, PartialEq, Eq, Debug, Error)]
pub enum CloseError {
    /// The pass of the worker of this number was handed out, and not taken back. It is the least such
    /// number, from 1 to 63.
    #[error("worker {0} has its pass still")]
    StillOut(u8),
}

/// How many events a worker made at a desk.
#[derive(Clone, Copy, PartialEq, Eq, Debug)]
pub enum Count {
    /// So many, fewer than 18446744073709551615.
    Made(u64),
    /// 18446744073709551615 at least.
    Full,
    /// There was no worker of this number.
    Never,
}

/// The lobby of a desk that was closed, and how many events each of its workers made. Contracts see
/// the lobby, and worker 0's pass, which has then seen the whole history.
pub struct Closing {
    pub(crate) inner: PlacePass,
    pub(crate) handed: u8,
    pub(crate) lobby: Lobby,
    pub(crate) counts: Counts,
}

impl Drop for Closing {
    /// Who lets a closed desk go calls this, and need not know what it is made of.
    fn drop(self) {
        let Closing {
            inner,
            handed: _,
            lobby,
            counts,
        } = self;
        drop(inner);
        drop(lobby);
        drop(counts);
    }
}

impl Model for Closing {
    ghost use Rattle.std.specs.Prelude.{false};
    ghost use Rattle.lobby_lock.specs.Passes.{shown_pass};
    ghost use Rattle.lobby_lock.specs.Closing.{ShownClosing, shown_closing, IsClosed};

    ghost Value = { ShownClosing };

    ghost view = { λ c. shown_closing c.inner c.lobby };

    ghost invariant = { λ c. IsClosed (shown_pass c.inner false) c.handed c.counts.made c.counts.places.items };
}

impl Closing {
    /// How many events the worker of this number made.
    pub fn events(&self, worker: u8) -> Count
        ensures { IsCount self.now.pass worker result }
    {
        if worker == 0 {
            return count_from(self.counts.made);
        }
        if worker > self.handed {
            return Count::Never;
        }
        match self.counts.places[worker as usize] {
            Some(made) => count_from(made),
            None => unreachable!(),
        }
    }

    /// The lobby.
    pub fn lobby(&self) -> &Lobby
        ensures { result.now ≡ self.now.lobby }
    {
        &self.lobby
    }
}

/// A count that stays at the last value tells no more there.
fn count_from(made: u64) -> Count
    ensures made { made < last_count → result ≡ count.Made made }
    ensures full { made ≡ last_count → result ≡ count.Full }
{
    if made == u64::MAX {
        Count::Full
    } else {
        Count::Made(made)
    }
}

/// The least number from 1 on that was handed out and has no count in its place.
pub(crate) fn first_out(places: &[Option<u64>], handed: u8) -> Option<u8>
    requires { (length places.now ≡ 64) × (handed ≤ 63) }
    ensures out { IfSome result (λ number.
        (1 ≤ number) × (number ≤ handed) × (slice_get places.now number ≡ Some None)) }
    ensures least { IfSome result (λ number. (k : ℕ) → 1 ≤ k → k < number → slice_get places.now k ≡ Some None → ⊥) }
    ensures none { IfNone result ((k : ℕ) → 1 ≤ k → k ≤ handed → slice_get places.now k ≡ Some None → ⊥) }
{
    for number in 1..handed + 1 {
        if places[number as usize].is_none() {
            return Some(number);
        }
    }
    None
}
