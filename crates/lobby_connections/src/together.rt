//! The connections whose turns share holds of the lobby.

ghost use Rattle.std.specs.Prelude.{◌≤◌};

use crate::serving::{Ended, Served};
use lobby_turns::Progress;

/// The most connections that share holds.
pub const TOGETHER: usize = 32;

/// How the turn of a connection stands that shares holds.
#[derive(Clone, Copy)]
pub(crate) enum Standing {
    /// It has not begun.
    Waits,
    /// It has come so far.
    Underway(Progress),
    /// It is over, and came to this.
    Over(Ended),
}

/// The connections whose turns share holds, in the order of their turns.
#[derive(Drop)]
pub struct Together {
    keys: [usize; TOGETHER],
    // how the turn of each stands
    standings: [Standing; TOGETHER],
    count: usize,
    // how much those may tell whose lines are still to be said
    allowance: u64,
    pub ghost within: { count ≤ 32 },
}

impl Together {
    ghost use Rattle.std.specs.Prelude.{◌≡◌, ◌<◌, ◌∷◌, ◌++◌, ℕ, [], false, length, slice_index_or, slice_set, IfSome};
    ghost use Rattle.std.specs.Prelude.{Some, None};
    ghost use Rattle.lobby_connections.specs.Joined.{keys_in};
    ghost use Rattle.lobby_connections.specs.Had.{Had};
    ghost use Rattle.lobby_connections.specs.Shared.{IsOver};

    /// Nobody.
    pub fn new() -> Together
        ensures { keys_in result ≡ [] }
    {
        Together {
            keys: [0; TOGETHER],
            standings: [Standing::Waits; TOGETHER],
            count: 0,
            allowance: 0,
        }
    }

    /// How many they are.
    pub fn count(&self) -> usize
        ensures { result ≡ length (keys_in self.now) }
    {
        self.count
    }

    /// Whether there is no place for one more.
    pub fn is_full(&self) -> bool
        ensures { result ≡ false → length (keys_in self.now) < TOGETHER }
    {
        self.count >= TOGETHER
    }

    /// The connection under a key joins them, behind all others.
    pub fn join(&mut self, key: usize)
        requires { length (keys_in self.old) < TOGETHER }
        ensures { keys_in self.new ≡ keys_in self.old ++ key ∷ [] }
    {
        self.keys[self.count] = key;
        self.standings[self.count] = Standing::Waits;
        self.count += 1;
    }

    /// The key of the one in this place.
    pub fn key_at(&self, place: usize) -> usize
        requires { place < length (keys_in self.now) }
        ensures { result ≡ slice_index_or (keys_in self.now) place 0 }
    {
        self.keys[place]
    }

    /// The turn that the one in this place had together with the others, if it had one. It is taken once.
    pub fn take_served(&mut self, place: usize) -> Option<Served>
        requires { place < length (keys_in self.old) }
        ensures key { IfSome result (λ had. had.key ≡ slice_index_or (keys_in self.old) place 0) }
        ensures served { (ended : Ended) → slice_index_or self.old.standings place Standing.Waits ≡ Standing.Over ended
            → (had : Had) × (result ≡ Some had) × (had.state ≡ ended.turn.state) × (had.wakes ≡ ended.turn.wakes)
            × (had.told ≡ ended.told) }
        ensures none { (IsOver (slice_index_or self.old.standings place Standing.Waits) → ⊥) → result ≡ None }
        ensures taken { IsOver (slice_index_or self.new.standings place Standing.Waits) → ⊥ }
        ensures keys { keys_in self.new ≡ keys_in self.old }
    {
        let Standing::Over(ended) = self.standings[place] else {
            return None;
        };
        self.standings[place] = Standing::Waits;
        Some(Served::new(self.keys[place], ended))
    }

    /// All had their turns.
    pub fn clear(&mut self)
        ensures { keys_in self.new ≡ [] }
    {
        self.count = 0;
    }

    /// The turns of all are to begin, and may tell so much.
    pub(crate) fn begin(&mut self, allowance: u64)
        ensures rest { self.new ≡ record self.old { standings = self.new.standings; allowance = allowance } }
        ensures waits { (place : ℕ) → slice_index_or self.new.standings place Standing.Waits ≡ Standing.Waits }
    {
        let waiting = [Standing::Waits; TOGETHER];
        self.standings = waiting;
        self.allowance = allowance;
    }

    /// How much those may tell whose lines are still to be said.
    pub(crate) fn allowance(&self) -> u64
        ensures { result ≡ self.now.allowance }
    {
        self.allowance
    }

    /// How the turn stands of the one in this place.
    pub(crate) fn standing_at(&self, place: usize) -> Standing
        requires { place < length (keys_in self.now) }
        ensures standing { result ≡ slice_index_or self.now.standings place Standing.Waits }
        ensures place { place < length self.now.standings }
    {
        self.standings[place]
    }

    /// The turn of the one in this place stands so now.
    pub(crate) fn stand(&mut self, place: usize, standing: Standing)
        requires { place < length (keys_in self.old) }
        ensures { self.new ≡ record self.old { standings = slice_set self.old.standings place standing } }
    {
        self.standings[place] = standing;
    }

    /// Those that are left may tell so much less.
    pub(crate) fn spend(&mut self, told: u64)
        ensures rest { self.new ≡ record self.old { allowance = self.new.allowance } }
        ensures less { self.new.allowance ≤ self.old.allowance }
    {
        self.allowance = self.allowance.saturating_sub(told);
    }

    /// The first place from this one on whose connection has lines to say.
    pub(crate) fn speaker_from(&self, first: usize) -> Option<usize> {
        for place in first..self.count {
            if speaks(self.standings[place]) {
                return Some(place);
            }
        }
        None
    }
}

/// Whether a turn has come to a line that is to be said.
fn speaks(standing: Standing) -> bool {
    match standing {
        Standing::Underway(progress) => progress.speaks(),
        Standing::Waits | Standing::Over(_) => false,
    }
}
