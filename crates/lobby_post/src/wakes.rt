//! Which workers have something to do for their clients.

ghost use Rattle.std.specs.Prelude.{◌≡◌, ℕ, ◌<◌, ◌||◌, false};
ghost use Rattle.lobby_post.specs.Mask.{has_home};
ghost use Rattle.line_words.specs.Table.{same_number};

use std::marker::Model;

/// The workers, 0 to 63, whose clients an event touched: they gained bytes, or were cut.
#[derive(Clone, Copy, PartialEq, Eq, Debug)]
pub struct Wakes {
    mask: u64,
}

impl Model for Wakes {
    ghost use Rattle.std.specs.Prelude.{ℕ};

    ghost Value = { ℕ };

    ghost view = { λ w. w.mask };

    ghost inverse = { λ mask. record { mask = mask } };
}

impl Wakes {
    /// No worker.
    pub fn none() -> Wakes
        ensures { (home : ℕ) → has_home result home ≡ false }
    {
        Wakes { mask: 0 }
    }

    /// One worker, by its number 0 to 63.
    pub fn one(home: u8) -> Wakes
        requires { home < 64 }
        ensures { (other : ℕ) → has_home result other ≡ same_number home other }
    {
        Wakes { mask: 1 << home }
    }

    /// The workers of both.
    pub fn union(self, other: Wakes) -> Wakes
        ensures { (home : ℕ) → has_home result home ≡ (has_home self home || has_home other home) }
    {
        Wakes {
            mask: self.mask | other.mask,
        }
    }

    /// Whether a worker, by its number 0 to 63, is among them.
    pub fn has(self, home: u8) -> bool
        requires { home < 64 }
        ensures { result ≡ has_home self home }
    {
        self.mask >> home & 1 == 1
    }
}
