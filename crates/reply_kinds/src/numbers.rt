//! Numbers that reading keeps to a range. The types do not hold it, and printing does not ask for it.
//! Contracts see the number.

use std::marker::Model;

/// The number of a battle, 1 to 2147483647.
#[derive(Drop)]
pub struct BattleNumber(pub u32);

impl Model for BattleNumber {
    ghost use Rattle.std.specs.Prelude.{ℕ};

    ghost Value = { ℕ };

    ghost view = { λ x. x.0 };
}

/// A number from 0 to `HIGH`.
#[derive(Drop)]
pub struct UpTo<const HIGH: u8>(pub u8);

impl<const HIGH: u8> Model for UpTo<HIGH> {
    ghost use Rattle.std.specs.Prelude.{ℕ};

    ghost Value = { ℕ };

    ghost view = { λ x. x.0 };
}

/// A number of either sign, -2147483648 to 4294967295.
#[derive(Drop)]
pub struct Wide(pub i64);

impl Model for Wide {
    ghost use Rattle.std.specs.Prelude.{ℤ};

    ghost Value = { ℤ };

    ghost view = { λ x. x.0 };
}
