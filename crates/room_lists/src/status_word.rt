//! How a status is kept.

ghost use Rattle.std.specs.Prelude.{ℕ};

use status_bits::BattleStatus;

/// A kind of battle status: any word, as a client is told one, or a `BattleStatus`, whose fields are in
/// their ranges.
pub trait StatusWord: Copy {
    ghost number: { Self → ℕ };
}

impl StatusWord for u32 {
    ghost number = { λ word. word };
}

impl StatusWord for BattleStatus {
    ghost number = { λ status. status };
}
