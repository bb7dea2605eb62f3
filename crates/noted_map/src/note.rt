//! Notes of how an entry was before a change.

ghost use Rattle.std.specs.Prelude.{◌≡◌, IfOk, OnOk, OnErr};

use std::alloc::AllocError;

/// What undoes a change of a value in its place.
pub trait Undo<X>: Drop {
    ghost back: { Self → X → X };

    /// Makes the value again what it was. It takes no memory.
    fn undo(self, value: &mut X)
        ensures { value.new ≡ back self value.old };
}

/// A change of a value in its place, which `U` undoes.
pub trait Edit<X, U: Undo<X>>: Drop {
    ghost after: { Self → X → X };

    /// Changes the value. Where memory is refused, nothing changes.
    fn make(self, value: &mut X) -> Result<(), AllocError>
        ensures ok { OnOk result (value.new ≡ after self value.old) }
        ensures err { OnErr result (value.new ≡ value.old) };

    /// Changes the value, and gives what undoes that. Where memory is refused, nothing changes.
    fn make_noted(self, value: &mut X) -> Result<U, AllocError>
        ensures ok { OnOk result (value.new ≡ after self value.old) }
        ensures undone { IfOk result (λ undo. U.back undo value.new ≡ value.old) }
        ensures err { OnErr result (value.new ≡ value.old) };
}

/// How an entry was before a change.
#[derive(Drop)]
pub(crate) enum Note<X, U> {
    /// There was none, nor a place for it.
    Came,
    /// Its place held this; nothing, where it was empty.
    Was(Option<X>),
    /// Its value was another in one part.
    Part(U),
}
