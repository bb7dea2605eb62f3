//! The keys of a map that notes its changes.

ghost use Rattle.std.specs.Prelude.{◌≡◌};
ghost use Rattle.std.specs.Ordering.{nat_cmp};
ghost use Rattle.std.specs.declared.cmp.Ordering.TheVariants.{Equal};
ghost use Rattle.std.specs.FinMap.{nat_cmp-IsAntisymmetric, slice_cmp-IsAntisymmetric};

use line_words::NameBuf;

/// A key: keys that tie are one, and it is copied without memory.
pub trait Key: Ord + Drop {
    /// The same key once more.
    fn again(&self) -> Self
        ensures { result ≡ self.now };

    ghost same: { (x y : Self) → Self.cmp x y ≡ Equal → x ≡ y };
}

impl Key for u32 {
    fn again(&self) -> u32 {
        *self
    }

    ghost same = { nat_cmp-IsAntisymmetric };
}

impl Key for NameBuf {
    fn again(&self) -> NameBuf {
        self.copy()
    }

    ghost same = { slice_cmp-IsAntisymmetric nat_cmp-IsAntisymmetric };
}
