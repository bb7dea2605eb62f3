// Laws of the definitions, for crates above.
ghost use Rattle.std.specs.Prelude.{◌≡◌, ℕ, List, true, false};
ghost use Rattle.std.specs.List.{AllByRecursion};
ghost use Rattle.line_framer.specs.Frames.{is_spoilt};
ghost use Rattle.line_framer.specs.Laws.{GoesOn, StaysSpoilt, IsPlainLine, ComesOut};

/// Frames depend on the bytes alone, wherever they are cut. Does nothing.
pub fn pieces_law()
    ensures sound { (bytes more : List ℕ) (limit : ℕ) → is_spoilt bytes limit ≡ false → GoesOn bytes more limit }
    ensures spoilt { (bytes more : List ℕ) (limit : ℕ) → is_spoilt bytes limit ≡ true → StaysSpoilt bytes more limit }
{}

/// The bytes of whole lines are cut into these very lines. Does nothing.
pub fn lines_law()
    ensures { (lines : List (List ℕ)) (limit : ℕ) → AllByRecursion (IsPlainLine limit) lines → ComesOut lines limit }
{}
