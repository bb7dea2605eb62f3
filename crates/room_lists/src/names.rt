//! Names, words and keys by their bytes.

ghost use Rattle.std.specs.Prelude.{◌≡◌};
ghost use Rattle.line_words.specs.Table.{same_name};

/// Whether these are the same bytes.
pub(crate) fn is_same(bytes: &[u8], others: &[u8]) -> bool
    ensures { result ≡ same_name bytes.now others.now }
{
    bytes.cmp(others).is_eq()
}
