//! The bytes that a script's text stands for: each as it is, or as an escape.

ghost use Rattle.std.specs.Prelude.{◌≡◌, ◌<◌, ℕ, List, ◌∷◌, IfOk, IfSome, IsSomeAnd};
ghost use Rattle.std.specs.Char.{digit_value};
ghost use Rattle.record_lines.specs.Escapes.{BeginsWritten, StandsForBytes};
ghost use Rattle.proxy_line.specs.Words.{Finds};

use lobby_model::schedule::Piece;
use std::alloc::{AllocError, Global};

/// The bytes that the text stands for: `\n`, `\t`, `\r`, `\\` and `\xHH` are one byte each, and
/// every other byte but a backslash is itself. `None` where a backslash stands before anything else.
pub fn unescape(alloc: Global, text: &[u8]) -> Result<Option<Piece>, AllocError>
    ensures { IfOk result (Finds (StandsForBytes text.now)) }
{
    let mut bytes = Vec::with_capacity(alloc, text.len())?;
    let mut rest = text;
    while let Some((byte, behind)) = first_byte(rest) {
        bytes.push(byte)?;
        rest = behind;
    }
    if !rest.is_empty() {
        return Ok(None);
    }
    Ok(Some(Piece::of(bytes)))
}

/// The byte that is written first, and what stands behind it.
fn first_byte(text: &[u8]) -> Option<(u8, &[u8])>
    ensures sound { IfSome result (λ parts. BeginsWritten text.now parts.0 parts.1.now) }
    ensures complete { (byte : ℕ) (behind : List ℕ) → BeginsWritten text.now byte behind
        → IsSomeAnd result (λ parts. (parts.0 ≡ byte) × (parts.1.now ≡ behind)) }
{
    let (first, behind) = text.split_first()?;
    if *first == b'\\' {
        escaped_byte(behind)
    } else {
        Some((*first, behind))
    }
}

/// The byte that is written first, where a backslash stands before the text.
fn escaped_byte(text: &[u8]) -> Option<(u8, &[u8])>
    ensures sound { IfSome result (λ parts. BeginsWritten (92 ∷ text.now) parts.0 parts.1.now) }
    ensures complete { (byte : ℕ) (behind : List ℕ) → BeginsWritten (92 ∷ text.now) byte behind
        → IsSomeAnd result (λ parts. (parts.0 ≡ byte) × (parts.1.now ≡ behind)) }
{
    let (letter, behind) = text.split_first()?;
    match *letter {
        b'n' => Some((b'\n', behind)),
        b't' => Some((b'\t', behind)),
        b'r' => Some((b'\r', behind)),
        b'\\' => Some((b'\\', behind)),
        b'x' => hexadecimal_byte(behind),
        _ => None,
    }
}

/// The byte that is written first, where `\x` stands before the text.
fn hexadecimal_byte(text: &[u8]) -> Option<(u8, &[u8])>
    ensures sound { IfSome result (λ parts. BeginsWritten (92 ∷ 120 ∷ text.now) parts.0 parts.1.now) }
    ensures complete { (byte : ℕ) (behind : List ℕ) → BeginsWritten (92 ∷ 120 ∷ text.now) byte behind
        → IsSomeAnd result (λ parts. (parts.0 ≡ byte) × (parts.1.now ≡ behind)) }
{
    let (high, behind) = text.split_first()?;
    let (low, behind) = behind.split_first()?;
    Some((
        16 * hexadecimal_digit(*high)? + hexadecimal_digit(*low)?,
        behind,
    ))
}

fn hexadecimal_digit(digit: u8) -> Option<u8>
    ensures { Finds (λ value. (digit_value digit < 16) × (value ≡ digit_value digit)) result }
{
    u8::try_from(char::from(digit).to_digit(16)?).ok()
}
