//! Numbers, and the separators that end them.

ghost use Rattle.std.specs.Prelude.{◌≡◌, ◌<◌, ℕ, List, false, IfSome, IsSomeAnd, MatchOption};
ghost use Rattle.line_words.specs.Bytes.{has_byte};
ghost use Rattle.proxy_line.specs.Words.{Finds, IsNumber, LeadsWith, PartedAt};

use itoa::Buffer;
use memchr::memchr;
use std::str;

/// What stands before the first byte `separator`, and what stands behind it; `None` where there is none.
pub fn part_at(bytes: &[u8], separator: u8) -> Option<(&[u8], &[u8])>
    ensures { MatchOption result (has_byte separator bytes.now ≡ false) (λ parts.
        PartedAt separator bytes.now parts.0.now parts.1.now) }
{
    let at = memchr(separator, bytes)?;
    Some((&bytes[..at], &bytes[at + 1..]))
}

/// The number that the whole text writes: decimal, without leading zeros, 0 to 4294967295. `None` at any other text.
pub fn number(text: &[u8]) -> Option<u32>
    ensures { Finds (IsNumber text.now) result }
{
    let digits = str::from_utf8(text).ok()?;
    let value: u32 = digits.parse().ok()?;
    let mut buffer = Buffer::new();
    // Leading zeros and a plus sign read as a number too, and are not written of one.
    (buffer.format(value) == digits).then_some(value)
}

/// The number, as `number` reads one, before the first `separator` of the text, and what stands behind the separator.
/// `None` where there is no separator or no such number. The separator is a byte before the digits in ASCII.
pub fn number_before(text: &[u8], separator: u8) -> Option<(u32, &[u8])>
    requires { separator < 48 }
    ensures sound { IfSome result (λ parts. LeadsWith separator text.now parts.0 parts.1.now) }
    ensures complete { (n : ℕ) (rest : List ℕ) → LeadsWith separator text.now n rest
        → IsSomeAnd result (λ parts. (parts.0 ≡ n) × (parts.1.now ≡ rest)) }
{
    let (digits, rest) = part_at(text, separator)?;
    Some((number(digits)?, rest))
}
