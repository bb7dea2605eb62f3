//! IPv4 addresses, alone and with a port.

ghost use Rattle.std.specs.Prelude.{◌≡◌, ℕ, List, IfSome, IsSomeAnd};
ghost use Rattle.proxy_line.specs.Words.{Finds, IsAddress, IsPort, IsSocketAddress, LeadsWithOctet};

use crate::numbers::{number, number_before, part_at};

fn octet_before_dot(text: &[u8]) -> Option<(u8, &[u8])>
    ensures sound { IfSome result (λ parts. LeadsWithOctet text.now parts.0 parts.1.now) }
    ensures complete { (n : ℕ) (rest : List ℕ) → LeadsWithOctet text.now n rest
        → IsSomeAnd result (λ parts. (parts.0 ≡ n) × (parts.1.now ≡ rest)) }
{
    let (value, rest) = number_before(text, b'.')?;
    Some((u8::try_from(value).ok()?, rest))
}

/// The IPv4 address that the whole text writes: four numbers 0 to 255 without leading zeros, parted by dots. `None` at
/// any other text.
pub fn address(text: &[u8]) -> Option<[u8; 4]>
    ensures { Finds (IsAddress text.now) result }
{
    let (first, rest) = octet_before_dot(text)?;
    let (second, rest) = octet_before_dot(rest)?;
    let (third, rest) = octet_before_dot(rest)?;
    let fourth = u8::try_from(number(rest)?).ok()?;
    Some([first, second, third, fourth])
}

/// The port that the whole text writes: a number 0 to 65535 without leading zeros. `None` at any other text.
pub fn port(text: &[u8]) -> Option<u16>
    ensures { Finds (IsPort text.now) result }
{
    u16::try_from(number(text)?).ok()
}

/// The IPv4 address and the port that the whole text writes: an address, a colon, and a number 0 to 65535 without
/// leading zeros. `None` at any other text.
pub fn socket_address(text: &[u8]) -> Option<([u8; 4], u16)>
    ensures { Finds (IsSocketAddress text.now) result }
{
    let (host, rest) = part_at(text, b':')?;
    Some((address(host)?, port(rest)?))
}
