//! How many bytes are told.

ghost use Rattle.std.specs.Prelude.{◌≡◌, length};
ghost use Rattle.lobby_post.specs.Amounts.{counted_on};

/// A count goes on by the bytes that a client gets. It begins anew behind 2^64 - 1.
#[inline(always)]
pub fn with_bytes(count: u64, bytes: &[u8]) -> u64
    ensures { result ≡ counted_on count (length bytes.now) }
{
    count.wrapping_add(bytes.len() as u64)
}
