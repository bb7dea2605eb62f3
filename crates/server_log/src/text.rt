//! A text that takes no memory.

ghost use Rattle.std.specs.Prelude.{◌≡◌, ◌≤◌, length, take};

use std::marker::Model;

/// The most bytes that are kept of a text: three times as many as an account's name has.
const KEPT: usize = 64;

/// The first 64 bytes of a text, whatever they are: a name as a client sent it, or an address. They lie in the value
/// itself.
#[derive(Drop)]
pub struct ShortText {
    bytes: [u8; KEPT],
    count: usize,
}

impl Model for ShortText {
    ghost use Rattle.std.specs.Prelude.{ℕ, List, ◌≤◌, take};

    ghost Value = { List ℕ };

    ghost view = { λ text. take text.count text.bytes };

    ghost invariant = { λ text. text.count ≤ 64 };
}

impl ShortText {
    /// The first 64 bytes of these.
    pub fn of(bytes: &[u8]) -> ShortText
        ensures { result ≡ take 64 bytes.now }
    {
        made_of(front(bytes))
    }

    /// The same text once more.
    pub fn copy(&self) -> ShortText
        ensures { result ≡ self.now }
    {
        ShortText {
            bytes: self.bytes,
            count: self.count,
        }
    }

    /// The bytes.
    pub fn as_slice(&self) -> &[u8]
        ensures { result.now ≡ self.now }
    {
        &self.bytes[..self.count]
    }
}

/// The first 64 bytes.
fn front(bytes: &[u8]) -> &[u8]
    ensures front { result.now ≡ take 64 bytes.now }
    ensures short { length result.now ≤ 64 }
{
    if bytes.len() > KEPT {
        &bytes[..KEPT]
    } else {
        bytes
    }
}

/// A text of so few bytes.
fn made_of(bytes: &[u8]) -> ShortText
    requires { length bytes.now ≤ 64 }
    ensures { result ≡ bytes.now }
{
    let count = bytes.len();
    let mut held = [0; KEPT];
    held[..count].copy_from_slice(bytes);
    ShortText { bytes: held, count }
}
