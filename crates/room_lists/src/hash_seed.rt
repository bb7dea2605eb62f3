//! How the words that clients choose are hashed.

ghost use Rattle.std.specs.Prelude.{◌≡◌};
ghost use Rattle.std.specs.Hash.DefaultHasher as sip;

use std::hash::{BuildHasher, DefaultHasher, Hasher};

/// How the words of a room are hashed: by SipHash-1-3, which has read the seed's bytes before. Who does not know them
/// cannot choose words of one hash, each look-up among which would walk all of them.
#[derive(Clone, Copy)]
pub struct HashSeed {
    seeded: DefaultHasher,
}

impl HashSeed {
    /// The seed that everybody knows, without a byte: for lists whose words nobody chooses to slow them.
    pub fn known() -> HashSeed
        ensures { result.seeded ≡ sip.initial }
    {
        HashSeed {
            seeded: DefaultHasher::new(),
        }
    }

    /// The seed of these bytes. A server takes random ones.
    pub fn new(bytes: &[u8; 16]) -> HashSeed
        ensures { result.seeded ≡ sip.write sip.initial bytes.now }
    {
        let mut seeded = DefaultHasher::new();
        seeded.write(bytes);
        HashSeed { seeded }
    }
}

impl BuildHasher for HashSeed {
    type Hasher = DefaultHasher;

    ghost build_hasher = { λ seed. seed.seeded };

    fn build_hasher(&self) -> DefaultHasher {
        self.seeded
    }
}
