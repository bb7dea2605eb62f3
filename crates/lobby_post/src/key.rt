//! Keys to clients.

ghost use Rattle.std.specs.Prelude.{◌≡◌};

/// The slot of a key that knows none: its client is looked for where it likely is.
pub const NOWHERE: usize = usize::MAX;

/// A client by its number, and the slot in which it was seen last.
///
/// No contract speaks of the slot. Who is found in it is asked for its number, so that a stale slot costs
/// a search, and no more.
#[derive(Clone, Copy)]
pub struct ClientKey {
    pub number: u64,
    pub(crate) slot: usize,
}

impl ClientKey {
    /// The key of nobody: the numbers of clients begin with 1.
    pub fn nobody() -> ClientKey
        ensures { result.number ≡ 0 }
    {
        ClientKey::of(0)
    }

    /// The key of a client whose slot is not known.
    pub(crate) fn of(number: u64) -> ClientKey
        ensures { result.number ≡ number }
    {
        ClientKey {
            number,
            slot: NOWHERE,
        }
    }
}
