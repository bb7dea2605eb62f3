//! The addresses from which a front connects.

ghost use Rattle.std.specs.Prelude.{◌≤◌};

/// The most addresses of a set.
pub const MOST_PROXIES: usize = 64;

/// A set of at most 64 addresses: those from which a front connects, so that a connection begins with its line.
#[derive(Clone, Copy)]
pub struct Proxies {
    addresses: [[u8; 4]; MOST_PROXIES],
    count: usize,
    pub ghost within: { count ≤ 64 },
}

impl Proxies {
    ghost use Rattle.std.specs.Prelude.{◌≡◌, ◌↔◌, ◌<◌, [], ◌∷◌, ◌++◌, length, Contains, IsTrue};
    ghost use Rattle.proxy_line.specs.Sets.{listed};

    /// No address.
    pub fn new() -> Proxies
        ensures { listed result ≡ [] }
    {
        Proxies {
            addresses: [[0; 4]; MOST_PROXIES],
            count: 0,
        }
    }

    /// Adds an address. Fewer than 64 were added before.
    pub fn add(&mut self, address: [u8; 4])
        requires { length (listed self.old) < 64 }
        ensures { listed self.new ≡ listed self.old ++ address ∷ [] }
    {
        self.addresses[self.count] = address;
        self.count += 1;
    }

    /// Whether this address was added.
    pub fn has(&self, address: [u8; 4]) -> bool
        ensures { IsTrue result ↔ Contains (listed self.now) address }
    {
        self.addresses[..self.count].contains(&address)
    }
}
