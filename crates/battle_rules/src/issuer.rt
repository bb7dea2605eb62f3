//! Who gives a command.

use line_words::NameBuf;
use lobby_maps::Maps;

/// A user who gives a command, and what its rule may look at.
#[derive(Clone, Copy)]
pub struct Issuer<'a> {
    pub maps: &'a Maps,
    /// The number of its client.
    pub client: u64,
    /// Its name.
    pub me: &'a NameBuf,
}
