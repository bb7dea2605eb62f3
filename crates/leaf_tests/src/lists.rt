//! Lists that are told, and what a test wants of them.

use battle_room::{Asker, Bot, Member};
use line_words::{Pair, TextBuf, WordBuf};

/// One thing of a list.
pub(crate) trait Is<W> {
    /// Whether it is what is wanted.
    fn is(&self, wanted: &W) -> bool;
}

/// Whether these are told, in this order, and no more.
pub(crate) fn are<W, T: Is<W>>(told: &[T], wanted: &[W]) -> bool {
    let mut same = told.len() == wanted.len();
    for (one, other) in told.iter().zip(wanted) {
        same = same && one.is(other);
    }
    same
}

impl Is<&[u8]> for WordBuf {
    fn is(&self, wanted: &&[u8]) -> bool {
        self.as_slice() == *wanted
    }
}

impl Is<&[u8]> for TextBuf {
    fn is(&self, wanted: &&[u8]) -> bool {
        self.as_slice() == *wanted
    }
}

/// Its key and its value.
impl Is<(&[u8], &[u8])> for Pair {
    fn is(&self, wanted: &(&[u8], &[u8])) -> bool {
        self.key.as_slice() == wanted.0 && self.value.as_slice() == wanted.1
    }
}

/// Its name.
impl Is<&[u8]> for Member {
    fn is(&self, wanted: &&[u8]) -> bool {
        self.name().as_slice() == *wanted
    }
}

/// Its key.
impl Is<u8> for Member<u8> {
    fn is(&self, wanted: &u8) -> bool {
        self.key() == *wanted
    }
}

/// Its owner and its name.
impl Is<(&[u8], &[u8])> for Bot {
    fn is(&self, wanted: &(&[u8], &[u8])) -> bool {
        self.owner().as_slice() == wanted.0 && self.name().as_slice() == wanted.1
    }
}

/// Its name and its script password.
impl Is<(&[u8], Option<&[u8]>)> for Asker {
    fn is(&self, wanted: &(&[u8], Option<&[u8]>)) -> bool {
        self.name().as_slice() == wanted.0 && is_password(self.script_password(), wanted.1)
    }
}

/// Whether there is such a script password, or none where none is wanted.
pub(crate) fn is_password(password: Option<&WordBuf>, wanted: Option<&[u8]>) -> bool {
    match (password, wanted) {
        (Some(password), Some(wanted)) => password.as_slice() == wanted,
        (None, None) => true,
        _ => false,
    }
}
