//! Names and words as rows of a table: each is the place of its bytes.

ghost use Rattle.lobby_lines.specs.Layout.{place, itself};

use crate::table::{Listed, Place, put_text};
use line_words::{NameBuf, WordBuf};
use std::alloc::AllocError;

impl Listed<Place> for NameBuf {
    ghost row_at = { place };

    ghost shown = { itself };

    fn put(&self, text: &mut Vec<u8>) -> Result<Place, AllocError> {
        put_text(text, self.as_slice())
    }
}

impl Listed<Place> for WordBuf {
    ghost row_at = { place };

    ghost shown = { itself };

    fn put(&self, text: &mut Vec<u8>) -> Result<Place, AllocError> {
        put_text(text, self.as_slice())
    }
}
