//! Long texts, written as their parts.

use std::alloc::{AllocError, Global};

/// A text in parts, each of which stands there so many times over.
pub type Text = &'static [(&'static [u8], usize)];

/// A text as one piece.
pub fn written(alloc: Global, text: Text) -> Result<Vec<u8>, AllocError> {
    let mut all = Vec::new(alloc);
    for (part, times) in text {
        for _ in 0..*times {
            all.extend_from_slice(*part)?;
        }
    }
    Ok(all)
}
