//! Lines that go to the system in one write.

ghost use Rattle.std.specs.Prelude.{◌≡◌, ◌++◌, true, false};
ghost use Rattle.server_log.specs.Fields.{line_of};

use server_log::{Happening, print};
use std::alloc::{AllocError, Global};
use std::io::{self, ErrorKind, Write};

/// The most bytes of a write: so many go to the system at once.
const PIECE: usize = 1_024;

/// Room for the longest line: a name whose 64 bytes are each written as three, and at most 75 around it.
const LINE: usize = 272;

/// Lines on their way to standard error.
pub struct Lines {
    // the lines of a write, as far as it is still to come
    piece: Vec<u8>,
    line: Vec<u8>,
}

impl Drop for Lines {
    /// Who lets them go calls this, and need not know what they are made of.
    fn drop(self) {
        let Lines { piece, line } = self;
        drop(piece);
        drop(line);
    }
}

impl Lines {
    /// None yet, with room for a write and for a line. Fails only where memory is refused.
    pub fn new(alloc: Global) -> Result<Lines, AllocError> {
        let piece = Vec::with_capacity(alloc, PIECE)?;
        let line = Vec::with_capacity(alloc, LINE)?;
        Ok(Lines { piece, line })
    }

    /// Whether a further line has room.
    pub(crate) fn has_room(&self) -> bool {
        self.piece.len() <= PIECE - LINE
    }

    /// Whether none wait.
    pub(crate) fn is_empty(&self) -> bool {
        self.piece.is_empty()
    }

    /// Adds the line of a happening. Where memory is refused it adds nothing.
    pub(crate) fn add(&mut self, happening: &Happening) -> bool
        ensures done { result ≡ true → self.new.piece.items ≡ self.old.piece.items ++ line_of happening.now }
        ensures refused { result ≡ false → self.new.piece.items ≡ self.old.piece.items }
    {
        self.line.clear();
        print(&mut self.line, happening).is_ok() && self.piece.extend_from_slice(&self.line).is_ok()
    }

    /// Writes them. Those that were not written stay.
    pub(crate) fn write<E: Write>(&mut self, errors: &mut E) -> io::Result<()> {
        for _ in 0..PIECE {
            if self.piece.is_empty() {
                return Ok(());
            }
            match errors.write(&self.piece) {
                Ok(0) => return Err(io::Error::from(ErrorKind::WriteZero)),
                Ok(count) => {
                    self.piece.drain(..count);
                }
                Err(error) if error.kind() == ErrorKind::Interrupted => {}
                Err(error) => return Err(error),
            }
        }
        Ok(())
    }
}
