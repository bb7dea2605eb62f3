//! What is still to be put to a client of the event at hand.

ghost use Rattle.std.specs.Prelude.{◌≡◌, ◌≤◌};
ghost use Rattle.lobby_post.specs.Dues.{nothing_due, due_and, due_but, copied, Covers};

use crate::shares::SHARED_FROM;

/// What is due to a client. It is small, since each client has one and a line to many changes it twice
/// in each of theirs: of a short piece, its first word. Its counts stay at their most, which is past the limit
/// of each outbox: to whom so much is due is cut.
#[derive(Clone, Copy)]
pub struct Due {
    /// How many bytes, copied and shared ones.
    pub bytes: u32,
    /// How many of them are shared.
    pub shared_bytes: u32,
    /// How many pieces are shared.
    pub shared_pieces: u32,
}

impl Due {
    /// Nothing.
    pub fn nothing() -> Due
        ensures { result ≡ nothing_due }
    {
        Due {
            bytes: 0,
            shared_bytes: 0,
            shared_pieces: 0,
        }
    }

    /// How many bytes are copied.
    #[inline(always)]
    pub fn copied(self) -> usize
        ensures { result ≡ copied self }
    {
        self.bytes.saturating_sub(self.shared_bytes) as usize
    }

    /// The same with a piece of so many bytes.
    #[inline(always)]
    pub fn and(self, more: usize) -> Due
        ensures { result ≡ due_and self more }
    {
        let counted = more.min(u32::MAX as usize) as u32;
        let bytes = self.bytes.saturating_add(counted);
        if more < SHARED_FROM {
            return Due { bytes, ..self };
        }
        Due {
            bytes,
            shared_bytes: self.shared_bytes.saturating_add(counted),
            shared_pieces: self.shared_pieces.saturating_add(1),
        }
    }

    /// The same without a piece of so many bytes, which is part of it.
    #[inline(always)]
    pub fn but(self, less: usize) -> Due
        requires { Covers self less }
        ensures { result ≡ due_but self less }
    {
        let bytes = self.bytes - less as u32;
        if less < SHARED_FROM {
            return Due { bytes, ..self };
        }
        Due {
            bytes,
            shared_bytes: self.shared_bytes - less as u32,
            shared_pieces: self.shared_pieces - 1,
        }
    }
}
