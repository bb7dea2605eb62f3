//! What a client knows from its own bytes.

ghost use Rattle.std.specs.Prelude.{◌≡◌, ◌+◌, ◌<◌, true, false, [], ◌∷◌, ◌++◌, length, IfOk, IfSome, IsTrue, Err, None};
ghost use Rattle.std.specs.Prelude.{nat_lt, option_copied};
ghost use Rattle.line_words.specs.Bytes.{is_name};
ghost use Rattle.line_framer.specs.Buffered.{HasNoEnd};
ghost use Rattle.client_view.specs.Following.{Following, Followed, TookIn, HasNew};

use crate::error::ViewError;
use crate::lists::{Battles, Channels, Users};
use crate::pieces::{LINE_LIMIT, next_end, unfinished};
use crate::undoable_known::UndoableKnown;
use std::alloc::Global;
use std::marker::Model;
use view_room::OwnRoom;

/// What a client knows of the lobby, folded from the bytes that it was sent.
pub struct View {
    known: UndoableKnown,
    // the bytes of a line that has not ended yet
    rest: Vec<u8>,
    spoilt: bool,
}

impl Drop for View {
    /// Who lets a view go calls this, and need not know what it is made of.
    fn drop(self) {
        let View {
            known,
            rest,
            spoilt: _,
        } = self;
        drop(known);
        drop(rest);
    }
}

impl Model for View {
    ghost use Rattle.std.specs.Prelude.{◌≡◌, false};
    ghost use Rattle.client_view.specs.Following.{Following};

    ghost Value = { Following };

    ghost view = { λ v. record { known = v.known.now; rest = v.rest.items; spoilt = v.spoilt } };

    ghost invariant = { λ v. v.known.noting ≡ false };
}

impl View {
    /// The view of a client that was sent nothing yet. It takes no memory.
    pub fn new(alloc: Global) -> View
        ensures { Followed result [] }
    {
        View {
            known: UndoableKnown::new(alloc),
            rest: Vec::new(alloc),
            spoilt: false,
        }
    }

    /// Takes in the next bytes that the client was sent, however they are cut, and folds the lines
    /// that end in them. Gives how many were folded: lines that no reply prints are skipped.
    ///
    /// `LineTooLong` where a line of the bytes so far has more than 20,479 bytes before its LF, whether
    /// it has ended or not: the lines before it are folded, and then nothing changes any more.
    /// `Memory` where memory was refused: nothing has changed, and the piece may be fed again. An empty piece takes
    /// none.
    pub fn feed(&mut self, piece: &[u8]) -> Result<usize, ViewError>
        ensures ok { IfOk result (λ count.
            TookIn self.old piece.now self.new × (self.new.spoilt ≡ false) × HasNew self.old piece.now count) }
        ensures too_long { result ≡ Err ViewError.LineTooLong
            → TookIn self.old piece.now self.new × (self.new.spoilt ≡ true) }
        ensures later { self.old.spoilt ≡ true → (result ≡ Err ViewError.LineTooLong) × (self.new ≡ self.old) }
        ensures memory { result ≡ Err ViewError.Memory → self.new ≡ self.old }
        ensures wanted { result ≡ Err ViewError.Memory → 0 < length piece.now }
    {
        if self.spoilt {
            return Err(ViewError::LineTooLong);
        }
        match next_end(piece, 0) {
            Some(end) => self.feed_lines(&piece[..end], &piece[end + 1..]),
            None => self.feed_unfinished(piece),
        }
    }

    /// The end of the unfinished line, and the bytes behind its LF.
    fn feed_lines(&mut self, end: &[u8], behind: &[u8]) -> Result<usize, ViewError>
        requires line { HasNoEnd end.now }
        requires live { self.old.spoilt ≡ false }
        ensures ok { IfOk result (λ count.
            TookIn self.old (end.now ++ 10 ∷ behind.now) self.new × (self.new.spoilt ≡ false)
            × HasNew self.old (end.now ++ 10 ∷ behind.now) count) }
        ensures too_long { result ≡ Err ViewError.LineTooLong
            → TookIn self.old (end.now ++ 10 ∷ behind.now) self.new × (self.new.spoilt ≡ true) }
        ensures memory { result ≡ Err ViewError.Memory → self.new ≡ self.old }
    {
        if self.is_too_long(end) {
            self.spoilt = true;
            return Err(ViewError::LineTooLong);
        }
        // It takes the place of the line before once nothing can be refused any more.
        let rest = Vec::from_slice(self.known.known.alloc, unfinished(behind))?;
        let taken = self.known.take_piece(&self.rest, end, behind)?;
        if taken.is_spoilt {
            self.spoilt = true;
            return Err(ViewError::LineTooLong);
        }
        self.rest = rest;
        Ok(taken.count)
    }

    /// More of the unfinished line.
    fn feed_unfinished(&mut self, more: &[u8]) -> Result<usize, ViewError>
        requires line { HasNoEnd more.now }
        requires live { self.old.spoilt ≡ false }
        ensures ok { IfOk result (λ count.
            TookIn self.old more.now self.new × (self.new.spoilt ≡ false) × HasNew self.old more.now count) }
        ensures too_long { result ≡ Err ViewError.LineTooLong
            → TookIn self.old more.now self.new × (self.new.spoilt ≡ true) }
        ensures memory { result ≡ Err ViewError.Memory → self.new ≡ self.old }
        ensures wanted { result ≡ Err ViewError.Memory → 0 < length more.now }
    {
        if self.is_too_long(more) {
            self.spoilt = true;
            return Err(ViewError::LineTooLong);
        }
        self.rest.extend_from_slice(more)?;
        Ok(0)
    }

    /// Whether the unfinished line would be too long with more bytes.
    fn is_too_long(&self, more: &[u8]) -> bool
        ensures { result ≡ nat_lt 20479 (length self.now.rest + length more.now) }
    {
        self.rest.len() + more.len() > LINE_LIMIT
    }

    /// The name under which the client is logged in, none before that.
    pub fn me(&self) -> Option<&[u8]>
        ensures some { IfSome result (λ name. (name.now ≡ self.now.known.me) × IsTrue (is_name name.now)) }
        ensures none { result ≡ None → self.now.known.me ≡ [] }
    {
        self.known.known.me()
    }

    /// The users who are logged in.
    pub fn users(&self) -> Users<'_>
        ensures { result ≡ self.now.known.users }
    {
        self.known.known.users.users()
    }

    /// The battles, as all see them.
    pub fn battles(&self) -> Battles<'_>
        ensures { result ≡ self.now.known.battles }
    {
        self.known.known.battles.battles()
    }

    /// The channels that the client is in.
    pub fn channels(&self) -> Channels<'_>
        ensures { result ≡ self.now.known.channels }
    {
        self.known.known.channels.channels()
    }

    /// The room of the battle that the client is in, if it is in one.
    pub fn room(&self) -> Option<&OwnRoom>
        ensures { option_copied result ≡ self.now.known.own }
    {
        self.known.known.room.room()
    }
}
