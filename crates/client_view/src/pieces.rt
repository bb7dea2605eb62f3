//! What of a piece ends lines, read and folded: all of it, or none.

ghost use Rattle.std.specs.Prelude.{◌≡◌, ◌+◌, ◌++◌, ◌≤◌, true, false, OnOk, OnErr, IfOk, length, drop};
ghost use Rattle.line_framer.specs.Buffered.{IsFirstEnd, IsLastEnd};
ghost use Rattle.line_framer.specs.Frames as frames;
ghost use Rattle.reply_grammar.specs.Lines.{read_line};
ghost use Rattle.lobby_view.specs.View.{shown_all};
ghost use Rattle.lobby_view.specs.Bytes.{all_read, one_read};
ghost use Rattle.noted_map.specs.Undoable.{Changes};
ghost use Rattle.client_view.specs.Refused.{Refused};

use crate::undoable_known::UndoableKnown;
use memchr::{memchr, memrchr};
use std::alloc::AllocError;

/// The most bytes of a line before its LF, a CR that is dropped counted. Without a limit a server
/// could fill the memory by a line that never ends.
pub(crate) const LINE_LIMIT: usize = 20_479;

/// What came of the lines of a piece.
#[derive(Clone, Copy)]
pub(crate) struct Taken {
    /// How many a reply printed.
    pub(crate) count: usize,
    /// Whether one is too long, or what stands behind the last. It is not folded, nor is any behind it.
    pub(crate) is_spoilt: bool,
}

/// How many bytes stand between a place and the next LF.
pub(crate) fn next_end(bytes: &[u8], from: usize) -> Option<usize>
    requires { from ≤ length bytes.now }
    ensures { IsFirstEnd (drop from bytes.now) result }
{
    memchr(b'\n', &bytes[from..])
}

/// The place of the last LF.
fn last_end(bytes: &[u8]) -> Option<usize>
    ensures { IsLastEnd bytes.now result }
{
    memrchr(b'\n', bytes)
}

/// What stands behind the last LF.
pub(crate) fn unfinished(bytes: &[u8]) -> &[u8]
    ensures { result.now ≡ frames.rest_of bytes.now }
{
    match last_end(bytes) {
        Some(end) => &bytes[end + 1..],
        None => bytes,
    }
}

impl UndoableKnown {
    /// Folds a line, whose bytes are given in two parts, and the lines that end in those behind its LF. Where
    /// memory is refused, nothing changes.
    // One line is folded whole or not at all, so nothing is noted for it.
    pub(crate) fn take_piece(
        &mut self,
        start: &[u8],
        end: &[u8],
        behind: &[u8],
    ) -> Result<Taken, AllocError>
        requires { self.old.noting ≡ false }
        ensures known { OnOk result (self.new.now
            ≡ shown_all (shown_all self.old.now (one_read (read_line (frames.without_cr (start.now
            ++ end.now))))) (all_read (frames.frames behind.now 20479))) }
        ensures count { IfOk result (λ taken.
            taken.count ≡ length (one_read (read_line (frames.without_cr (start.now ++ end.now))))
            + length (all_read (frames.frames behind.now 20479))) }
        ensures spoilt { IfOk result (λ taken. taken.is_spoilt ≡ frames.is_spoilt behind.now 20479) }
        ensures err { OnErr result (self.new.now ≡ self.old.now) }
        ensures noting { self.new.noting ≡ false }
    {
        if next_end(behind, 0).is_none() {
            let count = self.take_parts(start, end)?;
            let is_spoilt = behind.len() > LINE_LIMIT;
            return Ok(Taken { count, is_spoilt });
        }
        self.begin();
        match self.take_noted(start, end, behind) {
            Ok(taken) => {
                self.settle();
                Ok(taken)
            }
            Err(refused) => {
                self.take_back();
                Err(refused)
            }
        }
    }

    /// Where memory is refused, some may be folded, and what was before is noted.
    fn take_noted(&mut self, start: &[u8], end: &[u8], behind: &[u8]) -> Result<Taken, AllocError>
        requires { self.old.noting ≡ true }
        ensures known { OnOk result (self.new.now
            ≡ shown_all (shown_all self.old.now (one_read (read_line (frames.without_cr (start.now
            ++ end.now))))) (all_read (frames.frames behind.now 20479))) }
        ensures count { IfOk result (λ taken.
            taken.count ≡ length (one_read (read_line (frames.without_cr (start.now ++ end.now))))
            + length (all_read (frames.frames behind.now 20479))) }
        ensures spoilt { IfOk result (λ taken. taken.is_spoilt ≡ frames.is_spoilt behind.now 20479) }
        ensures before { self.new.before ≡ self.old.before }
    {
        let first = self.take_parts(start, end)?;
        let taken = self.take_lines(behind)?;
        Ok(Taken {
            count: first + taken.count,
            is_spoilt: taken.is_spoilt,
        })
    }

    /// A line whose bytes are given in two parts.
    fn take_parts(&mut self, start: &[u8], end: &[u8]) -> Result<usize, AllocError>
        ensures ok { OnOk result (Changes (λ v.
            shown_all v (one_read (read_line (frames.without_cr (start.now ++ end.now))))) self.old self.new) }
        ensures count { IfOk result (λ count.
            count ≡ length (one_read (read_line (frames.without_cr (start.now ++ end.now))))) }
        ensures err { OnErr result (Refused self.old self.new) }
    {
        if start.is_empty() {
            return self.take(end);
        }
        let mut line = Vec::with_capacity(self.known.alloc, start.len() + end.len())?;
        line.extend_from_slice(start)?;
        line.extend_from_slice(end)?;
        self.take(&line)
    }

    /// The lines that end in these bytes, up to the first that is too long.
    fn take_lines(&mut self, bytes: &[u8]) -> Result<Taken, AllocError>
        requires { self.old.noting ≡ true }
        ensures known { OnOk result (self.new.now ≡ shown_all self.old.now (all_read (frames.frames bytes.now 20479))) }
        ensures count { IfOk result (λ taken. taken.count ≡ length (all_read (frames.frames bytes.now 20479))) }
        ensures few { IfOk result (λ taken. taken.count ≤ length bytes.now) }
        ensures spoilt { IfOk result (λ taken. taken.is_spoilt ≡ frames.is_spoilt bytes.now 20479) }
        ensures before { self.new.before ≡ self.old.before }
    {
        let mut count = 0;
        let mut taken = 0;
        while let Some(end) = next_end(bytes, taken) {
            if end > LINE_LIMIT {
                return Ok(Taken {
                    count,
                    is_spoilt: true,
                });
            }
            count += self.take(&bytes[taken..taken + end])?;
            taken += end + 1;
        }
        Ok(Taken {
            count,
            is_spoilt: bytes.len() - taken > LINE_LIMIT,
        })
    }
}
