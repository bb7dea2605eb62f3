// Where lines end, and what of a piece is kept.
ghost use Rattle.std.specs.Prelude.{◌≡◌, ℕ, ◌+◌, ◌-◌, ◌^◌, ◌<◌, ◌≤◌, List, ◌++◌, length, take, ◌⊎◌, false};
ghost use Rattle.std.specs.Prelude.{if◌then◌else◌};
ghost use Rattle.line_framer.specs.Frames as frames;
ghost use Rattle.line_framer.specs.Buffered.{HasNoEnd, IsFirstEnd, IsLastEnd, IsCut};

use memchr::{memchr, memrchr};

const LF: u8 = b'\n';

/// The place of the first LF.
pub(crate) fn first_end(bytes: &[u8]) -> Option<usize>
    ensures { IsFirstEnd bytes.now result }
{
    memchr(LF, bytes)
}

/// The place of the last LF.
fn last_end(bytes: &[u8]) -> Option<usize>
    ensures { IsLastEnd bytes.now result }
{
    memrchr(LF, bytes)
}

/// A line without one CR at its end, if it has one there. The line is lent and nothing is copied.
///
/// A client's reader drops the CR of a line that it cut by itself by this call, as `peek` does of a line of a framer.
pub fn without_cr(line: &[u8]) -> &[u8]
    ensures { result.now ≡ frames.without_cr line.now }
{
    let Some((last, front)) = line.split_last() else {
        return line;
    };
    if *last == b'\r' { front } else { line }
}

/// Where the next line ends of `ahead` bytes with `kept` behind them. What is kept is searched only where no line ended
/// before and one does now.
pub(crate) fn next_end(
    next: Option<usize>,
    ahead: usize,
    kept: &[u8],
    has_end: bool,
) -> Option<usize>
    requires ended { has_end ≡ false → HasNoEnd kept.now }
    requires room { ahead + length kept.now < 2 ^ 64 }
    ensures { (bytes : List ℕ) → length bytes ≡ ahead → IsFirstEnd bytes next → IsFirstEnd (bytes ++ kept.now) result }
{
    if next.is_some() || !has_end {
        return next;
    }
    first_end(kept).map(|end| ahead + end)
}

/// How many bytes of an unfinished line and a piece behind it are whole lines before the spoilt place, and whether
/// there is one.
#[derive(Clone, Copy)]
pub(crate) struct Cut {
    pub(crate) whole: usize,
    pub(crate) spoilt: bool,
}

impl Cut {
    /// What is kept of a piece that came behind an unfinished line of `before` bytes: all of it, or what whole lines
    /// before the spoilt place take of it.
    pub(crate) fn kept<'a>(&self, piece: &'a [u8], before: usize) -> &'a [u8]
        requires { self.now.whole ≤ before + length piece.now }
        ensures { result.now ≡ (if self.now.spoilt then take (self.now.whole - before) piece.now else piece.now) }
    {
        if self.spoilt {
            &piece[..self.whole.saturating_sub(before)]
        } else {
            piece
        }
    }
}

/// Cuts an unfinished line of `before` bytes with the piece behind it. No line in them is too long where the two
/// together are not, so the last LF says it all; before that, lines are skipped by windows of one line's size, each up
/// to its last LF. The unfinished line itself is not searched again.
pub(crate) fn cut_piece(piece: &[u8], before: usize, limit: usize) -> Cut
    requires fits { before ≤ limit }
    requires room { before + length piece.now < 2 ^ 64 }
    ensures within { result.whole ≤ before + length piece.now }
    ensures apart { (result.whole ≡ 0) ⊎ (before < result.whole) }
    ensures parts { (rest : List ℕ) → length rest ≡ before → HasNoEnd rest
        → IsCut (rest ++ piece.now) limit result.whole result.spoilt }
{
    let total = before + piece.len();
    let mut whole = 0;
    while total - whole > limit {
        let from = whole.max(before) - before;
        match last_end(&piece[from..whole + limit + 1 - before]) {
            Some(end) => whole = before + from + end + 1,
            None => return Cut {
                whole,
                spoilt: true,
            },
        }
    }
    let from = whole.max(before) - before;
    if let Some(end) = last_end(&piece[from..]) {
        whole = before + from + end + 1;
    }
    Cut {
        whole,
        spoilt: false,
    }
}
