//! Which lines of a record stand behind which.

ghost use Rattle.std.specs.Prelude.{◌≡◌, ◌≢◌, ◌↔◌, ◌∷◌, ◌++◌, [], ℕ, List, false, codes, IfSome, IfNone, IsTrue};
ghost use Rattle.line_words.specs.Bytes.{has_byte};
ghost use Rattle.record_play.specs.Leaving.{AreLines, IsCause, IsSent, LastIs, LastIsNot, LeavesLast, LeavesOut};

use crate::fault::RecordFault;
use crate::file::{RecordLine, cause, place_before_step};
use memchr::memrchr;
use proxy_line::part_at;

/// The client of which a step sends a line, as it is written.
fn sender(step: &[u8]) -> Option<&[u8]>
    ensures some { IfSome result (λ client. (bytes : List ℕ) × (step.now ≡ codes "send " ++ (client.now ++ 32 ∷ bytes))) }
    ensures none { IfNone result ((client bytes : List ℕ) → step.now ≢ codes "send " ++ (client ++ 32 ∷ bytes)) }
{
    let (client, _) = part_at(step.strip_prefix(b"send ".as_slice())?, b' ')?;
    Some(client)
}

/// The client of which a step takes a line, as it is written.
fn taker(step: &[u8]) -> Option<&[u8]> {
    step.strip_prefix(b"take ".as_slice())
}

/// Refuses a line that may not stand behind another: an event is one line of its place, or a line is sent there, and
/// then taken of the same client.
pub fn follows(before: &RecordLine<'_>, line: &RecordLine<'_>) -> Result<(), RecordFault> {
    let is_at_place = before.place == line.place;
    match (sender(before.step), taker(line.step)) {
        (Some(sent), Some(taken)) if is_at_place && sent == taken => Ok(()),
        (None, None) if !is_at_place => Ok(()),
        (None, None) => Err(RecordFault::TwoOfOnePlace {
            file: line.file,
            line: line.number,
            other: before.file,
        }),
        (Some(_), None) => Err(bad(before)),
        (None | Some(_), Some(_)) => Err(bad(line)),
    }
}

/// Refuses a line with which no event begins.
pub fn begins(line: &RecordLine<'_>) -> Result<(), RecordFault> {
    match taker(line.step) {
        None => Ok(()),
        Some(_) => Err(bad(line)),
    }
}

/// Refuses a line with which no event ends.
pub fn ends(line: &RecordLine<'_>) -> Result<(), RecordFault> {
    match sender(line.step) {
        None => Ok(()),
        Some(_) => Err(bad(line)),
    }
}

fn bad(line: &RecordLine<'_>) -> RecordFault {
    RecordFault::BadLine {
        file: line.file,
        line: line.number,
    }
}

/// The text up to its last LF, and what stands behind that.
fn last_line(text: &[u8]) -> (&[u8], &[u8])
    ensures whole { text.now ≡ result.0.now ++ result.1.now }
    ensures lines { AreLines result.0.now }
    ensures rest { has_byte 10 result.1.now ≡ false }
{
    let start = match memrchr(b'\n', text) {
        Some(at) => at + 1,
        None => 0,
    };
    (&text[..start], &text[start..])
}

/// What stands before an LF at the end.
fn before_lf(lines: &[u8]) -> Option<&[u8]>
    ensures some { IfSome result (λ text. lines.now ≡ text.now ++ 10 ∷ []) }
    ensures none { IfNone result ((text : List ℕ) → lines.now ≢ text ++ 10 ∷ []) }
{
    lines.strip_suffix(b"\n".as_slice())
}

/// Whether a line tells that a record ended before its server.
fn is_cause(line: &[u8]) -> bool
    ensures { IsTrue result ↔ IsCause line.now }
{
    match cause(line) {
        Some(why) if why == b"stop".as_slice() => false,
        Some(_) => true,
        None => false,
    }
}

/// What stands before the last line, where it tells that a record ended before its server; else all lines.
fn before_cause(lines: &[u8]) -> &[u8]
    ensures { LeavesLast IsCause lines.now result.now }
{
    let Some(text) = before_lf(lines) else {
        return lines;
    };
    let (before, last) = last_line(text);
    if is_cause(last) { before } else { lines }
}

/// Whether bytes are sent by a line.
fn is_sent(line: &[u8]) -> bool
    ensures { IsTrue result ↔ IsSent line.now }
{
    match place_before_step(line) {
        Some((_, step)) => sender(step).is_some(),
        None => false,
    }
}

/// What stands before the last line, where bytes are sent by it.
fn before_sent(lines: &[u8]) -> Option<&[u8]>
    ensures some { IfSome result (λ before. LastIs IsSent lines.now before.now) }
    ensures none { IfNone result (LastIsNot IsSent lines.now) }
{
    let text = before_lf(lines)?;
    let (before, last) = last_line(text);
    if is_sent(last) { Some(before) } else { None }
}

/// The lines of a file up to its last whole event, and the one behind them that says why there are no more. Behind that
/// event may stand what was not written to its end: a line that was sent, and nothing takes it.
pub fn whole_events(text: &[u8]) -> &[u8]
    ensures { LeavesOut text.now result.now }
{
    let (whole, _) = last_line(text);
    match before_sent(before_cause(whole)) {
        Some(before) => before,
        None => whole,
    }
}
