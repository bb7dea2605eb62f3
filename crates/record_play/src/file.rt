//! A file of a record, line by line.

ghost use Rattle.std.specs.Prelude.{◌≡◌, ◌≢◌, ◌++◌, ◌^◌, ◌-◌, ◌⊎◌, ◌≤◌, ◌<◌, ℕ, List, [], codes};
ghost use Rattle.std.specs.Prelude.{IfOk, IfErr, IfSome, IfNone, IsSomeAnd};
ghost use Rattle.proxy_line.specs.Words.{Finds};
ghost use Rattle.record_play.specs.Files.{FileLines, HasPassed, HasPlace, IsFile, IsNoFile, IsPlace, IsReach};
ghost use Rattle.record_play.specs.declared.fault.RecordFault.TheVariants.{BadLine, Memory};

use crate::fault::RecordFault;
use itoa::Buffer;
use proxy_line::part_at;
use std::str;

/// A line of a file: a step by which an event is played.
#[derive(Clone, Copy)]
pub struct RecordLine<'a> {
    /// The number of the file, from 0.
    pub file: usize,
    /// Which line of the file it is, from 1.
    pub number: u64,
    /// How many events were before this one.
    pub place: u64,
    /// The step.
    pub step: &'a [u8],
}

/// Adds the lines of a file behind those of others. Gives the file's reach: no line of a lower place was lost with its
/// end. That is the place of its last line, or the last number where it ends with its server.
///
/// What stands behind the last LF is a line that was not written to its end, and is left. `BadLine` where a line is no
/// step at a place, or its place is before that of the line before it: the text is no file of a record.
pub fn add_lines<'a>(
    lines: &mut Vec<RecordLine<'a>>,
    file: usize,
    text: &'a [u8],
) -> Result<u64, RecordFault>
    ensures listed { IfOk result (λ reach. (here : FileLines) × IsFile file text.now here
        × (lines.new.items ≡ lines.old.items ++ here.lines) × IsReach (λ place. HasPassed place here) reach) }
    ensures fault { IfErr result (λ e. (e ≡ Memory) ⊎ ((line : ℕ) × (e ≡ BadLine file line) × IsNoFile file text.now)) }
{
    let mut rest = text;
    let mut number = 0u64;
    let mut least = 0u64;
    while let Some((line, behind)) = part_at(rest, b'\n') {
        number += 1;
        if let Some(why) = last_cause(line, behind) {
            return Ok(reach(why, least));
        }
        let Some((place, step)) = step_from(least, line) else {
            return Err(RecordFault::BadLine { file, line: number });
        };
        lines.push(RecordLine {
            file,
            number,
            place,
            step,
        })?;
        least = place;
        rest = behind;
    }
    Ok(least)
}

/// Why there are no more lines, where this one tells it, and nothing is behind it.
fn last_cause<'a>(line: &'a [u8], behind: &[u8]) -> Option<&'a [u8]>
    ensures some { IfSome result (λ why. (behind.now ≡ []) × (line.now ≡ codes "end " ++ why.now)) }
    ensures none { IfNone result ((why : List ℕ) → behind.now ≡ [] → line.now ≢ codes "end " ++ why) }
{
    if behind.is_empty() { cause(line) } else { None }
}

/// The place of a line and its step, where the place is no lower than this one.
fn step_from(least: u64, line: &[u8]) -> Option<(u64, &[u8])>
    ensures some { IfSome result (λ parts. HasPlace line.now parts.0 parts.1.now × (least ≤ parts.0)) }
    ensures none { IfNone result ((place : ℕ) (step : List ℕ) → HasPlace line.now place step → place < least) }
{
    match place_before_step(line) {
        Some((place, step)) => {
            if place >= least {
                Some((place, step))
            } else {
                None
            }
        }
        None => None,
    }
}

/// The reach of a file that ends so behind a line of this place.
fn reach(why: &[u8], last: u64) -> u64
    ensures { ((why.now ≡ codes "stop") × (result ≡ 2 ^ 64 - 1)) ⊎ ((why.now ≡ codes "stop" → ⊥) × (result ≡ last)) }
{
    if why == b"stop".as_slice() {
        u64::MAX
    } else {
        last
    }
}

/// Why there are no more lines, where a line tells it.
pub(crate) fn cause(line: &[u8]) -> Option<&[u8]>
    ensures some { IfSome result (λ why. line.now ≡ codes "end " ++ why.now) }
    ensures none { IfNone result ((why : List ℕ) → line.now ≢ codes "end " ++ why) }
{
    line.strip_prefix(b"end ".as_slice())
}

/// The place of a line, and what stands behind it and a space. None where it does not begin with a place.
pub fn place_before_step(line: &[u8]) -> Option<(u64, &[u8])>
    ensures sound { IfSome result (λ parts. HasPlace line.now parts.0 parts.1.now) }
    ensures complete { (n : ℕ) (step : List ℕ) → HasPlace line.now n step
        → IsSomeAnd result (λ parts. (parts.0 ≡ n) × (parts.1.now ≡ step)) }
{
    let (digits, step) = part_at(line, b' ')?;
    Some((place(digits)?, step))
}

/// The place that a text writes: in decimal, without leading zeros, of 64 bits.
pub fn place(text: &[u8]) -> Option<u64>
    ensures { Finds (IsPlace text.now) result }
{
    let digits = str::from_utf8(text).ok()?;
    let value: u64 = digits.parse().ok()?;
    let mut buffer = Buffer::new();
    // Leading zeros and a plus sign read as a number too, and are not written of one.
    (buffer.format(value) == digits).then_some(value)
}
