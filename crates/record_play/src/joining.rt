//! The files of a record, joined by place.

ghost use Rattle.std.specs.Prelude.{◌≡◌, ◌≤◌, ◌<◌, ℕ, IfOk, IfErr, length, take, drop};
ghost use Rattle.std.specs.List.{AllByRecursion};
ghost use Rattle.std.specs.List.Sorted.{IsNonDecreasingBy};
ghost use Rattle.record_play.specs.Joined.{IsFaultOf, IsShared, Joins, Rises};
ghost use Rattle.record_play.specs.declared.fault.RecordFault.TheVariants.{TwoOfOnePlace};

use crate::fault::RecordFault;
use crate::file::{RecordLine, add_lines};
use std::alloc::Global;

/// The lines of a record in the order of their places.
#[derive(Drop)]
pub struct Joined<'a> {
    /// The lines before the first place that no file has.
    pub lines: Vec<RecordLine<'a>>,
    /// That place.
    pub missing: u64,
}

/// Joins the files of a record, in the order of their workers.
///
/// `BadLine` where a line is no step at a place, or its place is before that of the line before it in its file;
/// `TwoOfOnePlace` where lines of two files have one place; `Hole` where a place is missing that each file has passed:
/// it was written, and is gone. Where a file may have lost it with its end, the first missing place is the end.
/// The only other fault is that memory was refused.
pub fn join<'a>(alloc: Global, files: &[&'a [u8]]) -> Result<Joined<'a>, RecordFault>
    ensures joins { IfOk result (λ joined. Joins files.now joined.lines.items joined.missing) }
    ensures fault { IfErr result (IsFaultOf files.now) }
{
    let mut lines = Vec::new(alloc);
    let mut reach = u64::MAX;
    let mut file = 0;
    for text in files {
        reach = reach.min(add_lines(&mut lines, file, text)?);
        file += 1;
    }
    lines.sort_by_key(|line| line.place)?;
    let (count, missing) = front(&lines)?;
    if count < lines.len() && missing < reach {
        return Err(RecordFault::Hole(missing));
    }
    lines.truncate(count);
    Ok(Joined { lines, missing })
}

/// How many of some lines, whose places do not fall, stand before the first place that none of them has, and that
/// place.
fn front(lines: &[RecordLine<'_>]) -> Result<(usize, u64), RecordFault>
    requires { IsNonDecreasingBy (λ (l : RecordLine). l.place) lines.now }
    ensures rises { IfOk result (λ r. Rises 0 0 (take r.0 lines.now) r.1) }
    ensures above { IfOk result (λ r. AllByRecursion (λ (l : RecordLine). r.1 < l.place) (drop r.0 lines.now)) }
    ensures within { IfOk result (λ r. (r.0 ≤ length lines.now) × (r.1 ≤ r.0)) }
    ensures fault { IfErr result (λ e. (file : ℕ) × (line : ℕ) × (other : ℕ) × (e ≡ TwoOfOnePlace file line other)
        × IsShared lines.now file line other) }
{
    let mut count = 0;
    let mut missing = 0u64;
    // of the last place
    let mut file = 0;
    for line in lines {
        if line.place > missing {
            break;
        }
        if line.place == missing {
            missing += 1;
            file = line.file;
        } else if line.file != file {
            return Err(RecordFault::TwoOfOnePlace {
                file: line.file,
                line: line.number,
                other: file,
            });
        }
        count += 1;
    }
    Ok((count, missing))
}
