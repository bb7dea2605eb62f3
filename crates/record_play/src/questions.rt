//! What a record is asked.

use crate::fault::RecordFault;
use crate::file::place;
use crate::replay::Replay;
use lobby_script::LineFault;
use proxy_line::{number, part_at};
use std::io::Write;
use thiserror::Error;

/// Why a record does not answer.
#[derive(Clone, Copy, PartialEq, Eq, Debug, Error)]
pub enum QuestionFault {
    /// The record is not played.
    #[error("{0}")]
    Record(RecordFault),
    /// A question, counted from 1, is none.
    #[error("line {0} is no question")]
    NoQuestion(u64),
    /// What is shown cannot be written.
    #[error("device fault")]
    Device,
    /// Memory was refused.
    #[error("no memory")]
    Memory,
}

impl From<LineFault> for QuestionFault {
    fn from(fault: LineFault) -> QuestionFault {
        match fault {
            LineFault::Memory => QuestionFault::Memory,
            LineFault::Device | LineFault::BadStep => QuestionFault::Device,
        }
    }
}

/// A question.
#[derive(Clone, Copy)]
enum Question {
    /// `until PLACE`: the events before this place are played.
    Until(u64),
    /// `show N`: what was put for this client since it was last shown.
    Show(u32),
    /// `view N`: what this client knows by all that was put for it.
    View(u32),
}

/// Answers questions, a line each. All is played where no `until` is asked, before the first client is shown at the
/// latest.
pub fn answer<W: Write>(
    replay: &mut Replay<'_>,
    questions: &[u8],
    writer: &mut W,
) -> Result<(), QuestionFault> {
    let mut number = 0u64;
    let mut until = u64::MAX;
    for line in questions.split(|byte| *byte == b'\n') {
        number = number.saturating_add(1);
        if line.is_empty() {
            continue;
        }
        match read_question(line) {
            Some(Question::Until(place)) => {
                until = place;
                play(replay, until)?;
            }
            Some(Question::Show(client)) => {
                play(replay, until)?;
                replay.show(client, writer)?;
            }
            Some(Question::View(client)) => {
                play(replay, until)?;
                replay.view(client, writer)?;
            }
            None => return Err(QuestionFault::NoQuestion(number)),
        }
    }
    play(replay, until)
}

fn read_question(line: &[u8]) -> Option<Question> {
    let (word, text) = part_at(line, b' ')?;
    match word {
        _ if word == b"until".as_slice() => Some(Question::Until(place(text)?)),
        _ if word == b"show".as_slice() => Some(Question::Show(number(text)?)),
        _ if word == b"view".as_slice() => Some(Question::View(number(text)?)),
        _ => None,
    }
}

fn play(replay: &mut Replay<'_>, place: u64) -> Result<(), QuestionFault> {
    match replay.play_until(place) {
        Ok(()) => Ok(()),
        Err(RecordFault::Memory) => Err(QuestionFault::Memory),
        Err(fault) => Err(QuestionFault::Record(fault)),
    }
}
