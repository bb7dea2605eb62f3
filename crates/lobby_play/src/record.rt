//! The record of a server, played from its folder.

use account_book::AccountBook;
use lobby_model::{Settings, WORKERS};
use lobby_setup::{FileError, Setup, accounts_at, settings_at};
use record_play::{QuestionFault, RecordFault, Replay, answer, whole_events};
use std::alloc::{AllocError, AllocFailed};
use std::io::{self, BufWriter, ErrorKind, Read, Write};
use std::rt::{Env, Files};
use std::{env, fs};
use thiserror::Error;

/// Why the record of a folder is not played.
#[derive(Clone, Copy, Debug, Error)]
enum FolderFault {
    /// A file of the folder cannot be used.
    #[error("{file}: {error}")]
    File {
        file: &'static str,
        error: FileError,
    },
    /// The files of the workers, the questions or the output failed.
    #[error("{0}")]
    Device(ErrorKind),
    /// The record, or a question.
    #[error("{0}")]
    Question(QuestionFault),
}

impl FolderFault {
    /// The status: 1 for a record or a question that is no good, 2 for a device, 4 for memory.
    fn status(&self) -> u8 {
        match self {
            FolderFault::File {
                file: _,
                error: FileError::Memory,
            }
            | FolderFault::Device(ErrorKind::OutOfMemory)
            | FolderFault::Question(QuestionFault::Memory)
            | FolderFault::Question(QuestionFault::Record(RecordFault::Memory)) => 4,
            FolderFault::File {
                file: _,
                error: FileError::Unreadable(_),
            }
            | FolderFault::Device(_)
            | FolderFault::Question(QuestionFault::Device) => 2,
            _ => 1,
        }
    }
}

impl From<io::Error> for FolderFault {
    fn from(error: io::Error) -> FolderFault {
        FolderFault::Device(error.kind())
    }
}

impl From<AllocError> for FolderFault {
    fn from(_: AllocError) -> FolderFault {
        FolderFault::Device(ErrorKind::OutOfMemory)
    }
}

impl<T: Drop> From<AllocFailed<T>> for FolderFault {
    fn from(_: AllocFailed<T>) -> FolderFault {
        FolderFault::Device(ErrorKind::OutOfMemory)
    }
}

impl From<RecordFault> for FolderFault {
    fn from(fault: RecordFault) -> FolderFault {
        FolderFault::Question(QuestionFault::Record(fault))
    }
}

impl From<QuestionFault> for FolderFault {
    fn from(fault: QuestionFault) -> FolderFault {
        FolderFault::Question(fault)
    }
}

/// The folder of the record that the arguments ask for: `--record FOLDER`. Fails only where memory for the arguments is
/// refused.
pub fn folder_asked<R: Env + AllocGlobal>(rt: &R) -> Result<Option<String>, AllocError> {
    let mut words = match env::args(rt) {
        Ok(words) => words,
        Err(error) if error.kind() == ErrorKind::OutOfMemory => return Err(AllocError),
        Err(_) => return Ok(None),
    };
    words.next();
    if !words.next().is_some_and(|word| word.as_str() == "--record") {
        return Ok(None);
    }
    let folder = words.next();
    Ok(if words.next().is_some() { None } else { folder })
}

/// Plays the record of a folder, and answers the questions of standard input. The status; a fault is told on standard
/// error, and so is the first place that the record does not have.
pub fn play_folder<R: Files + Input + Print + Eprint + AllocGlobal>(rt: &R, folder: &str) -> u8 {
    match answer_by(rt, folder) {
        Ok(missing) => {
            let _ = eprintln!(rt; "the record ends before place {missing}");
            0
        }
        Err(fault) => {
            let _ = rt.eprintln(fault);
            fault.status()
        }
    }
}

/// Answers by the record of a folder. Gives the first place that it does not have.
fn answer_by<R: Files + Input + Print + AllocGlobal>(
    rt: &R,
    folder: &str,
) -> Result<u64, FolderFault> {
    let (settings, accounts) = head_in(rt, folder)?;
    let texts = texts_in(rt, folder)?;
    let mut files = Vec::with_capacity(rt.alloc(), texts.len())?;
    for text in texts.iter() {
        files.push(whole_events(text))?;
    }
    let mut questions = Vec::new(rt.alloc());
    rt.reader().read_to_end(&mut questions)?;
    let mut writer = BufWriter::new(rt.alloc(), io::writer(rt))?;
    let mut replay = Replay::new(rt.alloc(), settings, accounts, &files)?;
    let missing = replay.missing();
    let answered = answer(&mut replay, &questions, &mut writer);
    drop(replay);
    // What was shown before a fault is to be seen too.
    let flushed = writer.flush();
    answered?;
    flushed?;
    Ok(missing)
}

/// The settings and the accounts of the server.
fn head_in<R: Files + AllocGlobal>(
    rt: &R,
    folder: &str,
) -> Result<(Settings, AccountBook), FolderFault> {
    let name = format!(in rt.alloc(); "{folder}/settings.toml")?;
    let settings = match settings_at(rt, name.as_str()) {
        Ok(setup) => settings_of(setup),
        Err(error) => {
            return Err(FolderFault::File {
                file: "settings.toml",
                error,
            });
        }
    };
    let name = format!(in rt.alloc(); "{folder}/accounts.toml")?;
    match accounts_at(rt, name.as_str()) {
        Ok(accounts) => Ok((settings, accounts)),
        Err(error) => {
            drop(settings);
            Err(FolderFault::File {
                file: "accounts.toml",
                error,
            })
        }
    }
}

fn settings_of(setup: Setup) -> Settings {
    let Setup {
        settings,
        address: _,
        workers: _,
        stop_at_input_end: _,
        proxies: _,
        log: _,
        folder: _,
        private: _,
    } = setup;
    settings
}

/// The files of the workers, by their numbers.
fn texts_in<R: Files + AllocGlobal>(rt: &R, folder: &str) -> Result<Vec<Vec<u8>>, FolderFault> {
    let mut texts = Vec::new(rt.alloc());
    for worker in 0..WORKERS {
        let name = format!(in rt.alloc(); "{folder}/{worker}")?;
        match fs::read(rt, name.as_str()) {
            Ok(text) => texts.push(text)?,
            Err(error) if error.kind() == ErrorKind::NotFound => break,
            Err(error) => return Err(FolderFault::from(error)),
        }
    }
    Ok(texts)
}
