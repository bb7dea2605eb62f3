//! The files of a record that begins with the server.

use crate::error::ProgramError;
use account_book::AccountsError;
use lobby_model::Settings;
use lobby_workers::{Masks, Record, RecordFiles, ServerError};
use program_help::VERSION;
use record_lines::{accounts_file, settings_file};
use server_log::ShortText;
use std::fs::{self, DirBuilder, OpenOptions};
use std::io::{self, ErrorKind, Write};
use std::os::unix::fs::{DirBuilderExt, OpenOptionsExt};
use std::rt::Files;

/// What the last line of one file takes on a full disk at most: a block.
static BLOCK: [u8; 4_096] = [0; 4_096];

/// How many other servers may make a folder between a look for the greatest number and one's own.
const RACES: u64 = 1_000;

/// Whoever else is on the machine reads none of it, whatever the umask is.
const FOLDER_MODE: u32 = 0o700;

const FILE_MODE: u32 = 0o600;

/// What a record is made for.
#[derive(Clone, Copy)]
pub struct NewRecord<'a> {
    /// The folder that has the server's records.
    pub folder: &'a str,
    /// How many workers the server has.
    pub workers: u32,
    /// What its lobby is set to.
    pub settings: &'a Settings,
    /// Its file of accounts, which was read before.
    pub accounts: &'a [u8],
}

/// The files of a record, in a folder of its own below that of the server's records, which is named by the greatest
/// number there and one: `settings.toml` and `accounts.toml`, which are written here, a file for each worker by its
/// number, and `spare`, which only takes up room. Only their owner may read them. Nothing is written over.
pub fn new_record<R: Files + AllocGlobal + Clone + Drop>(
    rt: &R,
    record: &NewRecord<'_>,
    masks: Masks,
) -> Result<Record<R::File>, ProgramError> {
    let mut files = RecordFiles::new(rt.alloc());
    match add_files(rt, record, &mut files) {
        Ok(folder) => Ok(Record {
            masks,
            folder,
            files,
        }),
        Err(error) => {
            drop(masks);
            drop(files);
            Err(error)
        }
    }
}

/// Makes the folder and the files, and says which folder it is.
fn add_files<R: Files + AllocGlobal + Clone + Drop>(
    rt: &R,
    record: &NewRecord<'_>,
    files: &mut RecordFiles<R::File>,
) -> Result<ShortText, ProgramError> {
    let folder = new_folder(rt, record.folder)?;
    let text = settings_file(rt.alloc(), VERSION, record.settings)?;
    write_file(rt, folder.as_str(), "settings.toml", &text)?;
    let text = accounts_file(rt.alloc(), record.accounts).map_err(unlisted)?;
    write_file(rt, folder.as_str(), "accounts.toml", &text)?;
    for worker in 0..record.workers {
        let name = format!(in rt.alloc(); "{folder}/{worker}")?;
        files.add(new_file(rt, name.as_str())?)?;
    }
    let name = format!(in rt.alloc(); "{folder}/spare")?;
    let mut spare = new_file(rt, name.as_str())?;
    for _ in 0..record.workers {
        if let Err(error) = spare.write_all(&BLOCK) {
            drop(spare);
            return Err(refused(error));
        }
    }
    files.keep_spare(spare);
    Ok(ShortText::of(folder.as_bytes()))
}

/// Why the accounts of a record cannot be written.
fn unlisted(error: AccountsError) -> ProgramError {
    match error {
        AccountsError::Memory => ServerError::Memory.into(),
        _ => ProgramError::Accounts,
    }
}

/// A new folder below this one, for its owner alone.
fn new_folder<R: Files + AllocGlobal + Clone + Drop>(
    rt: &R,
    folder: &str,
) -> Result<String, ProgramError> {
    let greatest = greatest_number(rt, folder)?;
    let mut how = DirBuilder::new();
    how.mode(FOLDER_MODE);
    for more in 1..=RACES {
        let number = greatest.saturating_add(more);
        let name = format!(in rt.alloc(); "{folder}/{number}")?;
        match how.create(rt, name.as_str()) {
            Ok(()) => return Ok(name),
            Err(error) if error.kind() == ErrorKind::AlreadyExists => {}
            Err(error) => return Err(refused(error)),
        }
    }
    Err(ProgramError::Record)
}

/// The greatest number by which anything in a folder is named, or 0.
fn greatest_number<R: Files + AllocGlobal + Clone + Drop>(
    rt: &R,
    folder: &str,
) -> Result<u64, ProgramError> {
    let mut greatest = 0;
    for entry in fs::read_dir(rt, folder).map_err(refused)? {
        match entry {
            Ok(entry) => greatest = greatest.max(number_of(entry.file_name())),
            // Its name is no text, and so no number.
            Err(error) if error.kind() == ErrorKind::InvalidFilename => {}
            Err(error) => return Err(refused(error)),
        }
    }
    Ok(greatest)
}

/// The number that a name is, or 0.
fn number_of(name: &str) -> u64 {
    match name.parse::<u32>() {
        Ok(number) => u64::from(number),
        Err(_) => 0,
    }
}

/// A new file for its owner alone, to whose end all is written.
fn new_file<R: Files>(rt: &R, name: &str) -> Result<R::File, ProgramError> {
    let mut how = OpenOptions::new();
    how.append(true).create_new(true).mode(FILE_MODE);
    match how.open(rt, name) {
        Ok(file) => Ok(file),
        Err(error) => Err(refused(error)),
    }
}

fn write_file<R: Files + AllocGlobal>(
    rt: &R,
    folder: &str,
    name: &str,
    text: &[u8],
) -> Result<(), ProgramError> {
    let name = format!(in rt.alloc(); "{folder}/{name}")?;
    let mut file = new_file(rt, name.as_str())?;
    let written = file.write_all(text);
    drop(file);
    written.map_err(refused)
}

fn refused(error: io::Error) -> ProgramError {
    if error.kind() == ErrorKind::OutOfMemory {
        ServerError::Memory.into()
    } else {
        ProgramError::Record
    }
}
