//! Whether a server can write a record into the folder of its settings.

use std::fs::{self, OpenOptions};
use std::io::{self, Write};
use std::rt::Files;

/// As much as a worker of a record needs at its start.
static BLOCK: [u8; 4_096] = [0; 4_096];

/// The name of the file that is tried.
const NAME: &str = ".lobby_check";

/// Writes a new file of this name and takes it away.
fn write_once<R: Files>(rt: &R, name: &str) -> io::Result<()> {
    let mut how = OpenOptions::new();
    how.write(true).create_new(true);
    let mut file = how.open(rt, name)?;
    let written = file.write_all(&BLOCK);
    drop(file);
    let removed = fs::remove_file(rt, name);
    written?;
    removed
}

/// Whether the names in a folder can be read: by them a record gets its number.
fn list<R: Files>(rt: &R, folder: &str) -> io::Result<()> {
    let names = rt.open_dir(folder)?;
    drop(names);
    Ok(())
}

/// Says whether a file can be made and written in the folder of a record, and its names be read, and where the record
/// will be; whether it can.
pub fn try_folder<R: Files + Print + AllocGlobal>(rt: &R, folder: &str, private: bool) -> bool {
    let Ok(name) = format!(in rt.alloc(); "{folder}/{NAME}") else {
        let _ = println!(rt; "record: no memory");
        return false;
    };
    // One that was left behind by a run that was killed.
    let _ = fs::remove_file(rt, name.as_str());
    if let Err(error) = write_once(rt, name.as_str()) {
        let kind = error.kind();
        let _ = println!(rt; "record: {folder}: no file can be written there: {kind}");
        return false;
    }
    if let Err(error) = list(rt, folder) {
        let kind = error.kind();
        let _ = println!(rt; "record: {folder}: what is in it cannot be listed: {kind}");
        return false;
    }
    let talk = if private { "with" } else { "without" };
    let _ = println!(rt; "record: in a new folder of {folder} at each start, {talk} private talk");
    true
}
