//! What stands in the files.

ghost use Rattle.std.specs.Prelude.{◌≤◌, IfOk};

use crate::error::SetupFault;
use crate::file_error::{FileError, refused};
use crate::setup::Setup;
use account_book::AccountBook;
use std::alloc::Global;
use std::rt::Files;
use std::{fs, io};

/// Reads a file whole: `Unreadable` where it cannot be read, `Memory` where memory was refused.
pub fn read_file<R: Files + AllocGlobal>(rt: &R, path: &str) -> Result<Vec<u8>, FileError> {
    match fs::read(rt, path) {
        Ok(bytes) => Ok(bytes),
        Err(error) if error.kind() == io::ErrorKind::OutOfMemory => Err(FileError::Memory),
        Err(error) => Err(FileError::Unreadable(error.kind())),
    }
}

/// What the file of settings at a path sets the server up to: as [`Setup::read`] says of its bytes, of which the
/// contract has the range of workers alone. `Unreadable` where the file cannot be read, `Settings` where it is no good,
/// `Memory` where memory was refused.
pub fn settings_at<R: Files + AllocGlobal>(rt: &R, path: &str) -> Result<Setup, FileError>
    ensures { IfOk result (λ setup. (1 ≤ setup.workers) × (setup.workers ≤ 64)) }
{
    let bytes = read_file(rt, path)?;
    match Setup::read(rt.alloc(), &bytes) {
        Ok(setup) => Ok(setup),
        Err(SetupFault::Unusable(refusal)) => Err(FileError::Settings(refusal)),
        Err(SetupFault::Memory) => Err(FileError::Memory),
    }
}

/// The accounts of the file of accounts at a path: as [`AccountBook::read`] says of its bytes, of which there is no
/// contract here. `Unreadable` where the file cannot be read, `Accounts` where it is no good, `Memory` where memory was
/// refused.
pub fn accounts_at<R: Files + AllocGlobal>(rt: &R, path: &str) -> Result<AccountBook, FileError> {
    let bytes = read_file(rt, path)?;
    accounts_of(rt.alloc(), &bytes)
}

/// The accounts of a file of accounts that was read, as [`AccountBook::read`] says.
pub fn accounts_of(alloc: Global, bytes: &[u8]) -> Result<AccountBook, FileError> {
    match AccountBook::read(alloc, bytes) {
        Ok(accounts) => Ok(accounts),
        Err(refusal) => Err(refused(refusal)),
    }
}
