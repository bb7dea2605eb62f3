//! The files of a record, one for each worker.

use crate::record::end::End;
use crate::record::lines::Lines;
use std::alloc::{AllocError, Global};
use std::fs::OpenFile;
use std::io::{self, ErrorKind, Write};

/// A file, and the lines that are on their way to it.
#[derive(Drop)]
struct RecordFile<W> {
    file: W,
    piece: Vec<u8>,
    // how many bytes of whole lines the file has, and how many of one that is not whole
    whole: u64,
    torn: u64,
}

impl<W: Write + OpenFile + Drop> RecordFile<W> {
    /// Writes what is on its way. What is not written stays.
    fn write(&mut self) -> io::Result<()> {
        for _ in 0..=self.piece.len() {
            if self.piece.is_empty() {
                return Ok(());
            }
            match self.file.write(&self.piece) {
                Ok(0) => return Err(io::Error::from(ErrorKind::WriteZero)),
                Ok(count) => self.take_written(count),
                Err(error) if error.kind() == ErrorKind::Interrupted => {}
                Err(error) => return Err(error),
            }
        }
        Ok(())
    }

    /// The file has taken so many bytes.
    fn take_written(&mut self, count: usize) {
        let count = count.min(self.piece.len());
        let written = self.piece.get(..count).unwrap_or(&[]);
        let whole = match written.iter().rposition(|byte| *byte == b'\n') {
            Some(last) => last + 1,
            None => 0,
        };
        if whole > 0 {
            self.whole = self
                .whole
                .saturating_add(self.torn)
                .saturating_add(whole as u64);
            self.torn = 0;
        }
        self.torn = self.torn.saturating_add((count - whole) as u64);
        if count == self.piece.len() {
            self.piece.clear();
        } else {
            self.piece.drain(..count);
        }
    }

    /// Writes the last line, in place of one that is not whole: on a full disk the rest of that may have no room.
    fn finish(&mut self, end: End) {
        self.piece.clear();
        if self.torn == 0 || self.file.set_len(self.whole).is_ok() {
            let _ = self.file.write_all(end.line());
        }
    }
}

/// The files of a record, a file for each worker by its number.
#[derive(Drop)]
pub struct RecordFiles<W> {
    alloc: Global,
    files: Vec<RecordFile<W>>,
    // what only takes up room on the disk
    spare: Option<W>,
    // the last place that is known to be written
    last_place: Option<u64>,
}

impl<W: Write + OpenFile + Drop> RecordFiles<W> {
    /// None yet.
    pub fn new(alloc: Global) -> RecordFiles<W> {
        RecordFiles {
            alloc,
            files: Vec::new(alloc),
            spare: None,
            last_place: None,
        }
    }

    /// Keeps a file whose bytes give the last lines of the others their room on a full disk: it is emptied before they
    /// are written.
    pub fn keep_spare(&mut self, file: W) {
        drop(self.spare.replace(file));
    }

    /// The empty file of the next worker, to whose end each write goes. Fails only where memory is refused.
    pub fn add(&mut self, file: W) -> Result<(), AllocError> {
        let file = RecordFile {
            file,
            piece: Vec::new(self.alloc),
            whole: 0,
            torn: 0,
        };
        match self.files.push(file) {
            Ok(()) => Ok(()),
            Err(failed) => {
                drop(failed);
                Err(AllocError)
            }
        }
    }

    /// Writes whole lines to the file of a worker. One without a file is passed over.
    pub(crate) fn write(&mut self, worker: usize, lines: Lines) -> Result<(), End> {
        let Some(file) = self.files.get_mut(worker) else {
            drop(lines);
            return Ok(());
        };
        let last_place = lines.last_place;
        file.piece = lines.bytes;
        if file.write().is_err() {
            return Err(End::Disk);
        }
        self.last_place = self.last_place.max(last_place);
        Ok(())
    }

    /// The last place that is known to be written. None where there is none. A file that failed may have more.
    pub(crate) fn last_place(&self) -> Option<u64> {
        self.last_place
    }

    /// Writes the last line of each file.
    pub(crate) fn finish(&mut self, end: End) {
        if let Some(spare) = &self.spare {
            let _ = spare.set_len(0);
        }
        for file in self.files.iter_mut() {
            file.finish(end);
        }
    }
}
