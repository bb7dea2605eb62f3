//! A disk of a test, on which the record of a server of one worker lies.

ghost use Rattle.std.specs.Prelude.{◌≤◌, IfOk};

use crate::sockets::running::PATIENCE;
use lobby_workers::{Masks, Record, RecordFiles};
use server_log::ShortText;
use std::fs::{Metadata, OpenFile};
use std::io::{self, ErrorKind, Write};
use std::sync::atomic::{AtomicBool, AtomicU64, Ordering};
use std::thread;
use std::time::Duration;
use test_lobby::book_with_crowd;

/// What a disk takes.
#[derive(Clone, Copy)]
pub enum Room {
    /// All at once.
    All,
    /// Nothing until it may, and then all: who writes waits.
    AllLater,
    /// So many bytes, until its spare file is emptied.
    AllBut(u64),
}

/// A disk, and whether a record on it ends by a line that is looked for.
#[derive(Drop)]
pub struct Disk {
    clock: HostRuntime,
    room: Room,
    last_line: &'static [u8],
    may_go: AtomicBool,
    taken: AtomicU64,
    is_spared: AtomicBool,
    ends_so: AtomicBool,
}

/// A file on a disk.
#[derive(Drop)]
pub struct DiskFile<'a> {
    disk: &'a Disk,
}

impl Disk {
    /// A disk on which a record is to end by this line.
    pub fn new(clock: HostRuntime, room: Room, last_line: &'static [u8]) -> Disk {
        Disk {
            clock,
            room,
            last_line,
            may_go: AtomicBool::new(false),
            taken: AtomicU64::new(0),
            is_spared: AtomicBool::new(false),
            ends_so: AtomicBool::new(false),
        }
    }

    /// Lets who writes go on, and answers that it did.
    pub fn lets_go(&self) -> bool {
        self.may_go.store(true, Ordering::SeqCst);
        true
    }

    /// Whether the record ends by the line that is looked for.
    pub fn ends_so(&self) -> bool {
        self.ends_so.load(Ordering::SeqCst)
    }

    /// A record of one worker. None where memory is refused.
    pub fn record(&self) -> Option<Record<DiskFile<'_>>> {
        let alloc = self.clock.alloc();
        let accounts = book_with_crowd(alloc)?;
        let masks = Masks {
            accounts,
            private: true,
        };
        let mut files = RecordFiles::new(alloc);
        if files.add(DiskFile { disk: self }).is_err() {
            drop(masks);
            drop(files);
            return None;
        }
        files.keep_spare(DiskFile { disk: self });
        Some(Record {
            masks,
            folder: ShortText::of(b"1"),
            files,
        })
    }

    /// Waits until it may go on.
    fn wait(&self) {
        for _ in 0..PATIENCE {
            if self.may_go.load(Ordering::SeqCst) {
                return;
            }
            thread::sleep(&self.clock, Duration::from_millis(1));
        }
    }

    /// How many of so many bytes it takes now.
    fn room(&self, count: usize) -> io::Result<usize>
        ensures { IfOk result (λ taken. taken ≤ count) }
    {
        match self.room {
            Room::All => Ok(count),
            Room::AllLater => {
                self.wait();
                Ok(count)
            }
            Room::AllBut(most) => {
                let left = most.saturating_sub(self.taken.load(Ordering::SeqCst));
                if self.is_spared.load(Ordering::SeqCst) || count as u64 <= left {
                    Ok(count)
                } else if left == 0 {
                    Err(io::Error::from(ErrorKind::Other))
                } else {
                    Ok(left as usize)
                }
            }
        }
    }
}

impl Write for DiskFile<'_> {
    fn write(&mut self, bytes: &[u8]) -> io::Result<usize> {
        let count = self.disk.room(bytes.len())?;
        let taken = bytes.get(..count).unwrap_or(&[]);
        self.disk.taken.fetch_add(count as u64, Ordering::SeqCst);
        let ends_so = taken.ends_with(self.disk.last_line);
        self.disk.ends_so.store(ends_so, Ordering::SeqCst);
        Ok(count)
    }

    fn flush(&mut self) -> io::Result<()> {
        Ok(())
    }
}

impl OpenFile for DiskFile<'_> {
    fn metadata(&self) -> io::Result<Metadata> {
        Ok(Metadata::of_file(0))
    }

    /// The spare file is emptied, which leaves room.
    fn set_len(&self, _size: u64) -> io::Result<()> {
        self.disk.is_spared.store(true, Ordering::SeqCst);
        Ok(())
    }

    fn sync_all(&self) -> io::Result<()> {
        Ok(())
    }

    fn sync_data(&self) -> io::Result<()> {
        Ok(())
    }
}
