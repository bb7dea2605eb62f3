//! What workers record, on its way to a thread that writes it.
//!
//! A worker prints each event that it made, after the hold, and never waits. The thread writes whole lines to the
//! worker's file, many in a write where many wait. Where too much waits or a file takes no more, the record ends there:
//! what is written is a beginning of what happened, and its last line says why there is no more.

mod end;
mod files;
mod lines;
mod place;
mod queue;

pub use end::End;
pub use files::RecordFiles;
pub use queue::{RecordQueue, RecordWriting};
use record_lines::Masks;
use server_log::ShortText;

/// A record that begins.
#[derive(Drop)]
pub struct Record<W> {
    /// What is left out of it.
    pub masks: Masks,
    /// The folder in which it is written, as operators are told it.
    pub folder: ShortText,
    /// Where it is written.
    pub files: RecordFiles<W>,
}
