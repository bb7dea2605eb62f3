//! Why a record ends.

use record_lines::RecordFault;
use server_log::RecordEnd;

/// Why a record ends.
#[derive(Clone, Copy, PartialEq, Eq, Debug)]
pub enum End {
    /// The server has stopped.
    Stop,
    /// Events came faster than they were written.
    Full,
    /// A file took nothing more.
    Disk,
    /// Memory was refused.
    Memory,
    /// The history has come to the last place that can be told.
    LastPlace,
    /// A number of a client or of bytes has more than 32 bits.
    Number,
    /// No line says the event.
    Line,
}

impl End {
    /// The last line of a record that ends so.
    pub(crate) fn line(self) -> &'static [u8] {
        match self {
            End::Stop => b"end stop\n",
            End::Full => b"end full\n",
            End::Disk => b"end disk\n",
            End::Memory => b"end memory\n",
            End::LastPlace => b"end last place\n",
            End::Number => b"end number\n",
            End::Line => b"end line\n",
        }
    }

    /// The same, as operators are told it.
    pub(crate) fn reason(self) -> RecordEnd {
        match self {
            End::Stop => RecordEnd::Stop,
            End::Full => RecordEnd::Full,
            End::Disk => RecordEnd::Disk,
            End::Memory => RecordEnd::Memory,
            End::LastPlace => RecordEnd::LastPlace,
            End::Number => RecordEnd::Number,
            End::Line => RecordEnd::Line,
        }
    }
}

impl From<RecordFault> for End {
    fn from(fault: RecordFault) -> End {
        match fault {
            RecordFault::Memory => End::Memory,
            RecordFault::Number => End::Number,
            RecordFault::Line => End::Line,
        }
    }
}
