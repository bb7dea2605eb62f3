//! Requests that are printed, one line behind another.

use crate::refusing::deeds::{Deed, Subject, try_deeds};
use crate::refusing::notes::Notes;
use crate::refusing::refuser::Refuser;
use request_printer::{PrintError, print_request, read_request};
use std::alloc::Global;
use std::io;
use std::io::Write;

/// Each line is read, and its request printed. Those of a kind that is refused leave what was printed.
static DEEDS: [(u64, Deed); 9] = [
    (1, Deed::Send(b"PING")),
    (1, Deed::Send(b"#7 SAY main hello there")),
    (1, Deed::Send(b"SAY main")),
    (
        1,
        Deed::Send(
            b"#2147483647 OPENBATTLE 0 2 * 8452 16 -1 7 123 spring\t104.0\tComet Catcher\tAll welcome\tBA 9.46",
        ),
    ),
    (1, Deed::Send(b"JOINBATTLE 1 * pw9")),
    (1, Deed::Send(b"SETSCRIPTTAGS a=1\tb=")),
    (1, Deed::Send(b"DISABLEUNITS armcom corcom armpw")),
    (
        1,
        Deed::Send(b"LOGIN Anna X03MO1qnZdYdgyfeuILPmQ== -7 * TestLobby 1.0\t0\tb"),
    ),
    (1, Deed::Send(b"JOINBATTLEDENY Bert not today")),
];

static LOOKS: [(u64, Deed); 1] = [(1, Deed::Send(b"RING Bert"))];

/// What was printed so far.
#[derive(Drop)]
struct Lines {
    out: Vec<u8>,
}

impl Subject for Lines {
    fn new(alloc: Global) -> Option<Lines> {
        Some(Lines {
            out: Vec::new(alloc),
        })
    }

    fn act(&mut self, alloc: Global, client: u64, deed: Deed) -> bool {
        let _ = client;
        match deed {
            Deed::Send(line) => match read_request(alloc, line) {
                Ok(request) => {
                    let done = print_request(&request, &mut self.out);
                    request.discard();
                    done != Err(PrintError::Memory)
                }
                Err(_) => false,
            },
            Deed::Open | Deed::Take | Deed::Read(_) | Deed::Shut | Deed::Record => true,
        }
    }

    fn use_up(&mut self, alloc: Global) -> bool {
        let _ = alloc;
        true
    }

    fn is_as(&mut self, other: &mut Lines) -> bool {
        self.out.as_slice() == other.out.as_slice()
    }

    fn show<R: Print>(&mut self, rt: &R) -> io::Result<()> {
        io::writer(rt).write_all(self.out.as_slice())
    }
}

pub fn try_out<R: Print + AllocGlobal>(
    rt: &R,
    refuser: &mut Refuser,
    notes: &mut Notes,
) -> io::Result<()> {
    try_deeds::<Lines, R>(rt, &DEEDS, &LOOKS, refuser, notes)
}
