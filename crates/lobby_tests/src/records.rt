//! Records of a server, by hand: joined, refused, and asked.

use crate::verdict::same;
use account_book::AccountBook;
use lobby_model::Settings;
use lobby_model::settings::DEFAULT_OUTBOX_LIMIT;
use record_play::{QuestionFault, RecordFault, Replay, answer, whole_events};
use std::alloc::Global;

/// The files of a record, questions, and what comes of them: the first place that it does not have, and the output.
struct Asked {
    files: &'static [&'static [u8]],
    questions: &'static [u8],
    told: Result<u64, QuestionFault>,
    output: &'static [u8],
}

const FIRST: &[u8] = b"0 open 1 10.0.0.1\n2 send 1 PING\\n\n2 take 1\n3 read 1 29\nend stop\n";

const SECOND: &[u8] = b"1 open 2 10.0.0.2\n4 shut 2\nend stop\n";

const GREETED: &[u8] = b"1> TASSERVER 0.38 * 8201 0\n";

/// What is shown, and up to where.
static ANSWERED: [Asked; 8] = [
    Asked {
        files: &[FIRST, SECOND],
        questions: b"show 1\nshow\n",
        told: Err(QuestionFault::NoQuestion(2)),
        output: b"1> TASSERVER 0.38 * 8201 0\n1> PONG\n",
    },
    Asked {
        files: &[FIRST, SECOND],
        questions: b"show 1\nshow 2\nshow 1\nshow 3\n",
        told: Ok(5),
        output: b"1> TASSERVER 0.38 * 8201 0\n1> PONG\n2> TASSERVER 0.38 * 8201 0\n",
    },
    Asked {
        files: &[SECOND, FIRST],
        questions: b"until 2\nshow 1\n\nuntil 3\nshow 1",
        told: Ok(5),
        output: b"1> TASSERVER 0.38 * 8201 0\n1> PONG\n",
    },
    // Its last line was not written to its end.
    Asked {
        files: &[b"0 open 1 10.0.0.1\n2 send 1 PI", SECOND],
        questions: b"show 1\n",
        told: Ok(2),
        output: GREETED,
    },
    // What the other worker made behind the end is left out.
    Asked {
        files: &[b"0 open 1 10.0.0.1\n", b"1 open 2 10.0.0.2\n3 shut 2\n"],
        questions: b"show 1\n",
        told: Ok(2),
        output: GREETED,
    },
    Asked {
        files: &[b"0 open 1 10.0.0.1\nend full\n", SECOND],
        questions: b"show 1\n",
        told: Ok(2),
        output: GREETED,
    },
    Asked {
        files: &[FIRST, SECOND],
        questions: b"until 1\nview 1\n",
        told: Ok(5),
        output: b"me \n",
    },
    Asked {
        files: &[b"end disk\n", b""],
        questions: b"until 9\n",
        told: Ok(0),
        output: b"",
    },
];

/// Which line of which file is refused.
static REFUSED: [(&[&[u8]], RecordFault); 22] = [
    (
        &[b"0 open 1 10.0.0.1\nend stop\n", SECOND],
        RecordFault::Hole(2),
    ),
    // Files that were cut off lost nothing before their last lines.
    (
        &[b"0 open 1 10.0.0.1\n3 shut 1\n", SECOND],
        RecordFault::Hole(2),
    ),
    (
        &[b"1 open 1 10.0.0.1\n", b"2 shut 1\nend full\n"],
        RecordFault::Hole(0),
    ),
    (
        &[
            b"0 open 1 10.0.0.1\n4 shut 1\n",
            b"1 open 2 10.0.0.2\n3 shut 2\nend disk\n",
        ],
        RecordFault::Hole(2),
    ),
    (
        &[FIRST, b"1 open 2 10.0.0.2\n2 shut 2\n"],
        RecordFault::TwoOfOnePlace {
            file: 1,
            line: 2,
            other: 0,
        },
    ),
    (
        &[FIRST, b"2 shut 2\n1 open 2 10.0.0.2\n"],
        RecordFault::BadLine { file: 1, line: 2 },
    ),
    (
        &[b"x open 1 10.0.0.1\n"],
        RecordFault::BadLine { file: 0, line: 1 },
    ),
    (
        &[b"00 open 1 10.0.0.1\n"],
        RecordFault::BadLine { file: 0, line: 1 },
    ),
    (
        &[b"end full\n0 open 1 10.0.0.1\n"],
        RecordFault::BadLine { file: 0, line: 1 },
    ),
    (
        &[b"0 open 1 10.0.0.1\n1 hop 1\n"],
        RecordFault::BadLine { file: 0, line: 2 },
    ),
    (
        &[b"0 open 1 10.0.0.1\n1 show 1\n"],
        RecordFault::BadLine { file: 0, line: 2 },
    ),
    (&[b"0 motd x\n"], RecordFault::BadLine { file: 0, line: 1 }),
    (
        &[b"0 open 2 10.0.0.1\n"],
        RecordFault::OtherCourse { file: 0, line: 1 },
    ),
    (
        &[b"0 open 1 10.0.0.1\n1 send 1 PING\n1 take 1\n"],
        RecordFault::OtherCourse { file: 0, line: 3 },
    ),
    (
        &[b"0 open 1 10.0.0.1\n1 read 1 25\n"],
        RecordFault::OtherCourse { file: 0, line: 2 },
    ),
    // Who has gone reads nothing more.
    (
        &[b"0 open 1 10.0.0.1\n1 shut 1\n2 read 1 5\n"],
        RecordFault::OtherCourse { file: 0, line: 3 },
    ),
    // A client that was there already is opened again.
    (
        &[b"0 open 1 10.0.0.1\n1 open 1 10.0.0.1\n"],
        RecordFault::OtherCourse { file: 0, line: 2 },
    ),
    (
        &[b"0 open 1 10.0.0.1\n0 open 2 10.0.0.2\n"],
        RecordFault::TwoOfOnePlace {
            file: 0,
            line: 2,
            other: 0,
        },
    ),
    (
        &[b"0 open 1 10.0.0.1\n1 take 1\n"],
        RecordFault::BadLine { file: 0, line: 2 },
    ),
    (
        &[b"0 open 1 10.0.0.1\n1 send 1 PING\\n\n2 shut 1\n"],
        RecordFault::BadLine { file: 0, line: 2 },
    ),
    (
        &[b"0 open 1 10.0.0.1\n1 send 1 PING\\n\n1 take 2\n"],
        RecordFault::BadLine { file: 0, line: 3 },
    ),
    (
        &[b"0 open 1 10.0.0.1\n1 send 1 PING\\n\nend stop\n"],
        RecordFault::BadLine { file: 0, line: 2 },
    ),
];

/// What is told of a record, by default settings and no account.
fn ask(
    alloc: Global,
    files: &[&[u8]],
    questions: &[u8],
    output: &mut Vec<u8>,
) -> Result<u64, QuestionFault> {
    let Ok(settings) = Settings::new(alloc, b"0.38", b"*", 8201, 0, &[], DEFAULT_OUTBOX_LIMIT)
    else {
        return Err(QuestionFault::Memory);
    };
    let mut replay = match Replay::new(alloc, settings, AccountBook::new(alloc), files) {
        Ok(replay) => replay,
        Err(fault) => return Err(QuestionFault::Record(fault)),
    };
    let missing = replay.missing();
    let answered = answer(&mut replay, questions, output);
    drop(replay);
    answered?;
    Ok(missing)
}

#[test]
fn records_are_joined_by_place(rt: HostRuntime) {
    for (k, asked) in ANSWERED.iter().enumerate() {
        let mut output = Vec::new(rt.alloc());
        let told = ask(rt.alloc(), asked.files, asked.questions, &mut output);
        same(
            &rt,
            (k, told, output.as_slice()),
            (k, asked.told, asked.output),
        );
    }
}

#[test]
fn lines_that_are_none_of_a_record_are_named(rt: HostRuntime) {
    for (files, fault) in REFUSED {
        let mut output = Vec::new(rt.alloc());
        let told = ask(rt.alloc(), files, b"until 99\n", &mut output);
        same(
            &rt,
            (files, told, output.as_slice()),
            (files, Err(QuestionFault::Record(fault)), b"".as_slice()),
        );
    }
}

/// A file, and what it has up to its last whole event.
static CUT: [(&[u8], &[u8]); 9] = [
    (b"", b""),
    (b"0 open 1 10.0.0.1", b""),
    (b"0 open 1 10.0.0.1\n1 sh", b"0 open 1 10.0.0.1\n"),
    (
        b"0 open 1 10.0.0.1\nend disk\n",
        b"0 open 1 10.0.0.1\nend disk\n",
    ),
    (
        b"0 open 1 10.0.0.1\n1 send 1 PING\\n\n",
        b"0 open 1 10.0.0.1\n",
    ),
    (
        b"0 open 1 10.0.0.1\n1 send 1 PING\\n\n1 ta",
        b"0 open 1 10.0.0.1\n",
    ),
    (
        b"0 open 1 10.0.0.1\n1 send 1 PING\\n\nend disk\n",
        b"0 open 1 10.0.0.1\n",
    ),
    (
        b"1 send 1 PING\\n\nend stop\n",
        b"1 send 1 PING\\n\nend stop\n",
    ),
    (
        b"1 send 1 PING\\n\n1 take 1\n",
        b"1 send 1 PING\\n\n1 take 1\n",
    ),
];

#[test]
fn what_was_not_written_to_its_end_is_left(rt: HostRuntime) {
    for (file, events) in CUT {
        same(&rt, (file, whole_events(file)), (file, events));
    }
}
