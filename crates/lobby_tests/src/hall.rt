//! Halls and sessions with memory at hand.

ghost use Rattle.std.specs.Prelude.{◌≤◌};
ghost use Rattle.std.specs.List.{AllByRecursion};
ghost use Rattle.lobby_hall.specs.Standing.{HasHome};

use crate::verdict::same;
use account_book::AccountBook;
use command_grammar::Request;
use line_framer::FeedError;
use lobby_hall::{Hall, HallError, Next, Record, Session, run};
use lobby_model::Step;
use lobby_model::schedule::Piece;
use lobby_model::settings::LEAST_OUTBOX_LIMIT;
use std::alloc::{AllocError, Global};
use std::process::Abort;
use std::test::Fail;
use test_lobby::settings;

const GREETING_AND_PONG: &[u8] = b"TASSERVER 0.38 * 8201 0\nPONG\n";

fn piece(alloc: Global, bytes: &[u8]) -> Result<Piece, AllocError> {
    Vec::from_slice(alloc, bytes).map(Piece::of)
}

/// The record of these steps, to which nobody may log in.
fn record_of(alloc: Global, steps: &[Step]) -> Result<Record, Fail>
    requires { AllByRecursion HasHome steps.now }
{
    let settings = settings(alloc, LEAST_OUTBOX_LIMIT).ok_or("no settings")?;
    Ok(run(alloc, settings, AccountBook::new(alloc), steps)?)
}

fn compare(rt: &impl Abort, record: &Record) {
    same(rt, record.put(1), GREETING_AND_PONG);
    same(rt, record.read(1), b"TASSE".as_slice());
    assert!(rt; record.put(0).is_empty() && record.read(0).is_empty());
    assert!(rt; record.put(2).is_empty() && record.read(2).is_empty());
}

#[test]
fn a_whole_schedule_leaves_its_record(rt: HostRuntime) -> Result<(), Fail> {
    let bytes = piece(rt.alloc(), b"PING\n")?;
    let lost = piece(rt.alloc(), b"PING\n")?;
    let steps = [
        Step::Open {
            ip: [192, 168, 0, 1],
            home: 0,
        },
        Step::Arrive { client: 1, bytes },
        Step::Take { client: 1 },
        Step::Read {
            client: 1,
            count: 5,
        },
        // There is no such client.
        Step::Arrive {
            client: 2,
            bytes: lost,
        },
        Step::Take { client: 2 },
        Step::Read {
            client: 2,
            count: 5,
        },
        Step::Shut { client: 2 },
    ];
    let record = record_of(rt.alloc(), &steps);
    drop(steps);
    let record = record?;
    compare(&rt, &record);
    drop(record);
    Ok(())
}

fn new_hall(alloc: Global) -> Result<Hall, Fail> {
    let settings = settings(alloc, LEAST_OUTBOX_LIMIT).ok_or("no settings")?;
    Ok(Hall::new(alloc, settings, AccountBook::new(alloc))?)
}

/// A client connects, says PING, and is answered.
fn serve_ping(hall: &mut Hall, alloc: Global) -> Result<(), HallError> {
    hall.step(&Step::Open {
        ip: [192, 168, 0, 1],
        home: 0,
    })?;
    let bytes = piece(alloc, b"PING\n")?;
    hall.step(&Step::Arrive { client: 1, bytes })?;
    hall.step(&Step::Take { client: 1 })
}

/// The record is asked for twice: what the first call caught up stays.
fn read_on(rt: &impl Abort, hall: &mut Hall) -> Result<(), HallError> {
    let step = Step::Read {
        client: 1,
        count: 5,
    };
    same(rt, hall.step(&step), Ok(()));
    same(rt, hall.last_client(), 1);
    same(rt, hall.record()?.put(1), GREETING_AND_PONG);
    same(rt, hall.record()?.put(1), GREETING_AND_PONG);
    Ok(())
}

fn has_read(hall: Hall) -> Result<bool, HallError> {
    Ok(hall.into_record()?.read(1) == b"TASSE".as_slice())
}

fn go_on(rt: &impl Abort, alloc: Global, hall: &mut Hall) {
    same(rt, serve_ping(hall, alloc), Ok(()));
    same(rt, read_on(rt, hall), Ok(()));
}

#[test]
fn a_record_that_is_asked_for_again_is_the_same(rt: HostRuntime) -> Result<(), Fail> {
    let mut hall = new_hall(rt.alloc())?;
    go_on(&rt, rt.alloc(), &mut hall);
    same(&rt, has_read(hall), Ok(true));
    Ok(())
}

const GREETING_AND_PONGS: &[u8] = b"TASSERVER 0.38 * 8201 0\nPONG\nPONG\n";

fn open_at(hall: &mut Hall, home: u8) -> Result<(), HallError>
    requires { home ≤ 63 }
{
    hall.step(&Step::Open {
        ip: [192, 168, 0, 1],
        home,
    })
}

fn ping(hall: &mut Hall, alloc: Global, client: u64) -> Result<(), HallError> {
    let bytes = piece(alloc, b"PING\n")?;
    hall.step(&Step::Arrive { client, bytes })?;
    hall.step(&Step::Take { client })
}

/// The first client is closed before it reads, and the second reads in between.
fn serve_workers(hall: &mut Hall, alloc: Global) -> Result<(), HallError> {
    open_at(hall, 63)?;
    open_at(hall, 5)?;
    ping(hall, alloc, 1)?;
    ping(hall, alloc, 2)?;
    hall.step(&Step::Read {
        client: 2,
        count: 26,
    })?;
    hall.step(&Step::Shut { client: 1 })?;
    ping(hall, alloc, 2)
}

fn compare_workers(rt: &impl Abort, record: &Record) {
    same(rt, record.put(1), GREETING_AND_PONG);
    assert!(rt; record.read(1).is_empty());
    same(rt, record.put(2), GREETING_AND_PONGS);
    same(rt, record.read(2), &GREETING_AND_PONGS[..26]);
}

#[test]
fn clients_of_several_workers_leave_their_records(rt: HostRuntime) -> Result<(), Fail> {
    let mut hall = new_hall(rt.alloc())?;
    same(&rt, serve_workers(&mut hall, rt.alloc()), Ok(()));
    let record = hall.into_record()?;
    compare_workers(&rt, &record);
    drop(record);
    Ok(())
}

/// What a client asks next: nothing, a request with this id, or to be disconnected.
#[derive(Clone, Copy, PartialEq, Eq, Debug)]
enum Asked {
    Nothing,
    Request(Option<u32>),
    Spoilt,
}

fn id_of(request: Request) -> Asked {
    let id = request.id;
    request.discard();
    Asked::Request(id)
}

fn asked_by(next: Next) -> Asked {
    match next {
        Next::Nothing => Asked::Nothing,
        Next::Line(request) => id_of(request),
        Next::Spoilt => Asked::Spoilt,
    }
}

fn next_asked(session: &Session) -> Result<Asked, AllocError> {
    match session.next_request() {
        Ok(next) => Ok(asked_by(next)),
        Err(refused) => Err(refused),
    }
}

fn ask(rt: &impl Abort, session: &mut Session) {
    assert!(rt; !session.is_ready());
    same(rt, next_asked(session), Ok(Asked::Nothing));
    same(rt, session.feed(b"#7 PING\nPI"), Ok(()));
    assert!(rt; session.is_ready());
    same(rt, next_asked(session), Ok(Asked::Request(Some(7))));
}

fn spoil(rt: &impl Abort, session: &mut Session) {
    same(rt, session.feed(&[b'N'; 8191]), Err(FeedError::Spoilt));
    assert!(rt; session.has_line());
    session.accept_request();
    assert!(rt; !session.has_line());
    same(rt, next_asked(session), Ok(Asked::Spoilt));
}

#[test]
fn a_session_gives_lines_up_to_the_spoilt_place(rt: HostRuntime) {
    let mut session = Session::new(rt.alloc(), 7);
    same(&rt, session.client(), 7);
    ask(&rt, &mut session);
    spoil(&rt, &mut session);
}
