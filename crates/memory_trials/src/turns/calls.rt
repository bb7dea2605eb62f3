//! What is done for two clients whom one worker serves: they connect and get turns. One call is refused memory, and
//! made again.

ghost use Rattle.std.specs.Prelude.{◌≡◌, IfSome};

use crate::refusing::notes::Notes;
use crate::refusing::refuser::Refuser;
use crate::turns::places;
use crate::turns::sides::{Caller, Side, Sides};
use lobby_lock::{Desk, Made, Pass};
use lobby_machine::OpenError;
use lobby_turns::{Buffers, Gate, Link, PIECE, TurnState, serve};
use std::sync::Wait;
use test_lobby::new_lobby;

/// How many of the calls connect. The others are turns of the two by turns.
pub const CONNECTS: usize = 2;

/// Two clients, and how many calls are made for them.
pub struct Play {
    pub callers: [Caller; 2],
    pub calls: usize,
    /// Whether each sends PING and no more, so that it is known what it was told after each call.
    pub is_exact: bool,
}

/// What a call came to.
#[derive(Clone, Copy, PartialEq, Eq)]
pub enum Came {
    Done,
    /// Memory was refused.
    Short,
    /// Otherwise than it is to be.
    Wrong,
}

/// A gate that does nothing.
#[derive(Drop)]
struct Open;

impl Gate for Open {
    ghost use Rattle.std.specs.Prelude.{false, ⊤};

    ghost wants = { λ gate. false };

    ghost handed = { λ gate made. ⊤ };

    fn before_take(&self, worker: u8) {
        let _ = worker;
    }

    fn wants_events(&self) -> bool {
        false
    }

    fn made(&self, made: Made) -> Pass {
        made.pass()
    }

    fn after_write(&self, worker: u8, bytes: &[u8]) {
        let _ = (worker, bytes.len());
    }

    fn woken(&self, worker: u8) {
        let _ = worker;
    }
}

/// The client of this number connects.
fn connect<R: Wait>(rt: &R, desk: &Desk, pass: Pass, client: u64) -> (Pass, Came)
    requires { pass.desk ≡ desk.now }
    ensures { result.0.desk ≡ desk.now }
{
    let mut held = desk.take(rt, pass);
    let opened = held.open([10, 0, 0, 1], 0);
    let came = match opened {
        Ok(number) if number == client => Came::Done,
        Err(OpenError::Memory) => Came::Short,
        _ => Came::Wrong,
    };
    (held.give(rt, desk), came)
}

/// A client gets a turn, for which no buffers are lent to it: it makes its own, and keeps none in which nothing waits.
fn turn<R: Wait>(rt: &R, desk: &Desk, pass: Pass, side: &mut Side) -> (Pass, Came)
    requires { pass.desk ≡ desk.now }
    ensures { result.0.desk ≡ desk.now }
{
    if !side.link.fresh() {
        return (pass, Came::Wrong);
    }
    let (pass, turn) = serve(rt, &mut side.conn, &mut side.link, desk, pass, &Open);
    let mut buffers = Buffers::new(side.alloc);
    side.conn.settle(&mut buffers);
    drop(buffers);
    let came = match turn.state {
        TurnState::Idle | TurnState::Again => Came::Done,
        TurnState::Memory => Came::Short,
        // nobody exits, and no link ends
        TurnState::Closed => Came::Wrong,
    };
    (pass, came)
}

/// Makes the call of this number.
pub fn make<R: Wait>(
    rt: &R,
    desk: &Desk,
    pass: Pass,
    sides: &mut Sides,
    number: usize,
) -> (Pass, Came)
    requires { pass.desk ≡ desk.now }
    ensures { result.0.desk ≡ desk.now }
{
    match number {
        0 => connect(rt, desk, pass, 1),
        1 => connect(rt, desk, pass, 2),
        _ if number % 2 == 0 => turn(rt, desk, pass, &mut sides.first),
        _ => turn(rt, desk, pass, &mut sides.second),
    }
}

/// Makes the calls from one number up to another, and says whether each was done.
pub fn make_all<R: Wait>(
    rt: &R,
    desk: &Desk,
    pass: Pass,
    sides: &mut Sides,
    from: usize,
    to: usize,
) -> (Pass, bool)
    requires { pass.desk ≡ desk.now }
    ensures { result.0.desk ≡ desk.now }
{
    let mut pass = pass;
    let mut are_done = true;
    for number in from..to {
        let (next, came) = make(rt, desk, pass, sides, number);
        pass = next;
        are_done = are_done && came == Came::Done;
    }
    (pass, are_done)
}

/// Whether each was told a front of what it is to be told where the call of this number is next, and was refused or
/// not; and just what it is to be told by then, if that is known.
fn are_right<R: Wait>(
    rt: &R,
    desk: &Desk,
    pass: Pass,
    sides: &Sides,
    play: &Play,
    next: usize,
    was_refused: bool,
) -> (Pass, bool)
    requires { pass.desk ≡ desk.now }
    ensures { result.0.desk ≡ desk.now }
{
    if play.is_exact {
        return places::are_exact(rt, desk, pass, sides, next, was_refused);
    }
    (pass, sides.are_fronts())
}

/// Whether a call that came to this is right, in which so many bytes were sent. Who was refused memory says so.
fn is_right(came: Came, was_refused: bool, sent: usize) -> bool {
    match came {
        // but one who sends a full piece, and is told as much here, is served without the room for more at once
        Came::Done => !was_refused || sent >= PIECE,
        Came::Short => true,
        Came::Wrong => false,
    }
}

/// Makes the calls from this number on, and then the turns once more. Says whether each is done, whether each client
/// was told then what it is to be told by then, and all in the end.
fn are_told_at_last<R: Wait>(
    rt: &R,
    desk: &Desk,
    pass: Pass,
    sides: &mut Sides,
    play: &Play,
    from: usize,
) -> (Pass, bool)
    requires { pass.desk ≡ desk.now }
    ensures { result.0.desk ≡ desk.now }
{
    let mut pass = pass;
    let mut are_told = true;
    for number in from..play.calls {
        let next = number.saturating_add(1);
        let (made, is_done) = make_all(rt, desk, pass, sides, number, next);
        let (seen, is_so) = are_right(rt, desk, made, sides, play, next, false);
        pass = seen;
        are_told = are_told && is_done && is_so;
    }
    let (pass, are_done) = make_all(rt, desk, pass, sides, CONNECTS, play.calls);
    let (pass, is_so) = are_right(rt, desk, pass, sides, play, play.calls, false);
    (pass, are_told && are_done && is_so && sides.are_told())
}

/// Makes the calls, that of this number as at this step, and says whether memory was refused. Then its answer says so,
/// nobody was told otherwise than without it, and the next try has all told.
fn try_one<R: Wait>(
    rt: &R,
    desk: &Desk,
    pass: Pass,
    sides: &mut Sides,
    play: &Play,
    at: (usize, usize),
    refuser: &mut Refuser,
    notes: &mut Notes,
) -> (Pass, bool)
    requires { pass.desk ≡ desk.now }
    ensures { result.0.desk ≡ desk.now }
{
    let (number, step) = at;
    let (pass, are_done) = make_all(rt, desk, pass, sides, 0, number);
    let before = sides.output();
    refuser.begin(step);
    let (pass, came) = make(rt, desk, pass, sides, number);
    let was_refused = refuser.end() || came == Came::Short;
    refuser.release();
    let sent = sides.output().saturating_sub(before);
    let next = number.saturating_add(usize::from(came == Came::Done));
    let (pass, is_so) = are_right(rt, desk, pass, sides, play, next, came == Came::Short);
    let (pass, are_told) = are_told_at_last(rt, desk, pass, sides, play, next);
    let is_as_wanted = are_done && is_right(came, was_refused, sent) && is_so && are_told;
    if was_refused {
        notes.refuse(is_as_wanted);
    } else {
        notes.compare(is_as_wanted);
    }
    (pass, was_refused)
}

/// A desk with a new lobby.
pub fn new_desk<R: Wait + AllocGlobal>(rt: &R) -> Option<(Desk, Pass)>
    ensures { IfSome result (λ r. r.1.desk ≡ r.0) }
{
    let lobby = new_lobby(rt.alloc())?;
    Desk::open(rt, rt.alloc(), lobby).ok()
}

/// Tries a call at a step at a desk of its own, and says whether memory was refused.
fn is_refused<R: Wait + AllocGlobal>(
    rt: &R,
    sides: &mut Sides,
    play: &Play,
    at: (usize, usize),
    refuser: &mut Refuser,
    notes: &mut Notes,
) -> bool {
    match new_desk(rt) {
        Some((desk, pass)) => {
            let (pass, was_refused) = try_one(rt, &desk, pass, sides, play, at, refuser, notes);
            drop(pass);
            drop(desk);
            was_refused
        }
        None => {
            notes.give_up();
            false
        }
    }
}

/// The same over links of its own.
fn is_refused_anew<R: Wait + AllocGlobal>(
    rt: &R,
    play: &Play,
    at: (usize, usize),
    refuser: &mut Refuser,
    notes: &mut Notes,
) -> bool {
    match Sides::new(rt.alloc(), &play.callers) {
        Ok(mut sides) => {
            let was_refused = is_refused(rt, &mut sides, play, at, refuser, notes);
            drop(sides);
            was_refused
        }
        Err(_) => {
            notes.give_up();
            false
        }
    }
}

/// Tries each call anew, step by step until no memory is refused.
pub fn try_anew<R: Wait + AllocGlobal>(
    rt: &R,
    play: &Play,
    refuser: &mut Refuser,
    notes: &mut Notes,
) {
    for number in 0..play.calls {
        for step in 0..=refuser.last_step() {
            if !is_refused_anew(rt, play, (number, step), refuser, notes) {
                break;
            }
        }
    }
}
