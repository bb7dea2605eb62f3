//! Two clients of whom one says long lines, whom one worker serves over links in memory.

ghost use Rattle.std.specs.Prelude.{◌≡◌};

use crate::refusing::notes::Notes;
use crate::refusing::refuser::Refuser;
use crate::turns::calls::{CONNECTS, Came, Play, make, make_all, new_desk, try_anew};
use crate::turns::sides::{Caller, Side, Sides};
use lobby_lock::{Desk, Pass};
use std::io;
use std::sync::Wait;

/// So often Bert says a long line: for each of the two more waits then than two pieces that a hold drains, 8,192 bytes.
const TIMES: usize = 30;

/// A long line of Bert's, and what comes of it.
const SAYS: &[u8] =
    b"SAY main 0123456789abcdef0123456789abcdef0123456789abcdef0123456789abcdef0123456789abcdef0123456789abcdef\
    0123456789abcdef0123456789abcdef0123456789abcdef0123456789abcdef0123456789abcdef0123456789abcdef\
    0123456789abcdef0123456789abcdef0123456789abcdef0123456789abcdef0123456789abcdef0123456789abcdef\n";

const SAID: &[u8] =
    b"SAID main Bert 0123456789abcdef0123456789abcdef0123456789abcdef0123456789abcdef0123456789abcdef0123456789abcdef\
    0123456789abcdef0123456789abcdef0123456789abcdef0123456789abcdef0123456789abcdef0123456789abcdef\
    0123456789abcdef0123456789abcdef0123456789abcdef0123456789abcdef0123456789abcdef0123456789abcdef\n";

/// She sends her lines in pieces, and her link takes what she is told in several writes.
const ANNA: Caller = Caller {
    sends: &[(
        b"LOGIN Anna X03MO1qnZdYdgyfeuILPmQ== 0 * TestLobby 1.0\nJOIN main\nSAY main first\n",
        1,
    )],
    piece: 40,
    told: &[
        (
            b"TASSERVER 0.38 * 8201 0
ACCEPTED Anna
MOTD Welcome
ADDUSER Anna DE 0 1
LOGININFOEND
JOIN main
CLIENTS main Anna
SAID main Anna first
ADDUSER Bert ?? 0 2
CLIENTSTATUS Bert 12
JOINED main Bert
SAID main Bert hello
",
            1,
        ),
        (SAID, TIMES),
    ],
    room: 1_000,
};

/// His link takes all that one write carries.
const BERT: Caller = Caller {
    sends: &[
        (
            b"LOGIN Bert X03MO1qnZdYdgyfeuILPmQ== 0 * TestLobby 1.0\nJOIN main\nSAY main hello\n",
            1,
        ),
        (SAYS, TIMES),
    ],
    piece: 4_096,
    told: &[
        (
            b"TASSERVER 0.38 * 8201 0
ACCEPTED Bert
MOTD Welcome
ADDUSER Anna DE 0 1
ADDUSER Bert ?? 0 2
CLIENTSTATUS Bert 12
LOGININFOEND
JOIN main
CLIENTS main Anna Bert
SAID main Bert hello
",
            1,
        ),
        (SAID, TIMES),
    ],
    room: 16_384,
};

/// They connect, one after the other, and then get four turns each.
const CALLS: usize = CONNECTS + 8;

const PLAY: Play = Play {
    callers: [ANNA, BERT],
    calls: CALLS,
    is_exact: false,
};

/// Makes the call of this number, step by step until memory suffices.
fn try_call<R: Wait>(
    rt: &R,
    desk: &Desk,
    pass: Pass,
    sides: &mut Sides,
    number: usize,
    refuser: &mut Refuser,
    notes: &mut Notes,
) -> Pass
    requires { pass.desk ≡ desk.now }
    ensures { result.desk ≡ desk.now }
{
    let mut pass = pass;
    for step in 0..=refuser.last_step() {
        refuser.begin(step);
        let (next, came) = make(rt, desk, pass, sides, number);
        refuser.end();
        pass = next;
        if came == Came::Done {
            return pass;
        }
        notes.refuse(came == Came::Short && sides.are_fronts());
    }
    notes.give_up();
    pass
}

/// Makes all calls, each step by step, and then the turns with all memory, for what a refused drain left.
fn try_in_turn<R: Wait>(
    rt: &R,
    desk: &Desk,
    pass: Pass,
    sides: &mut Sides,
    refuser: &mut Refuser,
    notes: &mut Notes,
) -> Pass
    requires { pass.desk ≡ desk.now }
    ensures { result.desk ≡ desk.now }
{
    let mut pass = pass;
    for number in 0..CALLS {
        pass = try_call(rt, desk, pass, sides, number, refuser, notes);
    }
    refuser.release();
    make_all(rt, desk, pass, sides, CONNECTS, CALLS).0
}

/// Tries all calls in turn at a new desk.
fn try_at_desk<R: Wait + AllocGlobal>(
    rt: &R,
    sides: &mut Sides,
    refuser: &mut Refuser,
    notes: &mut Notes,
) {
    match new_desk(rt) {
        Some((desk, pass)) => {
            let pass = try_in_turn(rt, &desk, pass, sides, refuser, notes);
            drop(pass);
            drop(desk);
        }
        None => notes.give_up(),
    }
}

fn show<R: Print>(rt: &R, side: &Side) -> io::Result<()> {
    println!(rt;
        "the link of client {}: {} bytes, all that it is to be told: {}",
        side.conn.client(),
        side.link.output().len(),
        side.is_told()
    )
}

fn show_both<R: Print>(rt: &R, sides: &Sides) -> io::Result<()> {
    show(rt, &sides.first)?;
    show(rt, &sides.second)
}

pub fn try_out<R: Wait + Print + AllocGlobal>(
    rt: &R,
    refuser: &mut Refuser,
    notes: &mut Notes,
) -> io::Result<()> {
    let Ok(mut sides) = Sides::new(rt.alloc(), &PLAY.callers) else {
        notes.give_up();
        return Ok(());
    };
    try_at_desk(rt, &mut sides, refuser, notes);
    try_anew(rt, &PLAY, refuser, notes);
    let shown = show_both(rt, &sides);
    drop(sides);
    shown
}
