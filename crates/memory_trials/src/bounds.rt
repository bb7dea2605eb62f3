//! A lobby plays parts of a script, beside each of which the most memory is shown that its rule allows. The library
//! checks/refuse_allocation.c counts what it took; checks/memory_bounds.sh compares both.

mod acts;
mod parts;

use crate::bounds::acts::{Lines, act_all};
use crate::bounds::parts::{FEW, FEW_PARTS, MANY, MANY_PARTS, PASSES, Part, WHOLE};
use crate::refusing::counted::Counted;
use lobby_machine::Lobby;
use std::alloc::Global;
use std::io;
use test_lobby::crowd_lobby;

fn show<R: Print>(rt: &R, part: &Part, is_done: bool) -> io::Result<()> {
    if is_done {
        println!(rt;
            "{} {} {} {}",
            part.growths, part.asked, part.kept, part.rule
        )
    } else {
        println!(rt; "no memory where there is enough: {}", part.rule)
    }
}

/// Counts what the parts take, one after another, and shows what they may.
fn count<R: Print + AllocGlobal>(
    rt: &R,
    lobby: &mut Lobby,
    members: u32,
    parts: &[Part],
    counted: &mut Counted,
    lines: &Lines,
) -> io::Result<()> {
    for part in parts {
        let has_begun = act_all(lobby, rt.alloc(), lines, members, part.acts, part.before);
        counted.mark();
        let is_done = has_begun
            && act_all(lobby, rt.alloc(), lines, members, part.acts, part.times);
        counted.tell();
        show(rt, part, is_done)?;
    }
    Ok(())
}

/// Counts what the parts take of a crowd of so many.
fn count_crowd<R: Print + AllocGlobal>(
    rt: &R,
    users: u32,
    parts: &[Part],
    counted: &mut Counted,
    lines: &Lines,
) -> io::Result<()> {
    let Some(mut lobby) = crowd_lobby(rt.alloc(), users) else {
        return println!(rt; "no crowd of {users}");
    };
    let shown = count(
        rt,
        &mut lobby,
        users.saturating_sub(1),
        parts,
        counted,
        lines,
    );
    drop(lobby);
    shown
}

/// A small crowd comes, is told lines, and goes with its lobby. Says whether memory sufficed.
fn pass_by(alloc: Global, lines: &Lines) -> bool {
    let Some(mut lobby) = crowd_lobby(alloc, FEW) else {
        return false;
    };
    let is_told = act_all(&mut lobby, alloc, lines, FEW - 1, &PASSES, 1);
    drop(lobby);
    is_told
}

/// Counts what all parts take, and shows what each may.
pub fn count_all<R: Print + AllocGlobal>(rt: &R) -> io::Result<()> {
    let lines = Lines::new(rt.alloc())?;
    let mut counted = Counted::new(rt.alloc());
    count_crowd(rt, MANY, &MANY_PARTS, &mut counted, &lines)?;
    count_crowd(rt, FEW, &FEW_PARTS, &mut counted, &lines)?;
    counted.mark();
    let has_passed = pass_by(rt.alloc(), &lines);
    counted.tell();
    show(rt, &WHOLE, has_passed)
}
