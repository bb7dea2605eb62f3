//! A program that shows what a client knows of the lobby, from the bytes that it was sent.
//!
//! It folds its standard input into a [`View`], and writes what the view has behind the last byte to standard output by
//! [`show`].
//!
//! For example (`rows/battles/founder_disconnects_seen_by_a_member.2.view`):
//!
//! ```text
//! me Bert
//! user Bert ?? 0 2 12
//! user Cleo FR 0 3 0
//! channel main
//!   member Bert
//! ```
//!
//! This is all that it shows for Bert, after the founder of his battle has disconnected.
//!
//! With a number as argument it folds at most so many bytes at once, and with `whole` all of them, which shows the
//! same.
#![tactic(auto)]

use anyhow::{Error, anyhow};
use client_view::{View, ViewError};
use std::alloc::Global;
use std::io::{BufWriter, ErrorKind, Read, Write};
use std::rt::{Env, Files};
use std::{env, io};
use view_text::show;

const HELP: &str = "\
usage: view_show [whole|BYTES] < RECEIVED

Reads the bytes that a client was sent, and shows what it knows behind the last of them: its user, all
users, battles, channels and its own room. Lines behind one that is too long are not read.

BYTES      folds at most so many bytes at once, 1 to 4096
whole      folds all at once
--help     prints this
--version  prints the version

Exit status: 0 shown, 1 wrong arguments, a fault of reading or printing, or no memory";

/// How many bytes are read at once, at most.
const PIECE: usize = 4_096;

/// How the bytes are cut where they are folded.
#[derive(Clone, Copy)]
enum Cut {
    /// Into pieces of at most so many.
    Pieces(usize),
    /// Not at all.
    Whole,
}

/// Folds the input, to its end or to a line that is too long. As many bytes are read at once as
/// `piece` has room for.
fn fold<R: Read>(input: &mut R, piece: &mut [u8], view: &mut View) -> Result<(), Error> {
    for _ in 0..u64::MAX {
        match input.read(piece) {
            Ok(0) => return Ok(()),
            Ok(count) => match view.feed(&piece[..count]) {
                Ok(_) => {}
                Err(ViewError::LineTooLong) => return Ok(()),
                Err(refused) => return Err(refused.into()),
            },
            Err(e) if e.kind() == ErrorKind::Interrupted => {}
            Err(e) => return Err(e.into()),
        }
    }
    Ok(())
}

/// Folds the whole input at once.
fn fold_whole<R: Read>(alloc: Global, input: &mut R, view: &mut View) -> Result<(), Error> {
    let mut bytes = Vec::new(alloc);
    input.read_to_end(&mut bytes)?;
    match view.feed(&bytes) {
        Ok(_) | Err(ViewError::LineTooLong) => Ok(()),
        Err(refused) => Err(refused.into()),
    }
}

/// How the argument has the bytes cut.
fn chosen_cut<R: Env + AllocGlobal>(rt: &R) -> Result<Cut, Error> {
    let Some(word) = env::args(rt)?.nth(1) else {
        return Ok(Cut::Pieces(PIECE));
    };
    if word.as_str() == "whole" {
        return Ok(Cut::Whole);
    }
    match word.as_str().parse::<usize>() {
        Ok(most) if 1 <= most && most <= PIECE => Ok(Cut::Pieces(most)),
        _ => Err(anyhow!("usage: view_show [whole|BYTES], BYTES from 1 to {PIECE}")),
    }
}

/// Folds the input, and prints what is known behind it.
fn follow<R: Env + Input + Print + AllocGlobal>(rt: &R, view: &mut View) -> Result<(), Error> {
    match chosen_cut(rt)? {
        Cut::Pieces(most) => {
            let mut piece = [0; PIECE];
            fold(&mut rt.reader(), &mut piece[..most.min(PIECE)], view)?;
        }
        Cut::Whole => fold_whole(rt.alloc(), &mut rt.reader(), view)?,
    }
    print(rt, view)
}

fn print<R: Print + AllocGlobal>(rt: &R, view: &View) -> Result<(), Error> {
    let mut writer = BufWriter::new(rt.alloc(), io::writer(rt))?;
    show(view, &mut writer)?;
    writer.flush()?;
    Ok(())
}

fn run<R: Env + Files + Input + Print + AllocGlobal>(rt: &R) -> Result<(), Error> {
    if program_help::answers(rt, "view_show", HELP)? {
        return Ok(());
    }
    let mut view = View::new(rt.alloc());
    let followed = follow(rt, &mut view);
    drop(view);
    followed
}

fn main(rt: HostRuntime) -> Result<(), Error> {
    run(&rt)
}
