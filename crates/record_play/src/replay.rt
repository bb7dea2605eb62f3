//! A record that is played.

ghost use Rattle.std.specs.Prelude.{◌≡◌, ◌≤◌, ◌<◌, IfOk, IfErr, IfSome, IfNone, OnOk, OnErr};
ghost use Rattle.std.specs.Prelude.{Some, length, slice_get};
ghost use Rattle.record_play.specs.Joined.{IsFaultOf, Joins};
ghost use Rattle.record_play.specs.Replays.{GoesOn, HasPlayedBefore, IsPlayed, PlaysNext};
ghost use Rattle.record_play.specs.declared.file.RecordLine.{RecordLine};

use crate::fault::RecordFault;
use crate::file::RecordLine;
use crate::joining::{Joined, join};
use crate::order::{begins, ends, follows};
use crate::playing::play_step;
use account_book::AccountBook;
use client_view::{View, ViewError};
use lobby_hall::Hall;
use lobby_model::Settings;
use lobby_script::LineFault;
use lobby_script::show::show;
use std::alloc::Global;
use std::collections::BTreeMap;
use std::io::Write;

/// A record that is played, and the lobby after what was played of it.
#[derive(Drop)]
pub struct Replay<'a> {
    alloc: Global,
    hall: Hall,
    lines: Vec<RecordLine<'a>>,
    /// How many lines were played.
    played: usize,
    missing: u64,
    /// Of whom something was shown: how many bytes.
    shown: BTreeMap<u32, usize>,
}

impl<'a> Replay<'a> {
    /// The record of these files, of which nothing was played, by the settings and accounts of its server. The faults
    /// are those of `join`.
    pub fn new(
        alloc: Global,
        settings: Settings,
        accounts: AccountBook,
        files: &[&'a [u8]],
    ) -> Result<Replay<'a>, RecordFault>
        ensures joins { IfOk result (λ replay. Joins files.now replay.lines.items replay.missing) }
        ensures played { IfOk result (λ replay. IsPlayed replay settings accounts) }
        ensures fault { IfErr result (IsFaultOf files.now) }
    {
        let hall = Hall::new(alloc, settings, accounts)?;
        match join(alloc, files) {
            Ok(Joined { lines, missing }) => Ok(Replay {
                alloc,
                hall,
                lines,
                played: 0,
                missing,
                shown: BTreeMap::new(alloc),
            }),
            Err(fault) => {
                drop(hall);
                Err(fault)
            }
        }
    }

    /// The first place that the record does not have.
    pub fn missing(&self) -> u64
        ensures { result ≡ self.now.missing }
    {
        self.missing
    }

    /// Plays on, up to the events before this place. A line that is refused is not played, and one that was played is
    /// not played again: who asks once more goes on behind those that were played.
    pub fn play_until(&mut self, place: u64) -> Result<(), RecordFault>
        ensures goes_on { GoesOn place self.old self.new }
        ensures all { OnOk result (HasPlayedBefore place self.new) }
    {
        while let Some(line) = self.next_before(place) {
            self.play_next(line)?;
        }
        self.ends_before(place)
    }

    /// The next line to be played, where it is before this place.
    fn next_before(&self, place: u64) -> Option<RecordLine<'a>>
        ensures some { IfSome result (λ line. (line.place < place)
            × (slice_get self.now.lines.items self.now.played ≡ Some line)) }
        ensures none { IfNone result ((line : RecordLine)
            → slice_get self.now.lines.items self.now.played ≡ Some line → place ≤ line.place) }
    {
        match self.lines.get(self.played) {
            Some(line) if line.place < place => Some(*line),
            Some(_) | None => None,
        }
    }

    /// Plays the next line, which is this one.
    fn play_next(&mut self, line: RecordLine<'a>) -> Result<(), RecordFault>
        requires next { slice_get self.old.lines.items self.old.played ≡ Some line }
        requires within { self.old.played < length self.old.lines.items }
        ensures ok { OnOk result (PlaysNext self.old line.entry self.new) }
        ensures err { OnErr result (self.new ≡ self.old) }
    {
        self.in_order(&line)?;
        match play_step(self.alloc, &mut self.hall, line.step) {
            Ok(()) => {
                self.played += 1;
                Ok(())
            }
            Err(fault) => Err(fault.at(line.file, line.number)),
        }
    }

    /// The line that was played last.
    fn last_played(&self) -> Option<&RecordLine<'a>> {
        self.lines.get(self.played.checked_sub(1)?)
    }

    /// Refuses a line that may not stand behind those that were played.
    fn in_order(&self, line: &RecordLine<'_>) -> Result<(), RecordFault> {
        match self.last_played() {
            Some(before) => follows(before, line),
            None => begins(line),
        }
    }

    /// Refuses a last line before this place with which no event ends.
    fn ends_before(&self, place: u64) -> Result<(), RecordFault> {
        match self.last_played() {
            Some(last) if last.place < place => ends(last),
            Some(_) | None => Ok(()),
        }
    }

    /// Writes the lines that were put for a client since it was last shown, each behind its number.
    pub fn show<W: Write>(&mut self, client: u32, writer: &mut W) -> Result<(), LineFault> {
        let shown = self.shown.get(&client).copied().unwrap_or(0);
        let put = show(&mut self.hall, u64::from(client), client, shown, writer)?;
        self.shown.insert(client, put)?;
        Ok(())
    }

    /// Writes what a client knows by all that was put for it, if it has read that.
    pub fn view<W: Write>(&mut self, client: u32, writer: &mut W) -> Result<(), LineFault> {
        let mut view = View::new(self.alloc);
        let shown = show_known(&mut self.hall, u64::from(client), &mut view, writer);
        drop(view);
        shown
    }
}

/// Folds all that was put for a client into a view, and shows it.
fn show_known<W: Write>(
    hall: &mut Hall,
    client: u64,
    view: &mut View,
    writer: &mut W,
) -> Result<(), LineFault> {
    match view.feed(hall.record()?.put(client)) {
        // Behind a line that is too long a view learns nothing more.
        Ok(_) | Err(ViewError::LineTooLong) => {}
        Err(ViewError::Memory) => return Err(LineFault::Memory),
    }
    view_text::show(&*view, writer)?;
    Ok(())
}
