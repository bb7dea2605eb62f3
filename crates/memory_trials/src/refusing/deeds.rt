//! Deeds that are done in turn, each of which may be refused memory.

use crate::refusing::notes::Notes;
use crate::refusing::refuser::Refuser;
use std::alloc::Global;
use std::io;

/// What is done for a client.
#[derive(Clone, Copy)]
pub(crate) enum Deed {
    /// It connects.
    Open,
    /// It sends this: to a lobby a line, to what reads lines bytes.
    Send(&'static [u8]),
    /// Its next line is taken.
    Take,
    /// It reads up to so many bytes.
    Read(usize),
    /// It is shut.
    Shut,
    /// The record is asked for.
    Record,
}

/// What deeds are done to.
pub(crate) trait Subject: Drop {
    /// A new one, unless memory is refused.
    fn new(alloc: Global) -> Option<Self>
    where
        Self: Sized;

    /// Does it for the client, and says whether memory sufficed. What it has no such deed for, it leaves.
    fn act(&mut self, alloc: Global, client: u64, deed: Deed) -> bool;

    /// Its clients have read all then, and hold no buffer: what they are told next takes memory. Says whether memory
    /// sufficed.
    fn use_up(&mut self, alloc: Global) -> bool;

    /// Whether public calls tell the same of both. What they take away to tell it, they take from both.
    fn is_as(&mut self, other: &mut Self) -> bool
    where
        Self: Sized;

    /// Shows what public calls tell of it.
    fn show<R: Print>(&mut self, rt: &R) -> io::Result<()>;
}

/// What is under trial, and another one to which memory is not refused.
#[derive(Drop)]
struct Pair<S: Subject> {
    tried: S,
    other: S,
}

impl<S: Subject> Pair<S> {
    fn new(alloc: Global) -> Option<Pair<S>> {
        let tried = S::new(alloc)?;
        match S::new(alloc) {
            Some(other) => Some(Pair { tried, other }),
            None => {
                drop(tried);
                None
            }
        }
    }

    /// A new pair, of which both have done these deeds, and have no buffers left.
    fn after(alloc: Global, deeds: &[(u64, Deed)]) -> Option<Pair<S>> {
        let mut pair = Pair::<S>::new(alloc)?;
        if pair.do_all(alloc, deeds) && pair.tried.use_up(alloc) && pair.other.use_up(alloc) {
            Some(pair)
        } else {
            drop(pair);
            None
        }
    }

    /// Both do it, and memory suffices, or not.
    fn do_both(&mut self, alloc: Global, client: u64, deed: Deed) -> bool {
        self.tried.act(alloc, client, deed) && self.other.act(alloc, client, deed)
    }

    /// Both do these deeds, and memory suffices, or not.
    fn do_all(&mut self, alloc: Global, deeds: &[(u64, Deed)]) -> bool {
        for (client, deed) in deeds {
            if !self.do_both(alloc, *client, *deed) {
                return false;
            }
        }
        true
    }

    /// Whether both tell the same, and still do after each of these deeds.
    fn is_alike_after(&mut self, alloc: Global, deeds: &[(u64, Deed)]) -> bool {
        for (client, deed) in deeds {
            if !self.tried.is_as(&mut self.other) || !self.do_both(alloc, *client, *deed) {
                return false;
            }
        }
        self.tried.is_as(&mut self.other)
    }

    /// Does it, step by step, until memory suffices; a deed that is done without what was refused counts as done. After
    /// each refusal the two are compared, of which the other one has not done it. Says whether memory sufficed.
    fn try_out(
        &mut self,
        alloc: Global,
        client: u64,
        deed: Deed,
        refuser: &mut Refuser,
        notes: &mut Notes,
    ) -> bool {
        for step in 0..=refuser.last_step() {
            refuser.begin(step);
            let is_done = self.tried.act(alloc, client, deed);
            refuser.end();
            if is_done {
                refuser.release();
                return self.other.act(alloc, client, deed);
            }
            notes.refuse(self.tried.is_as(&mut self.other));
        }
        false
    }

    /// Tries one deed after the other, and compares the two once more.
    fn try_all(
        &mut self,
        alloc: Global,
        deeds: &[(u64, Deed)],
        refuser: &mut Refuser,
        notes: &mut Notes,
    ) {
        for (client, deed) in deeds {
            if !self.try_out(alloc, *client, *deed, refuser, notes) {
                notes.give_up();
                return;
            }
        }
        notes.compare(self.tried.is_as(&mut self.other));
    }
}

/// What is done behind a refusal.
#[derive(Clone, Copy, PartialEq, Eq)]
enum Then {
    /// The looks.
    Looks,
    /// The deed once more, with all memory, and then the looks.
    NextTry,
}

impl<S: Subject> Pair<S> {
    /// Whether both tell the same behind a deed that was refused to one of them, or was done without what was
    /// refused. The other one has not done it yet.
    fn is_alike_behind(
        &mut self,
        alloc: Global,
        (client, deed): (u64, Deed),
        is_done: bool,
        then: Then,
        looks: &[(u64, Deed)],
    ) -> bool {
        if is_done {
            return self.other.act(alloc, client, deed) && self.is_alike_after(alloc, looks);
        }
        match then {
            Then::Looks => self.is_alike_after(alloc, looks),
            Then::NextTry => {
                self.is_alike_after(alloc, &[(client, deed)]) && self.is_alike_after(alloc, looks)
            }
        }
    }
}

/// Whether memory is refused to the last of these deeds, which one of a new pair does as at this step, and both did the
/// others before. Then the two are compared, and again after what is done behind the refusal.
fn is_refused<S: Subject>(
    alloc: Global,
    (before, client, deed): (&[(u64, Deed)], u64, Deed),
    (step, then): (usize, Then),
    looks: &[(u64, Deed)],
    refuser: &mut Refuser,
    notes: &mut Notes,
) -> bool {
    let Some(mut pair) = Pair::<S>::after(alloc, before) else {
        notes.give_up();
        return false;
    };
    refuser.begin(step);
    let is_done = pair.tried.act(alloc, client, deed);
    let was_refused = refuser.end() || !is_done;
    refuser.release();
    if was_refused {
        notes.refuse(pair.is_alike_behind(alloc, (client, deed), is_done, then, looks));
    }
    drop(pair);
    was_refused
}

/// Tries each deed on new pairs, step by step until no memory is refused. Looks, which are deeds that make more be
/// told, find what the refused deed left and the next try would hide. So a growth that is refused has a pair for
/// them, and one for the next try; where memory is scarce, they take turns.
fn try_anew<S: Subject>(
    alloc: Global,
    deeds: &[(u64, Deed)],
    looks: &[(u64, Deed)],
    refuser: &mut Refuser,
    notes: &mut Notes,
) {
    for number in 0..deeds.len() {
        let (client, deed) = deeds[number];
        let tried = (&deeds[..number], client, deed);
        for step in 0..=refuser.last_step() {
            let then = if refuser.is_counted() || step % 2 == 0 {
                Then::Looks
            } else {
                Then::NextTry
            };
            if !is_refused::<S>(alloc, tried, (step, then), looks, refuser, notes) {
                break;
            }
            if refuser.is_counted() {
                is_refused::<S>(alloc, tried, (step, Then::NextTry), looks, refuser, notes);
            }
        }
    }
}

/// Tries the deeds on a new subject, one after another, and shows what came of them; then each on subjects of its own,
/// at which the looks are done after a refusal.
pub(crate) fn try_deeds<S: Subject, R: Print + AllocGlobal>(
    rt: &R,
    deeds: &[(u64, Deed)],
    looks: &[(u64, Deed)],
    refuser: &mut Refuser,
    notes: &mut Notes,
) -> io::Result<()> {
    match Pair::<S>::new(rt.alloc()) {
        Some(mut pair) => {
            pair.try_all(rt.alloc(), deeds, refuser, notes);
            let shown = pair.tried.show(rt);
            drop(pair);
            try_anew::<S>(rt.alloc(), deeds, looks, refuser, notes);
            shown
        }
        None => {
            notes.give_up();
            Ok(())
        }
    }
}
