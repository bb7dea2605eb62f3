//! The map, and its notes.

ghost use Rattle.std.specs.Prelude.{◌≡◌, ◌<◌, true, false, [], ◌∷◌, ◌++◌, OnOk, OnErr, vec_len, vec_capacity};
ghost use Rattle.line_words.specs.Table.{put, without, change};
ghost use Rattle.noted_map.specs.Slots.{live};
ghost use Rattle.noted_map.specs.Notes.{undo_at, undone, place_note};
ghost use Rattle.noted_map.specs.Undoable.{Changes};

use crate::entries::Entries;
use crate::key::Key;
use crate::note::{Edit, Note, Undo};
use crate::slots::Slots;
use std::alloc::{AllocError, Global};
use std::marker::Model;

/// A map in the order of its keys whose changes can be taken back.
pub struct NotedMap<K: Key, X, U: Undo<X>> {
    slots: Slots<K, X>,
    // what undoes each change since noting began, the newest last
    notes: Vec<(K, Note<X, U>)>,
    noting: bool,
}

impl<K: Key, X: Drop, U: Undo<X>> Drop for NotedMap<K, X, U> {
    /// Who lets a map go calls this, and need not know what it is made of.
    fn drop(self) {
        let NotedMap {
            slots,
            notes,
            noting: _,
        } = self;
        drop(slots);
        drop(notes);
    }
}

impl<K: Key, X, U: Undo<X>> Model for NotedMap<K, X, U> {
    ghost use Rattle.std.specs.Prelude.{List, ◌≡◌, false, []};
    ghost use Rattle.std.specs.Coded.{coded_list, coded×};
    ghost use Rattle.noted_map.specs.Slots.{live};
    ghost use Rattle.noted_map.specs.Notes.{undone};
    ghost use Rattle.noted_map.specs.Undoable.{Undoable, undoable_code};

    ghost Value = { Undoable (List (K × X)) };

    ghost coded = { undoable_code (coded_list (coded× K.code X.code)) };

    ghost view = { λ m. record {
      now = live m.slots;
      before = live (undone K.cmp U.back m.notes.items m.slots);
      noting
          = m.noting;
    } };

    ghost invariant = { λ m. m.noting ≡ false → m.notes.items ≡ [] };
}

impl<K: Key, X: Drop, U: Undo<X>> NotedMap<K, X, U> {
    /// No entry, and nothing is noted. It takes no memory yet.
    pub fn new(alloc: Global) -> NotedMap<K, X, U>
        ensures now { result.now ≡ [] }
        ensures before { result.before ≡ [] }
        ensures noting { result.noting ≡ false }
    {
        NotedMap {
            slots: Slots::new(alloc),
            notes: Vec::new(alloc),
            noting: false,
        }
    }

    /// The entries.
    pub fn entries(&self) -> Entries<'_, K, X>
        ensures { result ≡ self.now.now }
    {
        Entries::of(&self.slots)
    }

    /// A value for a key, in place of the one that it has. Where memory is refused, nothing changes.
    pub fn put(&mut self, key: K, value: X) -> Result<(), AllocError>
        ensures ok { OnOk result (Changes (λ entries. put K.cmp entries key value) self.old self.new) }
        ensures err { OnErr result (self.new ≡ self.old) }
    {
        if self.noting {
            return put_noted(&mut self.slots, &mut self.notes, key, value);
        }
        self.slots.put(key, value)?;
        Ok(())
    }

    /// The entry of a key goes. Where memory is refused, nothing changes; it is asked for only where that is noted.
    pub fn remove(&mut self, key: &K) -> Result<(), AllocError>
        ensures ok { OnOk result (Changes (λ entries. without K.cmp entries key.now) self.old self.new) }
        ensures err { OnErr result (self.new ≡ self.old) }
    {
        if self.noting {
            return remove_noted(&mut self.slots, &mut self.notes, key);
        }
        self.slots.remove(key);
        Ok(())
    }

    /// The value of a key changes, if there is one. Where memory is refused, nothing does.
    pub fn edit<E: Edit<X, U>>(&mut self, key: &K, edit: E) -> Result<(), AllocError>
        ensures ok { OnOk result (Changes (λ entries. change K.cmp entries key.now (E.after edit)) self.old self.new) }
        ensures err { OnErr result (self.new ≡ self.old) }
    {
        if self.noting {
            return edit_noted(&mut self.slots, &mut self.notes, key, edit);
        }
        self.slots.edit(key, edit)
    }

    /// From now on changes are noted.
    pub fn begin(&mut self)
        ensures now { self.new.now ≡ self.old.now }
        ensures before { self.new.before ≡ self.old.now }
        ensures noting { self.new.noting ≡ true }
    {
        settle_all(&mut self.slots, &mut self.notes);
        self.noting = true;
    }

    /// The changes stay, and no more are noted.
    pub fn settle(&mut self)
        ensures now { self.new.now ≡ self.old.now }
        ensures noting { self.new.noting ≡ false }
    {
        settle_all(&mut self.slots, &mut self.notes);
        self.noting = false;
    }

    /// The entries are again as they were when noting began, and changes are not noted any more.
    pub fn take_back(&mut self)
        ensures now { self.new.now ≡ self.old.before }
        ensures noting { self.new.noting ≡ false }
    {
        undo_all(&mut self.slots, &mut self.notes);
        self.noting = false;
    }
}

/// Notes a change, for which there is room.
fn note<K: Drop, X: Drop, U: Undo<X>>(notes: &mut Vec<(K, Note<X, U>)>, key: K, was: Note<X, U>)
    requires { vec_len notes.old < vec_capacity notes.old }
    ensures { notes.new.items ≡ notes.old.items ++ (key, was) ∷ [] }
{
    match notes.push((key, was)) {
        Ok(()) => {}
        Err(_) => unreachable!(),
    }
}

/// The note of what a place held, if there was one.
fn note_of<X, U>(was: Option<Option<X>>) -> Note<X, U>
    ensures { result ≡ place_note was }
{
    match was {
        Some(held) => Note::Was(held),
        None => Note::Came,
    }
}

/// A value for a key, noted.
fn put_noted<K: Key, X: Drop, U: Undo<X>>(
    slots: &mut Slots<K, X>,
    notes: &mut Vec<(K, Note<X, U>)>,
    key: K,
    value: X,
) -> Result<(), AllocError>
    ensures ok { OnOk result (live slots.new ≡ put K.cmp (live slots.old) key value) }
    ensures before { OnOk result (undone K.cmp U.back notes.new.items slots.new
        ≡ undone K.cmp U.back notes.old.items slots.old) }
    ensures err { OnErr result ((slots.new ≡ slots.old) × (notes.new.items ≡ notes.old.items)) }
{
    notes.reserve(1)?;
    let again = key.again();
    let was = slots.put(key, value)?;
    note(notes, again, note_of(was));
    Ok(())
}

/// An entry goes, noted: its place stays, empty.
fn remove_noted<K: Key, X: Drop, U: Undo<X>>(
    slots: &mut Slots<K, X>,
    notes: &mut Vec<(K, Note<X, U>)>,
    key: &K,
) -> Result<(), AllocError>
    ensures ok { OnOk result (live slots.new ≡ without K.cmp (live slots.old) key.now) }
    ensures before { OnOk result (undone K.cmp U.back notes.new.items slots.new
        ≡ undone K.cmp U.back notes.old.items slots.old) }
    ensures err { OnErr result ((slots.new ≡ slots.old) × (notes.new.items ≡ notes.old.items)) }
{
    notes.reserve(1)?;
    let was = slots.write(key, None);
    note(notes, key.again(), note_of(was));
    Ok(())
}

/// A value changes, noted.
fn edit_noted<K: Key, X: Drop, U: Undo<X>, E: Edit<X, U>>(
    slots: &mut Slots<K, X>,
    notes: &mut Vec<(K, Note<X, U>)>,
    key: &K,
    edit: E,
) -> Result<(), AllocError>
    ensures ok { OnOk result (live slots.new ≡ change K.cmp (live slots.old) key.now (E.after edit)) }
    ensures before { OnOk result (undone K.cmp U.back notes.new.items slots.new
        ≡ undone K.cmp U.back notes.old.items slots.old) }
    ensures err { OnErr result ((slots.new ≡ slots.old) × (notes.new.items ≡ notes.old.items)) }
{
    notes.reserve(1)?;
    if let Some(undo) = slots.edit_noted(key, edit)? {
        note(notes, key.again(), Note::Part(undo));
    }
    Ok(())
}

/// Takes one change back.
fn undo<K: Key, X: Drop, U: Undo<X>>(slots: &mut Slots<K, X>, key: &K, was: Note<X, U>)
    ensures { slots.new ≡ undo_at K.cmp U.back key.now was slots.old }
{
    match was {
        Note::Came => slots.remove(key),
        Note::Was(held) => {
            let _ = slots.write(key, held);
        }
        Note::Part(part) => slots.undo(key, part),
    }
}

/// Takes all changes back, the newest first.
fn undo_all<K: Key, X: Drop, U: Undo<X>>(slots: &mut Slots<K, X>, notes: &mut Vec<(K, Note<X, U>)>)
    ensures now { slots.new ≡ undone K.cmp U.back notes.old.items slots.old }
    ensures empty { notes.new.items ≡ [] }
{
    while let Some((key, was)) = notes.pop() {
        undo(slots, &key, was);
    }
}

/// The notes go, and with them the empty places of their keys.
fn settle_all<K: Key, X: Drop, U: Undo<X>>(
    slots: &mut Slots<K, X>,
    notes: &mut Vec<(K, Note<X, U>)>,
)
    ensures now { live slots.new ≡ live slots.old }
    ensures empty { notes.new.items ≡ [] }
{
    if slots.has_empty() {
        sweep(slots, notes);
    } else {
        notes.clear();
    }
}

/// The empty places of the keys that were noted go, and the notes.
fn sweep<K: Key, X: Drop, U: Undo<X>>(slots: &mut Slots<K, X>, notes: &mut Vec<(K, Note<X, U>)>)
    ensures now { live slots.new ≡ live slots.old }
    ensures empty { notes.new.items ≡ [] }
{
    while let Some((key, _)) = notes.pop() {
        slots.sweep(&key);
    }
}
