//! The places of a map, and how many hold a value.

ghost use Rattle.std.specs.Prelude.{◌≡◌, ◌<◌, ◌^◌, [], OnOk, OnErr, IfOk, MatchOption, None, Some, length};
ghost use Rattle.std.specs.Prelude.{option_copied};
ghost use Rattle.std.specs.Option.{option_map};
ghost use Rattle.std.specs.List.Sorted.{IsStrictlySortedBy};
ghost use Rattle.std.specs.Map.{keys_of};
ghost use Rattle.std.specs.Map.Iter.{ShowsInOrder, deref_pair};
ghost use Rattle.line_words.specs.Table.{at, put, without, change};
ghost use Rattle.noted_map.specs.Slots.{live};

use crate::key::Key;
use crate::live::Live;
use crate::note::{Edit, Undo};
use crate::places::{
    coming_to, edit_at, edit_at_noted, one_of, one_of_place, put_at, remove_at, undo_at, write_at,
};
use std::alloc::{AllocError, Global};
use std::collections::BTreeMap;
use std::marker::Model;

/// The places by their keys.
pub(crate) struct Slots<K: Key, X> {
    places: BTreeMap<K, Option<X>>,
    // how many are not empty
    count: usize,
}

impl<K: Key, X: Drop> Drop for Slots<K, X> {
    fn drop(self) {
        let Slots { places, count: _ } = self;
        drop(places);
    }
}

impl<K: Key, X> Model for Slots<K, X> {
    ghost use Rattle.std.specs.Prelude.{List, Option, ◌≡◌, length};
    ghost use Rattle.std.specs.Coded.{coded_list, coded×, coded_option};
    ghost use Rattle.noted_map.specs.Slots.{live};

    ghost Value = { List (K × Option X) };

    ghost coded = { coded_list (coded× K.code (coded_option X.code)) };

    ghost view = { λ s. s.places.entries };

    ghost invariant = { λ s. s.count ≡ length (live s.places.entries) };
}

impl<K: Key, X: Drop> Slots<K, X> {
    /// No place. It takes no memory yet.
    pub(crate) fn new(alloc: Global) -> Slots<K, X>
        ensures { result ≡ [] }
    {
        Slots {
            places: BTreeMap::new(alloc),
            count: 0,
        }
    }

    /// What a place holds.
    pub(crate) fn get(&self, key: &K) -> Option<&X>
        ensures { option_copied result ≡ at K.cmp (live self.now) key.now }
    {
        let _ = self.places.len();
        match self.places.get(key) {
            Some(place) => place.as_ref(),
            None => None,
        }
    }

    /// How many places hold a value.
    pub(crate) fn len(&self) -> usize
        ensures { result ≡ length (live self.now) }
    {
        self.count
    }

    /// Whether a place is empty.
    pub(crate) fn has_empty(&self) -> bool {
        self.count != self.places.len()
    }

    /// What the places hold and their keys, in the order of these.
    pub(crate) fn iter(&self) -> Live<'_, K, X>
        ensures rest { result ≡ live self.now }
        ensures runs { ShowsInOrder (deref_pair {K = K} {X = X}) }
        ensures ordered { IsStrictlySortedBy K.cmp (keys_of (live self.now)) }
        ensures fits { length (live self.now) < 2 ^ 63 }
    {
        Live::of(self.places.iter())
    }

    /// A place with a value, in place of the one of the key. Gives what that held, if there was one. Where memory is
    /// refused, nothing changes.
    pub(crate) fn put(&mut self, key: K, value: X) -> Result<Option<Option<X>>, AllocError>
        ensures was { IfOk result (λ was. was ≡ at K.cmp self.old key) }
        ensures ok { OnOk result (self.new ≡ put K.cmp self.old key (Some value)) }
        ensures err { OnErr result (self.new ≡ self.old) }
        ensures ordered { IsStrictlySortedBy K.cmp (keys_of self.old) }
    {
        let was = put_at(&mut self.places, key, value)?;
        let goes = one_of_place(&was);
        self.count = self.count + 1 - goes;
        Ok(was)
    }

    /// A place goes, with what it holds.
    pub(crate) fn remove(&mut self, key: &K)
        ensures { self.new ≡ without K.cmp self.old key.now }
    {
        let was = remove_at(&mut self.places, key);
        self.count -= one_of_place(&was);
    }

    /// A place holds another value, or none. Where there is no place of the key, nothing changes. Gives what it held.
    pub(crate) fn write(&mut self, key: &K, held: Option<X>) -> Option<Option<X>>
        ensures was { result ≡ at K.cmp self.old key.now }
        ensures now { self.new ≡ change K.cmp self.old key.now (λ _. held) }
        ensures ordered { IsStrictlySortedBy K.cmp (keys_of self.old) }
    {
        let more = one_of(&held);
        let was = write_at(&mut self.places, key, held);
        let comes = coming_to(&was, more);
        let goes = one_of_place(&was);
        self.count = self.count + comes - goes;
        was
    }

    /// What a place holds changes. Where memory is refused, nothing does.
    pub(crate) fn edit<U: Undo<X>, E: Edit<X, U>>(
        &mut self,
        key: &K,
        edit: E,
    ) -> Result<(), AllocError>
        ensures ok { OnOk result (self.new ≡ change K.cmp self.old key.now (option_map (E.after edit))) }
        ensures err { OnErr result (self.new ≡ self.old) }
    {
        edit_at(&mut self.places, key, edit)
    }

    /// What a place holds changes, and what undoes that is given. Where memory is refused, nothing changes.
    pub(crate) fn edit_noted<U: Undo<X>, E: Edit<X, U>>(
        &mut self,
        key: &K,
        edit: E,
    ) -> Result<Option<U>, AllocError>
        ensures ok { OnOk result (self.new ≡ change K.cmp self.old key.now (option_map (E.after edit))) }
        ensures undone { IfOk result (λ undo.
            MatchOption undo (self.new ≡ self.old) (λ it.
            change K.cmp self.new key.now (option_map (U.back it)) ≡ self.old)) }
        ensures err { OnErr result (self.new ≡ self.old) }
    {
        edit_at_noted(&mut self.places, key, edit)
    }

    /// What a place holds is what it was before a change.
    pub(crate) fn undo<U: Undo<X>>(&mut self, key: &K, undo: U)
        ensures { self.new ≡ change K.cmp self.old key.now (option_map (U.back undo)) }
    {
        undo_at(&mut self.places, key, undo);
    }

    /// A place goes if it is empty.
    pub(crate) fn sweep(&mut self, key: &K)
        ensures { live self.new ≡ live self.old }
    {
        let _ = self.places.len();
        if let Some(None) = self.places.get(key) {
            self.remove(key);
        }
    }
}
