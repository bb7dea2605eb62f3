//! The places of a map: each holds a value, or is empty.

ghost use Rattle.std.specs.Prelude.{◌≡◌, ◌+◌, ◌<◌, ◌≤◌, ◌^◌, OnOk, OnErr, IfOk, MatchOption, None, Some};
ghost use Rattle.std.specs.Prelude.{if◌then◌else◌, length};
ghost use Rattle.std.specs.Option.{option_map};
ghost use Rattle.std.specs.List.Sorted.{IsStrictlySortedBy};
ghost use Rattle.std.specs.Map.{keys_of};
ghost use Rattle.line_words.specs.Table.{at, put, without, change};
ghost use Rattle.noted_map.specs.Slots.{live, one, one_in, coming};

use crate::key::Key;
use crate::note::{Edit, Undo};
use std::alloc::{AllocError, Global};
use std::collections::BTreeMap;
use std::mem::replace;

/// The places by their keys.
pub(crate) type Places<K, X> = BTreeMap<K, Option<X>, Global>;

/// A place with a value, in place of the one of the key. Gives what that held, if there was one. Where memory is
/// refused, nothing changes.
pub(crate) fn put_at<K: Key, X: Drop>(
    places: &mut Places<K, X>,
    key: K,
    value: X,
) -> Result<Option<Option<X>>, AllocError>
    ensures was { IfOk result (λ was. was ≡ at K.cmp places.old.entries key) }
    ensures ok { OnOk result (places.new.entries ≡ put K.cmp places.old.entries key (Some value)) }
    ensures count { IfOk result (λ was. length (live places.new.entries) + one_in was
        ≡ length (live places.old.entries) + 1) }
    ensures err { OnErr result (places.new.entries ≡ places.old.entries) }
    ensures ordered { IsStrictlySortedBy K.cmp (keys_of places.old.entries) }
    ensures small { length (live places.old.entries) < 2 ^ 63 }
{
    let _ = places.len();
    Ok(places.insert(key, Some(value))?)
}

/// A place goes. Gives what it held, if there was one.
pub(crate) fn remove_at<K: Key, X: Drop>(places: &mut Places<K, X>, key: &K) -> Option<Option<X>>
    ensures now { places.new.entries ≡ without K.cmp places.old.entries key.now }
    ensures count { length (live places.new.entries) + one_in result ≡ length (live places.old.entries) }
{
    let _ = places.len();
    places.remove(key)
}

/// A place holds another value, or none. Where there is no place of the key, nothing changes. Gives what it held.
pub(crate) fn write_at<K: Key, X: Drop>(
    places: &mut Places<K, X>,
    key: &K,
    held: Option<X>,
) -> Option<Option<X>>
    ensures was { result ≡ at K.cmp places.old.entries key.now }
    ensures now { places.new.entries ≡ change K.cmp places.old.entries key.now (λ _. held) }
    ensures count { length (live places.new.entries) + one_in result
        ≡ length (live places.old.entries) + coming result (one held) }
    ensures ordered { IsStrictlySortedBy K.cmp (keys_of places.old.entries) }
    ensures small { length (live places.old.entries) < 2 ^ 63 }
{
    let _ = places.len();
    match places.get_mut(key) {
        Some(place) => Some(replace(place, held)),
        None => None,
    }
}

/// What a place holds changes. Where memory is refused, nothing does.
pub(crate) fn edit_at<K: Key, X, U: Undo<X>, E: Edit<X, U>>(
    places: &mut Places<K, X>,
    key: &K,
    edit: E,
) -> Result<(), AllocError>
    ensures ok { OnOk result (places.new.entries
        ≡ change K.cmp places.old.entries key.now (option_map (E.after edit))) }
    ensures err { OnErr result (places.new.entries ≡ places.old.entries) }
{
    match places.get_mut(key) {
        Some(place) => edit_held(place, edit),
        None => Ok(()),
    }
}

/// What a place holds changes, and what undoes that is given. Where memory is refused, nothing changes.
pub(crate) fn edit_at_noted<K: Key, X, U: Undo<X>, E: Edit<X, U>>(
    places: &mut Places<K, X>,
    key: &K,
    edit: E,
) -> Result<Option<U>, AllocError>
    ensures ok { OnOk result (places.new.entries
        ≡ change K.cmp places.old.entries key.now (option_map (E.after edit))) }
    ensures undone { IfOk result (λ undo.
        MatchOption undo (places.new.entries ≡ places.old.entries) (λ it.
        change K.cmp places.new.entries key.now (option_map (U.back it)) ≡ places.old.entries)) }
    ensures err { OnErr result (places.new.entries ≡ places.old.entries) }
{
    match places.get_mut(key) {
        Some(place) => edit_held_noted(place, edit),
        None => Ok(None),
    }
}

/// What a place holds is what it was before a change.
pub(crate) fn undo_at<K: Key, X, U: Undo<X>>(places: &mut Places<K, X>, key: &K, undo: U)
    ensures { places.new.entries ≡ change K.cmp places.old.entries key.now (option_map (U.back undo)) }
{
    match places.get_mut(key) {
        Some(place) => undo_held(place, undo),
        None => {}
    }
}

/// What a place holds changes.
fn edit_held<X, U: Undo<X>, E: Edit<X, U>>(place: &mut Option<X>, edit: E) -> Result<(), AllocError>
    ensures ok { OnOk result (place.new ≡ option_map (E.after edit) place.old) }
    ensures err { OnErr result (place.new ≡ place.old) }
{
    if let Some(value) = place {
        edit.make(value)?;
    }
    Ok(())
}

/// What a place holds changes, and what undoes that is given.
fn edit_held_noted<X, U: Undo<X>, E: Edit<X, U>>(
    place: &mut Option<X>,
    edit: E,
) -> Result<Option<U>, AllocError>
    ensures ok { OnOk result (place.new ≡ option_map (E.after edit) place.old) }
    ensures undone { IfOk result (λ undo.
        MatchOption undo (place.new ≡ place.old) (λ it. option_map (U.back it) place.new ≡ place.old)) }
    ensures err { OnErr result (place.new ≡ place.old) }
{
    match place {
        Some(value) => Ok(Some(edit.make_noted(value)?)),
        None => Ok(None),
    }
}

/// What a place holds is what it was before a change.
fn undo_held<X, U: Undo<X>>(place: &mut Option<X>, undo: U)
    ensures { place.new ≡ option_map (U.back undo) place.old }
{
    if let Some(value) = place {
        undo.undo(value);
    }
}

/// How many values there are: one or none.
pub(crate) fn one_of<X>(held: &Option<X>) -> usize
    ensures value { result ≡ one held.now }
    ensures most { result ≤ 1 }
{
    match held {
        Some(_) => 1,
        None => 0,
    }
}

/// How many values a place held, if there was one: one or none.
pub(crate) fn one_of_place<X>(was: &Option<Option<X>>) -> usize
    ensures value { result ≡ one_in was.now }
    ensures most { result ≤ 1 }
{
    match was {
        Some(held) => one_of(held),
        None => 0,
    }
}

/// How many values come to a place, if there was one, that is to hold so many.
pub(crate) fn coming_to<X>(was: &Option<Option<X>>, more: usize) -> usize
    requires { more ≤ 1 }
    ensures value { result ≡ coming was.now more }
    ensures most { result ≤ 1 }
{
    match was {
        Some(_) => more,
        None => 0,
    }
}
