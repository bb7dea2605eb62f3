//! The entries of a map, lent.

ghost use Rattle.std.specs.Prelude.{◌≡◌, ◌<◌, ◌^◌, length, option_copied};
ghost use Rattle.std.specs.List.Sorted.{IsStrictlySortedBy};
ghost use Rattle.std.specs.Map.{keys_of};
ghost use Rattle.std.specs.Map.Iter.{ShowsInOrder, deref_pair};
ghost use Rattle.line_words.specs.Table.{at};
ghost use Rattle.noted_map.specs.Slots.{live};

use crate::key::Key;
use crate::live::Live;
use crate::slots::Slots;
use std::marker::Model;

/// The entries of a map, in the order of their keys, for as long as the map is lent.
#[derive(Drop)]
pub struct Entries<'a, K: Key, X> {
    slots: &'a Slots<K, X>,
}

impl<'a, K: Key, X> Model for Entries<'a, K, X> {
    ghost use Rattle.std.specs.Prelude.{List};
    ghost use Rattle.std.specs.Coded.{coded_list, coded×};
    ghost use Rattle.noted_map.specs.Slots.{live};

    ghost Value = { List (K × X) };

    ghost coded = { coded_list (coded× K.code X.code) };

    ghost view = { λ e. live e.slots.now };
}

impl<'a, K: Key, X: Drop> Entries<'a, K, X> {
    /// Of slots that are lent.
    pub(crate) fn of(slots: &'a Slots<K, X>) -> Entries<'a, K, X>
        ensures { result ≡ live slots.now }
    {
        Entries { slots }
    }

    /// The value of a key, if there is one.
    pub fn get(&self, key: &K) -> Option<&'a X>
        ensures { option_copied result ≡ at K.cmp self.now key.now }
    {
        self.slots.get(key)
    }

    /// How many entries there are.
    pub fn len(&self) -> usize
        ensures { result ≡ length self.now }
    {
        self.slots.len()
    }

    /// The keys and their values, in the order of the keys.
    pub fn iter(&self) -> Live<'a, K, X>
        ensures rest { result ≡ self.now }
        ensures runs { ShowsInOrder (deref_pair {K = K} {X = X}) }
        ensures ordered { IsStrictlySortedBy K.cmp (keys_of self.now) }
        ensures fits { length self.now < 2 ^ 63 }
    {
        self.slots.iter()
    }
}
