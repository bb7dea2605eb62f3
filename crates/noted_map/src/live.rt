//! A walk over the entries of a map in slots, which leaves the empty ones out.

ghost use Rattle.std.specs.Prelude.{◌≡◌, length};
ghost use Rattle.std.specs.Iterator.{at_most};
ghost use Rattle.std.specs.Map.Iter.{TakesFirst, deref_pair};
ghost use Rattle.noted_map.specs.Slots.{live};

use std::collections::btree_map::Iter;
use std::marker::Model;

/// The entries that are left, in the order of their keys.
#[derive(Drop)]
pub struct Live<'a, K, X> {
    slots: Iter<'a, K, Option<X>>,
}

impl<'a, K, X> Model for Live<'a, K, X> {
    ghost use Rattle.std.specs.Prelude.{List};
    ghost use Rattle.std.specs.Coded.{coded_list, coded×};
    ghost use Rattle.noted_map.specs.Slots.{live};

    ghost Value = { List (K × X) };

    ghost coded = { coded_list (coded× K.code X.code) };

    ghost view = { λ l. live l.slots };
}

impl<'a, K, X> Live<'a, K, X> {
    /// Of slots that are walked.
    pub(crate) fn of(slots: Iter<'a, K, Option<X>>) -> Live<'a, K, X>
        ensures { result ≡ live slots.entry }
    {
        Live { slots }
    }
}

impl<'a, K, X> Iterator for Live<'a, K, X> {
    type Item = (&'a K, &'a X);

    ghost next_gives = { TakesFirst deref_pair };

    ghost remaining = { λ s. at_most (length s) };

    fn next(&mut self) -> Option<(&'a K, &'a X)> {
        while let Some((key, slot)) = self.slots.next() {
            if let Some(value) = slot {
                return Some((key, value));
            }
        }
        None
    }
}
