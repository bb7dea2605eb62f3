//! A view behind a pointer that C keeps.

ghost use Rattle.std.specs.Prelude.{◌≡◌, Option, Some, None};
ghost use Rattle.std.specs.Coded.{coded_option};
ghost use Rattle.client_view.specs.contracts.view.View.{the_row as View-row};
ghost use Rattle.lobby_c.specs.Slot.{heap-token, slot_owns, content, IsFull};

use client_view::View;
use std::alloc::Global;
use std::marker::Model;

/// A place for a view, which C declares as a struct of one pointer: empty, or a pointer to a view on the heap,
/// which it owns. `held` says what is in it, and no bytes at run time.
#[repr(C)]
#[derive(Drop)]
pub struct Slot {
    at: *mut u8,
    pub ghost held: { Option View-row.Denot } by { coded_option View-row.coded },
}

impl Model for Slot {
    ghost also_owns = { λ s. slot_owns heap-token View-row s.at s.held };
}

impl Slot {
    /// Takes what the slot holds, and leaves it empty.
    pub(crate) fn take(&mut self) -> Slot
        ensures { (result.held ≡ self.old.held) × (self.new.held ≡ None) }
    {
        let at = self.at;
        Slot { at }
    }

    /// A slot that holds the view.
    pub(crate) fn close(view: Box<View>) -> Slot
        ensures { result.held ≡ Some view.value }
    {
        let at = Box::into_raw(view);
        Slot { at: at as *mut u8 }
    }

    /// The view that the slot held.
    pub(crate) fn open(self, alloc: Global) -> Box<View>
        requires { IsFull self.held }
        ensures { result.value ≡ content self.held }
    {
        let Slot { at } = self;
        unsafe { Box::from_raw(alloc, at as *mut View) }
    }
}
