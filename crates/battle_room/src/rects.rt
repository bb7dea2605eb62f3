//! The start rectangles of a room.

ghost use Rattle.std.specs.Prelude.{◌≡◌, ◌<◌, []};
ghost use Rattle.line_words.specs.Table.{at_number, put_number, without_number};
ghost use Rattle.battle_room.specs.Places.{numbered};

use room_lists::Rect;
use std::marker::Model;

/// How many ally numbers there are: 0 to 15.
pub const ALLY_COUNT: usize = 16;

/// A place for a rectangle for each ally number.
#[derive(Drop)]
pub(crate) struct Rects {
    places: [Option<Rect>; ALLY_COUNT],
}

impl Model for Rects {
    ghost use Rattle.line_words.specs.Table.{ByNumber};
    ghost use Rattle.room_lists.specs.Room as room;
    ghost use Rattle.battle_room.specs.Places.{numbered};

    ghost Value = { ByNumber room.Rect };

    ghost view = { λ r. numbered 0 r.places };
}

impl Rects {
    /// No rectangles.
    pub(crate) fn new() -> Rects
        ensures { result ≡ [] }
    {
        Rects {
            places: [None; ALLY_COUNT],
        }
    }

    /// The rectangle of an ally number.
    pub(crate) fn at(&self, ally: u8) -> Option<Rect>
        requires { ally < 16 }
        ensures { result ≡ at_number self.now ally }
    {
        self.places[usize::from(ally)]
    }

    /// The places of all ally numbers, in their order.
    pub(crate) fn places(&self) -> &[Option<Rect>; ALLY_COUNT]
        ensures { self.now ≡ numbered 0 result.now }
    {
        &self.places
    }

    /// A rectangle for an ally number.
    pub(crate) fn put(&mut self, ally: u8, rect: Rect)
        requires { ally < 16 }
        ensures { self.new ≡ put_number self.old ally rect }
    {
        self.places[usize::from(ally)] = Some(rect);
    }

    /// No rectangle for an ally number.
    pub(crate) fn remove(&mut self, ally: u8)
        requires { ally < 16 }
        ensures { self.new ≡ without_number self.old ally }
    {
        self.places[usize::from(ally)] = None;
    }
}
