//! The start rectangles of the client's room.

ghost use Rattle.std.specs.Prelude.{◌≡◌, [], OnOk, OnErr, IfOk, length};
ghost use Rattle.line_words.specs.Table.{at_number, put_number, without_number};

use room_lists::Rect;
use std::alloc::{AllocError, Global};
use std::collections::BTreeMap;
use std::marker::Model;

/// Start rectangles by ally number.
#[derive(Drop)]
pub(crate) struct Rects {
    by_ally: BTreeMap<u8, Rect>,
}

impl Model for Rects {
    ghost use Rattle.line_words.specs.Table.{ByNumber};
    ghost use Rattle.room_lists.specs.Room as room;

    ghost Value = { ByNumber room.Rect };

    ghost view = { λ r. r.by_ally.entries };
}

impl Rects {
    /// No rectangles. It takes no memory yet.
    pub(crate) fn new(alloc: Global) -> Rects
        ensures { result ≡ [] }
    {
        Rects {
            by_ally: BTreeMap::new(alloc),
        }
    }

    /// A copy. Fails only where memory is refused.
    pub(crate) fn copy(&self) -> Result<Rects, AllocError>
        ensures { IfOk result (λ copy. copy ≡ self.now) }
    {
        Ok(Rects {
            by_ally: self.by_ally.clone()?,
        })
    }

    /// The rectangle of an ally number, if it has one.
    pub(crate) fn at(&self, ally: u8) -> Option<Rect>
        ensures { result ≡ at_number self.now ally }
    {
        self.by_ally.get(&ally).copied()
    }

    /// How many ally numbers have one.
    pub(crate) fn len(&self) -> usize
        ensures { result ≡ length self.now }
    {
        self.by_ally.len()
    }

    /// A rectangle for an ally number. Where memory is refused, nothing changes.
    pub(crate) fn put(&mut self, ally: u8, rect: Rect) -> Result<(), AllocError>
        ensures ok { OnOk result (self.new ≡ put_number self.old ally rect) }
        ensures err { OnErr result (self.new ≡ self.old) }
    {
        self.by_ally.insert(ally, rect)?;
        Ok(())
    }

    /// No rectangle for an ally number.
    pub(crate) fn remove(&mut self, ally: u8)
        ensures { self.new ≡ without_number self.old ally }
    {
        // Its contract says that the numbers rise, which the proof wants of the map as it was.
        let _ = self.by_ally.len();
        let _ = self.by_ally.remove(&ally);
    }
}
