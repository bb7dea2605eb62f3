//! A start rectangle.

use std::marker::Model;

/// Where the teams of an ally number may start (`ADDSTARTRECT`), in two-hundredths of the map's width and
/// height: each side is 0 to 200 in the protocol, which is not checked here.
#[derive(Clone, Copy, PartialEq, Eq, Debug)]
pub struct Rect {
    pub left: u8,
    pub top: u8,
    pub right: u8,
    pub bottom: u8,
}

impl Model for Rect {
    ghost use Rattle.room_lists.specs.Room as room;

    ghost Value = { room.Rect };

    ghost view = { λ r. record { left = r.left; top = r.top; right = r.right; bottom = r.bottom } };

    ghost inverse = { λ r. record { left = r.left; top = r.top; right = r.right; bottom = r.bottom } };
}
