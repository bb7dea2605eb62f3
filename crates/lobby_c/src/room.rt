//! The tables of the room that the client is in.

ghost use Rattle.std.specs.Prelude.{◌≡◌, None, IfSome};
ghost use Rattle.std.specs.Option.{option_map};
ghost use Rattle.line_words.specs.Table.{at_number};
ghost use Rattle.lobby_lines.specs.Answers.{lent, ok, not_there, ShowsIf};
ghost use Rattle.lobby_lines.specs.Layout.{place, itself};
ghost use Rattle.lobby_lines.specs.Rows.{member_row, member_shown, bot_row, bot_shown, tag_row, tag_shown, rect_row};
ghost use Rattle.lobby_c.specs.Slot.{content, IsFull};

use crate::slot::Slot;
use lobby_lines::{BotRow, MemberRow, NOT_THERE, OK, Place, RectRow, Size, Table, TagRow, answer};
use std::alloc::Global;

/// The number of the battle that the client is in: `OK`. `NOT_THERE`, and then `battle` stays as it was.
#[unsafe(no_mangle)]
pub extern "C" fn lobby_view_room(alloc: Global, view: &mut Slot, battle: &mut u32) -> u32
    requires { IsFull view.old.held }
    ensures there { IfSome (content view.old.held).known.own (λ own. (result ≡ ok) × (battle.new ≡ own.battle)) }
    ensures none { (content view.old.held).known.own ≡ None → (result ≡ not_there) × (battle.new ≡ battle.old) }
    ensures same { view.new.held ≡ view.old.held }
{
    let opened = view.take().open(alloc);
    let status = match opened.room() {
        Some(room) => {
            *battle = room.battle();
            OK
        }
        None => NOT_THERE,
    };
    *view = Slot::close(opened);
    status
}

/// The start rectangle of an ally number, 0 to 15: `OK`. `NOT_THERE`, and then `rect` stays as it was.
#[unsafe(no_mangle)]
pub extern "C" fn lobby_view_room_rect(
    alloc: Global,
    view: &mut Slot,
    ally: u8,
    rect: &mut RectRow,
) -> u32
    requires { IsFull view.old.held }
    ensures there { IfSome (content view.old.held).known.own (λ own.
        IfSome (at_number own.room.rects ally) (λ found. (result ≡ ok) × (rect.new ≡ rect_row found))) }
    ensures none { IfSome (content view.old.held).known.own (λ own. at_number own.room.rects ally ≡ None
        → (result ≡ not_there) × (rect.new ≡ rect.old)) }
    ensures no_room { (content view.old.held).known.own ≡ None → (result ≡ not_there) × (rect.new ≡ rect.old) }
    ensures same { view.new.held ≡ view.old.held }
{
    let opened = view.take().open(alloc);
    let status = match opened.room().and_then(|room| room.rect_at(ally)) {
        Some(found) => {
            *rect = RectRow::of(found);
            OK
        }
        None => NOT_THERE,
    };
    *view = Slot::close(opened);
    status
}

/// The members of the own room, in order of joining. `NOT_THERE` where there is no own room, as with each table of it.
#[unsafe(no_mangle)]
pub extern "C" fn lobby_view_room_members(
    alloc: Global,
    view: &mut Slot,
    rows: &mut [MemberRow],
    text: &mut [u8],
    size: &mut Size,
) -> u32
    requires { IsFull view.old.held }
    ensures shown { ShowsIf member_row member_shown (option_map (λ own.
        own.room.members) (content view.old.held).known.own) result (lent rows.old text.old size.old)
        (lent rows.new text.new size.new) }
    ensures same { view.new.held ≡ view.old.held }
{
    let opened = view.take().open(alloc);
    let status = match opened.room() {
        Some(room) => answer(Table::of(alloc, room.members()), rows, text, size),
        None => NOT_THERE,
    };
    *view = Slot::close(opened);
    status
}

/// The bots of the own room, in order of adding.
#[unsafe(no_mangle)]
pub extern "C" fn lobby_view_room_bots(
    alloc: Global,
    view: &mut Slot,
    rows: &mut [BotRow],
    text: &mut [u8],
    size: &mut Size,
) -> u32
    requires { IsFull view.old.held }
    ensures shown { ShowsIf bot_row bot_shown (option_map (λ own.
        own.room.bots) (content view.old.held).known.own) result (lent rows.old text.old size.old)
        (lent rows.new text.new size.new) }
    ensures same { view.new.held ≡ view.old.held }
{
    let opened = view.take().open(alloc);
    let status = match opened.room() {
        Some(room) => answer(Table::of(alloc, room.bots()), rows, text, size),
        None => NOT_THERE,
    };
    *view = Slot::close(opened);
    status
}

/// The script tags of the own room, in order of first setting.
#[unsafe(no_mangle)]
pub extern "C" fn lobby_view_room_tags(
    alloc: Global,
    view: &mut Slot,
    rows: &mut [TagRow],
    text: &mut [u8],
    size: &mut Size,
) -> u32
    requires { IsFull view.old.held }
    ensures shown { ShowsIf tag_row tag_shown (option_map (λ own.
        own.room.tags) (content view.old.held).known.own) result (lent rows.old text.old size.old)
        (lent rows.new text.new size.new) }
    ensures same { view.new.held ≡ view.old.held }
{
    let opened = view.take().open(alloc);
    let status = match opened.room() {
        Some(room) => answer(Table::of(alloc, room.tags()), rows, text, size),
        None => NOT_THERE,
    };
    *view = Slot::close(opened);
    status
}

/// The disabled units of the own room, in order of first disabling.
#[unsafe(no_mangle)]
pub extern "C" fn lobby_view_room_units(
    alloc: Global,
    view: &mut Slot,
    rows: &mut [Place],
    text: &mut [u8],
    size: &mut Size,
) -> u32
    requires { IsFull view.old.held }
    ensures shown { ShowsIf place itself (option_map (λ own.
        own.room.units) (content view.old.held).known.own) result (lent rows.old text.old size.old)
        (lent rows.new text.new size.new) }
    ensures same { view.new.held ≡ view.old.held }
{
    let opened = view.take().open(alloc);
    let status = match opened.room() {
        Some(room) => answer(Table::of(alloc, room.units()), rows, text, size),
        None => NOT_THERE,
    };
    *view = Slot::close(opened);
    status
}
