//! The tables of what all see, and of the client's channels.

ghost use Rattle.std.specs.Prelude.{◌≡◌, [], ◌∷◌, Option, Some, None, true, false};
ghost use Rattle.std.specs.Map.{keys_of};
ghost use Rattle.std.specs.Option.{option_map};
ghost use Rattle.line_words.specs.Bytes.{is_name};
ghost use Rattle.line_words.specs.Table.{at_name, at_number};
ghost use Rattle.lobby_lines.specs.Answers.{lent, Shows, ShowsIf};
ghost use Rattle.lobby_lines.specs.Layout.{place, itself};
ghost use Rattle.lobby_lines.specs.Rows.{user_row, user_shown, battle_row, battle_shown};
ghost use Rattle.lobby_c.specs.Slot.{content, IsFull};

use crate::slot::Slot;
use client_view::View;
use line_words::NameBuf;
use lobby_lines::{
    BattleRow, NOT_THERE, Place, Size, Table, UserRow, answer, battle_table, channel_table,
    text_table, user_table,
};
use std::alloc::Global;

/// The name under which the client is logged in: one row, whose text is empty before a login.
#[unsafe(no_mangle)]
pub extern "C" fn lobby_view_me(
    alloc: Global,
    view: &mut Slot,
    rows: &mut [Place],
    text: &mut [u8],
    size: &mut Size,
) -> u32
    requires { IsFull view.old.held }
    ensures shown { Shows place itself ((content view.old.held).known.me
        ∷ []) result (lent rows.old text.old size.old) (lent rows.new text.new size.new) }
    ensures same { view.new.held ≡ view.old.held }
{
    let opened = view.take().open(alloc);
    let status = answer(text_table(alloc, own_name(&opened)), rows, text, size);
    *view = Slot::close(opened);
    status
}

/// The users who are logged in, in the order of the bytes of their names.
#[unsafe(no_mangle)]
pub extern "C" fn lobby_view_users(
    alloc: Global,
    view: &mut Slot,
    rows: &mut [UserRow],
    text: &mut [u8],
    size: &mut Size,
) -> u32
    requires { IsFull view.old.held }
    ensures shown { Shows user_row user_shown (content view.old.held).known.users result
        (lent rows.old text.old size.old) (lent rows.new text.new size.new) }
    ensures same { view.new.held ≡ view.old.held }
{
    let opened = view.take().open(alloc);
    let status = answer(user_table(alloc, &opened.users()), rows, text, size);
    *view = Slot::close(opened);
    status
}

/// The battles, in the order of their numbers.
#[unsafe(no_mangle)]
pub extern "C" fn lobby_view_battles(
    alloc: Global,
    view: &mut Slot,
    rows: &mut [BattleRow],
    text: &mut [u8],
    size: &mut Size,
) -> u32
    requires { IsFull view.old.held }
    ensures shown { Shows battle_row battle_shown (content view.old.held).known.battles result
        (lent rows.old text.old size.old) (lent rows.new text.new size.new) }
    ensures same { view.new.held ≡ view.old.held }
{
    let opened = view.take().open(alloc);
    let status = answer(battle_table(alloc, &opened.battles()), rows, text, size);
    *view = Slot::close(opened);
    status
}

/// The names of a battle's members, in order of joining. `NOT_THERE` where there is no battle of the number.
#[unsafe(no_mangle)]
pub extern "C" fn lobby_view_battle_members(
    alloc: Global,
    view: &mut Slot,
    battle: u32,
    rows: &mut [Place],
    text: &mut [u8],
    size: &mut Size,
) -> u32
    requires { IsFull view.old.held }
    ensures shown { ShowsIf place itself (option_map (λ b.
        b.members) (at_number (content view.old.held).known.battles battle)) result (lent rows.old text.old size.old)
        (lent rows.new text.new size.new) }
    ensures same { view.new.held ≡ view.old.held }
{
    let opened = view.take().open(alloc);
    let status = match opened.battles().get(&battle) {
        Some(found) => answer(Table::of(alloc, found.members()), rows, text, size),
        None => NOT_THERE,
    };
    *view = Slot::close(opened);
    status
}

/// The names of the channels that the client is in, in the order of their bytes.
#[unsafe(no_mangle)]
pub extern "C" fn lobby_view_channels(
    alloc: Global,
    view: &mut Slot,
    rows: &mut [Place],
    text: &mut [u8],
    size: &mut Size,
) -> u32
    requires { IsFull view.old.held }
    ensures shown { Shows place itself (keys_of (content view.old.held).known.channels) result
        (lent rows.old text.old size.old) (lent rows.new text.new size.new) }
    ensures same { view.new.held ≡ view.old.held }
{
    let opened = view.take().open(alloc);
    let status = answer(channel_table(alloc, &opened.channels()), rows, text, size);
    *view = Slot::close(opened);
    status
}

/// The names of a channel's members, in order of joining. `NOT_THERE` where the client is in no channel of the name,
/// which is so where the bytes are no name.
#[unsafe(no_mangle)]
pub extern "C" fn lobby_view_channel_members(
    alloc: Global,
    view: &mut Slot,
    channel: &[u8],
    rows: &mut [Place],
    text: &mut [u8],
    size: &mut Size,
) -> u32
    requires { IsFull view.old.held }
    ensures shown { is_name channel.now ≡ true
        → ShowsIf place itself (at_name (content view.old.held).known.channels channel.now) result
        (lent rows.old text.old size.old) (lent rows.new text.new size.new) }
    ensures no_name { is_name channel.now ≡ false
        → ShowsIf place itself None result (lent rows.old text.old size.old) (lent rows.new text.new size.new) }
    ensures same { view.new.held ≡ view.old.held }
{
    let Some(name) = NameBuf::of(channel) else {
        return NOT_THERE;
    };
    let opened = view.take().open(alloc);
    let status = match opened.channels().get(&name) {
        Some(members) => answer(Table::of(alloc, members), rows, text, size),
        None => NOT_THERE,
    };
    *view = Slot::close(opened);
    status
}

/// The own name, no bytes before a login.
fn own_name(view: &View) -> &[u8]
    ensures { result.now ≡ view.now.known.me }
{
    match view.me() {
        Some(name) => name,
        None => &[],
    }
}
