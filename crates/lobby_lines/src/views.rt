//! The tables of what a view lends by key.

ghost use Rattle.std.specs.Prelude.{◌≡◌, IfOk, [], ◌∷◌};
ghost use Rattle.std.specs.Map.{keys_of};
ghost use Rattle.lobby_lines.specs.Layout.{place, itself, IsTable};
ghost use Rattle.lobby_lines.specs.Rows.{user_row, user_shown, battle_row, battle_shown};

use crate::rows::{BattleRow, UserRow, put_battle, put_user};
use crate::table::{Place, Table, put_text};
use client_view::{Battles, Channels, Users};
use std::alloc::{AllocError, Global};

/// The users, in the order of the bytes of their names.
#[tactic(auto, using(crate::proofs::Laying::none))]
pub fn user_table(alloc: Global, users: &Users<'_>) -> Result<Table<UserRow>, AllocError>
    ensures { IfOk result (λ table. IsTable user_row user_shown users.now table.rows.items table.text.items) }
{
    let mut rows = Vec::new(alloc);
    let mut text = Vec::new(alloc);
    for (name, user) in users.iter() {
        let row = put_user(&mut text, name, user)?;
        rows.push(row)?;
    }
    Ok(Table { rows, text })
}

/// The battles, in the order of their numbers.
#[tactic(auto, using(crate::proofs::Laying::none))]
pub fn battle_table(alloc: Global, battles: &Battles<'_>) -> Result<Table<BattleRow>, AllocError>
    ensures { IfOk result (λ table. IsTable battle_row battle_shown battles.now table.rows.items table.text.items) }
{
    let mut rows = Vec::new(alloc);
    let mut text = Vec::new(alloc);
    for (number, battle) in battles.iter() {
        let row = put_battle(&mut text, *number, battle)?;
        rows.push(row)?;
    }
    Ok(Table { rows, text })
}

/// The names of channels, in the order of their bytes.
#[tactic(auto, using(crate::proofs::Laying::none))]
pub fn channel_table(alloc: Global, channels: &Channels<'_>) -> Result<Table<Place>, AllocError>
    ensures { IfOk result (λ table. IsTable place itself (keys_of channels.now) table.rows.items table.text.items) }
{
    let mut rows = Vec::new(alloc);
    let mut text = Vec::new(alloc);
    for k in 0..channels.len() {
        if let Some(name) = channels.name_at(k) {
            let row = put_text(&mut text, name.as_slice())?;
            rows.push(row)?;
        }
    }
    Ok(Table { rows, text })
}

/// One text alone.
pub fn text_table(alloc: Global, bytes: &[u8]) -> Result<Table<Place>, AllocError>
    ensures { IfOk result (λ table. IsTable place itself (bytes.now ∷ []) table.rows.items table.text.items) }
{
    let mut rows = Vec::new(alloc);
    let mut text = Vec::new(alloc);
    let row = put_text(&mut text, bytes)?;
    rows.push(row)?;
    Ok(Table { rows, text })
}
