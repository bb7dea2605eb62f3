//! What BATTLEOPENED tells of a battle behind its number.
#![tactic(auto, using(crate::proofs::Kept::front_more, crate::proofs::Kept::front_all))]

ghost use Rattle.std.specs.Prelude.{◌≡◌, [], ◌∷◌, ◌++◌, ◌≤◌, IfOk, OnErr, decimal, if◌then◌else◌, vec_capacity};
ghost use Rattle.std.specs.Fmt.{signed_decimal};
ghost use Rattle.reply_printer.specs.Fronts.{Keeps, LacksRoom};
ghost use Rattle.reply_kinds.specs.Kinds.{all_printed};
ghost use Rattle.reply_kinds.specs.Opened.{opened_kinds, opened_values};

use crate::pieces::{
    put_flag, put_name, put_next_sentence, put_number, put_sentence, put_wide, put_word,
};
use reply_kinds::OpenedBattle;
use std::alloc::AllocError;

pub(crate) fn put_opened(out: &mut Vec<u8>, opened: &OpenedBattle) -> Result<(), AllocError>
    ensures ok { IfOk result (λ _. out.new.items
        ≡ out.old.items ++ all_printed opened_kinds (opened_values opened.now)) }
    ensures wanted { OnErr result (LacksRoom out.old (all_printed opened_kinds (opened_values opened.now))) }
    ensures kept { Keeps out.old.items out.new.items }
    ensures room { vec_capacity out.old ≤ vec_capacity out.new }
{
    put_host(out, opened)?;
    put_entry(out, opened)?;
    put_titles(out, opened)
}

/// What the battle is, and who hosts it where.
fn put_host(out: &mut Vec<u8>, opened: &OpenedBattle) -> Result<(), AllocError>
    ensures ok { IfOk result (λ _. out.new.items
        ≡ out.old.items ++ ((32 ∷ decimal opened.now.battle_type) ++ ((32 ∷ decimal opened.now.nat_type)
        ++ ((32 ∷ opened.now.founder) ++ ((32 ∷ opened.now.ip) ++ (32 ∷ decimal opened.now.port)))))) }
    ensures wanted { OnErr result (LacksRoom out.old
        ((32 ∷ decimal opened.now.battle_type) ++ ((32 ∷ decimal opened.now.nat_type)
        ++ ((32 ∷ opened.now.founder) ++ ((32 ∷ opened.now.ip) ++ (32 ∷ decimal opened.now.port)))))) }
    ensures kept { Keeps out.old.items out.new.items }
    ensures room { vec_capacity out.old ≤ vec_capacity out.new }
{
    put_number(out, u32::from(opened.battle_type))?;
    put_number(out, u32::from(opened.nat_type))?;
    put_name(out, &opened.founder)?;
    put_word(out, &opened.ip)?;
    put_number(out, u32::from(opened.port))
}

/// Who may enter, and the map as its hash.
fn put_entry(out: &mut Vec<u8>, opened: &OpenedBattle) -> Result<(), AllocError>
    ensures ok { IfOk result (λ _. out.new.items
        ≡ out.old.items ++ ((32 ∷ decimal opened.now.max_players)
        ++ ((32 ∷ (if opened.now.passworded then 49 else 48) ∷ [])
        ++ ((32 ∷ signed_decimal opened.now.rank) ++ (32 ∷ signed_decimal opened.now.map_hash))))) }
    ensures wanted { OnErr result (LacksRoom out.old
        ((32 ∷ decimal opened.now.max_players) ++ ((32 ∷ (if opened.now.passworded then 49 else 48) ∷ [])
        ++ ((32 ∷ signed_decimal opened.now.rank) ++ (32 ∷ signed_decimal opened.now.map_hash))))) }
    ensures kept { Keeps out.old.items out.new.items }
    ensures room { vec_capacity out.old ≤ vec_capacity out.new }
{
    put_number(out, u32::from(opened.max_players))?;
    put_flag(out, opened.passworded)?;
    put_wide(out, &opened.rank)?;
    put_wide(out, &opened.map_hash)
}

/// The engine, the map, the title and the game.
fn put_titles(out: &mut Vec<u8>, opened: &OpenedBattle) -> Result<(), AllocError>
    ensures ok { IfOk result (λ _. out.new.items
        ≡ out.old.items ++ ((32 ∷ opened.now.engine_name) ++ ((9 ∷ opened.now.engine_version)
        ++ ((9 ∷ opened.now.map) ++ ((9 ∷ opened.now.title) ++ (9 ∷ opened.now.game_name)))))) }
    ensures wanted { OnErr result (LacksRoom out.old
        ((32 ∷ opened.now.engine_name) ++ ((9 ∷ opened.now.engine_version)
        ++ ((9 ∷ opened.now.map) ++ ((9 ∷ opened.now.title) ++ (9 ∷ opened.now.game_name)))))) }
    ensures kept { Keeps out.old.items out.new.items }
    ensures room { vec_capacity out.old ≤ vec_capacity out.new }
{
    put_sentence(out, &opened.engine_name)?;
    put_next_sentence(out, &opened.engine_version)?;
    put_next_sentence(out, &opened.map)?;
    put_next_sentence(out, &opened.title)?;
    put_next_sentence(out, &opened.game_name)
}
