//! What BATTLEOPENED tells of a battle behind its number.

ghost use Rattle.reply_kinds.specs.Opened.{opened_kinds, opened_values};
ghost use Rattle.reply_fields.specs.Fields.{Gives};
ghost use Rattle.reply_grammar.specs.Reading.{fields};

use crate::{ReadError, flag_at, name_at, sentence_at, small_at, u16_at, wide_at, word_at};
use reply_kinds::OpenedBattle;
use std::alloc::Global;

pub(crate) fn opened_at(alloc: Global, bytes: &[u8]) -> Result<(OpenedBattle, &[u8]), ReadError>
    ensures { Gives (λ x. (opened_values x.0, x.1.now)) result (fields opened_kinds bytes.now) }
{
    let (battle_type, rest) = small_at(bytes, 1)?;
    let (nat_type, rest) = small_at(rest, 2)?;
    let (founder, rest) = name_at(alloc, rest)?;
    let (ip, rest) = word_at(alloc, rest)?;
    let (port, rest) = u16_at(rest)?;
    let (max_players, rest) = u16_at(rest)?;
    let (passworded, rest) = flag_at(rest)?;
    let (rank, rest) = wide_at(rest)?;
    let (map_hash, rest) = wide_at(rest)?;
    let (engine_name, rest) = sentence_at(alloc, rest, b' ')?;
    let (engine_version, rest) = sentence_at(alloc, rest, b'\t')?;
    let (map, rest) = sentence_at(alloc, rest, b'\t')?;
    let (title, rest) = sentence_at(alloc, rest, b'\t')?;
    let (game_name, rest) = sentence_at(alloc, rest, b'\t')?;
    let opened = OpenedBattle {
        battle_type,
        nat_type,
        founder,
        ip,
        port,
        max_players,
        passworded,
        rank,
        map_hash,
        engine_name,
        engine_version,
        map,
        title,
        game_name,
    };
    Ok((opened, rest))
}
