//! Reading the arguments of the lines that come most, to the end of the line.

ghost use Rattle.std.specs.Prelude.{[], ◌∷◌};
ghost use Rattle.reply_kinds.specs.Kinds.{Name, Text};
ghost use Rattle.reply_kinds.specs.Replies.{status_word};
ghost use Rattle.reply_fields.specs.Fields.{Gives};
ghost use Rattle.reply_grammar.specs.Reading.{shaped};

use crate::{ReadError, ended, name_at, text_at, u32_at};
use line_words::{NameBuf, TextBuf};
use std::alloc::Global;

#[tactic(auto, unfolding(crate::specs::Reading::shaped))]
pub(crate) fn name_and_status(alloc: Global, bytes: &[u8]) -> Result<(NameBuf, u32), ReadError>
    ensures { Gives (λ x. (x.0, (x.1, tt))) result (shaped (Name ∷ status_word ∷ []) bytes.now) }
{
    let (name, rest) = name_at(alloc, bytes)?;
    let (status, rest) = u32_at(rest)?;
    ended(rest)?;
    Ok((name, status))
}

#[tactic(auto, unfolding(crate::specs::Reading::shaped))]
pub(crate) fn two_names_and_text(
    alloc: Global,
    bytes: &[u8],
) -> Result<(NameBuf, NameBuf, TextBuf), ReadError>
    ensures { Gives (λ x. (x.0, (x.1, (x.2, tt)))) result (shaped (Name ∷ Name ∷ Text ∷ []) bytes.now) }
{
    let (first, rest) = name_at(alloc, bytes)?;
    let (second, rest) = name_at(alloc, rest)?;
    let (text, rest) = text_at(alloc, rest)?;
    ended(rest)?;
    Ok((first, second, text))
}
