//! A row of arguments, one behind another: no argument, or one in front of a row. So what is proved
//! of one argument is proved of each row.

ghost use Rattle.std.specs.Prelude.{◌≡◌, List, [], ◌∷◌};
ghost use Rattle.reply_grammar.specs.Reading.{fields, shaped};
ghost use Rattle.reply_fields.specs.Fields.{Gives};
ghost use Rattle.reply_kinds.specs.Kinds.{Kind, Values};
ghost use Rattle.reply_kinds.specs.Opened.{opened_kinds, opened_values};

use crate::arguments::Readable;
use crate::opened::opened_at;
use crate::{ReadError, ended};
use reply_kinds::{HeldOpened, Opened};
use std::alloc::Global;

/// Arguments that can be read.
pub(crate) trait ReadableRow: Sized + Drop {
    ghost kinds: { List Kind };

    ghost values: { Self → Values kinds };

    fn read(alloc: Global, bytes: &[u8]) -> Result<(Self, &[u8]), ReadError>
        ensures { Gives (λ x. (values x.0, x.1.now)) result (fields kinds bytes.now) };
}

impl ReadableRow for () {
    ghost kinds = { [] };

    ghost values = { λ _. tt };

    #[inline(always)]
    fn read(_alloc: Global, bytes: &[u8]) -> Result<((), &[u8]), ReadError> {
        Ok(((), bytes))
    }
}

impl<A: Readable, R: ReadableRow> ReadableRow for (A, R) {
    ghost kinds = { A.kind ∷ R.kinds };

    ghost values = { λ x. (A.value x.0, R.values x.1) };

    #[inline(always)]
    fn read(alloc: Global, bytes: &[u8]) -> Result<((A, R), &[u8]), ReadError> {
        let (first, rest) = A::read(alloc, bytes)?;
        let (others, rest) = R::read(alloc, rest)?;
        Ok(((first, others), rest))
    }
}

impl ReadableRow for Opened<'static> {
    ghost kinds = { opened_kinds };

    ghost values = { λ x. opened_values x };

    fn read(alloc: Global, bytes: &[u8]) -> Result<(Opened<'static>, &[u8]), ReadError> {
        let (opened, rest) = opened_at(alloc, bytes)?;
        let opened = Box::new(alloc, opened)?;
        Ok((Opened(HeldOpened::Owned(opened)), rest))
    }
}

/// All arguments of a line, to its end.
#[tactic(auto, unfolding(crate::specs::Reading::shaped))]
pub(crate) fn read_all<R: ReadableRow>(alloc: Global, bytes: &[u8]) -> Result<R, ReadError>
    ensures { Gives R.values result (shaped R.kinds bytes.now) }
{
    let (row, rest) = R::read(alloc, bytes)?;
    ended(rest)?;
    Ok(row)
}
