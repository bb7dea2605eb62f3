//! A row of arguments, one behind another: no argument, or one in front of a row. So what is proved
//! of one argument is proved of each row.

ghost use Rattle.std.specs.Prelude.{◌≡◌, List, [], ◌∷◌, ◌++◌, ◌≤◌, IfOk, OnErr, vec_capacity};
ghost use Rattle.reply_printer.specs.Fronts.{Keeps, LacksRoom};
ghost use Rattle.reply_kinds.specs.Kinds.{Kind, Values, all_printed};
ghost use Rattle.reply_kinds.specs.Opened.{opened_kinds, opened_values};

use crate::arguments::Printed;
use crate::opened::put_opened;
use reply_kinds::Opened;
use std::alloc::AllocError;

/// Arguments that can be printed.
pub(crate) trait PrintedRow {
    ghost kinds: { List Kind };

    ghost values: { Self → Values kinds };

    fn put(&self, out: &mut Vec<u8>) -> Result<(), AllocError>
        ensures ok { IfOk result (λ _. out.new.items ≡ out.old.items ++ all_printed kinds (values self.now)) }
        ensures wanted { OnErr result (LacksRoom out.old (all_printed kinds (values self.now))) }
        ensures kept { Keeps out.old.items out.new.items }
        ensures room { vec_capacity out.old ≤ vec_capacity out.new };
}

impl PrintedRow for () {
    ghost kinds = { [] };

    ghost values = { λ _. tt };

    #[inline(always)]
    fn put(&self, _out: &mut Vec<u8>) -> Result<(), AllocError> {
        Ok(())
    }
}

impl<A: Printed, R: PrintedRow> PrintedRow for (A, R) {
    ghost kinds = { A.kind ∷ R.kinds };

    ghost values = { λ x. (A.value x.0, R.values x.1) };

    #[inline(always)]
    fn put(&self, out: &mut Vec<u8>) -> Result<(), AllocError> {
        self.0.put(out)?;
        self.1.put(out)
    }
}

impl<'a, 'b> PrintedRow for &'a Opened<'b> {
    ghost kinds = { opened_kinds };

    ghost values = { λ x. opened_values x.now };

    fn put(&self, out: &mut Vec<u8>) -> Result<(), AllocError> {
        put_opened(out, self.get())
    }
}
