//! A row of arguments, one behind another: no argument, or one in front of a row. So what is proved
//! of one argument is proved of each row.
#![tactic(auto, using(reply_printer::proofs::Kept::front_more, reply_printer::proofs::Kept::front_all))]

ghost use Rattle.std.specs.Prelude.{◌≡◌, List, [], ◌∷◌, ◌++◌, ◌≤◌, IfOk, OnErr, true, vec_capacity};
ghost use Rattle.command_grammar.specs.Table.{Kind, Values};
ghost use Rattle.reply_printer.specs.Fronts.{Keeps, LacksRoom};
ghost use Rattle.request_printer.specs.Faults.{all_absent, all_listed, has_gap, in_range};
ghost use Rattle.request_printer.specs.Writing.{all_written};

use crate::arguments::Written;
use std::alloc::AllocError;

/// Arguments that can be printed.
pub(crate) trait WrittenRow {
    ghost kinds: { List Kind };

    ghost values: { Self → Values kinds };

    /// Appends the arguments, the first sentence behind this separator.
    fn put(&self, out: &mut Vec<u8>, separator: u8) -> Result<(), AllocError>
        ensures ok { IfOk result (λ _. out.new.items ≡ out.old.items ++ all_written separator kinds (values self.now)) }
        ensures wanted { OnErr result (LacksRoom out.old (all_written separator kinds (values self.now))) }
        ensures kept { Keeps out.old.items out.new.items }
        ensures room { vec_capacity out.old ≤ vec_capacity out.new };

    /// Each number is in the range of its argument.
    fn is_in_range(&self) -> bool
        ensures { result ≡ in_range true kinds (values self.now) };

    /// Each list has something in it.
    fn is_listed(&self) -> bool
        ensures { result ≡ all_listed true kinds (values self.now) };

    fn is_absent(&self) -> bool
        ensures { result ≡ all_absent kinds (values self.now) };

    /// An optional word is missing before an argument that is there.
    fn has_gap(&self) -> bool
        ensures { result ≡ has_gap kinds (values self.now) };
}

impl WrittenRow for () {
    ghost kinds = { [] };

    ghost values = { λ _. tt };

    #[inline(always)]
    fn put(&self, _out: &mut Vec<u8>, _separator: u8) -> Result<(), AllocError> {
        Ok(())
    }

    #[inline(always)]
    fn is_in_range(&self) -> bool {
        true
    }

    #[inline(always)]
    fn is_listed(&self) -> bool {
        true
    }

    #[inline(always)]
    fn is_absent(&self) -> bool {
        true
    }

    #[inline(always)]
    fn has_gap(&self) -> bool {
        false
    }
}

impl<A: Written, R: WrittenRow> WrittenRow for (A, R) {
    ghost kinds = { A.kind ∷ R.kinds };

    ghost values = { λ x. (A.value x.0, R.values x.1) };

    #[inline(always)]
    fn put(&self, out: &mut Vec<u8>, separator: u8) -> Result<(), AllocError> {
        let separator = self.0.put(out, separator)?;
        self.1.put(out, separator)
    }

    #[inline(always)]
    #[tactic(auto, using(crate::proofs::Found::range_first))]
    fn is_in_range(&self) -> bool {
        self.0.find().is_in_range && self.1.is_in_range()
    }

    #[inline(always)]
    #[tactic(auto, using(crate::proofs::Found::listed_first))]
    fn is_listed(&self) -> bool {
        self.0.find().is_listed && self.1.is_listed()
    }

    #[inline(always)]
    fn is_absent(&self) -> bool {
        self.0.find().is_absent && self.1.is_absent()
    }

    #[inline(always)]
    #[tactic(auto, using(crate::proofs::Found::gap_first))]
    fn has_gap(&self) -> bool {
        self.0.find().leaves_gap && !self.1.is_absent() || self.1.has_gap()
    }
}
