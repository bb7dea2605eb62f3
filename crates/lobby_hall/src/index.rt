//! Lists with a value for each client, in the order of their numbers.

ghost use Rattle.std.specs.Prelude.{◌≡◌, suc, IfNone, IfSome};

/// Where the value of a client stands in a list by client numbers. No client is number 0.
pub(crate) fn index_of(client: u64) -> Option<usize>
    ensures none { IfNone result (client ≡ 0) }
    ensures some { IfSome result (λ index. client ≡ suc index) }
{
    (client as usize).checked_sub(1)
}
