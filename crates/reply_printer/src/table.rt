//! Printing, written out from the table of replies.

/// Prints a reply by the row of its variant.
macro_rules! print_by_row {
    (($out:ident, $id:ident, $reply:ident)
        $($name:ident { $($field:ident),* $(; $rest:ident)? })*
    ) => {
        match $reply {
            $(Reply::$name { $($field),* $(, $rest)? } => put_line(
                $out, $id, CommandWord::$name, row!($($field),* $(; $rest)?)
            ),)*
        }
    };
}

pub(crate) use print_by_row;
