//! Reading, written out from the table of replies.

/// Reads a reply by the row of its command word.
macro_rules! read_by_row {
    (($alloc:ident, $bytes:ident, $command:ident)
        $($name:ident { $($field:ident),* $(; $rest:ident)? })*
    ) => {
        match $command {
            $(CommandWord::$name => match read_all($alloc, $bytes) {
                Ok(row) => {
                    let row!($($field),* $(; $rest)?) = row;
                    Ok(Reply::$name { $($field),* $(, $rest)? })
                }
                Err(error) => Err(error),
            })*
        }
    };
}

/// The command words, in the order of the rows.
macro_rules! words_of_rows {
    (() $($name:ident $row:tt)*) => {
        [$(CommandWord::$name),*]
    };
}

pub(crate) use read_by_row;
pub(crate) use words_of_rows;
