//! What a call answers, as a number for C.

/// It was done.
pub const OK: u32 = 0;
/// Memory was refused, and nothing has changed.
pub const NO_MEMORY: u32 = 1;
/// A line is too long: the lines before it are folded, and none after.
pub const LINE_TOO_LONG: u32 = 2;
/// A table has more rows or text than there is room for.
pub const NO_ROOM: u32 = 3;
/// What was asked for is not there.
pub const NOT_THERE: u32 = 4;
/// No reply of the server prints as the line.
pub const NO_REPLY: u32 = 5;
/// The kind is none of a request.
pub const NO_COMMAND: u32 = 6;
/// No request of the kind has these fields.
pub const BAD_FIELDS: u32 = 7;
/// The message id, or a number, is outside its range.
pub const OUT_OF_RANGE: u32 = 8;
/// A list has no field.
pub const NOTHING_LISTED: u32 = 9;
/// An optional word is absent before one that is there.
pub const WORD_SKIPPED: u32 = 10;
/// The line of a request would have more than 8,192 bytes before its LF.
pub const REQUEST_TOO_LONG: u32 = 11;
