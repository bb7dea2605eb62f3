//! Printing, written out from the table of commands.

/// Prints a command by its row.
macro_rules! print_by_row {
    (($out:ident, $id:ident, $command:ident)
        $($part:ident {
            $($name:ident $word:literal { $($field:ident: $kind:ident $(($high:literal))?),* } $(=> $form:ident)?)*
        })*
    ) => {
        match $command {
            Command::Unread(_) => Err(PrintError::Unread),
            Command::Blank => print_row($out, $id, $command, b"", ()),
            $($(Command::$name { $($field),* } => {
                print_row($out, $id, $command, $word, row!($($field: $kind $(($high))?),*))
            })*)*
        }
    };
}

/// The fields of a row, each in front of those behind it.
macro_rules! row {
    () => { () };
    ($field:ident: $kind:ident $(($high:literal))? $(, $($others:tt)*)?) => {
        (argument!($field: $kind $(($high))?), row!($($($others)*)?))
    };
}

/// A field as an argument of its kind.
macro_rules! argument {
    ($field:ident: Natural($high:literal)) => { Natural::<$high>(*$field as u32) };
    ($field:ident: LoginFlags) => { LoginFlags(*$field) };
    ($field:ident: $kind:ident) => { $field };
}

pub(crate) use argument;
pub(crate) use print_by_row;
pub(crate) use row;
