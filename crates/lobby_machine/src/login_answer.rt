//! How the lobby answers a login.

/// How the lobby answers a login: by what it decides, whatever the words are in which it says so.
#[derive(Clone, Copy, PartialEq, Eq, Debug)]
pub enum LoginAnswer {
    /// The client is logged in under the name for which it asked.
    LetIn,
    /// No account that can log in has this name and this password word.
    Invalid,
    /// A user of that name is logged in.
    InUse,
    /// This client is logged in.
    Again,
}
