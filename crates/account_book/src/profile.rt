//! What an account may leave out.

ghost use Rattle.std.specs.Prelude.{◌≤◌};

/// What an account may leave out: the rank of its owner, whether that is a moderator, whether the
/// account is a program's, and its country.
#[derive(Clone, Copy)]
pub struct Profile<'a> {
    /// The rank of its owner, 0 to 7.
    pub rank: u8,
    /// Whether its owner is a moderator.
    pub access: bool,
    /// Whether it is a program's.
    pub bot: bool,
    /// Its country, as the file states it.
    pub country: &'a str,
    ghost in_range: { rank ≤ 7 },
}

/// The profile where a file says nothing of it.
pub(crate) const PLAIN: Profile<'static> = Profile {
    rank: 0,
    access: false,
    bot: false,
    country: "??",
};
