//! The status of a user.

ghost use Rattle.std.specs.Prelude.{◌≡◌, ◌<◌};
ghost use Rattle.status_bits.specs.Fields.{number_in, is_set, merge, Merges};
ghost use Rattle.status_bits.specs.UserWord as user;

use crate::field::Field;
use std::marker::Model;

const IN_GAME: Field = Field { first: 0, width: 1 };

const AWAY: Field = Field { first: 1, width: 1 };

const RANK: Field = Field { first: 2, width: 3 };

const ACCESS: Field = Field { first: 5, width: 1 };

const BOT: Field = Field { first: 6, width: 1 };

/// The status of a user, as MYSTATUS and CLIENTSTATUS carry it: bit 0 in game, 1 away, 2 to 4 rank,
/// 5 moderator (`access`), 6 bot; all others are clear. Only `in_game` and `away` are the client's own
/// to set; the others come from its account.
#[derive(Clone, Copy, PartialEq, Eq, Debug)]
pub struct UserStatus {
    /// A byte holds all fields, and each user has one of these.
    word: u8,
}

impl Model for UserStatus {
    ghost use Rattle.std.specs.Prelude.{ℕ};
    ghost use Rattle.status_bits.specs.UserWord.{IsUserStatus};

    ghost Value = { ℕ };

    ghost view = { λ s. s.word };

    ghost invariant = { λ s. IsUserStatus s.word };

    ghost inverse = { λ word. record { word = word } };
}

impl UserStatus {
    /// The status with which the owner of an account logs in, neither in game nor away: a rank of 0 to 7,
    /// whether it is a moderator (`access`), and whether it is a program (`bot`).
    pub fn of_account(rank: u8, access: bool, bot: bool) -> UserStatus
        requires { rank < 8 }
        ensures word { result ≡ user.account_word rank access bot }
        ensures rank { number_in user.rank result ≡ rank }
        ensures access { is_set user.access result ≡ access }
        ensures bot { is_set user.bot result ≡ bot }
        ensures in_game { number_in user.in_game result ≡ 0 }
        ensures away { number_in user.away result ≡ 0 }
    {
        let access = if access { 1 << ACCESS.first } else { 0 };
        let bot = if bot { 1 << BOT.first } else { 0 };
        UserStatus {
            word: (rank << RANK.first) + access + bot,
        }
    }

    /// Whether the user plays a game.
    pub fn in_game(self) -> bool
        ensures { result ≡ is_set user.in_game self }
    {
        IN_GAME.number_in(self.word()) == 1
    }

    /// Whether the user is away.
    pub fn away(self) -> bool
        ensures { result ≡ is_set user.away self }
    {
        AWAY.number_in(self.word()) == 1
    }

    /// The user's rank, 0 to 7.
    pub fn rank(self) -> u8
        ensures { result ≡ number_in user.rank self }
    {
        RANK.number_in(self.word()) as u8
    }

    /// Whether the user is a moderator.
    pub fn access(self) -> bool
        ensures { result ≡ is_set user.access self }
    {
        ACCESS.number_in(self.word()) == 1
    }

    /// Whether the user is a program.
    pub fn bot(self) -> bool
        ensures { result ≡ is_set user.bot self }
    {
        BOT.number_in(self.word()) == 1
    }

    /// The word that CLIENTSTATUS carries. Bits outside the fields are clear.
    pub fn word(self) -> u32
        ensures same { result ≡ self }
        ensures clean { user.IsUserStatus result }
    {
        u32::from(self.word)
    }
}

/// The status after MYSTATUS asked for the word `asked`: in game and away as asked, rank, access
/// and bot as they were. Other bits that were asked for are dropped.
pub fn merge_user(old: UserStatus, asked: u32) -> UserStatus
    ensures word { result ≡ merge user.user_table old asked }
    ensures fields { Merges user.user_table old asked result }
{
    let own = IN_GAME.part_of(asked) + AWAY.part_of(asked);
    let word = old.word();
    let given = RANK.part_of(word) + ACCESS.part_of(word) + BOT.part_of(word);
    UserStatus {
        word: (own + given) as u8,
    }
}
