//! The status of a member of a battle.

ghost use Rattle.std.specs.Prelude.{◌≡◌, ◌<◌, ◌≤◌};
ghost use Rattle.status_bits.specs.Fields.{number_in, is_set, with_number, SetsOne, merge, Merges};
ghost use Rattle.status_bits.specs.BattleWord as battle;

use crate::field::Field;
use std::marker::Model;

const READY: Field = Field { first: 1, width: 1 };

const TEAM: Field = Field { first: 2, width: 4 };

const ALLY: Field = Field { first: 6, width: 4 };

const PLAYER: Field = Field {
    first: 10,
    width: 1,
};

const HANDICAP: Field = Field {
    first: 11,
    width: 7,
};

const SYNC: Field = Field {
    first: 22,
    width: 2,
};

const SIDE: Field = Field {
    first: 24,
    width: 4,
};

/// The status of a member or a bot of a battle, as MYBATTLESTATUS and CLIENTBATTLESTATUS carry it:
/// bit 1 ready, 2 to 5 team, 6 to 9 ally team, 10 player, 11 to 17 handicap, 22 to 23 sync,
/// 24 to 27 side; all others are clear, and the handicap is at most 100.
#[derive(Clone, Copy, PartialEq, Eq, Debug)]
pub struct BattleStatus {
    word: u32,
}

impl Model for BattleStatus {
    ghost use Rattle.std.specs.Prelude.{ℕ};
    ghost use Rattle.status_bits.specs.BattleWord.{IsBattleStatus};

    ghost Value = { ℕ };

    ghost view = { λ s. s.word };

    ghost invariant = { λ s. IsBattleStatus s.word };

    ghost inverse = { λ word. record { word = word } };
}

impl BattleStatus {
    /// The status of one who has just joined, 0: a spectator of team 0 whose sync is not known.
    pub fn zero() -> BattleStatus
        ensures { result ≡ 0 }
    {
        BattleStatus { word: 0 }
    }

    /// Whether the member is ready to start.
    pub fn ready(self) -> bool
        ensures { result ≡ is_set battle.ready self }
    {
        READY.number_in(self.word) == 1
    }

    /// The team, 0 to 15. Members of one team share their units.
    pub fn team(self) -> u8
        ensures { result ≡ number_in battle.team self }
    {
        TEAM.number_in(self.word) as u8
    }

    /// The ally team, 0 to 15. Teams of one ally team fight side by side.
    pub fn ally(self) -> u8
        ensures { result ≡ number_in battle.ally self }
    {
        ALLY.number_in(self.word) as u8
    }

    /// Whether the member plays. Who does not is a spectator.
    pub fn player(self) -> bool
        ensures { result ≡ is_set battle.player self }
    {
        PLAYER.number_in(self.word) == 1
    }

    /// The handicap, 0 to 100 percent.
    pub fn handicap(self) -> u8
        ensures number { result ≡ number_in battle.handicap self }
        ensures percent { result ≤ 100 }
    {
        HANDICAP.number_in(self.word) as u8
    }

    /// Whether the member has the host's map and game: 0 not known, 1 yes, 2 no. The word has room
    /// for a 3 too, which is passed on.
    pub fn sync(self) -> u8
        ensures { result ≡ number_in battle.sync self }
    {
        SYNC.number_in(self.word) as u8
    }

    /// The faction that the member plays, 0 to 15.
    pub fn side(self) -> u8
        ensures { result ≡ number_in battle.side self }
    {
        SIDE.number_in(self.word) as u8
    }

    /// The same status in another team, 0 to 15.
    pub fn with_team(self, number: u8) -> BattleStatus
        requires { number < 16 }
        ensures word { result ≡ with_number battle.battle_table battle.team number self }
        ensures fields { SetsOne battle.battle_table battle.team number self result }
    {
        BattleStatus {
            word: TEAM.replaced_in(self.word, number),
        }
    }

    /// The same status in another ally team, 0 to 15.
    pub fn with_ally(self, number: u8) -> BattleStatus
        requires { number < 16 }
        ensures word { result ≡ with_number battle.battle_table battle.ally number self }
        ensures fields { SetsOne battle.battle_table battle.ally number self result }
    {
        BattleStatus {
            word: ALLY.replaced_in(self.word, number),
        }
    }

    /// The same status with another handicap, 0 to 100 percent.
    pub fn with_handicap(self, percent: u8) -> BattleStatus
        requires { percent ≤ 100 }
        ensures word { result ≡ with_number battle.battle_table battle.handicap percent self }
        ensures fields { SetsOne battle.battle_table battle.handicap percent self result }
    {
        BattleStatus {
            word: HANDICAP.replaced_in(self.word, percent),
        }
    }

    /// The same status of a spectator.
    pub fn as_spectator(self) -> BattleStatus
        ensures word { result ≡ with_number battle.battle_table battle.player 0 self }
        ensures fields { SetsOne battle.battle_table battle.player 0 self result }
    {
        BattleStatus {
            word: PLAYER.replaced_in(self.word, 0),
        }
    }

    /// The word that CLIENTBATTLESTATUS carries. Bits outside the fields are clear, and the
    /// handicap is at most 100.
    pub fn word(self) -> u32
        ensures same { result ≡ self }
        ensures clean { battle.IsBattleStatus result }
    {
        self.word
    }
}

/// The status after MYBATTLESTATUS asked for the word `asked`: the handicap as it was, since only
/// the founder sets it, and each other field as asked. Other bits that were asked for are dropped.
pub fn merge_battle(old: BattleStatus, asked: u32) -> BattleStatus
    ensures word { result ≡ merge battle.battle_table old asked }
    ensures fields { Merges battle.battle_table old asked result }
{
    let teams = READY.part_of(asked) + TEAM.part_of(asked) + ALLY.part_of(asked);
    let play = PLAYER.part_of(asked) + SYNC.part_of(asked) + SIDE.part_of(asked);
    BattleStatus {
        word: teams + play + HANDICAP.part_of(old.word),
    }
}
