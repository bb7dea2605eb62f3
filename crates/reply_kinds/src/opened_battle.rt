//! What all are told of a battle.

ghost use Rattle.std.specs.Prelude.{◌≡◌};
ghost use Rattle.reply_kinds.specs.declared.Reply.TheVariants as reply;

use crate::{BattleNumber, HeldOpened, Opened, Reply};
use line_words::{NameBuf, SentenceBuf, WordBuf};

/// What BATTLEOPENED tells of a battle besides its number, in the order of its arguments.
#[derive(Drop)]
pub struct OpenedBattle {
    /// 0 for a game, 1 for a replay (`type`).
    pub battle_type: u8,
    /// How clients pass address translation, 0 to 2 (`natType`).
    pub nat_type: u8,
    /// The user that opened the battle and hosts it.
    pub founder: NameBuf,
    /// The address that the battle is hosted at.
    pub ip: WordBuf,
    /// The UDP port that the battle is hosted at.
    pub port: u16,
    /// The most players that the battle takes.
    pub max_players: u16,
    /// Whether who joins must give a password.
    pub passworded: bool,
    /// The lowest rank that is wanted, -2147483648 to 4294967295.
    pub rank: i64,
    /// The hash of the map, -2147483648 to 4294967295.
    pub map_hash: i64,
    /// The engine that the battle is played with.
    pub engine_name: SentenceBuf,
    /// The version of the engine.
    pub engine_version: SentenceBuf,
    /// The name of the map.
    pub map: SentenceBuf,
    /// What the founder calls the battle.
    pub title: SentenceBuf,
    /// The name of the game.
    pub game_name: SentenceBuf,
}

impl OpenedBattle {
    /// The reply that tells this of the battle of that number.
    pub fn told(&self, battle: u32) -> Reply<'_>
        ensures { result ≡ reply.BattleOpened battle self.now }
    {
        Reply::BattleOpened {
            battle: BattleNumber(battle),
            opened: Opened(HeldOpened::Lent(self)),
        }
    }
}
