//! One battle.

ghost use Rattle.std.specs.Prelude.{◌≡◌, option_copied};
ghost use Rattle.lobby_model.specs.State.{updated};
ghost use Rattle.lobby_model.specs.Battles.{is_founder, lets_in};
ghost use Rattle.lobby_battles.specs.Info.{info_changed};

use battle_room::Room;
use line_words::{NameBuf, SentenceBuf, WordBuf};
use lobby_post::ClientKey;
use reply_kinds::OpenedBattle;
use std::marker::Model;

/// The password of a battle that lets everyone in.
pub const NO_PASSWORD: &[u8] = b"*";

/// A battle: what all know of it, what is told to nobody or to a joiner alone, and what its members
/// share.
pub struct Battle {
    /// What all were told of it as it opened; its map is that of now.
    pub opened: OpenedBattle,
    /// How many watch, as the founder says.
    pub spectators: u16,
    /// Whether nobody may join it now.
    pub locked: bool,
    /// `*` lets everyone in.
    pub password: WordBuf,
    /// The hash of the game, -2147483648 to 4294967295.
    pub game_hash: i64,
    /// Its members' keys are those of their clients.
    pub room: Room<ClientKey>,
}

impl Drop for Battle {
    /// Who lets a battle go calls this, and need not know what it is made of.
    fn drop(self) {
        let Battle {
            opened,
            spectators: _,
            locked: _,
            password,
            game_hash: _,
            room,
        } = self;
        drop(opened);
        drop(password);
        drop(room);
    }
}

impl Model for Battle {
    ghost use Rattle.lobby_model.specs.State.{Battle};
    ghost use Rattle.lobby_model.specs.Opened.{info_of};

    ghost Value = { Battle };

    ghost view = { λ b. record {
      info = info_of b.opened b.spectators b.locked;
      password = b.password;
      game_hash =
          b.game_hash;
      room = b.room;
    } };
}

impl Battle {
    /// Whether a user founded it.
    pub fn is_founder(&self, name: &NameBuf) -> bool
        ensures { result ≡ is_founder name.now self.now }
    {
        name.cmp(&self.opened.founder).is_eq()
    }

    /// Whether a password lets its giver in.
    pub fn lets_in(&self, password: Option<&WordBuf>) -> bool
        ensures { result ≡ lets_in self.now.password (option_copied password.entry) }
    {
        let own = self.password.as_slice();
        match password {
            Some(given) => own == NO_PASSWORD || own == given.as_slice(),
            None => own == NO_PASSWORD,
        }
    }

    /// What all know of it changes.
    pub fn update(&mut self, spectators: u16, locked: bool, map_hash: i64, map: SentenceBuf)
        ensures { self.new ≡ info_changed (updated spectators locked map_hash map) self.old }
    {
        self.spectators = spectators;
        self.locked = locked;
        self.opened.map_hash = map_hash;
        self.opened.map = map;
    }
}
