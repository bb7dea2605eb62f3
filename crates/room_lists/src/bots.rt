//! The bots of a room.

ghost use Rattle.std.specs.Prelude.{◌≡◌, ◌∷◌, [], ◌++◌, map, filter, find, not, length, nat_le, if◌then◌else◌, OnOk};
ghost use Rattle.std.specs.Prelude.{OnErr, IfOk, option_copied};
ghost use Rattle.line_words.specs.Table.{same_name};
ghost use Rattle.room_lists.specs.Room as room;

use crate::names::is_same;
use crate::status_word::StatusWord;
use line_words::{NameBuf, SentenceBuf, WordBuf};
use std::alloc::{AllocError, Global};
use std::marker::Model;

/// The most bots of a room: four for each of the 16 teams that a status can name. They are walked to find
/// one by its name, so they are kept few.
pub const BOT_LIMIT: usize = 64;

/// A bot, which the client of its owner runs. Its status is of a kind `S`. Its colour is kept as it was
/// sent (`teamColor`), in the protocol -2147483648 to 4294967295, which is not checked here.
#[derive(Drop)]
pub struct Bot<S: StatusWord> {
    name: WordBuf,
    owner: NameBuf,
    status: S,
    colour: i64,
    ai: SentenceBuf,
}

impl<S: StatusWord> Model for Bot<S> {
    ghost use Rattle.room_lists.specs.Room as room;

    ghost Value = { room.Bot };

    ghost view = { λ b. record {
      name = b.name;
      owner = b.owner;
      status = S.number b.status;
      colour = b.colour;
      ai =
          b.ai;
    } };
}

impl<S: StatusWord> Bot<S> {
    /// A bot of this owner, name, status, colour and program.
    pub fn new(owner: NameBuf, name: WordBuf, status: S, colour: i64, ai: SentenceBuf) -> Bot<S>
        ensures { result ≡ record { name = name; owner = owner; status = S.number status; colour = colour; ai = ai } }
    {
        Bot {
            name,
            owner,
            status,
            colour,
            ai,
        }
    }

    /// A copy. Fails only where memory is refused.
    fn copy(&self, alloc: Global) -> Result<Bot<S>, AllocError>
        ensures { IfOk result (λ copy. copy ≡ self.now) }
    {
        Ok(Bot {
            name: WordBuf::copy_of(alloc, self.name.as_slice())?,
            owner: self.owner.copy(),
            status: self.status,
            colour: self.colour,
            ai: SentenceBuf::copy_of(alloc, self.ai.as_slice())?,
        })
    }

    /// The bot's name.
    pub fn name(&self) -> &WordBuf
        ensures { result.now ≡ self.now.name }
    {
        &self.name
    }

    /// The member who added the bot.
    pub fn owner(&self) -> &NameBuf
        ensures { result.now ≡ self.now.owner }
    {
        &self.owner
    }

    /// The status that the bot shows.
    pub fn status(&self) -> S
        ensures { S.number result ≡ self.now.status }
    {
        self.status
    }

    /// The colour that the bot shows, as it was sent.
    pub fn colour(&self) -> i64
        ensures { result ≡ self.now.colour }
    {
        self.colour
    }

    /// The program that plays for the bot.
    pub fn ai(&self) -> &SentenceBuf
        ensures { result.now ≡ self.now.ai }
    {
        &self.ai
    }

    /// Whether the bot has this name.
    fn has_name(&self, name: &WordBuf) -> bool
        ensures { result ≡ same_name name.now self.now.name }
    {
        is_same(name.as_slice(), self.name.as_slice())
    }

    /// A status and a colour for the bot, if it has this name.
    fn put_status(&mut self, name: &WordBuf, status: S, colour: i64)
        ensures { self.new ≡ (if same_name name.now self.old.name
            then room.bot_with (S.number status) colour self.old else self.old) }
    {
        if is_same(name.as_slice(), self.name.as_slice()) {
            self.status = status;
            self.colour = colour;
        }
    }
}

/// Bots in order of adding. That no two have one name, and that they are no more than `BOT_LIMIT`, is for
/// the rules of a room.
#[derive(Drop)]
pub struct Bots<S: StatusWord> {
    bots: Vec<Bot<S>>,
}

impl<S: StatusWord> Model for Bots<S> {
    ghost use Rattle.std.specs.Prelude.{List};
    ghost use Rattle.room_lists.specs.Room as room;

    ghost Value = { List room.Bot };

    ghost view = { λ b. b.bots.items };
}

impl<S: StatusWord> Bots<S> {
    /// No bots. It takes no memory yet.
    pub fn new(alloc: Global) -> Bots<S>
        ensures { result ≡ [] }
    {
        Bots {
            bots: Vec::new(alloc),
        }
    }

    /// A copy. Fails only where memory is refused.
    pub fn copy(&self, alloc: Global) -> Result<Bots<S>, AllocError>
        ensures { IfOk result (λ copy. copy ≡ self.now) }
    {
        let mut bots = Vec::with_capacity(alloc, self.bots.len())?;
        for bot in self.as_slice() {
            bots.push(bot.copy(alloc)?)?;
        }
        Ok(Bots { bots })
    }

    /// The bots, in order of adding.
    pub fn as_slice(&self) -> &[Bot<S>]
        ensures { result.now ≡ self.now }
    {
        self.bots.as_slice()
    }

    /// The first bot of a name; None where there is none.
    pub fn bot(&self, name: &WordBuf) -> Option<&Bot<S>>
        ensures { option_copied result ≡ find (λ b. same_name name.now b.name) self.now }
    {
        self.bots.iter().find(|b| b.has_name(name))
    }

    /// Whether there are 64 (`BOT_LIMIT`) or more.
    pub fn is_full(&self) -> bool
        ensures { result ≡ nat_le 64 (length self.now) }
    {
        self.bots.len() >= BOT_LIMIT
    }

    /// One more, behind the others, also where its name is there or the list is full. Fails only where memory
    /// is refused, and then nothing changes.
    pub fn add(&mut self, bot: Bot<S>) -> Result<(), AllocError>
        ensures ok { OnOk result (self.new ≡ self.old ++ bot ∷ []) }
        ensures err { OnErr result (self.new ≡ self.old) }
    {
        self.bots.push(bot)?;
        Ok(())
    }

    /// Without those of a name. Where there is none, nothing changes.
    pub fn remove(&mut self, name: &WordBuf)
        ensures { self.new ≡ filter (λ b. not (same_name name.now b.name)) self.old }
    {
        self.bots.retain(|b| !b.has_name(name));
    }

    /// Without those of an owner. Where it has none, nothing changes.
    pub fn remove_owned(&mut self, owner: &NameBuf)
        ensures { self.new ≡ filter (λ b. not (same_name owner.now b.owner)) self.old }
    {
        self.bots.retain(|b| !owner.cmp(b.owner()).is_eq());
    }

    /// A status and a colour for those of a name. Where there is none, nothing changes.
    pub fn put_status(&mut self, name: &WordBuf, status: S, colour: i64)
        ensures { self.new ≡ map (λ b. if same_name name.now b.name then room.bot_with (S.number status) colour b
            else b) self.old }
    {
        for bot in self.bots.iter_mut() {
            bot.put_status(name, status, colour);
        }
    }
}
