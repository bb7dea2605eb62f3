//! A room: what the members of a battle share.

ghost use Rattle.std.specs.Prelude.{◌≡◌, ◌<◌, ◌||◌, not, [], OnOk, OnErr, IfOk, IfErr, IfSome, is_some, option_copied};
ghost use Rattle.std.specs.Prelude.{false};
ghost use Rattle.std.specs.List.{IsDistinct};
ghost use Rattle.line_words.specs.Table.{same_name, at_number};
ghost use Rattle.room_lists.specs.Room as room;
ghost use Rattle.room_lists.specs.Tags as tags;
ghost use Rattle.room_lists.specs.Units as units;
ghost use Rattle.battle_room.specs.Places.{numbered};
ghost use Rattle.battle_room.specs.Refusals.{is_first_member};

use crate::askers::{Asker, Askers};
use crate::error::RoomError;
use crate::members::{Member, Members};
use crate::rects::{ALLY_COUNT, Rects};
use line_words::{NameBuf, Pair, PairList, WordBuf, WordList};
use room_lists::{Bots, HashSeed, Rect, Tags, Units};
use status_bits::BattleStatus;
use std::alloc::{AllocError, Global};
use std::marker::Model;

/// A bot of a room.
pub type Bot = room_lists::Bot<BattleStatus>;

/// Whether one may change a bot, or remove it: its owner may, and the founder.
pub fn may_change_bot(name: &NameBuf, is_founder: bool, bot: &Bot) -> bool
    ensures { result ≡ (same_name name.now bot.now.owner || is_founder) }
{
    name.cmp(bot.owner()).is_eq() || is_founder
}

/// What the members of a battle share: who they are in order of joining, the founder first, bots,
/// start rectangles, script tags and disabled units; and who asks to join, in order of asking.
///
/// Beside each member the room keeps a key, a value of the caller's own. The room does not read it, and
/// its contracts say nothing of it. A room whose callers have no use for keys keeps none: `M` is `()`.
#[derive(Drop)]
pub struct Room<M: Copy = ()> {
    alloc: Global,
    members: Members<M>,
    rest: Box<Rest>,
}

/// What lies apart: a login is told of every battle and reads none of this.
#[derive(Drop)]
struct Rest {
    bots: Bots<BattleStatus>,
    rects: Rects,
    tags: Tags,
    units: Units,
    askers: Askers,
}

impl<M: Copy> Model for Room<M> {
    ghost use Rattle.room_lists.specs.Room as room;

    ghost Value = { room.Room };

    ghost view = { λ r. record {
      members = r.members;
      bots = r.rest.value.bots;
      rects = r.rest.value.rects;
      tags =
          r.rest.value.tags;
      units = r.rest.value.units;
      askers = r.rest.value.askers;
    } };
}

impl Room {
    /// Not run by the server, which uses `with_key`: a room with its founder alone, and all its lists
    /// empty. `Memory` where memory is refused.
    pub fn new(alloc: Global, founder: NameBuf) -> Result<Room, RoomError>
        ensures ok { IfOk result (λ r. r ≡ room.new_room founder) }
        ensures memory { IfErr result (λ e. e ≡ RoomError.Memory) }
    {
        let seed = HashSeed::known();
        Ok(Room::with_key(alloc, founder, (), seed)?)
    }

    /// Not run by the server, which uses `add_keyed`: one who is no member joins, behind the others.
    /// `Memory` where memory is refused; then nothing changes.
    pub fn add_member(&mut self, name: NameBuf) -> Result<(), RoomError>
        requires { room.has_member name self.old ≡ false }
        ensures memory { IfErr result (λ e. e ≡ RoomError.Memory) }
        ensures ok { OnOk result (self.new ≡ room.with_member name self.old) }
        ensures err { OnErr result (self.new ≡ self.old) }
    {
        self.add_keyed(name, ())?;
        Ok(())
    }

    /// Not run by the server, which uses `let_in_keyed`: one who is no member, and may ask to join, asks
    /// no more and joins, behind the others. `Memory` where memory is refused; then nothing changes.
    pub fn let_in(&mut self, name: &NameBuf) -> Result<(), RoomError>
        requires { room.has_member name.now self.old ≡ false }
        ensures memory { IfErr result (λ e. e ≡ RoomError.Memory) }
        ensures ok { OnOk result (self.new ≡ room.with_member name.now (room.without_asker name.now self.old)) }
        ensures err { OnErr result (self.new ≡ self.old) }
    {
        self.let_in_keyed(name, ())?;
        Ok(())
    }
}

impl<M: Copy> Room<M> {
    /// A room with its founder alone, who has this key, and all its lists empty. The keys of its tags and its units
    /// are hashed by this seed. Fails only where memory is refused.
    pub fn with_key(
        alloc: Global,
        founder: NameBuf,
        key: M,
        seed: HashSeed,
    ) -> Result<Room<M>, AllocError>
        ensures { IfOk result (λ r. r ≡ room.new_room founder) }
    {
        let members = Members::one(alloc, founder, key)?;
        let rest = Rest {
            bots: Bots::new(alloc),
            rects: Rects::new(),
            tags: Tags::new(alloc, seed),
            units: Units::new(alloc, seed),
            askers: Askers::new(alloc),
        };
        match Box::new(alloc, rest) {
            Ok(rest) => Ok(Room {
                alloc,
                members,
                rest,
            }),
            Err(failed) => {
                drop(failed);
                Err(AllocError)
            }
        }
    }

    /// The members in order of joining, none of them twice.
    pub fn members(&self) -> &[Member<M>]
        ensures members { result.now ≡ self.now.members }
        ensures distinct { IsDistinct same_name (room.member_names self.now) }
    {
        self.members.as_slice()
    }

    /// The names of the members, in order of joining. Who wants no more of them reads three eighths of the memory that
    /// `members` takes.
    pub fn names(&self) -> &[NameBuf]
        ensures { result.now ≡ room.member_names self.now }
    {
        self.members.names()
    }

    /// The bots in order of adding.
    pub fn bots(&self) -> &[Bot]
        ensures { result.now ≡ self.now.bots }
    {
        self.rest.bots.as_slice()
    }

    /// Not run by the server, which uses `rects`: the start rectangle of an ally number, 0 to 15, if it
    /// has one.
    pub fn rect_at(&self, ally: u8) -> Option<Rect>
        requires { ally < 16 }
        ensures { result ≡ at_number self.now.rects ally }
    {
        self.rest.rects.at(ally)
    }

    /// The start rectangles of the ally numbers 0 to 15, in their order; None for one that has none.
    pub fn rects(&self) -> &[Option<Rect>; ALLY_COUNT]
        ensures { self.now.rects ≡ numbered 0 result.now }
    {
        self.rest.rects.places()
    }

    /// The script tags in order of first setting.
    pub fn tags(&self) -> &[Pair]
        ensures { result.now ≡ self.now.tags }
    {
        self.rest.tags.as_slice()
    }

    /// The disabled units in order of first disabling.
    pub fn units(&self) -> &[WordBuf]
        ensures { result.now ≡ self.now.units }
    {
        self.rest.units.as_slice()
    }

    /// Those who ask to join, in order of asking, none of them twice.
    pub fn askers(&self) -> &[Asker]
        ensures askers { result.now ≡ self.now.askers }
        ensures distinct { IsDistinct same_name (room.asker_names self.now) }
    {
        self.rest.askers.as_slice()
    }

    /// Whether one of this name asks to join.
    pub fn has_asker(&self, name: &NameBuf) -> bool
        ensures { result ≡ room.has_asker name.now self.now }
    {
        self.rest.askers.has(name)
    }

    /// The one of a name who asks to join; None where nobody of it does.
    pub fn asker(&self, name: &NameBuf) -> Option<&Asker>
        ensures { option_copied result ≡ room.asker_of name.now self.now }
    {
        self.rest.askers.asker(name)
    }

    /// Whether one of this name is a member.
    pub fn has_member(&self, name: &NameBuf) -> bool
        ensures { result ≡ room.has_member name.now self.now }
    {
        self.members.has(name)
    }

    /// The member of a name; None where there is none.
    pub fn member(&self, name: &NameBuf) -> Option<&Member<M>>
        ensures { option_copied result ≡ room.member_of name.now self.now }
    {
        self.members.member(name)
    }

    /// The first bot of a name; None where there is none.
    pub fn bot(&self, name: &WordBuf) -> Option<&Bot>
        ensures { option_copied result ≡ room.bot_of name.now self.now }
    {
        self.rest.bots.bot(name)
    }

    /// Not run by the server, which keeps each battle's founder beside its room: whether the first member
    /// has this name.
    pub fn is_founder(&self, name: &NameBuf) -> bool
        ensures { result ≡ is_first_member name.now self.now }
    {
        self.members.is_first(name)
    }

    /// Whether there are 64 bots (`BOT_LIMIT`) or more.
    pub fn is_full_of_bots(&self) -> bool
        ensures { result ≡ room.is_full_of_bots self.now }
    {
        self.rest.bots.is_full()
    }

    /// Whether there would be at most 512 tags (`TAG_LIMIT`), if these were set.
    pub fn has_room_for(&self, pairs: &[Pair]) -> bool
        ensures { result ≡ not (room.has_too_many_tags (tags.with_tags self.now.tags pairs.now)) }
    {
        self.rest.tags.has_room_for(pairs)
    }

    /// The last of these pairs of each key, in the order of their first ones; None where there would be more
    /// than 512 tags (`TAG_LIMIT`), if these were set. That the last alone are set comes to the same. Fails
    /// only where memory is refused.
    pub fn last_pairs(&self, pairs: &[Pair]) -> Result<Option<PairList>, AllocError>
        ensures last { IfOk result (λ last. IfSome last (λ last. last ≡ tags.with_tags [] pairs.now)) }
        ensures alike { IfOk result (λ last.
            IfSome last (λ last. room.set_tags last self.now ≡ room.set_tags pairs.now self.now)) }
        ensures room { IfOk result (λ last.
            is_some last ≡ not (room.has_too_many_tags (tags.with_tags self.now.tags pairs.now))) }
    {
        self.rest.tags.last_pairs(self.alloc, pairs)
    }

    /// Those of the keys that are set, each once, in the order of the list of keys. That they go alone
    /// comes to the same. Fails only where memory is refused.
    pub fn keys_there(&self, keys: &[WordBuf]) -> Result<WordList, AllocError>
        ensures there { IfOk result (λ there. there ≡ tags.keys_there self.now.tags keys.now) }
        ensures alike { IfOk result (λ there. room.remove_tags there self.now ≡ room.remove_tags keys.now self.now) }
    {
        self.rest.tags.keys_there(self.alloc, keys)
    }

    /// Whether there would be at most 1,024 disabled units (`UNIT_LIMIT`), if these were disabled.
    pub fn has_room_for_units(&self, words: &[WordBuf]) -> bool
        ensures { result ≡ not (room.has_too_many_units (units.with_units self.now.units words.now)) }
    {
        self.rest.units.has_room_for(words)
    }

    /// Those of the words that are no disabled units, each once, in the order of the list of words; None
    /// where there would be more than 1,024 units (`UNIT_LIMIT`), if these were disabled. That they alone are
    /// disabled comes to the same. Fails only where memory is refused.
    pub fn units_new(&self, words: &[WordBuf]) -> Result<Option<WordList>, AllocError>
        ensures new { IfOk result (λ new. IfSome new (λ new. new ≡ units.words_new self.now.units words.now)) }
        ensures alike { IfOk result (λ new.
            IfSome new (λ new. room.disable_units new self.now ≡ room.disable_units words.now self.now)) }
        ensures room { IfOk result (λ new.
            is_some new ≡ not (room.has_too_many_units (units.with_units self.now.units words.now))) }
    {
        self.rest.units.words_new(self.alloc, words)
    }

    /// Those of the words that are disabled units, each once, in the order of the list of words. That they
    /// alone are enabled comes to the same. Fails only where memory is refused.
    pub fn units_there(&self, words: &[WordBuf]) -> Result<WordList, AllocError>
        ensures there { IfOk result (λ there. there ≡ units.words_there self.now.units words.now) }
        ensures alike { IfOk result (λ there. room.enable_units there self.now ≡ room.enable_units words.now self.now) }
    {
        self.rest.units.words_there(self.alloc, words)
    }

    /// One who is no member joins under a key, behind the others. Where memory is refused, nothing
    /// changes.
    pub fn add_keyed(&mut self, name: NameBuf, key: M) -> Result<(), AllocError>
        requires { room.has_member name self.old ≡ false }
        ensures ok { OnOk result (self.new ≡ room.with_member name self.old) }
        ensures err { OnErr result (self.new ≡ self.old) }
    {
        self.members.add(name, key)
    }

    /// A member goes, with all its bots. Where there is none of the name, only bots with that owner go.
    pub fn drop_member(&mut self, name: &NameBuf)
        ensures { self.new ≡ room.without_member name.now self.old }
    {
        self.members.remove(name);
        self.rest.bots.remove_owned(name);
    }

    /// A status and a colour for a member. Where there is none of the name, nothing changes.
    pub fn put_status(&mut self, name: &NameBuf, status: BattleStatus, colour: i64)
        ensures { self.new ≡ room.with_status name.now status colour self.old }
    {
        self.members.put_status(name, status, colour);
    }

    /// One bot more, behind the others, also where its name is taken or there are 64. Where memory is
    /// refused, nothing changes.
    pub fn put_bot(&mut self, bot: Bot) -> Result<(), AllocError>
        ensures ok { OnOk result (self.new ≡ room.with_bot bot self.old) }
        ensures err { OnErr result (self.new ≡ self.old) }
    {
        self.rest.bots.add(bot)
    }

    /// A status and a colour for a bot. Where there is none of the name, nothing changes.
    pub fn put_bot_status(&mut self, name: &WordBuf, status: BattleStatus, colour: i64)
        ensures { self.new ≡ room.with_bot_status name.now status colour self.old }
    {
        self.rest.bots.put_status(name, status, colour);
    }

    /// A bot goes. Where there is none of the name, nothing changes.
    pub fn drop_bot(&mut self, name: &WordBuf)
        ensures { self.new ≡ room.without_bot name.now self.old }
    {
        self.rest.bots.remove(name);
    }

    /// A start rectangle for an ally number, 0 to 15, in the place of an earlier one.
    pub fn put_rect(&mut self, ally: u8, rect: Rect)
        requires { ally < 16 }
        ensures { self.new ≡ room.with_rect ally rect self.old }
    {
        self.rest.rects.put(ally, rect);
    }

    /// No start rectangle any more for an ally number, 0 to 15. Where it has none, nothing changes.
    pub fn drop_rect(&mut self, ally: u8)
        requires { ally < 16 }
        ensures { self.new ≡ room.without_rect ally self.old }
    {
        self.rest.rects.remove(ally);
    }

    /// Sets tags, however many there are then: a key that is set keeps its place, another comes last, and of
    /// two pairs of one key the later wins. Where memory is refused, nothing changes.
    pub fn put_tags(&mut self, pairs: PairList) -> Result<(), AllocError>
        ensures ok { OnOk result (self.new ≡ room.set_tags pairs self.old) }
        ensures err { OnErr result (self.new ≡ self.old) }
    {
        self.rest.tags.put(self.alloc, pairs)
    }

    /// Tags of these keys go. Keys that are not set change nothing.
    pub fn drop_tags(&mut self, keys: &[WordBuf])
        ensures { self.new ≡ room.remove_tags keys.now self.old }
    {
        self.rest.tags.remove(keys);
    }

    /// Units are disabled, however many there are then: one that is keeps its place, another comes last.
    /// Where memory is refused, nothing changes.
    pub fn put_units(&mut self, words: WordList) -> Result<(), AllocError>
        ensures ok { OnOk result (self.new ≡ room.disable_units words self.old) }
        ensures err { OnErr result (self.new ≡ self.old) }
    {
        self.rest.units.put(self.alloc, words)
    }

    /// Units are enabled again. Words that are no disabled units change nothing.
    pub fn drop_units(&mut self, words: &[WordBuf])
        ensures { self.new ≡ room.enable_units words.now self.old }
    {
        self.rest.units.remove(words);
    }

    /// No unit is disabled any more.
    pub fn clear_units(&mut self)
        ensures { self.new ≡ room.enable_all self.old }
    {
        self.rest.units.clear();
    }

    /// One who is neither a member nor asks asks to join, behind the others. Where memory is refused,
    /// nothing changes.
    pub fn put_asker(
        &mut self,
        name: NameBuf,
        script_password: Option<WordBuf>,
    ) -> Result<(), AllocError>
        requires member { room.has_member name self.old ≡ false }
        requires asker { room.has_asker name self.old ≡ false }
        ensures ok { OnOk result (self.new ≡ room.with_asker name script_password self.old) }
        ensures err { OnErr result (self.new ≡ self.old) }
    {
        self.rest.askers.add(name, script_password)
    }

    /// One who asks to join asks no more. Where nobody of the name asks, nothing changes.
    pub fn drop_asker(&mut self, name: &NameBuf)
        ensures { self.new ≡ room.without_asker name.now self.old }
    {
        drop(self.remove_asker(name));
    }

    /// One who asks to join asks no more, and is given; None, and no change, where nobody of the name asks.
    pub(crate) fn remove_asker(&mut self, name: &NameBuf) -> Option<Asker>
        ensures given { result ≡ room.asker_of name.now self.old }
        ensures rest { self.new ≡ room.without_asker name.now self.old }
    {
        self.rest.askers.remove(name)
    }

    /// One who is no member, and may ask to join, asks no more and joins under a key, behind the others.
    /// Where memory is refused, nothing changes.
    pub fn let_in_keyed(&mut self, name: &NameBuf, key: M) -> Result<(), AllocError>
        requires { room.has_member name.now self.old ≡ false }
        ensures ok { OnOk result (self.new ≡ room.with_member name.now (room.without_asker name.now self.old)) }
        ensures err { OnErr result (self.new ≡ self.old) }
    {
        self.members.add(name.copy(), key)?;
        self.drop_asker(name);
        Ok(())
    }
}
