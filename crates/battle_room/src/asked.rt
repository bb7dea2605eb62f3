//! What members ask of a room, refused where they may not have it.
//!
//! The server runs none of this: its rules decide, and what they decide it does by the calls of `Room` that
//! check nothing. These calls are for a caller that has no rules of its own.

ghost use Rattle.std.specs.Prelude.{◌≡◌, ◌<◌, OnOk, OnErr, IfOk, IfSome, IfNone, IfErr, Err, false};
ghost use Rattle.std.specs.Result.{result_err};
ghost use Rattle.room_lists.specs.Room as room;
ghost use Rattle.room_lists.specs.Tags as tags;
ghost use Rattle.room_lists.specs.Units as units;
ghost use Rattle.battle_room.specs.Refusals.{status_refusal, founder_refusal, removal_refusal, new_bot_refusal};
ghost use Rattle.battle_room.specs.Refusals.{bot_refusal, request_refusal, tag_refusal, tags_refusal, unit_refusal};
ghost use Rattle.battle_room.specs.Refusals.{units_refusal};

use crate::error::RoomError;
use crate::room::{Bot, Room, may_change_bot};
use line_words::{NameBuf, Pair, PairList, SentenceBuf, WordBuf, WordList};
use room_lists::Rect;
use status_bits::BattleStatus;
use std::alloc::AllocError;

impl<M: Copy> Room<M> {
    /// Refuses one who is no member.
    fn check_member(&self, name: &NameBuf) -> Result<(), RoomError>
        ensures { result_err result ≡ status_refusal name.now self.now }
    {
        if self.has_member(name) {
            Ok(())
        } else {
            Err(RoomError::NotMember)
        }
    }

    /// Refuses one who is not the founder.
    fn check_founder(&self, by: &NameBuf) -> Result<(), RoomError>
        ensures { result_err result ≡ founder_refusal by.now self.now }
    {
        if !self.has_member(by) {
            Err(RoomError::NotMember)
        } else if self.is_founder(by) {
            Ok(())
        } else {
            Err(RoomError::NotAllowed)
        }
    }

    /// Refuses the removal of one who is no member, or of the founder.
    fn check_removal(&self, name: &NameBuf) -> Result<(), RoomError>
        ensures { result_err result ≡ removal_refusal name.now self.now }
    {
        if !self.has_member(name) {
            Err(RoomError::NotMember)
        } else if self.is_founder(name) {
            Err(RoomError::NotAllowed)
        } else {
            Ok(())
        }
    }

    /// Refuses a new bot whose owner is no member, whose name is taken, or that is one too many.
    fn check_new_bot(&self, owner: &NameBuf, name: &WordBuf) -> Result<(), RoomError>
        ensures { result_err result ≡ new_bot_refusal owner.now name.now self.now }
    {
        if !self.has_member(owner) {
            Err(RoomError::NotMember)
        } else if self.bot(name).is_some() {
            Err(RoomError::DuplicateBot)
        } else if self.is_full_of_bots() {
            Err(RoomError::TooManyBots)
        } else {
            Ok(())
        }
    }

    /// Refuses who is neither a bot's owner nor the founder.
    fn check_bot(&self, by: &NameBuf, name: &WordBuf) -> Result<(), RoomError>
        ensures { result_err result ≡ bot_refusal by.now name.now self.now }
    {
        if !self.has_member(by) {
            return Err(RoomError::NotMember);
        }
        match self.bot(name) {
            None => Err(RoomError::NoBot),
            Some(bot) => {
                if may_change_bot(by, self.is_founder(by), bot) {
                    Ok(())
                } else {
                    Err(RoomError::NotAllowed)
                }
            }
        }
    }

    /// The last of these tags of each key, refused where they are too many. That is told also where memory
    /// is refused.
    fn tags_to_set(&self, pairs: &[Pair]) -> Result<PairList, RoomError>
        ensures refused { IfSome (tag_refusal pairs.now self.now) (λ e. result ≡ Err e) }
        ensures allowed { IfNone (tag_refusal pairs.now self.now) (IfErr result (λ e. e ≡ RoomError.Memory)) }
        ensures alike { IfOk result (λ last. room.set_tags last self.now ≡ room.set_tags pairs.now self.now) }
    {
        match self.last_pairs(pairs) {
            Ok(Some(last)) => Ok(last),
            Err(AllocError) if self.has_room_for(pairs) => Err(RoomError::Memory),
            Ok(None) | Err(AllocError) => Err(RoomError::TooManyTags),
        }
    }

    /// Those of these units that are not disabled, each once, refused where they are too many. That is told
    /// also where memory is refused.
    fn units_to_disable(&self, words: &[WordBuf]) -> Result<WordList, RoomError>
        ensures refused { IfSome (unit_refusal words.now self.now) (λ e. result ≡ Err e) }
        ensures allowed { IfNone (unit_refusal words.now self.now) (IfErr result (λ e. e ≡ RoomError.Memory)) }
        ensures new { IfOk result (λ new. new ≡ units.words_new self.now.units words.now) }
    {
        match self.units_new(words) {
            Ok(Some(new)) => Ok(new),
            Err(AllocError) if self.has_room_for_units(words) => Err(RoomError::Memory),
            Ok(None) | Err(AllocError) => Err(RoomError::TooManyUnits),
        }
    }

    /// Not run by the server, which uses `drop_member`: a member goes, with all its bots.
    ///
    /// `NotMember` where it is none, `NotAllowed` where it is the founder.
    pub fn remove_member(&mut self, name: &NameBuf) -> Result<(), RoomError>
        ensures refused { result_err result ≡ removal_refusal name.now self.old }
        ensures ok { OnOk result (self.new ≡ room.without_member name.now self.old) }
        ensures err { OnErr result (self.new ≡ self.old) }
    {
        self.check_removal(name)?;
        self.drop_member(name);
        Ok(())
    }

    /// Not run by the server, which uses `put_status`: a member shows a status and a colour.
    /// `NotMember` where it is none.
    pub fn set_status(
        &mut self,
        name: &NameBuf,
        status: BattleStatus,
        colour: i64,
    ) -> Result<(), RoomError>
        ensures refused { result_err result ≡ status_refusal name.now self.old }
        ensures ok { OnOk result (self.new ≡ room.with_status name.now status colour self.old) }
        ensures err { OnErr result (self.new ≡ self.old) }
    {
        self.check_member(name)?;
        self.put_status(name, status, colour);
        Ok(())
    }

    /// Not run by the server, which uses `put_bot`: a member adds a bot.
    ///
    /// `NotMember` where the owner is none, `DuplicateBot` where the name is taken, `TooManyBots`
    /// where there are 64, and then `Memory`.
    pub fn add_bot(
        &mut self,
        owner: NameBuf,
        name: WordBuf,
        status: BattleStatus,
        colour: i64,
        ai: SentenceBuf,
    ) -> Result<(), RoomError>
        ensures refused { IfSome (new_bot_refusal owner name self.old) (λ e. result ≡ Err e) }
        ensures allowed { IfNone (new_bot_refusal owner name self.old) (IfErr result (λ e. e ≡ RoomError.Memory)) }
        ensures ok { OnOk result (self.new
            ≡ room.with_bot (record { name = name; owner = owner; status = status; colour = colour; ai = ai })
            self.old) }
        ensures err { OnErr result (self.new ≡ self.old) }
    {
        self.check_new_bot(&owner, &name)?;
        self.put_bot(Bot::new(owner, name, status, colour, ai))?;
        Ok(())
    }

    /// Not run by the server, which uses `put_bot_status`: a bot shows a status and a colour.
    ///
    /// `NotMember` where who asks is none, `NoBot` where there is no bot of the name, `NotAllowed`
    /// where who asks is neither its owner nor the founder.
    pub fn update_bot(
        &mut self,
        by: &NameBuf,
        name: &WordBuf,
        status: BattleStatus,
        colour: i64,
    ) -> Result<(), RoomError>
        ensures refused { result_err result ≡ bot_refusal by.now name.now self.old }
        ensures ok { OnOk result (self.new ≡ room.with_bot_status name.now status colour self.old) }
        ensures err { OnErr result (self.new ≡ self.old) }
    {
        self.check_bot(by, name)?;
        self.put_bot_status(name, status, colour);
        Ok(())
    }

    /// Not run by the server, which uses `drop_bot`: a bot goes. It is refused as `update_bot` is.
    pub fn remove_bot(&mut self, by: &NameBuf, name: &WordBuf) -> Result<(), RoomError>
        ensures refused { result_err result ≡ bot_refusal by.now name.now self.old }
        ensures ok { OnOk result (self.new ≡ room.without_bot name.now self.old) }
        ensures err { OnErr result (self.new ≡ self.old) }
    {
        self.check_bot(by, name)?;
        self.drop_bot(name);
        Ok(())
    }

    /// Not run by the server, which uses `put_rect`: the founder sets the start rectangle of an ally
    /// number, 0 to 15.
    ///
    /// `NotMember` where who asks is none, `NotAllowed` where it is not the founder.
    pub fn set_rect(&mut self, by: &NameBuf, ally: u8, rect: Rect) -> Result<(), RoomError>
        requires { ally < 16 }
        ensures refused { result_err result ≡ founder_refusal by.now self.old }
        ensures ok { OnOk result (self.new ≡ room.with_rect ally rect self.old) }
        ensures err { OnErr result (self.new ≡ self.old) }
    {
        self.check_founder(by)?;
        self.put_rect(ally, rect);
        Ok(())
    }

    /// Not run by the server, which uses `drop_rect`: the founder removes the start rectangle of an ally
    /// number, 0 to 15, if it has one. It is refused as `set_rect` is.
    pub fn remove_rect(&mut self, by: &NameBuf, ally: u8) -> Result<(), RoomError>
        requires { ally < 16 }
        ensures refused { result_err result ≡ founder_refusal by.now self.old }
        ensures ok { OnOk result (self.new ≡ room.without_rect ally self.old) }
        ensures err { OnErr result (self.new ≡ self.old) }
    {
        self.check_founder(by)?;
        self.drop_rect(ally);
        Ok(())
    }

    /// Not run by the server, which uses `put_tags`: the founder sets tags, and a key that is set keeps its
    /// place.
    ///
    /// `NotMember` where who asks is none, `NotAllowed` where it is not the founder, `TooManyTags`
    /// where there would be more than 512, and then `Memory`.
    #[tactic(auto, using(crate::proofs::Founding::other_refused, crate::proofs::Founding::founder_is_heard))]
    pub fn set_tags(&mut self, by: &NameBuf, pairs: PairList) -> Result<(), RoomError>
        ensures refused { IfSome (tags_refusal by.now pairs self.old) (λ e. result ≡ Err e) }
        ensures allowed { IfNone (tags_refusal by.now pairs self.old) (IfErr result (λ e. e ≡ RoomError.Memory)) }
        ensures ok { OnOk result (self.new ≡ room.set_tags pairs self.old) }
        ensures err { OnErr result (self.new ≡ self.old) }
    {
        self.check_founder(by)?;
        let last = self.tags_to_set(pairs.as_slice())?;
        self.put_tags(last)?;
        Ok(())
    }

    /// Not run by the server, which uses `keys_there` and `drop_tags`: the founder removes tags. Gives the
    /// keys that were set, each once, in the order of the list.
    ///
    /// `NotMember` where who asks is none, `NotAllowed` where it is not the founder, and then
    /// `Memory`.
    pub fn remove_tags(&mut self, by: &NameBuf, keys: &[WordBuf]) -> Result<WordList, RoomError>
        ensures refused { IfSome (founder_refusal by.now self.old) (λ e. result ≡ Err e) }
        ensures allowed { IfNone (founder_refusal by.now self.old) (IfErr result (λ e. e ≡ RoomError.Memory)) }
        ensures there { IfOk result (λ there. there ≡ tags.keys_there self.old.tags keys.now) }
        ensures ok { OnOk result (self.new ≡ room.remove_tags keys.now self.old) }
        ensures err { OnErr result (self.new ≡ self.old) }
    {
        self.check_founder(by)?;
        let there = self.keys_there(keys)?;
        self.drop_tags(keys);
        Ok(there)
    }

    /// Not run by the server, which uses `units_new` and `put_units`: the founder disables units, and one
    /// that is disabled keeps its place. Gives those that were not, each once, in the order of the list.
    ///
    /// `NotMember` where who asks is none, `NotAllowed` where it is not the founder, `TooManyUnits`
    /// where there would be more than 1,024, and then `Memory`.
    #[tactic(auto, using(crate::proofs::Founding::other_refused, crate::proofs::Founding::founder_is_heard))]
    pub fn disable_units(&mut self, by: &NameBuf, words: WordList) -> Result<WordList, RoomError>
        ensures refused { IfSome (units_refusal by.now words self.old) (λ e. result ≡ Err e) }
        ensures allowed { IfNone (units_refusal by.now words self.old) (IfErr result (λ e. e ≡ RoomError.Memory)) }
        ensures new { IfOk result (λ new. new ≡ units.words_new self.old.units words) }
        ensures ok { OnOk result (self.new ≡ room.disable_units words self.old) }
        ensures err { OnErr result (self.new ≡ self.old) }
    {
        self.check_founder(by)?;
        let new = self.units_to_disable(words.as_slice())?;
        self.put_units(words)?;
        Ok(new)
    }

    /// Not run by the server, which uses `units_there` and `drop_units`: the founder enables units again.
    /// Gives those that were disabled, each once, in the order of the list.
    ///
    /// `NotMember` where who asks is none, `NotAllowed` where it is not the founder, and then
    /// `Memory`.
    pub fn enable_units(&mut self, by: &NameBuf, words: &[WordBuf]) -> Result<WordList, RoomError>
        ensures refused { IfSome (founder_refusal by.now self.old) (λ e. result ≡ Err e) }
        ensures allowed { IfNone (founder_refusal by.now self.old) (IfErr result (λ e. e ≡ RoomError.Memory)) }
        ensures there { IfOk result (λ there. there ≡ units.words_there self.old.units words.now) }
        ensures ok { OnOk result (self.new ≡ room.enable_units words.now self.old) }
        ensures err { OnErr result (self.new ≡ self.old) }
    {
        self.check_founder(by)?;
        let there = self.units_there(words)?;
        self.drop_units(words);
        Ok(there)
    }

    /// Not run by the server, which uses `clear_units`: the founder enables all units. It takes no memory,
    /// and is refused as `set_rect` is.
    pub fn enable_all(&mut self, by: &NameBuf) -> Result<(), RoomError>
        ensures refused { result_err result ≡ founder_refusal by.now self.old }
        ensures ok { OnOk result (self.new ≡ room.enable_all self.old) }
        ensures err { OnErr result (self.new ≡ self.old) }
    {
        self.check_founder(by)?;
        self.clear_units();
        Ok(())
    }

    /// Not run by the server, which uses `put_asker`: one who is neither a member nor asks asks to join,
    /// behind the others. `Memory` where memory is refused; then nothing changes.
    pub fn ask(&mut self, name: NameBuf, script_password: Option<WordBuf>) -> Result<(), RoomError>
        requires member { room.has_member name self.old ≡ false }
        requires asker { room.has_asker name self.old ≡ false }
        ensures memory { IfErr result (λ e. e ≡ RoomError.Memory) }
        ensures ok { OnOk result (self.new ≡ room.with_asker name script_password self.old) }
        ensures err { OnErr result (self.new ≡ self.old) }
    {
        self.put_asker(name, script_password)?;
        Ok(())
    }

    /// Not run by the server, which uses `asker` and `drop_asker`: one who asks to join asks no more. Gives
    /// the script password with which it asked, if it gave one. It takes no memory. `NoRequest` where nobody
    /// of the name asks.
    pub fn take_ask(&mut self, name: &NameBuf) -> Result<Option<WordBuf>, RoomError>
        ensures refused { result_err result ≡ request_refusal name.now self.old }
        ensures given { IfSome (room.asker_of name.now self.old) (λ asker.
            IfOk result (λ password. password ≡ asker.script_password)) }
        ensures ok { OnOk result (self.new ≡ room.without_asker name.now self.old) }
        ensures err { OnErr result (self.new ≡ self.old) }
    {
        match self.remove_asker(name) {
            Some(asker) => Ok(asker.into_script_password()),
            None => Err(RoomError::NoRequest),
        }
    }
}
