//! What carries a client's bytes.

/// What a read gave.
#[derive(Clone, Copy, PartialEq, Eq, Debug)]
pub enum Got {
    /// So many bytes, at the front of the slice.
    Bytes(usize),
    /// Nothing now.
    Later,
    /// Nothing more, ever.
    End,
    /// The device failed.
    Fault,
}

/// What a write did.
#[derive(Clone, Copy, PartialEq, Eq, Debug)]
pub enum Sent {
    /// It took so many bytes from the front of the slice.
    Took(usize),
    /// It takes nothing now.
    Later,
    /// The device failed.
    Fault,
}

/// What carries a client's bytes, as a socket that never waits. It counts its reads, its writes and
/// the failures of its device, knows its last answers, and may tell proofs all bytes that it moved.
pub trait Link {
    ghost use Rattle.std.specs.Prelude.{◌≡◌, ◌≢◌, ◌+◌, ◌≤◌, ◌<◌, [], length, take, Some, Option, true};
    ghost use Rattle.lobby_holds.specs.Wire.{Wire, MayGoOn, IsFresh, got_count, sent_count, and_more};
    ghost use Rattle.lobby_holds.specs.declared.link.Got.{Got};
    ghost use Rattle.lobby_holds.specs.declared.link.Sent.{Sent};

    ghost wire: { Self → Wire };

    /// Reads up to as many bytes as the slice has, which has some: so nothing that comes of it can be taken for an end.
    fn read(&mut self, into: &mut [u8]) -> Got
        requires may { MayGoOn (wire self.old) }
        requires some { into.old ≢ [] }
        ensures within { got_count result ≤ length into.old }
        ensures read { (wire self.new).read ≡ and_more (wire self.old).read (take (got_count result) into.new) }
        ensures written { (wire self.new).written ≡ (wire self.old).written }
        ensures reads { (wire self.new).reads ≡ (wire self.old).reads + 1 }
        ensures writes { (wire self.new).writes ≡ (wire self.old).writes }
        ensures failures { ((wire self.old).failures ≤ (wire self.new).failures)
            × ((wire self.new).failures ≤ (wire self.old).failures + 1) }
        ensures failed { result ≡ Got.Fault → (wire self.old).failures < (wire self.new).failures }
        ensures last_got { (wire self.new).last_got ≡ Some result }
        ensures last_sent { (wire self.new).last_sent ≡ (wire self.old).last_sent };

    /// Writes bytes from the front of the slice, which has some, as many as it can now.
    fn write(&mut self, from: &[u8]) -> Sent
        requires may { MayGoOn (wire self.old) }
        requires some { from.now ≢ [] }
        ensures within { sent_count result ≤ length from.now }
        ensures written { (wire self.new).written
            ≡ and_more (wire self.old).written (take (sent_count result) from.now) }
        ensures read { (wire self.new).read ≡ (wire self.old).read }
        ensures writes { (wire self.new).writes ≡ (wire self.old).writes + 1 }
        ensures reads { (wire self.new).reads ≡ (wire self.old).reads }
        ensures failures { ((wire self.old).failures ≤ (wire self.new).failures)
            × ((wire self.new).failures ≤ (wire self.old).failures + 1) }
        ensures failed { result ≡ Sent.Fault → (wire self.old).failures < (wire self.new).failures }
        ensures last_sent { (wire self.new).last_sent ≡ Some result }
        ensures last_got { (wire self.new).last_got ≡ (wire self.old).last_got };

    /// Whether the next read will likely give nothing, and costs nothing. It is a hint, and no promise.
    fn is_likely_empty(&self) -> bool {
        false
    }

    /// What the last read gave, if there was one.
    fn last_got(&self) -> Option<Got>
        ensures { result ≡ (wire self.now).last_got };

    /// What the last write did, if there was one.
    fn last_sent(&self) -> Option<Sent>
        ensures { result ≡ (wire self.now).last_sent };

    /// Whether each count still has place for a turn. They are numbers of 64 bits, so this fails
    /// only after more turns than a link can live to see.
    fn fresh(&self) -> bool
        ensures fresh { result ≡ true → IsFresh (wire self.now) }
        ensures worn { IsFresh (wire self.now) → result ≡ true };
}
